//! One size, subproblem by subproblem in order. The first with a chain ends the search; if none has one, there is a
//! log for each, in the same order; by `strong-fence` the search of the size ends with the first that is left open. A
//! chain of few steps over few inputs is found by enumeration (`step_core`), in
//! less time than it takes to write the formula of its size.
ghost use Rattle.std.specs.Prelude.{◌≤◌, IfOk, IfSome};
ghost use Rattle.cert_theory.specs.Certificate.{IsHeader, IsFound};
ghost use Rattle.cert_theory.specs.Coding.{coding_of};
ghost use Rattle.size_loop.specs.Outcomes.{IsSized, IsKnown};
ghost use Rattle.size_loop.specs.Coded.{IsCodedBy};

use crate::trying::{SubproblemOutcome, try_subproblem};
use cert_theory::{Header, Section, stops_after};
use chain_core::Chain;
use enc_base::Encoding;
use enc_fence::FenceEnc;
use enc_select::Select;
use enc_ssv::{Plain, Ssv};
use enc_strong::{Strong, StrongFence};
use progress::{Progress, Silent, Tell};
use sat_solve::Solver;
use settings::Method;
use std::alloc::{AllocError, Global};
use step_core::least_chain;

/// The most inputs of tables whose chains are enumerated.
pub(crate) const MOST_ENUMERATED_INPUTS: u32 = 4;
/// The most steps that are enumerated.
pub(crate) const MOST_ENUMERATED_STEPS: u32 = 3;

/// The result of a size.
#[derive(Drop)]
pub enum SizeOutcome {
    /// A chain of the size.
    Found(Chain),
    /// The logs of its subproblems; none has a chain.
    Logged(Section),
}

/// A shortest chain, if it has at most `most` steps and the enumeration covers it.
#[tactic(auto, using(crate::specs::OutcomeLaws::knowing))]
pub(crate) fn enumerated(
    alloc: Global,
    header: &Header,
    most: u32,
) -> Result<Option<Chain>, AllocError>
    requires header { IsHeader header.now }
    requires most { most ≤ header.now.max }
    ensures { IfOk result (λ found. IsKnown header.now found) }
{
    if header.spec.n() > MOST_ENUMERATED_INPUTS {
        return Ok(None);
    }
    least_chain(
        alloc,
        &header.spec,
        header.basis,
        MOST_ENUMERATED_STEPS.min(most),
    )
}

/// A chain of `size` steps, if that is the least number and the enumeration covers it.
#[tactic(auto, using(crate::specs::OutcomeLaws::knowing))]
fn enumerated_chain(alloc: Global, header: &Header, size: u32) -> Result<Option<Chain>, AllocError>
    requires header { IsHeader header.now }
    requires size { size ≤ header.now.max }
    ensures { IfOk result (λ found. IfSome found (IsFound header.now size)) }
{
    if size > MOST_ENUMERATED_STEPS {
        return Ok(None);
    }
    match enumerated(alloc, header, size)? {
        Some(chain) if chain.steps().len() == size as usize => Ok(Some(chain)),
        _ => Ok(None),
    }
}

/// Searches `size`: by enumeration if it has few steps, else its subproblems in order with the solver `S`, by the
/// encoding of the header's method.
pub fn search_size<S: Solver>(
    alloc: Global,
    header: &Header,
    size: u32,
) -> Result<SizeOutcome, AllocError>
    requires header { IsHeader header.now }
    requires size { size ≤ header.now.max }
    ensures { IfOk result (λ outcome. IsSized header.now size outcome) }
{
    if let Some(chain) = enumerated_chain(alloc, header, size)? {
        return Ok(SizeOutcome::Found(chain));
    }
    search_formulas::<S, Silent>(alloc, header, size, &Silent)
}

/// Searches the subproblems of `size` in order with the solver `S`, by the encoding of the header's method. `tell`
/// hears of each.
#[tactic(auto, unfolding(cert_theory::specs::Coding::coding_of))]
pub(crate) fn search_formulas<S: Solver, T: Tell>(
    alloc: Global,
    header: &Header,
    size: u32,
    tell: &T,
) -> Result<SizeOutcome, AllocError>
    requires header { IsHeader header.now }
    requires size { size ≤ header.now.max }
    ensures { IfOk result (λ outcome. IsSized header.now size outcome) }
{
    match header.method {
        Method::Plain => search_subproblems::<S, _, T>(alloc, &Plain, header, size, tell),
        Method::Ssv => search_subproblems::<S, _, T>(alloc, &Ssv, header, size, tell),
        Method::Select => search_subproblems::<S, _, T>(alloc, &Select, header, size, tell),
        Method::Fence => search_subproblems::<S, _, T>(alloc, &FenceEnc, header, size, tell),
        Method::Strong => search_subproblems::<S, _, T>(alloc, &Strong, header, size, tell),
        Method::StrongFence => search_subproblems::<S, _, T>(
            alloc,
            &StrongFence,
            header,
            size,
            tell,
        ),
    }
}

/// Searches the subproblems of `size` by any encoding that writes the formulas of the header's method, up to the first
/// that is left open where the method says so.
#[tactic(auto, using(crate::proofs::Tried::trying))]
fn search_subproblems<S: Solver, E: Encoding, T: Tell>(
    alloc: Global,
    encoding: &E,
    header: &Header,
    size: u32,
    tell: &T,
) -> Result<SizeOutcome, AllocError>
    requires header { IsHeader header.now }
    requires coding { IsCodedBy (coding_of header.now.method) (E.subproblems_of encoding.now)
        (E.formula_of encoding.now) }
    requires size { size ≤ header.now.max }
    ensures { IfOk result (λ outcome. IsSized header.now size outcome) }
{
    let mut subproblems = Vec::new(alloc);
    let mut stopped = false;
    let listed = encoding.subproblems(alloc, &header.spec, size)?;
    let all = listed.len();
    for subproblem in listed {
        if !stopped {
            tell.tell(Progress::Subproblem {
                size,
                number: subproblems.len().saturating_add(1),
                all,
            });
            match try_subproblem::<S, E>(alloc, encoding, header, size, subproblem)? {
                SubproblemOutcome::Found(chain) => return Ok(SizeOutcome::Found(chain)),
                SubproblemOutcome::Logged(log) => {
                    tell.tell(Progress::Logged(log.log.len()));
                    stopped = stops_after(header.method, log.ended);
                    subproblems.push(log)?;
                }
            }
        }
    }
    Ok(SizeOutcome::Logged(Section { size, subproblems }))
}

//! One subproblem of a size, by its number.
ghost use Rattle.std.specs.Prelude.{◌≡◌, ◌≤◌, IfOk};
ghost use Rattle.settings.specs.Synth.{IsInRange};
ghost use Rattle.cert_theory.specs.Certificate.{IsHeader};
ghost use Rattle.cert_theory.specs.Coding.{coding_of};
ghost use Rattle.size_loop.specs.Coded.{IsCodedBy};
ghost use Rattle.synth_core.specs.SettingsHeader as headers;
ghost use Rattle.cmd_part.specs.PartReport.{IsPartIn};

use cert_theory::Header;
use enc_base::Encoding;
use enc_fence::FenceEnc;
use enc_select::Select;
use enc_ssv::{Plain, Ssv};
use enc_strong::{Strong, StrongFence};
use sat_solve::Solver;
use settings::{Method, SynthSettings};
use size_loop::{SubproblemOutcome, try_subproblem};
use std::alloc::{AllocError, Global};
use synth_core::method_of;
use tt_core::Spec;

/// The header of a certificate for these tables under these settings.
#[tactic(auto, using(crate::proofs::Numbered::trying))]
pub(crate) fn header_of(spec: Spec, settings: &SynthSettings) -> Header
    requires { IsInRange settings.now }
    ensures header { result ≡ headers.header_of spec settings.now }
    ensures is_header { IsHeader result }
{
    // for the prover: bring in the type invariants
    let _inputs = spec.n();
    let _operators = settings.basis.get();
    let method = method_of(settings, &spec);
    Header {
        spec,
        basis: settings.basis,
        method,
        conflicts: settings.conflicts,
        max: settings.max,
    }
}

/// Searches the subproblem of `size` before which this many others stand, by any encoding that writes the formulas of
/// the header's method; None if there is none.
#[tactic(auto, using(crate::proofs::Numbered::trying))]
fn try_numbered<S: Solver, E: Encoding>(
    alloc: Global,
    encoding: &E,
    header: &Header,
    size: u32,
    before: u32,
) -> Result<Option<SubproblemOutcome>, AllocError>
    requires header { IsHeader header.now }
    requires coding { IsCodedBy (coding_of header.now.method) (E.subproblems_of encoding.now)
        (E.formula_of encoding.now) }
    requires size { size ≤ header.now.max }
    ensures { IfOk result (λ found. IsPartIn header.now size before found) }
{
    let mut subproblems = encoding.subproblems(alloc, &header.spec, size)?;
    if before as usize >= subproblems.len() {
        return Ok(None);
    }
    let subproblem = subproblems.swap_remove(before as usize);
    let outcome = try_subproblem::<S, E>(alloc, encoding, header, size, subproblem)?;
    Ok(Some(outcome))
}

/// Searches the subproblem of `size` before which this many others stand with the solver `S`; None if there is none.
#[tactic(auto, unfolding(cert_theory::specs::Coding::coding_of))]
pub(crate) fn try_part<S: Solver>(
    alloc: Global,
    header: &Header,
    size: u32,
    before: u32,
) -> Result<Option<SubproblemOutcome>, AllocError>
    requires header { IsHeader header.now }
    requires size { size ≤ header.now.max }
    ensures { IfOk result (λ found. IsPartIn header.now size before found) }
{
    match header.method {
        Method::Plain => try_numbered::<S, _>(alloc, &Plain, header, size, before),
        Method::Ssv => try_numbered::<S, _>(alloc, &Ssv, header, size, before),
        Method::Select => try_numbered::<S, _>(alloc, &Select, header, size, before),
        Method::Fence => try_numbered::<S, _>(alloc, &FenceEnc, header, size, before),
        Method::Strong => try_numbered::<S, _>(alloc, &Strong, header, size, before),
        Method::StrongFence => try_numbered::<S, _>(alloc, &StrongFence, header, size, before),
    }
}

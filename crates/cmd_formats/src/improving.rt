//! The command `improve` for AIGER: an equivalent file with no more gates, in the form and the sections of
//! the given one.
ghost use Rattle.std.specs.Prelude.{◌≡◌, ◌≤◌, length, false, IfOk};
ghost use Rattle.net_theory.specs.Limits.{most_of_netlist};
ghost use Rattle.settings.specs.Improve.{IsInRange};
ghost use Rattle.equiv_run.specs.Two.{is_bare as is_bare_of};
ghost use Rattle.frame_core.specs.Views.{Judges};
ghost use Rattle.aiger_binary.specs.Ascii.{is_binary as is_binary_of};
ghost use Rattle.aiger_sections.specs.Plain.{plain_in, sections_in};
ghost use Rattle.cmd_formats.specs.AigerReport.{aiger_task, has_and_gates as has_and_gates_of, HasAndGates};

use aiger_binary::is_binary;
use aiger_pack::pack;
use aiger_sections::sectioned;
use cmd_improve::{empty, refusal_of, reply_of};
use equiv_run::is_bare;
use frame_core::{Replier, Reply, Stop};
use improve_aiger::{ImprovedText, improve_aiger};
use net_core::NetError;
use net_theory::MOST_OF_NETLIST;
use op_basis::Basis;
use progress::Tell;
use sat_solve::Solver;
use settings::ImproveSettings;
use std::alloc::{AllocError, Global};
use std::marker::PhantomData;

/// The operators of AND gates with complements, constants, copies and complements: all but XOR and its complement.
const AND_SET: u16 = 64_959;

/// Whether AIGER can express gates with each operator of a basis.
pub fn has_and_gates(basis: Basis) -> bool
    ensures { result ≡ has_and_gates_of basis }
{
    basis.get() & AND_SET == basis.get()
}

/// The answer in the sections and the form of the text that was read.
fn formed(alloc: Global, bytes: &[u8], improved: ImprovedText) -> Result<ImprovedText, AllocError>
    ensures text { IfOk result (λ i. plain_in i.text.items ≡ improved.text.items) }
    ensures sections { IfOk result (λ i. sections_in i.text.items ≡ sections_in bytes.now) }
    ensures form { IfOk result (λ i. is_binary_of bytes.now ≡ false → is_binary_of i.text.items ≡ false) }
    ensures report { IfOk result (λ i. i.report.items ≡ improved.report.items) }
{
    let ImprovedText { text, report } = improved;
    let placed = sectioned(alloc, bytes, &text)?;
    if !is_binary(bytes) {
        return Ok(ImprovedText {
            text: placed,
            report,
        });
    }
    let packed = pack(alloc, &placed)?;
    Ok(ImprovedText {
        text: packed,
        report,
    })
}

/// The reply to an AIGER text that isn't empty.
#[tactic(auto, using(crate::proofs::Improvements::improving))]
fn reply_to<S: Solver, T: Tell>(
    alloc: Global,
    bytes: &[u8],
    settings: &ImproveSettings,
    tell: &T,
) -> Result<Reply, Stop>
    requires length { length bytes.now ≤ most_of_netlist }
    requires said { is_bare_of bytes.now ≡ false }
    requires range { IsInRange settings.now }
    requires basis { HasAndGates settings.now.basis }
    ensures { Judges (aiger_task settings.now) bytes.now result }
{
    match improve_aiger::<S, T>(alloc, bytes, *settings, tell) {
        Ok(improved) => match formed(alloc, bytes, improved) {
            Ok(answer) => Ok(reply_of(answer)),
            Err(AllocError) => Err(Stop::NoMemory),
        },
        Err(NetError::Memory) => Err(Stop::NoMemory),
        Err(error) => Err(Stop::NoAnswer(refusal_of(error))),
    }
}

/// The command: an equivalent AIGER file with no more gates, and a report. Windows are searched with the solver `S`. An
/// empty text isn't a netlist: it is what a command that failed leaves behind.
#[derive(Drop)]
pub struct ImproveAiger<'a, S, T> {
    /// The settings of the passes over the netlist.
    pub settings: ImproveSettings,
    /// The solver.
    pub solver: PhantomData<S>,
    /// Who is told of the progress.
    pub tell: &'a T,
}

impl<'a, S: Solver, T: Tell> Replier for ImproveAiger<'a, S, T> {
    ghost task = { λ job. aiger_task job.settings };

    ghost ready = { λ job. IsInRange job.settings × HasAndGates job.settings.basis };

    fn reads(&self) -> Option<usize> {
        Some(MOST_OF_NETLIST)
    }

    #[tactic(auto, using(crate::proofs::Improvements::improving))]
    fn reply(&self, alloc: Global, bytes: &[u8]) -> Result<Reply, Stop> {
        let says_nothing = is_bare(bytes);
        if says_nothing {
            return Err(Stop::NoAnswer(empty(b"Empty")));
        }
        reply_to::<S, T>(alloc, bytes, &self.settings, self.tell)
    }
}

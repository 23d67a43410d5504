//! The command `improve`: an equivalent netlist with no more gates.
ghost use Rattle.std.specs.Prelude.{◌≡◌, ◌≤◌, length, IfOk, IfErr};
ghost use Rattle.net_document.specs.Format.{IsRefusedText};
ghost use Rattle.improve_windows.specs.Improving.{IsReported};
ghost use Rattle.command_line.specs.CommandLine.{IsAsked};
ghost use Rattle.cmd_improve.specs.ImproveReport.{format_of, improve_reply, improve_refusal};
ghost use Rattle.net_theory.specs.Limits.{most_of_netlist};
ghost use Rattle.cmd_improve.specs.ImproveReport.{improve_task};
ghost use Rattle.frame_core.specs.Views.{reply_value, refusal_value, Judges};

use cmd_lines::{name_net, net_status};
use command_line::Format;
use frame_core::{Field, Refusal, Replier, Reply, Report, Status, Stop};
use improve_windows::{ImprovedText, improve_bench, improve_blif};
use net_core::NetError;
use net_theory::MOST_OF_NETLIST;
use progress::Tell;
use sat_solve::Solver;
use settings::ImproveSettings;
use std::alloc::Global;
use std::marker::PhantomData;

/// A fault of a netlist as a refusal.
#[tactic(auto, unfolding(frame_core::specs::Views::shown))]
pub fn refusal_of(error: NetError) -> Refusal
    ensures { refusal_value result ≡ improve_refusal error }
{
    let status = net_status(&error);
    Refusal {
        status,
        line: name_net(Field::Nothing, error),
    }
}

/// The reply of an improved netlist.
pub fn reply_of(improved: ImprovedText) -> Reply
    ensures { reply_value result ≡ improve_reply (record {
      text = improved.text.items;
      report = improved.report.items;
    }) }
{
    Reply {
        text: improved.text,
        report: Some(Report::whole(improved.report)),
        status: Status::Done,
    }
}

/// Improves a netlist of a format.
#[tactic(auto, using(crate::proofs::Improving::reporting))]
fn improve_text<S: Solver, T: Tell>(
    alloc: Global,
    format: Format,
    bytes: &[u8],
    settings: &ImproveSettings,
    tell: &T,
) -> Result<ImprovedText, NetError>
    requires length { length bytes.now ≤ most_of_netlist }
    requires settings { IsAsked format settings.now }
    ensures improved { IfOk result (λ i. IsReported (format_of format) settings.now bytes.now i.text.items
        i.report.items) }
    ensures refused { IfErr result (IsRefusedText (format_of format) bytes.now) }
{
    match format {
        Format::Blif => improve_blif::<S, T>(alloc, bytes, *settings, tell),
        Format::Bench => improve_bench::<S, T>(alloc, bytes, *settings, tell),
    }
}

/// The reply to a netlist of a format.
#[tactic(auto, using(crate::proofs::Improving::reporting))]
pub(crate) fn reply_to<S: Solver, T: Tell>(
    alloc: Global,
    format: Format,
    bytes: &[u8],
    settings: &ImproveSettings,
    tell: &T,
) -> Result<Reply, Stop>
    requires length { length bytes.now ≤ most_of_netlist }
    requires settings { IsAsked format settings.now }
    ensures { Judges (improve_task format settings.now) bytes.now result }
{
    match improve_text::<S, T>(alloc, format, bytes, settings, tell) {
        Ok(improved) => Ok(reply_of(improved)),
        Err(NetError::Memory) => Err(Stop::NoMemory),
        Err(error) => Err(Stop::NoAnswer(refusal_of(error))),
    }
}

/// The command: an equivalent netlist with no more gates, and a report. Windows are searched with the solver `S`.
#[derive(Drop)]
pub struct Improve<'a, S, T> {
    /// The format of the netlist.
    pub format: Format,
    /// The settings of the passes over the netlist.
    pub settings: ImproveSettings,
    /// The solver.
    pub solver: PhantomData<S>,
    /// Who is told of the progress.
    pub tell: &'a T,
}

impl<'a, S: Solver, T: Tell> Replier for Improve<'a, S, T> {
    ghost task = { λ job. improve_task job.format job.settings };

    ghost ready = { λ job. IsAsked job.format job.settings };

    fn reads(&self) -> Option<usize> {
        Some(MOST_OF_NETLIST)
    }

    fn reply(&self, alloc: Global, bytes: &[u8]) -> Result<Reply, Stop> {
        reply_to::<S, T>(alloc, self.format, bytes, &self.settings, self.tell)
    }
}

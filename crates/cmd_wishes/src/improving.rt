//! The command.
ghost use Rattle.std.specs.Prelude.{◌≡◌, ◌≤◌, length, false, IfOk, IfErr};
ghost use Rattle.net_theory.specs.Limits.{most_of_netlist};
ghost use Rattle.net_document.specs.Format.{IsRefusedText};
ghost use Rattle.format_names.specs.declared.formats.NetFormat.TheVariants.{Aiger};
ghost use Rattle.net_formats.specs.Formats.{format_of};
ghost use Rattle.settings.specs.Improve.{IsInRange};
ghost use Rattle.equiv_run.specs.Two.{is_bare as is_bare_of};
ghost use Rattle.improve_windows.specs.Improving.{FitsFormat};
ghost use Rattle.improve_wishes.specs.Texts.{IsWishedText};
ghost use Rattle.frame_core.specs.Views.{Judges};
ghost use Rattle.cmd_wishes.specs.WishReport.{wished_format, wishes_for, wished_task};

use crate::replying::reply_of_text;
use cmd_improve::{empty, refusal_of};
use equiv_run::is_bare;
use format_names::NetFormat;
use frame_core::{Replier, Reply, Stop};
use improve_wishes::{WishedText, Wishes, wished_aiger, wished_bench, wished_blif};
use net_core::NetError;
use net_theory::MOST_OF_NETLIST;
use progress::Tell;
use sat_solve::Solver;
use settings::ImproveSettings;
use std::alloc::{AllocError, Global};
use std::marker::PhantomData;

/// Improves an AIGER file by wishes, without that for a basis.
fn wished_file<S: Solver, T: Tell>(
    alloc: Global,
    bytes: &[u8],
    settings: ImproveSettings,
    wishes: Wishes,
    tell: &T,
) -> Result<WishedText, NetError>
    requires length { length bytes.now ≤ most_of_netlist }
    requires range { IsInRange settings }
    requires basis { FitsFormat (format_of Aiger) settings }
    ensures wished { IfOk result (IsWishedText (format_of Aiger) settings (wishes_for Aiger wishes) bytes.now) }
    ensures refused { IfErr result (IsRefusedText (format_of Aiger) bytes.now) }
{
    let asked = Wishes {
        only: false,
        ..wishes
    };
    let improved = wished_aiger::<S, T>(alloc, bytes, settings, asked, tell)?;
    Ok(WishedText::Text(improved))
}

/// Improves a netlist of a format by wishes.
fn wished_text<S: Solver, T: Tell>(
    alloc: Global,
    format: NetFormat,
    bytes: &[u8],
    settings: ImproveSettings,
    wishes: Wishes,
    tell: &T,
) -> Result<WishedText, NetError>
    requires length { length bytes.now ≤ most_of_netlist }
    requires range { IsInRange settings }
    requires basis { FitsFormat (format_of format) settings }
    ensures wished { IfOk result (IsWishedText (wished_format format wishes) settings (wishes_for format wishes)
        bytes.now) }
    ensures refused { IfErr result (IsRefusedText (format_of format) bytes.now) }
{
    match format {
        NetFormat::Blif => wished_blif::<S, T>(alloc, bytes, settings, wishes, tell),
        NetFormat::Bench => wished_bench::<S, T>(alloc, bytes, settings, wishes, tell),
        NetFormat::Aiger => wished_file::<S, T>(alloc, bytes, settings, wishes, tell),
    }
}

/// The reply to a text that isn't empty.
#[tactic(auto, using(crate::proofs::Answering::answering))]
fn reply_to<S: Solver, T: Tell>(
    alloc: Global,
    format: NetFormat,
    bytes: &[u8],
    settings: ImproveSettings,
    wishes: Wishes,
    tell: &T,
) -> Result<Reply, Stop>
    requires length { length bytes.now ≤ most_of_netlist }
    requires said { is_bare_of bytes.now ≡ false }
    requires range { IsInRange settings }
    requires basis { FitsFormat (format_of format) settings }
    ensures { Judges (wished_task format settings wishes) bytes.now result }
{
    match wished_text::<S, T>(alloc, format, bytes, settings, wishes, tell) {
        Ok(wished) => match reply_of_text(alloc, format, wishes.form, bytes, wished) {
            Ok(reply) => Ok(reply),
            Err(AllocError) => Err(Stop::NoMemory),
        },
        Err(NetError::Memory) => Err(Stop::NoMemory),
        Err(error) => Err(Stop::NoAnswer(refusal_of(error))),
    }
}

/// The command: an equivalent netlist in the same format, with what is wished of it, and a report. Windows are searched
/// with the solver `S`. An empty text isn't a netlist: it is what a command that failed leaves behind.
#[derive(Drop)]
pub struct ImproveWished<'a, S, T> {
    /// The format of the netlist.
    pub format: NetFormat,
    /// The settings of the passes over the netlist.
    pub settings: ImproveSettings,
    /// What is wished of the netlist that is written.
    pub wishes: Wishes,
    /// The solver.
    pub solver: PhantomData<S>,
    /// Who is told of the progress.
    pub tell: &'a T,
}

impl<'a, S: Solver, T: Tell> Replier for ImproveWished<'a, S, T> {
    ghost task = { λ job. wished_task job.format job.settings job.wishes };

    ghost ready = { λ job. IsInRange job.settings × FitsFormat (format_of job.format) job.settings };

    fn reads(&self) -> Option<usize> {
        Some(MOST_OF_NETLIST)
    }

    #[tactic(auto, using(crate::proofs::Answering::answering))]
    fn reply(&self, alloc: Global, bytes: &[u8]) -> Result<Reply, Stop> {
        let says_nothing = is_bare(bytes);
        if says_nothing {
            return Err(Stop::NoAnswer(empty(b"Empty")));
        }
        reply_to::<S, T>(
            alloc,
            self.format,
            bytes,
            self.settings,
            self.wishes,
            self.tell,
        )
    }
}

//! The command that writes the values of two netlists.
ghost use Rattle.std.specs.Prelude.{◌≡◌, ◌≤◌, length};
ghost use Rattle.net_theory.specs.Limits.{most_of_netlist};
ghost use Rattle.frame_core.specs.Views.{reply_value, refusal_value};
ghost use Rattle.cmd_at.specs.AtReport.{at_reply, count_refusal, at_task};

use crate::circuits::Valued;
use crate::pairs::value_texts;
use cmd_equiv::{empty, refusal_of};
use equiv_run::{CompareError, is_bare};
use format_names::FormatPair;
use frame_core::{ErrorLine, Refusal, Replier, Reply, Status, Stop};
use net_theory::MOST_OF_NETLIST;
use std::alloc::Global;

/// The reply of a text.
fn reply_of(text: Vec<u8>) -> Reply
    ensures { reply_value result ≡ at_reply text.items }
{
    Reply {
        text,
        report: None,
        status: Status::Done,
    }
}

/// The refusal of bits that are more or fewer than the sources.
fn miscounted(count: u32) -> Refusal
    ensures { refusal_value result ≡ count_refusal count }
{
    Refusal {
        status: Status::Malformed,
        line: ErrorLine::at(b"SourceCount", count),
    }
}

/// The command that writes the values of a netlist and of that of the source under given bits of their sources.
#[derive(Drop)]
pub struct WriteValues<'a> {
    /// The formats of the two netlists.
    pub formats: FormatPair,
    /// The bits of the sources: of the inputs, then of the latches.
    pub bits: &'a [bool],
    /// The text of the first netlist, of at most 16 MiB.
    pub first: &'a [u8],
}

impl<'a> Replier for WriteValues<'a> {
    ghost task = { λ job. at_task job.formats job.bits.now job.first.now };

    ghost ready = { λ job. length job.first.now ≤ most_of_netlist };

    fn reads(&self) -> Option<usize> {
        Some(MOST_OF_NETLIST)
    }

    #[tactic(auto, using(crate::proofs::Replying::replying))]
    fn reply(&self, alloc: Global, bytes: &[u8]) -> Result<Reply, Stop> {
        let first_says_nothing = is_bare(self.first);
        if first_says_nothing {
            return Err(Stop::NoAnswer(empty(b"First")));
        }
        let second_says_nothing = is_bare(bytes);
        if second_says_nothing {
            return Err(Stop::NoAnswer(empty(b"Second")));
        }
        match value_texts(alloc, self.formats, self.first, bytes, self.bits) {
            Ok(valued) => match valued {
                Valued::Text(text) => Ok(reply_of(text)),
                Valued::Miscounted(count) => Err(Stop::NoAnswer(miscounted(count))),
            },
            Err(CompareError::Memory) => Err(Stop::NoMemory),
            Err(error) => Err(Stop::NoAnswer(refusal_of(error))),
        }
    }
}

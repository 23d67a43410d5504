//! The refusals of a comparison by names.
ghost use Rattle.std.specs.Prelude.{◌≡◌};
ghost use Rattle.frame_core.specs.Views.{refusal_value};
ghost use Rattle.cmd_match.specs.MatchReport.{side_word, kind_word, lack_refusal, latches_refusal, pair_refusal};

use equiv_match::{CompareError, Lack, NameKind};
use frame_core::{ErrorLine, Field, Refusal, Status};

/// The word for the netlist that lacks a name.
fn word_of_side(in_second: bool) -> &'static [u8]
    ensures { result.now ≡ side_word in_second }
{
    if in_second { b"Second" } else { b"First" }
}

/// The word for what it lacks.
fn word_of_kind(kind: NameKind) -> &'static [u8]
    ensures { result.now ≡ kind_word kind }
{
    match kind {
        NameKind::Input => b"NoInput",
        NameKind::Output => b"NoOutput",
        NameKind::Latch => b"NoLatch",
    }
}

/// The refusal of two netlists of which one lacks a name of the other.
#[tactic(auto, unfolding(frame_core::specs::Views::shown, crate::specs::MatchReport::lack_refusal))]
pub(crate) fn lacking(lack: Lack) -> Refusal
    ensures { refusal_value result ≡ lack_refusal lack }
{
    let Lack {
        in_second,
        kind,
        name,
    } = lack;
    Refusal {
        status: Status::Refused,
        line: ErrorLine::led(
            Field::Known(word_of_side(in_second)),
            word_of_kind(kind),
            Field::Name(name.into_bytes()),
            Field::Nothing,
        ),
    }
}

/// The refusal of two netlists that share their names, and whose clocks or latches differ.
#[tactic(auto, unfolding(crate::specs::MatchReport::latches_refusal))]
fn other_latches() -> Refusal
    ensures { refusal_value result ≡ latches_refusal }
{
    Refusal {
        status: Status::Refused,
        line: ErrorLine::plain(b"DifferentLatches"),
    }
}

/// The refusal for an error of `equiv`, where the two netlists share their names.
pub(crate) fn refusal_of(error: CompareError) -> Refusal
    ensures { refusal_value result ≡ pair_refusal error }
{
    match error {
        CompareError::NoSecond => cmd_equiv::refusal_of(CompareError::NoSecond),
        CompareError::First(fault) => cmd_equiv::refusal_of(CompareError::First(fault)),
        CompareError::Second(fault) => cmd_equiv::refusal_of(CompareError::Second(fault)),
        CompareError::DifferentInterface => other_latches(),
        CompareError::Memory => cmd_equiv::refusal_of(CompareError::Memory),
    }
}

//! A circuit that is improved by what is wished of levels.
ghost use Rattle.std.specs.Prelude.{◌≡◌, All, length, IfOk};
ghost use Rattle.net_theory.specs.Circuit.{IsProper};
ghost use Rattle.net_core.specs.Names.{HasRoomForNames};
ghost use Rattle.blif_core.specs.Written.{written as written_of};
ghost use Rattle.blif_core.specs.Spelling.{HasInit};
ghost use Rattle.blif_core.specs.Blif.{blif_format};
ghost use Rattle.settings.specs.Improve.{IsInRange};
ghost use Rattle.improve_windows.specs.ReportLaws.{CanBeWritten};
ghost use Rattle.improve_levels.specs.Within.{IsBetterWithin};
ghost use Rattle.improve_wishes.specs.Wished.{IsBetterBy};

use improve_levels::{ImprovedWithin, improve_within};
use improve_windows::{Improved, Written, improve_written};
use net_core::Circuit;
use progress::Tell;
use sat_solve::Solver;
use settings::ImproveSettings;
use std::alloc::{AllocError, Global};
use wish_names::LevelsAsked;

/// A circuit improved by moves, with at most so many levels or as many as it has. Nothing is said of windows.
fn within<S: Solver, T: Tell>(
    alloc: Global,
    base: Circuit,
    settings: ImproveSettings,
    most: u32,
    tell: &T,
) -> Result<Written, AllocError>
    requires { IsProper base }
    ensures better { IfOk result (λ w. IsBetterWithin blif_format settings most base w.improved.circuit
        w.improved.before w.improved.after) }
    ensures circuit { IfOk result (λ w. w.improved.circuit ≡ record base { net = w.improved.circuit.net }) }
    ensures document { IfOk result (λ w. w.document ≡ written_of w.improved.circuit) }
    ensures inits { IfOk result (λ w. All HasInit w.document.latches) }
    ensures room { IfOk result (λ w. HasRoomForNames w.improved.circuit) }
    ensures undecided { IfOk result (λ w. length w.improved.undecided.items ≡ 0) }
{
    let ImprovedWithin {
        circuit,
        before,
        after,
        levels_before: _,
        levels_after: _,
        document,
    } = improve_within::<S, T>(alloc, base, settings, most, tell)?;
    let improved = Improved {
        circuit,
        before,
        after,
        settled: false,
        undecided: Vec::new(alloc),
    };
    Ok(Written { improved, document })
}

/// A circuit improved by exact windows, or by moves alone where its levels are limited, and the document that BLIF
/// writes for it.
#[tactic(auto, using(crate::specs::WishedLaws::reaching))]
pub(crate) fn reach<S: Solver, T: Tell>(
    alloc: Global,
    base: Circuit,
    settings: ImproveSettings,
    levels: LevelsAsked,
    tell: &T,
) -> Result<Written, AllocError>
    requires proper { IsProper base }
    requires range { IsInRange settings }
    ensures better { IfOk result (λ w. IsBetterBy blif_format settings levels base w.improved.circuit
        w.improved.before w.improved.after w.improved.settled w.improved.undecided.items) }
    ensures document { IfOk result (λ w. w.document ≡ written_of w.improved.circuit) }
    ensures inits { IfOk result (λ w. All HasInit w.document.latches) }
    ensures room { IfOk result (λ w. HasRoomForNames w.improved.circuit) }
    ensures undecided { IfOk result (λ w. All CanBeWritten w.improved.undecided.items) }
{
    match levels {
        LevelsAsked::Untold => improve_written::<S, T>(alloc, base, settings, tell),
        LevelsAsked::Tell => improve_written::<S, T>(alloc, base, settings, tell),
        LevelsAsked::Keep => within::<S, T>(alloc, base, settings, 0, tell),
        LevelsAsked::Most(most) => within::<S, T>(alloc, base, settings, most, tell),
    }
}

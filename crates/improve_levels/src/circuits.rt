//! A circuit whose net was improved under a limit of levels, and what it costs as a text.
ghost use Rattle.std.specs.Prelude.{◌≡◌, All, IfOk};
ghost use Rattle.net_theory.specs.Circuit.{IsProper};
ghost use Rattle.net_core.specs.Names.{HasRoomForNames};
ghost use Rattle.net_levels.specs.Levels.{levels_of};
ghost use Rattle.blif_core.specs.Written.{written as written_of};
ghost use Rattle.blif_core.specs.Spelling.{HasInit};
ghost use Rattle.blif_core.specs.Blif.{blif_format};
ghost use Rattle.improve_levels.specs.Within.{IsWithin, IsBetterWithin};

use crate::searching::improve_net_within;
use blif_core::Circuit;
use improve_windows::{CostedDocument, costed};
use net_document::Document;
use net_levels::levels;
use progress::Tell;
use sat_solve::Solver;
use settings::ImproveSettings;
use std::alloc::{AllocError, Global};

/// An improved circuit, and the document that BLIF writes for it.
#[derive(Drop)]
pub struct ImprovedWithin {
    pub circuit: Circuit,
    /// How many gates it had.
    pub before: u32,
    /// What it costs as a text.
    pub after: u32,
    /// How many levels it had, and has.
    pub levels_before: u32,
    pub levels_after: u32,
    pub document: Document,
}

/// A circuit with its improved net.
fn with_improved_net<S: Solver, T: Tell>(
    alloc: Global,
    circuit: Circuit,
    settings: ImproveSettings,
    most: u32,
    tell: &T,
) -> Result<Circuit, AllocError>
    ensures circuit { IfOk result (λ k. k ≡ record circuit { net = k.net }) }
    ensures within { IfOk result (λ k. IsWithin settings most circuit.net k.net) }
{
    let Circuit {
        model,
        inputs,
        outputs,
        clocks,
        latches,
        net,
    } = circuit;
    let net = improve_net_within::<S, T>(alloc, &net, settings, most, tell)?;
    Ok(Circuit {
        model,
        inputs,
        outputs,
        clocks,
        latches,
        net,
    })
}

/// The circuit improved by moves over the whole net, with at most `most` levels, or at most as many as it has: with 0
/// it has no more levels than before. `tell` hears of the gates that are left after each stage.
#[tactic(auto, using(crate::specs::WithinLaws::bettering))]
pub fn improve_within<S: Solver, T: Tell>(
    alloc: Global,
    circuit: Circuit,
    settings: ImproveSettings,
    most: u32,
    tell: &T,
) -> Result<ImprovedWithin, AllocError>
    requires proper { IsProper circuit }
    ensures better { IfOk result (λ w.
        IsBetterWithin blif_format settings most circuit w.circuit w.before w.after) }
    ensures circuit { IfOk result (λ w. w.circuit ≡ record circuit { net = w.circuit.net }) }
    ensures levels_before { IfOk result (λ w. w.levels_before ≡ levels_of circuit.net) }
    ensures levels_after { IfOk result (λ w. w.levels_after ≡ levels_of w.circuit.net) }
    ensures document { IfOk result (λ w. w.document ≡ written_of w.circuit) }
    ensures inits { IfOk result (λ w. All HasInit w.document.latches) }
    ensures room { IfOk result (λ w. HasRoomForNames w.circuit) }
{
    let before = circuit.net.gates().len() as u32;
    let levels_before = levels(alloc, &circuit.net)?;
    let circuit = with_improved_net::<S, T>(alloc, circuit, settings, most, tell)?;
    let levels_after = levels(alloc, &circuit.net)?;
    let CostedDocument { document, cost } = costed(alloc, &circuit)?;
    Ok(ImprovedWithin {
        circuit,
        before,
        after: cost,
        levels_before,
        levels_after,
        document,
    })
}

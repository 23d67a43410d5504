//! An improved circuit: its net, and what it costs as a text.
ghost use Rattle.std.specs.Prelude.{◌≡◌, All, IfOk};
ghost use Rattle.net_theory.specs.Circuit.{IsProper};
ghost use Rattle.net_theory.specs.Cost.{cost};
ghost use Rattle.net_core.specs.Names.{HasRoomForNames};
ghost use Rattle.blif_core.specs.Written.{written as written_of};
ghost use Rattle.blif_core.specs.Spelling.{HasInit};
ghost use Rattle.blif_core.specs.Blif.{blif_format};
ghost use Rattle.settings.specs.Improve.{IsInRange};
ghost use Rattle.improve_theory.specs.Improvement.{IsImprovementBy};
ghost use Rattle.improve_windows.specs.Improving.{IsBetter};

use crate::costing::{CostedDocument, costed};
use crate::passes::{ImprovedNet, improve_net};
use blif_core::Circuit;
use improve_theory::Undecided;
use net_document::Document;
use progress::Tell;
use sat_solve::Solver;
use settings::ImproveSettings;
use std::alloc::{AllocError, Global};

/// An improved circuit.
#[derive(Drop)]
pub struct Improved {
    pub circuit: Circuit,
    /// How many gates it had.
    pub before: u32,
    /// What it costs as a text.
    pub after: u32,
    /// Whether no window up to the cap has a shorter chain, but for those that are undecided.
    pub settled: bool,
    /// The windows that stayed undecided, in the order of candidates. Empty where `settled` is false.
    pub undecided: Vec<Undecided>,
}

/// An improved circuit, and the document that BLIF writes for it.
#[derive(Drop)]
pub struct Written {
    pub improved: Improved,
    pub document: Document,
}

/// A circuit with its improved net.
#[derive(Drop)]
struct ImprovedWithCircuit {
    circuit: Circuit,
    settled: bool,
    undecided: Vec<Undecided>,
}

/// Improves the net of a circuit.
fn left_of<S: Solver, T: Tell>(
    alloc: Global,
    circuit: Circuit,
    settings: ImproveSettings,
    tell: &T,
) -> Result<ImprovedWithCircuit, AllocError>
    requires { IsInRange settings }
    ensures circuit { IfOk result (λ left. left.circuit ≡ record circuit { net = left.circuit.net }) }
    ensures left { IfOk result (λ left. IsImprovementBy settings circuit.net left.circuit.net left.settled
        left.undecided.items) }
{
    let Circuit {
        model,
        inputs,
        outputs,
        clocks,
        latches,
        net,
    } = circuit;
    let ImprovedNet {
        net,
        settled,
        undecided,
    } = improve_net::<S, T>(alloc, &net, settings, tell)?;
    let circuit = Circuit {
        model,
        inputs,
        outputs,
        clocks,
        latches,
        net,
    };
    Ok(ImprovedWithCircuit {
        circuit,
        settled,
        undecided,
    })
}

/// Improves a circuit, and makes the document that BLIF writes for it: the passes of
/// `passes.rt`, and resynthesis until no window up to the cap has a shorter chain, or
/// `settings.rounds` rounds have changed something.
#[tactic(auto, using(crate::specs::ImprovingLaws::improving))]
pub fn improve_written<S: Solver, T: Tell>(
    alloc: Global,
    circuit: Circuit,
    settings: ImproveSettings,
    tell: &T,
) -> Result<Written, AllocError>
    requires proper { IsProper circuit }
    requires range { IsInRange settings }
    ensures better { IfOk result (λ w. IsBetter blif_format settings circuit w.improved.circuit
        w.improved.before w.improved.after w.improved.settled w.improved.undecided.items) }
    ensures circuit { IfOk result (λ w. w.improved.circuit ≡ record circuit { net = w.improved.circuit.net }) }
    ensures document { IfOk result (λ w. w.document ≡ written_of w.improved.circuit) }
    ensures inits { IfOk result (λ w. All HasInit w.document.latches) }
    ensures room { IfOk result (λ w. HasRoomForNames w.improved.circuit) }
{
    let before = circuit.net.gates().len() as u32;
    let ImprovedWithCircuit {
        circuit,
        settled,
        undecided,
    } = left_of::<S, T>(alloc, circuit, settings, tell)?;
    let CostedDocument { document, cost } = costed(alloc, &circuit)?;
    let improved = Improved {
        circuit,
        before,
        after: cost,
        settled,
        undecided,
    };
    Ok(Written { improved, document })
}

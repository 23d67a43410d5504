//! The miter of two circuits, written clause by clause.
ghost use Rattle.std.specs.Prelude.{◌≡◌, IfOk};
ghost use Rattle.net_theory.specs.Circuit.{IsProper};
ghost use Rattle.equiv_theory.specs.Miter.{miter as miter_of};
ghost use Rattle.equiv_theory.specs.Counterexample.{AreComparable, HaveSameInterface};
ghost use Rattle.equiv_core.specs.Limits.{AreSmall, IsSmall};

use crate::miter_rows::{push_gates, push_sinks, some_row};
use crate::numbering::NetNumbering;
use clause_core::ClauseList;
use cnf_core::Cnf;
use net_core::{Circuit, Net};
use std::alloc::{AllocError, Global};

/// The clauses of the miter of two nets.
fn list_miter(alloc: Global, first: &Net, second: &Net) -> Result<ClauseList, AllocError>
    requires comparable { AreComparable first.now second.now }
    requires small { AreSmall first.now second.now }
    ensures { IfOk result (λ list. list ≡ miter_of first.now second.now) }
{
    let sources = first.sources();
    let before = first.gates().len() as u32;
    let after = second.gates().len() as u32;
    let count = first.sinks().len() as u32;
    let one = NetNumbering {
        sources,
        before: 0,
        end: sources + 1 + before,
    };
    let others = second.sources();
    let other = NetNumbering {
        sources: others,
        before,
        end: others + 1 + after,
    };
    let difference = sources + before + after + 1;
    let mut list = ClauseList::new(alloc, sources + before + after + count)?;
    push_gates(alloc, &mut list, one, sources + 1, first.gates())?;
    push_gates(alloc, &mut list, other, others + 1, second.gates())?;
    push_sinks(
        alloc,
        &mut list,
        (one, other),
        difference,
        first.sinks(),
        second.sinks(),
    )?;
    let row = some_row(alloc, difference, count)?;
    list.push(alloc, &row)?;
    Ok(list)
}

/// The miter of two nets.
#[tactic(auto, using(crate::specs::MiteringLaws::few_clauses))]
pub(crate) fn miter_nets(alloc: Global, first: &Net, second: &Net) -> Result<Cnf, AllocError>
    requires comparable { AreComparable first.now second.now }
    requires small { AreSmall first.now second.now }
    ensures { IfOk result (λ cnf. cnf ≡ miter_of first.now second.now) }
{
    let list = list_miter(alloc, first, second)?;
    list.into_cnf(alloc)
}

/// The miter of two proper circuits of one interface, each with fewer than 300,000,000 sources and sinks: a
/// formula that is satisfiable exactly if some assignment of the sources gives some sink two different values
/// (Brand, "Verification of large synthesized designs", 1993).
///
/// Its variables are the sources, the gates of the first circuit, those of the second, and one for each sink, each
/// in order. The time is linear in the sizes of both.
#[tactic(auto, using(equiv_theory::specs::CircuitLaws::comparable))]
pub fn miter(alloc: Global, first: &Circuit, second: &Circuit) -> Result<Cnf, AllocError>
    requires first { IsProper first.now }
    requires second { IsProper second.now }
    requires interface { HaveSameInterface first.now second.now }
    requires small { IsSmall first.now.net }
    ensures { IfOk result (λ cnf. cnf ≡ miter_of first.now.net second.now.net) }
{
    miter_nets(alloc, &first.net, &second.net)
}

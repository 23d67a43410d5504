//! The stronger formula over given pairs.
ghost use Rattle.std.specs.Prelude.{◌≡◌, ◌+◌, ◌*◌, ◌≤◌, ◌++◌, List, All, IfOk, OnOk, length};
ghost use Rattle.chain_theory.specs.Limits.{most_steps};
ghost use Rattle.clause_core.specs.Clauses.{Appends};
ghost use Rattle.enc_theory.specs.Families.{common};
ghost use Rattle.enc_theory.specs.Cuts.{cuts};
ghost use Rattle.enc_theory.specs.Pairs.{StepSlots as Slots};
ghost use Rattle.enc_base.specs.Room.{HasRoom, HasSlots, AreFor};
ghost use Rattle.strong_theory.specs.Strong.{one_pair, differences};
ghost use Rattle.npn_strong.specs.Cut.{npn_exchange};
ghost use Rattle.enc_strong.specs.Formula.{live_strong, strong_with};
ghost use Rattle.enc_strong.specs.Room.{HasRows};

use crate::differences::push_differences;
use crate::edges::edges;
use crate::exchange::push_npn_exchange;
use crate::one_pair::push_one_pair;
use clause_core::ClauseList;
use cnf_core::Cnf;
use enc_base::{Layout, Pairs, StepSlots, push_common, s_first, sizes};
use enc_cuts::push_cuts;
use enc_theory::Dimensions;
use op_basis::Basis;
use std::alloc::{AllocError, Global};
use strong_theory::Edge;
use tt_core::{Spec, live_spec};

/// The number of variables with those of so many edges.
#[tactic(auto, using(crate::proofs::Pieces::room))]
fn with_edges(z: Dimensions, vars: u32, count: usize) -> u32
    requires room { HasRoom z vars }
    requires vars { vars ≤ 20000 }
    requires count { count ≤ 384 }
    ensures value { result ≡ vars + count * z.r }
    ensures room { HasRoom z result }
    ensures slots { (steps : List Slots) → All (HasSlots z vars) steps → All (HasSlots z result) steps }
{
    vars + count as u32 * z.r
}

/// Appends the clauses that define chains, the constraints, those of the exchange cut and the further clauses.
#[tactic(auto, using(crate::proofs::Pieces::families))]
fn push_all(
    alloc: Global,
    list: &mut ClauseList,
    live: &Spec,
    basis: Basis,
    z: Dimensions,
    steps: &[StepSlots],
    before: u32,
    edges: &[Edge],
) -> Result<(), AllocError>
    requires room { HasRoom z list.old.vars }
    requires tables { AreFor z live.now }
    requires slots { All (HasSlots z list.old.vars) steps.now }
    requires edges { All (HasRows z) edges.now }
    requires vars { before + length edges.now * z.r ≤ list.old.vars }
    ensures { OnOk result (Appends list.old list.new (common live.now basis z steps.now ++
        cuts live.now basis z steps.now ++ npn_exchange basis live.now steps.now ++
        (one_pair steps.now ++ differences z steps.now before edges.now))) }
{
    push_common(alloc, list, live, basis, z, steps)?;
    push_cuts(alloc, list, live, basis, z, steps)?;
    push_npn_exchange(alloc, list, live, basis, steps)?;
    push_one_pair(alloc, list, steps)?;
    push_differences(alloc, list, z, steps, before, edges)
}

/// The formula for tables whose outputs are all live.
#[tactic(auto, using(crate::proofs::Pieces::limits), // for the prover
unfolding(crate::specs::Formula::live_strong, strong_theory::specs::Strong::strengthened, // for the prover
npn_strong::specs::Cut::with_exchanges, enc_cuts::specs::Formula::live_with_cuts))]
fn live_formula<P: Pairs>(
    alloc: Global,
    live: &Spec,
    basis: Basis,
    r: u32,
    pairs: &P,
) -> Result<Cnf, AllocError>
    requires { r ≤ most_steps }
    ensures { IfOk result (λ cnf. cnf ≡ live_strong (P.pairs_of pairs.now) live.now basis r) }
{
    // for the prover: brings in that the tables are within the bounds
    let _n = live.n();
    let z = sizes(live, r);
    // for the prover: bounds the number of variables
    let _first = s_first(z);
    let layout = Layout::new(alloc, pairs, z)?;
    let edges = edges(alloc, live)?;
    let vars = with_edges(z, layout.vars, edges.len());
    let mut list = ClauseList::new(alloc, vars)?;
    push_all(
        alloc,
        &mut list,
        live,
        basis,
        z,
        &layout.steps,
        layout.vars,
        &edges,
    )?;
    list.into_cnf(alloc)
}

/// The formula of size `r` over the given pairs, strengthened: for the live outputs.
#[tactic(auto, unfolding(crate::specs::Formula::strong_with))]
pub(crate) fn formula_over<P: Pairs>(
    alloc: Global,
    spec: &Spec,
    basis: Basis,
    r: u32,
    pairs: &P,
) -> Result<Cnf, AllocError>
    requires { r ≤ most_steps }
    ensures { IfOk result (λ cnf. cnf ≡ strong_with (P.pairs_of pairs.now) spec.now basis r) }
{
    let live = live_spec(alloc, spec)?;
    live_formula(alloc, &live, basis, r, pairs)
}

//! The edges of tables: pairs of rows that differ in one input, with an output that has to differ there.
ghost use Rattle.std.specs.Prelude.{◌≡◌, ◌+◌, ◌-◌, ◌^◌, ◌<◌, ◌≤◌, ◌++◌, ◌&&◌, ◌||◌, length, IfOk, OnOk};
ghost use Rattle.strong_theory.specs.Edges.{same_at as same_at_of, agree_but as agree_but_of, opposite as opposite_of};
ghost use Rattle.strong_theory.specs.Edges.{output_differs as output_differs_of, is_edge as is_edge_of};
ghost use Rattle.strong_theory.specs.Edges.{some_output_differs as some_output_differs_of, raised as raised_of};
ghost use Rattle.strong_theory.specs.Edges.{edge_at, edges_along, edges as edges_of};

use chain_theory::plain::input;
use std::alloc::{AllocError, Global};
use strong_theory::Edge;
use tt_core::{Cell, Spec, row};

/// Both bits.
fn both(x: bool, y: bool) -> bool
    ensures { result ≡ (x && y) }
{
    x && y
}

/// One of the bits.
fn either(x: bool, y: bool) -> bool
    ensures { result ≡ (x || y) }
{
    x || y
}

/// The number of rows.
#[tactic(auto, using(enc_base::specs::BoundLaws::row_count))]
fn row_count(spec: &Spec) -> u32
    ensures value { result ≡ 2 ^ spec.now.n }
    ensures few { result ≤ 64 }
{
    1 << spec.n()
}

/// Whether input `p` is `j`, or has one bit on rows `a` and `b`.
#[tactic(auto, unfolding(strong_theory::specs::Edges::same_at))]
fn same_at(n: u32, j: u32, a: u32, b: u32, p: u32) -> bool
    requires { n < 32 }
    ensures { result ≡ same_at_of n j a b p }
{
    if p == j {
        return true;
    }
    if input(n, a, p) {
        input(n, b, p)
    } else {
        !input(n, b, p)
    }
}

/// Whether the rows agree but for input `j`.
#[tactic(auto, using(crate::proofs::Tests::tests), unfolding(strong_theory::specs::Edges::agree_but))]
fn agree_but(n: u32, j: u32, a: u32, b: u32) -> bool
    requires { n < 32 }
    ensures { result ≡ agree_but_of n j a b }
{
    let mut agree = true;
    for p in 1..n + 1 {
        agree = both(agree, same_at(n, j, a, b, p));
    }
    agree
}

/// Whether one cell is 0 and the other is 1.
fn opposite(x: Cell, y: Cell) -> bool
    ensures { result ≡ opposite_of x y }
{
    match x {
        Cell::Zero => match y {
            Cell::Zero => false,
            Cell::One => true,
            Cell::Free => false,
        },
        Cell::One => match y {
            Cell::Zero => true,
            Cell::One => false,
            Cell::Free => false,
        },
        Cell::Free => false,
    }
}

/// Whether output `h` has to differ on the two rows.
#[tactic(auto, unfolding(strong_theory::specs::Edges::output_differs))]
fn output_differs(spec: &Spec, a: u32, b: u32, h: u32) -> bool
    requires output { (1 ≤ h) × (h ≤ length spec.now.on) }
    requires rows { (a < 2 ^ spec.now.n) × (b < 2 ^ spec.now.n) }
    ensures { result ≡ output_differs_of spec.now a b h }
{
    opposite(row(spec, h, a), row(spec, h, b))
}

/// Whether some output has to differ on the two rows.
#[tactic(auto, using(crate::proofs::Tests::tests), unfolding(strong_theory::specs::Edges::some_output_differs))]
fn some_output_differs(spec: &Spec, a: u32, b: u32) -> bool
    requires rows { (a < 2 ^ spec.now.n) × (b < 2 ^ spec.now.n) }
    ensures { result ≡ some_output_differs_of spec.now a b }
{
    // for the prover: brings in that there are at most eight outputs
    let _n = spec.n();
    let mut some = false;
    for h in 1..spec.outputs() + 1 {
        some = either(some, output_differs(spec, a, b, h));
    }
    some
}

/// Whether the rows are an edge along input `j`.
#[tactic(auto, using(crate::proofs::Tests::edge_tests))]
fn is_edge(spec: &Spec, j: u32, a: u32, b: u32) -> bool
    requires { a < 2 ^ spec.now.n }
    ensures { result ≡ is_edge_of spec.now j a b }
{
    if b < row_count(spec) {
        return both(
            agree_but(spec.n(), j, a, b),
            some_output_differs(spec, a, b),
        );
    }
    false
}

/// Row `t` with the weight of input `j` added.
#[tactic(auto, using(enc_base::specs::BoundLaws::row_count))]
fn raised(n: u32, j: u32, t: u32) -> u32
    requires { (j ≤ n) × (n ≤ 6) × (t < 64) }
    ensures { result ≡ raised_of n j t }
{
    t + (1 << (n - j))
}

/// Adds the edge from row `t` along input `j`, if there is one.
#[tactic(auto, unfolding(strong_theory::specs::Edges::edge_at))]
fn push_edge(edges: &mut Vec<Edge>, spec: &Spec, j: u32, t: u32) -> Result<(), AllocError>
    requires input { (1 ≤ j) × (j ≤ spec.now.n) }
    requires row { (t < 2 ^ spec.now.n) × (t < 64) }
    ensures { OnOk result (edges.new.items ≡ edges.old.items ++ edge_at spec.now j t) }
{
    let high = raised(spec.n(), j, t);
    if !is_edge(spec, j, t, high) {
        return Ok(());
    }
    edges.push(Edge {
        input: j,
        low: t,
        high,
    })?;
    Ok(())
}

/// Adds the edges along input `j`.
#[tactic(auto, using(clause_core::specs::RangeLaws::loops), unfolding(strong_theory::specs::Edges::edges_along))]
fn push_edges_along(edges: &mut Vec<Edge>, spec: &Spec, j: u32) -> Result<(), AllocError>
    requires input { (1 ≤ j) × (j ≤ spec.now.n) }
    ensures { OnOk result (edges.new.items ≡ edges.old.items ++ edges_along spec.now j) }
{
    for t in 0..row_count(spec) {
        push_edge(edges, spec, j, t)?;
    }
    Ok(())
}

/// The edges, by rising inputs, and those of an input by rising rows.
#[tactic(auto, using(clause_core::specs::RangeLaws::loops), unfolding(strong_theory::specs::Edges::edges))]
fn listed(alloc: Global, spec: &Spec) -> Result<Vec<Edge>, AllocError>
    ensures { IfOk result (λ edges. edges.items ≡ edges_of spec.now) }
{
    let mut edges = Vec::new(alloc);
    for j in 1..spec.n() + 1 {
        push_edges_along(&mut edges, spec, j)?;
    }
    Ok(edges)
}

/// The edges, at most 64 along each of six inputs.
#[tactic(auto, using(crate::proofs::Tests::listing))]
pub(crate) fn edges(alloc: Global, spec: &Spec) -> Result<Vec<Edge>, AllocError>
    ensures edges { IfOk result (λ edges. edges.items ≡ edges_of spec.now) }
    ensures few { IfOk result (λ edges. length edges.items ≤ 384) }
{
    // for the prover: brings in that the tables are within the bounds
    let _n = spec.n();
    let edges = listed(alloc, spec)?;
    Ok(edges)
}

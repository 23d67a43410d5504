//! Walks over random windows of graphs.

use net_walk::NetWalk;
use std::alloc::{AllocError, Global};
use xag_core::{Builder, Xag};

/// The sum and the carry of three bits, the carry as the OR of three products.
fn full_adder(alloc: Global) -> Result<Xag, AllocError> {
    let mut builder = Builder::new(alloc, 3, 8)?;
    let half = builder.gate(2, 4, true)?;
    let sum = builder.gate(half, 6, true)?;
    let first = builder.gate(2, 4, false)?;
    let second = builder.gate(2, 6, false)?;
    let third = builder.gate(4, 6, false)?;
    let two = builder.gate(first ^ 1, second ^ 1, false)?;
    let carry = builder.gate(two, third ^ 1, false)?;
    builder.finish(alloc, &[sum, carry ^ 1])
}

/// The numbers of gates that a walk leaves of the adder, after less work and after more.
fn gates_left(alloc: Global, first: u64, second: u64) -> Result<(usize, usize), AllocError> {
    let xag = full_adder(alloc)?;
    let mut search = NetWalk::new(alloc, &xag, 0xFFFF, 1)?;
    search.run(first)?;
    let few = search.best()?.gates().len();
    search.run(second)?;
    Ok((few, search.best()?.gates().len()))
}

#[test]
fn walks_leave_a_full_adder_of_five_gates(rt: HostRuntime) -> Result<(), AllocError> {
    let (first, second) = gates_left(rt.alloc(), 100_000, 200_000)?;
    assert!(rt; first == 5 && second == 5);
    Ok(())
}

//! The sizes of the nets that walks find for small functions, and the chain of a bound.
use chain_bound::{Goal, bound};
use chain_walk::{Bound, Tables, search_net};
use op_basis::read_basis;
use std::alloc::{AllocError, Global};
use tt_core::read_tables;

/// A function: its name, the number of inputs, the tables of its outputs, and its least number of gates.
const FUNCTIONS: &[(&str, u32, &[u64], u32)] = &[
    ("full adder", 3, &[0x96, 0xe8], 5),
    ("majority of three", 3, &[0xe8], 4),
    ("multiplexer", 3, &[0xca], 3),
    ("exclusive or of four", 4, &[0x6996], 3),
];

/// How many gates a search finds for completely specified tables; 100 where it finds no net of them.
fn found(alloc: Global, inputs: u32, words: &[u64], enough: u32) -> Result<u32, AllocError> {
    let mut tables = Tables::new(alloc, inputs);
    for word in words {
        tables.push(*word, u64::MAX)?;
    }
    let goal = Bound {
        enough,
        work: 60_000,
        seed: 1,
    };
    let Some(net) = search_net(alloc, 0xFFFF, &tables, goal)? else {
        return Ok(100);
    };
    Ok(if tables.are_of(&net) { net.size() } else { 100 })
}

#[test]
fn walks_find_least_nets(rt: HostRuntime) -> Result<(), AllocError> {
    for &(name, inputs, words, gates) in FUNCTIONS {
        let size = found(rt.alloc(), inputs, words, gates)?;
        assert!(rt; size == gates, "{name}: {size}");
    }
    Ok(())
}

/// How many steps the bound's chain for tables has, over all operators; 100 where there is none.
fn bounded(alloc: Global, text: &[u8]) -> Result<usize, AllocError> {
    if text.len() > 100_000 {
        return Ok(100);
    }
    let Ok(basis) = read_basis(b"all") else {
        return Ok(100);
    };
    let Ok(tables) = read_tables(alloc, text) else {
        return Ok(100);
    };
    let goal = Goal {
        low: 3,
        most: 16,
        work: 60_000,
    };
    let chain = bound(alloc, &tables.spec, basis, goal)?;
    Ok(chain.map_or(100, |chain| chain.steps().len()))
}

#[test]
fn a_bound_is_a_chain(rt: HostRuntime) -> Result<(), AllocError> {
    let steps = bounded(rt.alloc(), b"inputs 4\n0110100110010110\n")?;
    assert_eq!(rt; steps, 3);
    Ok(())
}

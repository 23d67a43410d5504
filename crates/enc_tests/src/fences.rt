//! The listed fences, the subproblems of a size, and the levels of a chain.
ghost use Rattle.std.specs.Prelude.{◌≤◌};

use chain_core::read_chain;
use enc_fence::{FenceEnc, levels};
use enc_base::Encoding;
use enc_ssv::Ssv;
use enc_theory::Subproblem;
use fence_core::{Fence, fences};
use std::alloc::Global;
use tt_core::read_tables;

#[test]
fn a_fence_has_the_levels_that_it_was_made_of(rt: HostRuntime) {
    match Vec::from_slice(rt.alloc(), &[2, 1]) {
        Ok(levels) => {
            let fence = Fence::new(levels);
            assert!(rt; fence.levels() == [2, 1].as_slice());
        }
        Err(_) => assert!(rt; false),
    }
}

/// Whether these are the fences of a size, each followed by a 0.
fn are_listed(alloc: Global, r: u32, outputs: u32, numbers: &[u32]) -> bool
    requires { r ≤ 16 }
{
    let Ok(listed) = fences(alloc, r, outputs) else {
        return false;
    };
    let mut left = numbers;
    for fence in &listed {
        let length = fence.levels().len();
        if left.len() <= length || fence.levels() != &left[..length] || left[length] != 0 {
            return false;
        }
        left = &left[length + 1..];
    }
    left.is_empty()
}

/// Dimensions, numbers of outputs, and the fences of the size, each followed by a 0.
const LISTED: &[(&str, u32, u32, &[u32])] = &[
    ("no step", 0, 1, &[0]),
    ("three steps", 3, 1, &[1, 1, 1, 0, 2, 1, 0]),
    (
        "three steps, two outputs",
        3,
        2,
        &[1, 1, 1, 0, 1, 2, 0, 2, 1, 0],
    ),
    ("four steps", 4, 1, &[1, 1, 1, 1, 0, 1, 2, 1, 0, 2, 1, 1, 0]),
    (
        "a step that drives no output is read by one on a higher level",
        2,
        0,
        &[],
    ),
];

#[test]
fn fences_are_listed_in_lexicographic_order(rt: HostRuntime) {
    for &(name, r, outputs, numbers) in LISTED {
        assert!(rt;
            r <= 16 && are_listed(rt.alloc(), r, outputs, numbers),
            "{name}"
        );
    }
}

/// How many fences a size has; 0 also if memory runs out.
fn count(alloc: Global, r: u32, outputs: u32) -> usize {
    if r > 16 {
        return 0;
    }
    match fences(alloc, r, outputs) {
        Ok(fences) => fences.len(),
        Err(_) => 0,
    }
}

#[test]
fn sizes_have_as_many_fences_as_another_program_counts(rt: HostRuntime) {
    // counted by another program, for one output and for three
    for (r, one, three) in [
        (4, 3, 7),
        (5, 6, 14),
        (6, 11, 27),
        (7, 22, 54),
        (8, 42, 106),
        (9, 84, 212),
        (10, 165, 420),
    ] {
        let first = count(rt.alloc(), r, 1);
        let second = count(rt.alloc(), r, 3);
        assert!(rt; first == one && second == three, "{r} steps");
    }
}

/// How many subproblems a size has with fences.
fn subproblems_of_size(alloc: Global, tables: &[u8], r: u32) -> Option<usize> {
    if tables.len() > 1000 || r > 16 {
        return None;
    }
    let read = read_tables(alloc, tables).ok()?;
    let subproblems = FenceEnc.subproblems(alloc, &read.spec, r).ok()?;
    Some(subproblems.len())
}

#[test]
fn a_size_has_a_subproblem_for_each_fence_of_its_live_outputs(rt: HostRuntime) {
    for (name, tables, r, wanted) in [
        ("one live output", b"inputs 2\n0110\n" as &[u8], 3, 2),
        ("two live outputs", b"inputs 2\n0110\n1001\n", 3, 3),
        (
            "a live and a trivial output",
            b"inputs 2\n0110\n0011\n",
            3,
            2,
        ),
        ("no live output, no step", b"inputs 2\n0011\n", 0, 1),
        ("no live output, one step", b"inputs 2\n0011\n", 1, 0),
    ] {
        assert!(rt;
            subproblems_of_size(rt.alloc(), tables, r) == Some(wanted),
            "{name}"
        );
    }
}

#[test]
fn without_fences_a_size_is_one_subproblem(rt: HostRuntime) {
    let Ok(read) = read_tables(rt.alloc(), b"inputs 2\n0110\n") else {
        assert!(rt; false);
        return;
    };
    match Ssv.subproblems(rt.alloc(), &read.spec, 3) {
        Ok(subproblems) => assert!(rt; matches!(subproblems.as_slice(), [Subproblem::Whole])),
        Err(_) => assert!(rt; false),
    }
}

/// Whether the steps of a chain of three inputs have these levels.
fn have_levels(alloc: Global, block: &[u8], wanted: &[u32]) -> bool {
    if block.len() > 1000 {
        return false;
    }
    let Ok((chain, _)) = read_chain(alloc, block, 1, 3, 1) else {
        return false;
    };
    match levels(alloc, &chain) {
        Ok(levels) => levels.as_slice() == wanted,
        Err(_) => false,
    }
}

#[test]
fn a_step_is_one_level_above_its_operands(rt: HostRuntime) {
    for (name, block, wanted) in [
        (
            "AND of three inputs",
            b"chain 2\nx4 x1 x2 0001\nx5 x3 x4 0001\nout x5\n" as &[u8],
            &[1u32, 2] as &[u32],
        ),
        (
            "two steps under a third",
            b"chain 3\nx4 x1 x2 0001\nx5 x3 x3 1100\nx6 x5 x4 0110\nout x6\n",
            &[1, 1, 2],
        ),
        ("no step", b"chain 0\nout x2\n", &[]),
    ] {
        assert!(rt; have_levels(rt.alloc(), block, wanted), "{name}");
    }
}

//! How clauses are written, which constraints a basis allows, and the pairs of a step.
ghost use Rattle.std.specs.Prelude.{◌≡◌};

use clause_core::{ClauseList, RawLit};
use enc_base::{AllPairs, CutSet, Layout, cuts};
use enc_theory::Dimensions;
use op_basis::read_basis;
use std::alloc::{AllocError, Global};

/// One clause, "4, -2", is written: a clause with a literal and its complement and one with a constant 1 are
/// tautologies. An empty list of literals is the empty clause.
#[tactic(auto, unfolding(clause_core::specs::Clauses::IsWithin))]
fn write_some(alloc: Global, list: &mut ClauseList) -> Result<(), AllocError>
    requires { list.old.vars ≡ 4 }
{
    list.push(
        alloc,
        &[
            RawLit::Var(4, true),
            RawLit::Fixed(false),
            RawLit::Var(2, false),
            RawLit::Var(4, true),
        ],
    )?;
    list.push(
        alloc,
        &[
            RawLit::Var(4, true),
            RawLit::Var(1, true),
            RawLit::Var(4, false),
        ],
    )?;
    list.push(alloc, &[RawLit::Var(3, true), RawLit::Fixed(true)])?;
    list.push(alloc, &[RawLit::Fixed(false)])
}

#[test]
fn constants_repetitions_and_tautologies_are_dropped(rt: HostRuntime) {
    let Ok(mut list) = ClauseList::new(rt.alloc(), 4) else {
        assert!(rt; false);
        return;
    };
    assert!(rt; write_some(rt.alloc(), &mut list).is_ok());
    let [first, second] = list.clauses() else {
        assert!(rt; false);
        return;
    };
    let [four, two] = first.lits() else {
        assert!(rt; false);
        return;
    };
    let lits = four.get() == 4 && two.get() == -2;
    assert!(rt; lits && second.lits().is_empty() && list.vars() == 4);
}

/// The constraints that a basis allows; None if the text isn't a basis.
fn cuts_of(basis: &[u8]) -> Option<CutSet> {
    match read_basis(basis) {
        Ok(basis) => Some(cuts(basis)),
        Err(_) => None,
    }
}

/// Bases, and the constraints they allow: ordered operands, no constants, normal steps, no re-application.
const CUTS: &[(&str, &[u8], bool, bool, bool, bool)] = &[
    ("all", b"all", true, true, true, true),
    ("u2", b"u2", true, true, true, true),
    ("bench", b"bench", true, true, false, false),
    ("nand", b"nand", true, true, false, false),
    ("AND", b"0001", true, true, false, true),
    ("XOR and XNOR", b"0110,1001", true, false, true, false),
    ("AND NOT", b"0010", false, false, false, false),
    ("the first operand", b"0011", false, true, false, true),
];

#[test]
fn bases_allow_the_cuts_of_their_closures(rt: HostRuntime) {
    for &(name, basis, swap, constants, polarity, reapply) in CUTS {
        let wanted = CutSet {
            swap,
            constants,
            polarity,
            reapply,
        };
        assert!(rt; cuts_of(basis) == Some(wanted), "{name}");
    }
}

/// Whether one step over two inputs gets the given pairs and variables.
fn are_laid(alloc: Global, ordered: bool, vars: u32, slots: &[(u32, u32, u32)]) -> bool {
    let z = Dimensions { n: 2, r: 1, m: 1 };
    let Ok(layout) = Layout::new(alloc, &AllPairs { ordered }, z) else {
        return false;
    };
    let [step] = layout.steps.as_slice() else {
        return false;
    };
    if step.place() != 3 || step.slots().len() != slots.len() {
        return false;
    }
    for (slot, wanted) in step.slots().iter().zip(slots) {
        if (slot.j, slot.k, slot.var) != *wanted {
            return false;
        }
    }
    layout.vars == vars
}

#[test]
fn each_pair_of_operands_has_a_variable(rt: HostRuntime) {
    let all = [(1, 1, 10), (2, 2, 11), (1, 2, 12), (2, 1, 13)];
    let ordered = [(1, 1, 10), (2, 2, 11), (1, 2, 12)];
    assert!(rt; are_laid(rt.alloc(), false, 13, &all), "all pairs");
    assert!(rt; are_laid(rt.alloc(), true, 12, &ordered), "ordered pairs");
}

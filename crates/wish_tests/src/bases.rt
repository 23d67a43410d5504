//! Netlists over a basis: what is written over it is read again and stays as it is.
ghost use Rattle.std.specs.Prelude.{◌<◌};
ghost use Rattle.settings.specs.Improve.{IsInRange};

use cdcl_core::Cdcl;
use improve_wishes::{CoversAsked, FormAsked, LevelsAsked, WishedText, Wishes, wished_blif};
use op_basis::Basis;
use progress::Silent;
use settings::ImproveSettings;
use std::alloc::Global;

/// Settings over a basis, by which nothing is resynthesized.
fn over(bits: u16) -> ImproveSettings
    requires { 0 < bits }
    ensures { IsInRange result }
{
    ImproveSettings {
        basis: Basis::new(bits),
        cap: 0,
        ..ImproveSettings::defaults()
    }
}

/// The netlist over a basis; None if there is another answer.
fn text_over(alloc: Global, bits: u16, covers: CoversAsked, text: &[u8]) -> Option<Vec<u8>> {
    if bits == 0 || text.len() > 10_000 {
        return None;
    }
    let wishes = Wishes {
        only: true,
        levels: LevelsAsked::Untold,
        form: FormAsked::Given,
        covers,
    };
    match wished_blif::<Cdcl, Silent>(alloc, text, over(bits), wishes, &Silent) {
        Ok(WishedText::Text(improved)) => Some(improved.text),
        Ok(_) => None,
        Err(_) => None,
    }
}

/// Whether what is written over a basis is written again when it is read.
fn stays(alloc: Global, bits: u16, covers: CoversAsked, text: &[u8]) -> bool {
    let Some(first) = text_over(alloc, bits, covers, text) else {
        return false;
    };
    let Some(second) = text_over(alloc, bits, covers, &first) else {
        return false;
    };
    first.as_slice() == second.as_slice()
}

/// A full adder, and NOT of its sum.
const ADDER: &[u8] = b".model m\n.inputs a b c\n.outputs s d n\n.names a b x\n01 1\n10 1\n\
    .names x c s\n01 1\n10 1\n.names a b y\n11 1\n.names x c z\n11 1\n.names y z d\n00 0\n\
    .names s n\n0 1\n.end\n";

/// NOT, and a constant.
const NOT: &[u8] = b".model m\n.inputs a\n.outputs y z\n.names a y\n0 1\n.names z\n1\n.end\n";

/// Bases, by their bits, and netlists that they express: NAND, NOR, AND with XOR, IMPLY, AND with a NOT that has two
/// operands, XOR alone, `u2`, and all operators.
const CASES: &[(u16, CoversAsked, &[u8])] = &[
    (16_384, CoversAsked::Rows, ADDER),
    (16_384, CoversAsked::Least, ADDER),
    (256, CoversAsked::Rows, ADDER),
    (66, CoversAsked::Least, ADDER),
    (8_192, CoversAsked::Rows, ADDER),
    (4_098, CoversAsked::Rows, ADDER),
    (64, CoversAsked::Rows, NOT),
    (64_959, CoversAsked::Rows, ADDER),
    (65_535, CoversAsked::Least, ADDER),
];

#[test]
fn what_is_over_a_basis_stays(rt: HostRuntime) {
    for &(bits, covers, text) in CASES {
        assert!(rt; stays(rt.alloc(), bits, covers, text));
    }
}

/// Over XOR the full adder has no netlist, nor over AND and OR.
const NONE: &[(u16, &[u8])] = &[(64, ADDER), (130, NOT)];

#[test]
fn some_gates_are_over_no_basis(rt: HostRuntime) {
    for &(bits, text) in NONE {
        assert!(rt; text_over(rt.alloc(), bits, CoversAsked::Rows, text).is_none());
    }
}

//! Nets improved with no more levels than they have, or than a number. No contract states how many gates are left; the
//! numbers are the least ones, derived by hand.

use bench_core::read_bench;
use cdcl_core::Cdcl;
use improve_levels::improve_net_within;
use improve_windows::ImproveSettings;
use net_core::Net;
use net_levels::levels;
use progress::Silent;
use std::alloc::{AllocError, Global};

/// Whether an improvement with at most so many levels leaves so many gates and levels.
fn leaves(
    alloc: Global,
    net: &Net,
    most: u32,
    gates: usize,
    wanted: u32,
) -> Result<bool, AllocError> {
    let settings = ImproveSettings::defaults();
    let left = improve_net_within::<Cdcl, Silent>(alloc, net, settings, most, &Silent)?;
    Ok(left.gates().len() == gates && levels(alloc, &left)? == wanted)
}

/// The same of a BENCH text, if it is one.
fn text_leaves(alloc: Global, text: &str, most: u32, gates: usize, wanted: u32) -> bool {
    if text.len() > 1000 {
        return false;
    }
    let Ok(circuit) = read_bench(alloc, text.as_bytes()) else {
        return false;
    };
    leaves(alloc, &circuit.net, most, gates, wanted).unwrap_or(false)
}

/// A full adder whose carry is the OR of three products: with three levels it has five gates.
const ADDER: &str =
    "INPUT(a)\nINPUT(b)\nINPUT(c)\nOUTPUT(s)\nOUTPUT(k)\nh = XOR(a, b)\ns = XOR(h, c)\n\
    p = AND(a, b)\nq = AND(a, c)\nr = AND(b, c)\nt = OR(p, q)\nk = OR(t, r)\n";

/// Two NOTs of an input, one after the other.
const COPIED: &str = "INPUT(a)\nINPUT(b)\nOUTPUT(y)\nn = NOT(a)\nm = NOT(n)\ny = AND(m, b)\n";

#[test]
fn an_adder_keeps_its_levels(rt: HostRuntime) {
    assert!(rt; text_leaves(rt.alloc(), ADDER, 0, 5, 3));
}

#[test]
fn two_nots_go(rt: HostRuntime) {
    assert!(rt; text_leaves(rt.alloc(), COPIED, 4, 1, 1));
}

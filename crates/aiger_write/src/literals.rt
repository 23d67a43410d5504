//! Literals: complements, those of signals, and those of consecutive variables.

ghost use Rattle.std.specs.Prelude.{◌≡◌, ◌+◌, ◌<◌, ◌^◌, map, IfOk};
ghost use Rattle.aiger_core.specs.Written as spec;

use net_core::Sig;
use std::alloc::{AllocError, Global};

/// The complement of a literal.
pub fn complement(literal: u32) -> u32
    ensures { result ≡ spec.complement literal }
{
    if literal % 2 == 0 {
        literal + 1
    } else {
        literal - 1
    }
}

/// A literal, or its complement if `flip` is true.
pub fn flipped(flip: bool, literal: u32) -> u32
    ensures { result ≡ spec.flipped flip literal }
{
    if flip { complement(literal) } else { literal }
}

/// The literal of a signal, by the literals of the nodes from 0 on.
pub fn sig_literal(literals: &[u32], sig: Sig) -> u32
    ensures { result ≡ spec.sig_literal literals.now sig }
{
    match sig {
        Sig::Zero => 0,
        Sig::One => 1,
        Sig::Node(node) => match literals.get(node as usize) {
            Some(literal) => *literal,
            None => 0,
        },
    }
}

/// The literals of signals.
pub fn sig_literals(alloc: Global, literals: &[u32], sigs: &[Sig]) -> Result<Vec<u32>, AllocError>
    ensures { IfOk result (λ ls. ls.items ≡ map (spec.sig_literal literals.now) sigs.now) }
{
    let mut found = Vec::new(alloc);
    let mut left = sigs;
    while let Some((sig, rest)) = left.split_first() {
        found.push(sig_literal(literals, *sig))?;
        left = rest;
    }
    Ok(found)
}

/// The literals of `count` variables from variable `from` on.
#[tactic(auto, using(crate::proofs::Evens::evens))]
pub fn evens(alloc: Global, from: u32, count: u32) -> Result<Vec<u32>, AllocError>
    requires { from + count < 2 ^ 31 }
    ensures { IfOk result (λ ls. ls.items ≡ spec.even_from from count) }
{
    let mut literals = Vec::new(alloc);
    let mut done = 0;
    while done < count {
        literals.push((from + done) * 2)?;
        done += 1;
    }
    Ok(literals)
}

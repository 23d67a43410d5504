//! The key of a gate in the hash table of structural hashing: gates with equal keys are structurally equal, so
//! they have the same value under every assignment.
ghost use Rattle.std.specs.Prelude.{◌≡◌};
ghost use Rattle.merge_core.specs.StrashKey.{code, key_of as key};

use net_core::{Gate, Sig};
use op_basis::swapped;

/// The key of a gate: its operator's truth table and its operands as numbers, in ascending order, so that it
/// doesn't depend on the order of the operands.
#[derive(Clone, Copy, PartialEq, Eq, Hash)]
pub struct StrashKey {
    pub word: u8,
    pub low: u64,
    pub high: u64,
}

/// A signal as a number: 0 and 1 for the constants, then the nodes.
fn code_of(sig: Sig) -> u64
    ensures { result ≡ code sig }
{
    match sig {
        Sig::Zero => 0,
        Sig::One => 1,
        Sig::Node(node) => 2 + u64::from(node),
    }
}

/// The key of a gate.
#[tactic(auto, unfolding(crate::specs::StrashKey::key_of))]
pub fn key_of(gate: &Gate) -> StrashKey
    ensures { result ≡ key gate.now }
{
    let first = code_of(gate.a);
    let second = code_of(gate.b);
    if first <= second {
        return StrashKey {
            word: gate.op.get(),
            low: first,
            high: second,
        };
    }
    StrashKey {
        word: swapped(gate.op).get(),
        low: second,
        high: first,
    }
}

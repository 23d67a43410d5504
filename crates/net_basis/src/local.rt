//! The function of a gate's different signals.
ghost use Rattle.std.specs.Prelude.{◌≡◌};
ghost use Rattle.net_basis.specs.LocalWord.{first_word as first_word_of, second_word as second_word_of};
ghost use Rattle.net_basis.specs.LocalWord.{is_node as is_node_of, local_word as local_word_of};

use crate::join::{Join, function_of};
use net_core::{Gate, Sig};
use op_basis::Op;

/// The first operand as a function of a and b: a constant, or a.
fn first_word(sig: Sig) -> Op
    ensures { result ≡ first_word_of sig }
{
    match sig {
        Sig::Zero => Op::new(0),
        Sig::One => Op::new(15),
        Sig::Node(_) => Op::new(3),
    }
}

/// Whether a signal is this node.
fn is_node(sig: Sig, node: u32) -> bool
    ensures { result ≡ is_node_of sig node }
{
    match sig {
        Sig::Node(own) => own == node,
        Sig::Zero => false,
        Sig::One => false,
    }
}

/// The second operand as a function of a and b: a constant, a where it is the first operand, or b.
fn second_word(first: Sig, second: Sig) -> Op
    ensures { result ≡ second_word_of first second }
{
    match second {
        Sig::Zero => Op::new(0),
        Sig::One => Op::new(15),
        Sig::Node(node) => {
            if is_node(first, node) {
                Op::new(3)
            } else {
                Op::new(5)
            }
        }
    }
}

/// The gate's function of its different signals: a constant operand has its value, and an equal second operand is the
/// first one.
pub fn local_word(gate: &Gate) -> Op
    ensures { result ≡ local_word_of gate.now }
{
    let join = Join {
        op: gate.op,
        first: first_word(gate.a),
        second: second_word(gate.a, gate.b),
    };
    function_of(&join)
}

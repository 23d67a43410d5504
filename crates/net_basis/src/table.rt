//! The signals of functions of two operands, in a table of the sixteen functions.
ghost use Rattle.std.specs.Prelude.{◌≡◌, length};
ghost use Rattle.net_theory.specs.Moving.{put_sig};
ghost use Rattle.net_theory.specs.declared.data.Sig.TheVariants.{Zero, One};
ghost use Rattle.net_core.specs.Marks.{nodes_of};
ghost use Rattle.net_basis.specs.Placing.{HasOperands};

use net_core::Sig;
use op_basis::Op;

/// The signal of a function.
pub fn signal_of(table: &[Sig], function: Op) -> Sig
    requires { length table.now ≡ 16 }
    ensures { result ≡ nodes_of table.now function }
{
    table[usize::from(function.get())]
}

/// Writes the signal of a function.
pub fn put(table: &mut [Sig], function: Op, sig: Sig)
    requires { length table.old ≡ 16 }
    ensures put { nodes_of table.new ≡ put_sig (nodes_of table.old) function sig }
    ensures whole { length table.new ≡ length table.old }
{
    table[usize::from(function.get())] = sig;
}

/// Writes the signals of the constants, which are 0 and 15.
fn put_constants(table: &mut [Sig])
    requires { length table.old ≡ 16 }
    ensures zero { nodes_of table.new 0 ≡ Zero }
    ensures one { nodes_of table.new 15 ≡ One }
    ensures whole { length table.new ≡ length table.old }
{
    put(table, Op::new(0), Sig::Zero);
    put(table, Op::new(15), Sig::One);
}

/// Writes the signals of the functions that need no gate: the constants, and a and b, which are 3 and 5.
pub fn put_operands(table: &mut [Sig], a: Sig, b: Sig)
    requires { length table.old ≡ 16 }
    ensures operands { HasOperands (nodes_of table.new) a b }
    ensures whole { length table.new ≡ length table.old }
{
    put_constants(table);
    put(table, Op::new(3), a);
    put(table, Op::new(5), b);
}

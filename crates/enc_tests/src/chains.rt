//! The chains that solutions of formulas spell.
ghost use Rattle.std.specs.Prelude.{◌<◌};

use chain_core::{Chain, Out};
use cnf_core::{Assign, satisfied};
use enc_base::Encoding;
use enc_fence::FenceEnc;
use enc_select::Select;
use enc_ssv::{Plain, Ssv};
use enc_strong::{Strong, StrongFence};
use op_basis::{Basis, read_basis};
use settings::Method;
use std::alloc::{AllocError, Global};
use tt_core::{Spec, read_tables};

/// The chain that an assignment spells in the first subproblem of size 1, if it satisfies the formula.
pub(crate) fn decoded_by<E: Encoding>(
    alloc: Global,
    encoding: &E,
    spec: &Spec,
    basis: Basis,
    assign: &Assign,
) -> Option<Chain>
    requires { 0 < basis }
{
    let subproblems = encoding.subproblems(alloc, spec, 1).ok()?;
    let subproblem = subproblems.get(0)?;
    let cnf = encoding.formula(alloc, spec, basis, 1, subproblem).ok()?;
    if assign.bits().len() != cnf.vars() as usize || !satisfied(&cnf, assign) {
        return None;
    }
    encoding
        .decode(alloc, spec, basis, 1, subproblem, assign)
        .ok()
}

/// The bits of a text, where `1` is true.
pub(crate) fn bits_of(alloc: Global, text: &[u8]) -> Result<Vec<bool>, AllocError> {
    let mut bits = Vec::new(alloc);
    for &byte in text {
        bits.push(byte == b'1')?;
    }
    Ok(bits)
}

/// The same for tables, a basis and bits in texts.
fn decoded(
    alloc: Global,
    method: Method,
    tables: &[u8],
    basis: &[u8],
    bits: &[u8],
) -> Option<Chain> {
    if tables.len() > 1000 {
        return None;
    }
    let (Ok(read), Ok(basis), Ok(bits)) = (
        read_tables(alloc, tables),
        read_basis(basis),
        bits_of(alloc, bits),
    ) else {
        return None;
    };
    let assign = Assign::new(bits);
    match method {
        Method::Plain => decoded_by(alloc, &Plain, &read.spec, basis, &assign),
        Method::Ssv => decoded_by(alloc, &Ssv, &read.spec, basis, &assign),
        Method::Select => decoded_by(alloc, &Select, &read.spec, basis, &assign),
        Method::Fence => decoded_by(alloc, &FenceEnc, &read.spec, basis, &assign),
        Method::Strong => decoded_by(alloc, &Strong, &read.spec, basis, &assign),
        Method::StrongFence => decoded_by(alloc, &StrongFence, &read.spec, basis, &assign),
    }
}

/// Tables, a basis, and the one-step chain that solutions of their formulas spell.
pub(crate) struct Case {
    pub tables: &'static [u8],
    pub basis: &'static [u8],
    j: u32,
    k: u32,
    op: u8,
    outs: &'static [Out],
}

/// Whether the chain is that of the case.
pub(crate) fn is_chain_of(case: &Case, chain: Option<Chain>) -> bool {
    let Some(chain) = chain else {
        return false;
    };
    let [step] = chain.steps() else {
        return false;
    };
    step.j == case.j && step.k == case.k && step.op.get() == case.op && *chain.outs() == *case.outs
}

pub(crate) const XOR: Case = Case {
    tables: b"inputs 2\n0110\n",
    basis: b"all",
    j: 1,
    k: 2,
    op: 6,
    outs: &[Out::Place(3)],
};

/// x2 and not x1, by an operator whose operands can't be exchanged.
const AND_NOT: Case = Case {
    tables: b"inputs 2\n0100\n",
    basis: b"0010",
    j: 2,
    k: 1,
    op: 2,
    outs: &[Out::Place(3)],
};

/// XOR, with trivial outputs before and after it.
const THREE: Case = Case {
    tables: b"inputs 2\n0011\n0110\n----\n",
    basis: b"all",
    j: 1,
    k: 2,
    op: 6,
    outs: &[Out::Place(1), Out::Place(3), Out::Zero],
};

/// Cases, and the bits of the variables of a formula of theirs.
const CHAINS: &[(&str, Method, &Case, &[u8])] = &[
    (
        "plain: both orders of the operands are true, and the first is taken",
        Method::Plain,
        &XOR,
        b"0110101100011",
    ),
    (
        "plain: operands that can't be exchanged",
        Method::Plain,
        &AND_NOT,
        b"0100100100001",
    ),
    (
        "plain: trivial outputs around one step",
        Method::Plain,
        &THREE,
        b"0110101100010",
    ),
    (
        "ssv: operands in one order",
        Method::Ssv,
        &XOR,
        b"011010110001",
    ),
    (
        "select: operands that can't be exchanged",
        Method::Select,
        &AND_NOT,
        b"010010010011001010011",
    ),
    (
        "select: trivial outputs around one step",
        Method::Select,
        &THREE,
        b"011010110100100110101",
    ),
    ("fence: one step", Method::Fence, &XOR, b"011010110001"),
    (
        "strong: one step, which differs on all four edges",
        Method::Strong,
        &XOR,
        b"0110101100011111",
    ),
    (
        "strong-fence: the same",
        Method::StrongFence,
        &XOR,
        b"0110101100011111",
    ),
];

#[test]
fn solutions_spell_their_chains(rt: HostRuntime) {
    for &(name, method, case, bits) in CHAINS {
        let chain = decoded(rt.alloc(), method, case.tables, case.basis, bits);
        assert!(rt; is_chain_of(case, chain), "{name}");
    }
}

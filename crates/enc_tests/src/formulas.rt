//! Formulas by their numbers of variables and clauses and their checksums, which another program made.
ghost use Rattle.std.specs.Prelude.{◌<◌, ◌≤◌};

use cnf_core::{Cnf, Lit};
use enc_base::Encoding;
use enc_fence::FenceEnc;
use enc_select::Select;
use enc_ssv::{Plain, Ssv};
use enc_strong::{Strong, StrongFence};
use op_basis::{Basis, read_basis};
use settings::Method;
use std::alloc::{AllocError, Global};
use tt_core::{Spec, read_tables};

/// The formula of a subproblem of a size.
pub(crate) fn formula_by<E: Encoding>(
    alloc: Global,
    encoding: &E,
    spec: &Spec,
    basis: Basis,
    r: u32,
    which: usize,
) -> Option<Cnf>
    requires size { r ≤ 16 }
    requires operators { 0 < basis }
{
    let subproblems = encoding.subproblems(alloc, spec, r).ok()?;
    let subproblem = subproblems.get(which)?;
    encoding.formula(alloc, spec, basis, r, subproblem).ok()
}

/// The formula of a subproblem of a size, for tables and a basis in texts.
pub(crate) fn formula(
    alloc: Global,
    method: Method,
    tables: &[u8],
    basis: &[u8],
    r: u32,
    which: usize,
) -> Option<Cnf> {
    if tables.len() > 1000 || r > 16 {
        return None;
    }
    let (Ok(read), Ok(basis)) = (read_tables(alloc, tables), read_basis(basis)) else {
        return None;
    };
    match method {
        Method::Plain => formula_by(alloc, &Plain, &read.spec, basis, r, which),
        Method::Ssv => formula_by(alloc, &Ssv, &read.spec, basis, r, which),
        Method::Select => formula_by(alloc, &Select, &read.spec, basis, r, which),
        Method::Fence => formula_by(alloc, &FenceEnc, &read.spec, basis, r, which),
        Method::Strong => formula_by(alloc, &Strong, &read.spec, basis, r, which),
        Method::StrongFence => formula_by(alloc, &StrongFence, &read.spec, basis, r, which),
    }
}

/// Adds the numbers of a clause, followed by a 0.
fn push_clause(numbers: &mut Vec<i32>, lits: &[Lit]) -> Result<(), AllocError> {
    for lit in lits {
        numbers.push(lit.get())?;
    }
    numbers.push(0)?;
    Ok(())
}

/// The clauses as numbers, each followed by a 0.
pub(crate) fn numbers_of(alloc: Global, cnf: &Cnf) -> Result<Vec<i32>, AllocError> {
    let mut numbers = Vec::new(alloc);
    for clause in cnf.clauses() {
        push_clause(&mut numbers, clause.lits())?;
    }
    Ok(numbers)
}

/// The checksum of a list of numbers.
fn sum_of(numbers: &[i32]) -> u32 {
    let mut sum = 0u32;
    for number in numbers {
        sum = sum.wrapping_mul(31).wrapping_add_signed(*number);
    }
    sum
}

/// Whether there is a formula of `vars` variables and `clauses` clauses, with the checksum `sum` of its
/// clauses.
pub(crate) fn is_like(
    alloc: Global,
    formula: Option<Cnf>,
    vars: u32,
    clauses: usize,
    sum: u32,
) -> bool {
    let Some(cnf) = formula else {
        return false;
    };
    let Ok(numbers) = numbers_of(alloc, &cnf) else {
        return false;
    };
    cnf.vars() == vars && cnf.clauses().len() == clauses && sum_of(&numbers) == sum
}

pub(crate) const LIGHTS: &[u8] = b"inputs 4\n0001011101111110\n";

pub(crate) const THREE: &[u8] = b"inputs 4\n0110100110010110\n0000000000000001\n0---------------\n";

pub(crate) const XOR: &[u8] = b"inputs 2\n0110\n";

/// Formulas of subproblems, with the numbers of variables and clauses and the checksums of another program.
const SUMS: &[(&str, Method, &[u8], &[u8], u32, usize, u32, usize, u32)] = &[
    (
        "plain, one output",
        Method::Plain,
        LIGHTS,
        b"all",
        3,
        0,
        140,
        3572,
        599009576,
    ),
    (
        "ssv, one output",
        Method::Ssv,
        LIGHTS,
        b"all",
        3,
        0,
        109,
        2433,
        2276029920,
    ),
    (
        "plain, three outputs",
        Method::Plain,
        THREE,
        b"0001,0110,1000",
        3,
        0,
        143,
        3660,
        2724648464,
    ),
    (
        "ssv, three outputs",
        Method::Ssv,
        THREE,
        b"0001,0110,1000",
        3,
        0,
        112,
        2443,
        3735524217,
    ),
    (
        "fence, no step",
        Method::Fence,
        b"inputs 1\n10\n",
        b"0001",
        0,
        0,
        0,
        1,
        0,
    ),
    (
        "first fence of one output",
        Method::Fence,
        LIGHTS,
        b"all",
        3,
        0,
        84,
        1231,
        1713344511,
    ),
    (
        "second fence of one output",
        Method::Fence,
        LIGHTS,
        b"all",
        3,
        1,
        94,
        1629,
        2901222639,
    ),
    (
        "first fence of three outputs",
        Method::Fence,
        THREE,
        b"0001,0110,1000",
        3,
        0,
        87,
        1273,
        1473757573,
    ),
    (
        "second fence of three outputs",
        Method::Fence,
        THREE,
        b"0001,0110,1000",
        3,
        1,
        86,
        1155,
        1444629802,
    ),
    (
        "third fence of three outputs",
        Method::Fence,
        THREE,
        b"0001,0110,1000",
        3,
        2,
        97,
        1664,
        768145087,
    ),
    (
        "strong, one output",
        Method::Strong,
        LIGHTS,
        b"all",
        3,
        0,
        157,
        3721,
        4048646189,
    ),
    (
        "strong, three outputs",
        Method::Strong,
        THREE,
        b"0001,0110,1000",
        3,
        0,
        208,
        4659,
        1974526838,
    ),
    (
        "strong-fence, second fence of one output",
        Method::StrongFence,
        LIGHTS,
        b"all",
        3,
        1,
        142,
        2462,
        22478931,
    ),
    (
        "strong-fence, sixth fence of three outputs",
        Method::StrongFence,
        THREE,
        b"0001,0110,1000",
        4,
        5,
        264,
        5022,
        1118553617,
    ),
];

#[test]
fn formulas_have_the_checksums_of_another_program(rt: HostRuntime) {
    for &(name, method, tables, basis, r, which, vars, clauses, sum) in SUMS {
        let formula = formula(rt.alloc(), method, tables, basis, r, which);
        let alike = is_like(rt.alloc(), formula, vars, clauses, sum);
        assert!(rt; alike, "{name}");
    }
}

/// Formulas of two steps for XOR over sets of operators, for nine combinations of the five properties of a
/// basis.
const SUMS_OF_BASES: &[(&str, Method, &[u8], u32, usize, u32)] = &[
    (
        "ssv: 0, first, XOR",
        Method::Ssv,
        b"0000,0011,0110",
        31,
        211,
        141350951,
    ),
    (
        "select: 0, first, XOR",
        Method::Select,
        b"0000,0011,0110",
        44,
        172,
        3144029014,
    ),
    (
        "ssv: 0, first, 1",
        Method::Ssv,
        b"0000,0011,1111",
        31,
        220,
        2272156084,
    ),
    (
        "select: 0, first, 1",
        Method::Select,
        b"0000,0011,1111",
        44,
        181,
        1642880629,
    ),
    (
        "ssv: 0, first, NOR",
        Method::Ssv,
        b"0000,0011,1000",
        31,
        206,
        1967670986,
    ),
    (
        "select: 0, first, NOR",
        Method::Select,
        b"0000,0011,1000",
        44,
        167,
        3118167463,
    ),
    (
        "ssv: 0, first, NOT second",
        Method::Ssv,
        b"0000,0011,1010",
        31,
        220,
        1890792365,
    ),
    (
        "select: 0, first, NOT second",
        Method::Select,
        b"0000,0011,1010",
        44,
        187,
        2937158271,
    ),
    (
        "ssv: 0, second, NOT second, 1",
        Method::Ssv,
        b"0000,0101,1010,1111",
        31,
        222,
        4002883182,
    ),
    (
        "select: 0, second, NOT second, 1",
        Method::Select,
        b"0000,0101,1010,1111",
        44,
        189,
        3453105558,
    ),
    (
        "ssv: first, second, XOR",
        Method::Ssv,
        b"0011,0101,0110",
        27,
        150,
        4086971746,
    ),
    (
        "select: first, second, XOR",
        Method::Select,
        b"0011,0101,0110",
        44,
        167,
        926684078,
    ),
    (
        "ssv: 0, first, second, XOR",
        Method::Ssv,
        b"0000,0011,0101,0110",
        27,
        152,
        296785563,
    ),
    (
        "select: 0, first, second, XOR",
        Method::Select,
        b"0000,0011,0101,0110",
        44,
        169,
        1325322310,
    ),
    ("ssv: 0, 1", Method::Ssv, b"0000,1111", 27, 163, 3411101679),
    (
        "select: 0, 1",
        Method::Select,
        b"0000,1111",
        44,
        180,
        1631859616,
    ),
    (
        "ssv: 0, NOT second, NOT first",
        Method::Ssv,
        b"0000,1010,1100",
        27,
        161,
        2726093368,
    ),
    (
        "select: 0, NOT second, NOT first",
        Method::Select,
        b"0000,1010,1100",
        44,
        190,
        2185277293,
    ),
];

#[test]
fn formulas_have_the_cuts_that_their_bases_allow(rt: HostRuntime) {
    for &(name, method, basis, vars, clauses, sum) in SUMS_OF_BASES {
        let formula = formula(rt.alloc(), method, XOR, basis, 2, 0);
        let alike = is_like(rt.alloc(), formula, vars, clauses, sum);
        assert!(rt; alike, "{name}");
    }
}

//! Tests of the decomposition of tables, and of the gates' values.

ghost use Rattle.std.specs.Prelude.{◌≡◌, IsTrue, IfOk};
ghost use Rattle.std.specs.List.{list_all};
ghost use Rattle.net_theory.specs.Cover.{IsCover, is_cube as is_cube_of, is_cube_byte};

use net_core::{
    Body, Connective, Cover, Cube, Net, Sig, Whole, body_value, cover_cost, expand, expand_body,
    values,
};
use std::alloc::{AllocError, Global};

/// Whether all bytes are `0`, `1` or `-`.
fn are_cube_bytes(bytes: &[u8]) -> bool
    ensures { result ≡ list_all is_cube_byte bytes.now }
{
    bytes
        .iter()
        .all(|byte| *byte == b'0' || *byte == b'1' || *byte == b'-')
}

/// Whether `bytes` form a cube of `width` inputs.
fn is_cube(width: u32, bytes: &[u8]) -> bool
    ensures { result ≡ is_cube_of width bytes.now }
{
    bytes.len() == width as usize && are_cube_bytes(bytes)
}

/// Whether all cubes of the cover are valid.
pub fn is_cover(cover: &Cover) -> bool
    ensures { IsTrue result → IsCover cover.now }
{
    cover
        .cubes
        .iter()
        .all(|cube| is_cube(cover.width, cube.get()))
}

/// A cover of three inputs.
pub fn cover(alloc: Global, cubes: &[&[u8]], on: bool) -> Result<Cover, AllocError>
    ensures { IfOk result (λ cover. cover.width ≡ 3) }
{
    let mut all = Vec::new(alloc);
    for cube in cubes {
        all.push(Cube::new(Vec::from_slice(alloc, cube)?))?;
    }
    Ok(Cover {
        width: 3,
        cubes: all,
        on,
    })
}

/// The value of a signal, as a digit.
pub fn digit(sig: Sig, nodes: &[bool]) -> u8 {
    let value = match sig {
        Sig::Zero => false,
        Sig::One => true,
        Sig::Node(node) => nodes
            .get((node as usize).wrapping_sub(1))
            .copied()
            .unwrap_or(false),
    };
    if value { b'1' } else { b'0' }
}

/// The value of a signal of a net of three sources under the assignment `row`, as a digit.
fn value_on(alloc: Global, net: &Net, sig: Sig, row: u32) -> Result<u8, AllocError>
    requires { net.now.sources ≡ 3 }
{
    let mut nodes = vec![in alloc; false; 3 + net.gates().len()]?;
    values(net, &[row & 4 == 4, row & 2 == 2, row & 1 == 1], &mut nodes);
    Ok(digit(sig, &nodes))
}

/// Whether a signal of a net of three sources has the values `digits` under the assignments 000, 001, 010 and so
/// on.
fn has_rows(alloc: Global, net: &Net, sig: Sig, digits: &[u8]) -> Result<bool, AllocError>
    requires { net.now.sources ≡ 3 }
{
    for row in 0..8u32 {
        let value = value_on(alloc, net, sig, row)?;
        if digits.get(row as usize) != Some(&value) {
            return Ok(false);
        }
    }
    Ok(digits.len() == 8)
}

/// Whether a cover of three inputs is expanded into `gates` gates with the values `digits`.
fn is_expanded(
    alloc: Global,
    cover: &Cover,
    digits: &[u8],
    gates: usize,
) -> Result<bool, AllocError>
    requires { cover.now.width ≡ 3 }
{
    let inputs = [Sig::Node(1), Sig::Node(2), Sig::Node(3)];
    if !is_cover(cover) || cover.cubes.len() > 4096 || cover_cost(cover, &inputs) > 1000 {
        return Ok(false);
    }
    let mut net = Net::new(3, Vec::new(alloc), Vec::new(alloc));
    let sig = expand(alloc, &mut net, cover, &inputs)?;
    let few = net.gates().len() == gates;
    let rows = has_rows(alloc, &net, sig, digits);
    drop(net);
    Ok(few && rows?)
}

/// Whether a table of three inputs is expanded into `gates` gates with the values `digits`.
fn is_built(
    alloc: Global,
    cubes: &[&[u8]],
    on: bool,
    digits: &[u8],
    gates: usize,
) -> Result<bool, AllocError> {
    let cover = cover(alloc, cubes, on)?;
    let built = is_expanded(alloc, &cover, digits, gates);
    drop(cover);
    built
}

/// Covers: their cubes, whether these are of the on-set, the values, and the numbers of gates.
const COVERS: &[(&str, &[&[u8]], bool, &str, usize)] = &[
    ("a multiplexer", &[b"1-0", b"-11"], true, "00011011", 3),
    ("OR by its off-set", &[b"000"], false, "01111111", 2),
    ("an input", &[b"1--"], true, "00001111", 0),
    ("NOT", &[b"0--"], true, "11110000", 1),
    ("NOT by its off-set", &[b"1--"], false, "11110000", 1),
    ("an input by its off-set", &[b"0--"], false, "00001111", 0),
    ("XOR", &[b"01-", b"10-"], true, "00111100", 3),
    (
        "XNOR by its off-set",
        &[b"01-", b"10-"],
        false,
        "11000011",
        3,
    ),
    (
        "1 by a cube without literals",
        &[b"111", b"---"],
        true,
        "11111111",
        0,
    ),
    (
        "0 by a cube without literals",
        &[b"---"],
        false,
        "00000000",
        0,
    ),
    ("0 by no cube", &[], true, "00000000", 0),
    ("0 by no cube of the off-set", &[], false, "00000000", 0),
];

#[test]
fn covers_become_gates_of_the_same_values(rt: HostRuntime) {
    for &(name, cubes, on, digits, gates) in COVERS {
        let built = is_built(rt.alloc(), cubes, on, digits.as_bytes(), gates);
        assert!(rt; matches!(built, Ok(true)), "{name}");
    }
}

/// Whether joining three inputs takes two gates and has the values `digits`.
#[tactic(auto, using(net_core::specs::BodyLaws::joined_cost))]
fn is_joined(alloc: Global, whole: Whole, digits: &[u8]) -> Result<bool, AllocError>
    requires { whole.width ≡ 3 }
{
    let mut net = Net::new(3, Vec::new(alloc), Vec::new(alloc));
    let inputs = [Sig::Node(1), Sig::Node(2), Sig::Node(3)];
    let sig = expand_body(alloc, &mut net, &Body::Joined(whole), &inputs)?;
    let few = net.gates().len() == 2;
    let rows = has_rows(alloc, &net, sig, digits);
    drop(net);
    Ok(few && rows?)
}

/// The connective that joins three inputs, whether the result isn't complemented, and the values.
const JOINED: &[(&str, Connective, bool, &str)] = &[
    ("AND", Connective::And, true, "00000001"),
    ("NAND", Connective::And, false, "11111110"),
    ("OR", Connective::Or, true, "01111111"),
    ("NOR", Connective::Or, false, "10000000"),
    ("XOR", Connective::Xor, true, "01101001"),
    ("XNOR", Connective::Xor, false, "10010110"),
];

/// Whether `whole` has the value of `digits` at 1, 1 and 0.
fn is_valued(whole: Whole, digits: &[u8]) -> bool
    requires { whole.width ≡ 3 }
{
    let value = body_value(&Body::Joined(whole), &[true, true, false]);
    digits.len() == 8 && value == (digits[6] == b'1')
}

#[test]
fn three_operands_are_joined_by_two_gates(rt: HostRuntime) {
    for &(name, connective, on, digits) in JOINED {
        let whole = Whole {
            connective,
            width: 3,
            on,
        };
        let joined = is_joined(rt.alloc(), whole, digits.as_bytes());
        let well = is_valued(whole, digits.as_bytes());
        assert!(rt; well && matches!(joined, Ok(true)), "{name}");
    }
}

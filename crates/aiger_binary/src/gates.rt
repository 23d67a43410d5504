//! The lines of gates.

ghost use Rattle.std.specs.Prelude.{◌≡◌, ◌+◌, ◌≤◌, ◌++◌, OnOk, IfOk};
ghost use Rattle.std.specs.Option.{option_map};
ghost use Rattle.aiger_binary.specs.Ascii as spec;
ghost use Rattle.aiger_binary.specs.Header.{most_count};

use crate::codes::number_between;
use std::alloc::AllocError;
use text_core::push_number;

/// The fanins of a gate, and the bytes after it.
#[derive(Clone, Copy)]
struct Fanins<'a> {
    first: u32,
    second: u32,
    rest: &'a [u8],
}

/// The fanins of the gate of a literal, which the bytes begin with.
fn fanins_in(literal: u32, bytes: &[u8]) -> Option<Fanins<'_>>
    ensures { option_map (λ (f : Fanins). spec.fanins f.first f.second f.rest.now) result ≡
        spec.fanins_in literal bytes.now }
{
    let below = number_between(1, literal, bytes)?;
    let first = literal - below.number;
    let further = number_between(0, first, below.rest)?;
    Some(Fanins {
        first,
        second: first - further.number,
        rest: further.rest,
    })
}

/// Adds the line of a gate.
fn push_line(out: &mut Vec<u8>, literal: u32, first: u32, second: u32) -> Result<(), AllocError>
    ensures { OnOk result (out.new.items ≡ out.old.items ++ spec.gate_line literal first second) }
{
    push_number(out, literal)?;
    out.push(b' ')?;
    push_number(out, first)?;
    out.push(b' ')?;
    push_number(out, second)?;
    out.push(b'\n')?;
    Ok(())
}

/// Adds the line of the gate of a literal, and returns the bytes that are left; none where there is no gate.
fn push_gate<'a>(out: &mut Vec<u8>, literal: u32, bytes: &'a [u8]) -> Result<&'a [u8], AllocError>
    ensures { IfOk result (λ rest. spec.stage out.new.items rest.now ≡
        spec.gate_in literal (spec.stage out.old.items bytes.now)) }
{
    let Some(fanins) = fanins_in(literal, bytes) else {
        return Ok(&[]);
    };
    push_line(out, literal, fanins.first, fanins.second)?;
    Ok(fanins.rest)
}

/// Adds the lines of gates, and returns the bytes that are left.
#[tactic(auto, using(crate::proofs::OneMore::gates))]
pub(crate) fn push_gates<'a>(
    out: &mut Vec<u8>,
    first: u32,
    count: u32,
    bytes: &'a [u8],
) -> Result<&'a [u8], AllocError>
    requires { first + count ≤ most_count + 1 }
    ensures { IfOk result (λ rest. spec.stage out.new.items rest.now ≡
        spec.gates_in first count (spec.stage out.old.items bytes.now)) }
{
    let mut variable = first;
    let mut left = count;
    let mut rest = bytes;
    while left > 0 {
        rest = push_gate(out, variable * 2, rest)?;
        variable += 1;
        left -= 1;
    }
    Ok(rest)
}

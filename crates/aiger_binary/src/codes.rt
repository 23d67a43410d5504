//! Numbers of the binary form.

ghost use Rattle.std.specs.Prelude.{◌≤◌, ◌<◌, ◌^◌, ◌≡◌, IfSome};
ghost use Rattle.std.specs.Option.{option_map};
ghost use Rattle.aiger_binary.specs.Codes as spec;

/// The most bytes of a number; `specs/Codes` has the same.
const MOST_BYTES: u32 = 4;

/// A number, and the bytes after it.
#[derive(Clone, Copy)]
pub(crate) struct Coded<'a> {
    pub(crate) number: u32,
    pub(crate) rest: &'a [u8],
}

/// The number that the bytes begin with, if it has at most `room` of them.
#[tactic(auto, using(crate::proofs::Powers::powers), unfolding(crate::specs::Codes::number_in))]
fn number_in(room: u32, bytes: &[u8]) -> Option<Coded<'_>>
    requires { room ≤ 4 }
    ensures exact { option_map (λ (c : Coded). spec.coded c.number c.rest.now) result ≡
        spec.number_in room bytes.now }
    ensures low { IfSome result (λ c. c.number < 128 ^ room) }
{
    if room == 0 {
        return None;
    }
    let (byte, rest) = bytes.split_first()?;
    if *byte < 128 {
        return Some(Coded {
            number: u32::from(*byte),
            rest,
        });
    }
    let more = number_in(room - 1, rest)?;
    Some(Coded {
        number: u32::from(*byte % 128) + 128 * more.number,
        rest: more.rest,
    })
}

/// The number that the bytes begin with, if it is between two bounds.
pub(crate) fn number_between(least: u32, most: u32, bytes: &[u8]) -> Option<Coded<'_>>
    ensures exact { option_map (λ (c : Coded). spec.coded c.number c.rest.now) result ≡
        spec.number_between least most bytes.now }
    ensures low { IfSome result (λ c. c.number ≤ most) }
{
    let coded = number_in(MOST_BYTES, bytes)?;
    if least <= coded.number && coded.number <= most {
        Some(coded)
    } else {
        None
    }
}

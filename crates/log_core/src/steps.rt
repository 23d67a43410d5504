//! Differences between consecutive ids as numbers (zigzag encoding). Hints are mostly close to each other, so most
//! differences take two bytes.
ghost use Rattle.std.specs.Prelude.{◌≡◌};
ghost use Rattle.log_core.specs.Lists as spec;

/// The greatest id.
const MOST_ID: u64 = sat_theory::MOST_ID as u64;

/// The step from one id to the next: one up by d is 2 d, one down by d is 2 d - 1.
#[tactic(auto, unfolding(crate::specs::Lists::step))]
pub(crate) fn step(last: u32, id: u32) -> u64
    ensures { result ≡ spec.step last id }
{
    let twice = 2 * (i64::from(id) - i64::from(last));
    if id >= last {
        twice as u64
    } else {
        (-twice - 1) as u64
    }
}

/// The id that a step leads to, clamped to 32 bits.
#[tactic(auto, unfolding(crate::specs::Lists::stepped))]
pub(crate) fn stepped(last: u32, number: u64) -> u32
    ensures { result ≡ spec.stepped last number }
{
    if number % 2 == 0 {
        return (u64::from(last) + number / 2).min(MOST_ID) as u32;
    }
    u64::from(last).saturating_sub(number / 2 + 1) as u32
}

//! Sets of small numbers as masks: number i is a member if the digit of weight 2^i is 1.
ghost use Rattle.std.specs.Prelude.{◌≡◌, ℕ, ◌≤◌, ◌<◌};
ghost use Rattle.chain_theory.specs.Operator.{digit};
ghost use Rattle.chain_laws.specs.Follow.{with_own};
ghost use Rattle.bound_core.specs.Counts.{count_below};

/// Whether a number below 32 is a member.
pub(crate) fn has(mask: u32, number: u32) -> bool
    requires { number < 32 }
    ensures { result ≡ digit mask number }
{
    (mask >> number) & 1 == 1
}

/// The set with a number below 32 put in or taken out, as `member` says.
#[tactic(auto, using(crate::specs::MaskLaws::masking))]
pub(crate) fn put(mask: u32, number: u32, member: bool) -> u32
    requires { number < 32 }
    ensures { (i : ℕ) → digit result i ≡ with_own (digit mask) number member i }
{
    let old = has(mask, number);
    if old == member {
        return mask;
    }
    mask ^ (1u32 << number)
}

/// How many numbers below `bound` are members.
#[tactic(auto, using(crate::specs::LoopLaws::counting))]
pub(crate) fn count(mask: u32, bound: u32) -> u32
    requires { bound ≤ 32 }
    ensures count { result ≡ count_below (digit mask) bound }
    ensures few { result ≤ bound }
{
    let mut count = 0u32;
    for number in 0..bound {
        count += u32::from(has(mask, number));
    }
    count
}

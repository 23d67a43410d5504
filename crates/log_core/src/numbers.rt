//! Numbers as bytes, one byte for each digit in base 128: appended to an array, and read from its start. Room for
//! the digits is reserved once for all numbers of a line before, so appending a byte doesn't check it.
ghost use Rattle.std.specs.Prelude.{◌≡◌, ◌+◌, [], ◌∷◌, ◌++◌, ◌<◌, ◌≤◌, length, vec_len, IfSome, IfNone};
ghost use Rattle.std.specs.Vec.{vec_capacity};
ghost use Rattle.log_core.specs.Numbers as spec;
ghost use Rattle.log_core.specs.Numbers.{leading, far, written, numbers_from};

/// The most digits of a number.
pub(crate) const MOST_DIGITS: usize = 5;

/// Appends the last digit of a number, with the continuation bit; nothing for 0.
#[tactic(auto, using(crate::proofs::After::after), unfolding(crate::specs::Numbers::leading))]
fn put_leading(bytes: &mut Vec<u8>, number: u64)
    requires room { vec_len bytes.old < vec_capacity bytes.old }
    ensures items { bytes.new.items ≡ bytes.old.items ++ leading number }
    ensures few { vec_len bytes.new ≤ vec_len bytes.old + 1 }
    ensures capacity { vec_capacity bytes.new ≡ vec_capacity bytes.old }
{
    if number == 0 {
        return;
    }
    bytes.push_reserved((number % 128) as u8 + 128);
}

/// Appends the last three digits of a number, all with the continuation bit. Few numbers need this.
#[tactic(auto, using(crate::proofs::After::after), unfolding(crate::specs::Numbers::far))]
fn put_far(bytes: &mut Vec<u8>, number: u64)
    requires room { vec_len bytes.old + 3 ≤ vec_capacity bytes.old }
    ensures items { bytes.new.items ≡ bytes.old.items ++ far number }
    ensures few { vec_len bytes.new ≤ vec_len bytes.old + 3 }
    ensures capacity { vec_capacity bytes.new ≡ vec_capacity bytes.old }
{
    if number == 0 {
        return;
    }
    put_leading(bytes, number / 16_384);
    put_leading(bytes, number / 128);
    put_leading(bytes, number);
}

/// Appends a number of any size.
#[tactic(auto, using(crate::proofs::After::after), unfolding(crate::specs::Numbers::written))]
fn put_long(bytes: &mut Vec<u8>, number: u64)
    requires room { vec_len bytes.old + 5 ≤ vec_capacity bytes.old }
    ensures items { bytes.new.items ≡ bytes.old.items ++ written number }
    ensures few { vec_len bytes.new ≤ vec_len bytes.old + 5 }
    ensures capacity { vec_capacity bytes.new ≡ vec_capacity bytes.old }
{
    put_far(bytes, number / 16_384);
    put_leading(bytes, number / 128);
    bytes.push_reserved((number % 128) as u8);
}

/// Appends a number of two digits, as most are.
#[tactic(auto, using(crate::proofs::After::numbers))]
fn put_two(bytes: &mut Vec<u8>, number: u64)
    requires low { 128 ≤ number }
    requires high { number < 16384 }
    requires room { vec_len bytes.old + 2 ≤ vec_capacity bytes.old }
    ensures items { bytes.new.items ≡ bytes.old.items ++ written number }
    ensures few { vec_len bytes.new ≤ vec_len bytes.old + 2 }
    ensures capacity { vec_capacity bytes.new ≡ vec_capacity bytes.old }
{
    bytes.push_reserved((number / 128) as u8 + 128);
    bytes.push_reserved((number % 128) as u8);
}

/// Appends a number of three digits, as a third of the hints of a long log are.
#[tactic(auto, using(crate::proofs::After::numbers))]
fn put_three(bytes: &mut Vec<u8>, number: u64)
    requires low { 16384 ≤ number }
    requires high { number < 2097152 }
    requires room { vec_len bytes.old + 3 ≤ vec_capacity bytes.old }
    ensures items { bytes.new.items ≡ bytes.old.items ++ written number }
    ensures few { vec_len bytes.new ≤ vec_len bytes.old + 3 }
    ensures capacity { vec_capacity bytes.new ≡ vec_capacity bytes.old }
{
    bytes.push_reserved((number / 16_384) as u8 + 128);
    bytes.push_reserved((number / 128 % 128) as u8 + 128);
    bytes.push_reserved((number % 128) as u8);
}

/// Appends a number, for whose digits there is room. The first three tests suffice for nearly all numbers. It is
/// meant to be inlined into its callers' loops, which hold the array by value.
#[inline(always)]
#[tactic(auto, using(crate::proofs::After::numbers))]
pub(crate) fn put_number(bytes: &mut Vec<u8>, number: u64)
    requires room { vec_len bytes.old + MOST_DIGITS ≤ vec_capacity bytes.old }
    ensures items { bytes.new.items ≡ bytes.old.items ++ written number }
    ensures few { vec_len bytes.new ≤ vec_len bytes.old + MOST_DIGITS }
    ensures capacity { vec_capacity bytes.new ≡ vec_capacity bytes.old }
{
    if number < 128 {
        bytes.push_reserved(number as u8);
        return;
    }
    if number < 16_384 {
        put_two(bytes, number);
        return;
    }
    if number < 2_097_152 {
        put_three(bytes, number);
        return;
    }
    put_long(bytes, number);
}

/// A number with one more digit, read from a byte with the continuation bit. Before its last digit the number is
/// clamped to 2^34.
#[tactic(auto, unfolding(crate::specs::Numbers::grown))]
fn grown(number: u64, byte: u8) -> u64
    requires number { number ≤ 17179869184 }
    requires byte { 128 ≤ byte }
    ensures value { result ≡ spec.grown number byte }
    ensures small { result ≤ 17179869184 }
{
    (number * 128 + u64::from(byte - 128)).min(17_179_869_184)
}

/// The first number that bytes spell, after the digits `n` have been read, and the bytes after it.
#[tactic(auto, using(crate::proofs::Taken::taken))]
fn number_after(digits: u64, bytes: &[u8]) -> Option<(u64, &[u8])>
    requires { digits ≤ 17179869184 }
    ensures none { IfNone result (numbers_from digits bytes.now ≡ []) }
    ensures some { IfSome result (λ x. numbers_from digits bytes.now ≡ x.0 ∷ numbers_from 0 x.1.now) }
    ensures shorter { IfSome result (λ x. length x.1.now < length bytes.now) }
{
    let mut number = digits;
    let mut left = bytes;
    while let Some((byte, rest)) = left.split_first() {
        if *byte < 128 {
            return Some((number * 128 + u64::from(*byte), rest));
        }
        number = grown(number, *byte);
        left = rest;
    }
    None
}

/// The first number that bytes spell, and the bytes after it; None if none is left. Any bytes spell numbers;
/// digits without a last one are ignored. Nearly all numbers have at most three digits, which are tested one by
/// one; it is meant to be inlined into its callers' loops.
#[inline(always)]
#[tactic(auto, using(crate::proofs::Taken::taken))]
pub(crate) fn next_number(bytes: &[u8]) -> Option<(u64, &[u8])>
    ensures none { IfNone result (numbers_from 0 bytes.now ≡ []) }
    ensures some { IfSome result (λ x. numbers_from 0 bytes.now ≡ x.0 ∷ numbers_from 0 x.1.now) }
    ensures shorter { IfSome result (λ x. length x.1.now < length bytes.now) }
{
    let (first, after_first) = bytes.split_first()?;
    if *first < 128 {
        return Some((u64::from(*first), after_first));
    }
    let one = grown(0, *first);
    let (second, after_second) = after_first.split_first()?;
    if *second < 128 {
        return Some((one * 128 + u64::from(*second), after_second));
    }
    let two = grown(one, *second);
    let (third, after_third) = after_second.split_first()?;
    if *third < 128 {
        return Some((two * 128 + u64::from(*third), after_third));
    }
    number_after(grown(two, *third), after_third)
}

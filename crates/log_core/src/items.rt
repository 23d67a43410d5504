//! Ids as items of a text, each followed by a blank. Room is reserved before, once for all items of a line. Digits
//! are appended two by two, without a temporary buffer.
ghost use Rattle.std.specs.Prelude.{◌≡◌, ◌+◌, ◌/◌, ◌%◌, ◌<◌, ◌≤◌, [], ◌∷◌, ◌++◌, decimal, vec_len};
ghost use Rattle.std.specs.Vec.{vec_capacity};
ghost use Rattle.lrat_text.specs.Spelling.{id_item};

/// The most characters of an item: a sign, ten digits and a blank.
pub(crate) const MOST_CHARACTERS: usize = 12;

/// The two digits of each number below 100, one number after another.
static PAIRS: [u8; 200] = *b"\
    00010203040506070809101112131415161718192021222324252627282930313233343536373839\
    40414243444546474849505152535455565758596061626364656667686970717273747576777879\
    8081828384858687888990919293949596979899";

/// Appends the two digits of a number below 100, of which the first may be 0.
#[tactic(auto, using(crate::proofs::Digits::pairs))]
fn put_pair(out: &mut Vec<u8>, number: u32)
    requires few { number < 100 }
    requires room { vec_len out.old + 2 ≤ vec_capacity out.old }
    ensures items { out.new.items ≡ out.old.items ++ (48 + number / 10) ∷ (48 + number % 10) ∷ [] }
    ensures within { vec_len out.new ≤ vec_len out.old + 2 }
    ensures capacity { vec_capacity out.new ≡ vec_capacity out.old }
{
    let at = number as usize * 2;
    out.push_reserved(PAIRS[at]);
    out.push_reserved(PAIRS[at + 1]);
}

/// Appends a number of at most two digits.
#[tactic(auto, using(crate::proofs::Digits::digits))]
fn put_two(out: &mut Vec<u8>, number: u32)
    requires few { number < 100 }
    requires room { vec_len out.old + 2 ≤ vec_capacity out.old }
    ensures items { out.new.items ≡ out.old.items ++ decimal number }
    ensures within { vec_len out.new ≤ vec_len out.old + 2 }
    ensures capacity { vec_capacity out.new ≡ vec_capacity out.old }
{
    if number >= 10 {
        put_pair(out, number);
    } else {
        out.push_reserved(number as u8 + b'0');
    }
}

/// Appends a number of at most four digits.
#[tactic(auto, using(crate::proofs::Digits::digits))]
fn put_four(out: &mut Vec<u8>, number: u32)
    requires few { number < 10000 }
    requires room { vec_len out.old + 4 ≤ vec_capacity out.old }
    ensures items { out.new.items ≡ out.old.items ++ decimal number }
    ensures within { vec_len out.new ≤ vec_len out.old + 4 }
    ensures capacity { vec_capacity out.new ≡ vec_capacity out.old }
{
    if number >= 100 {
        put_two(out, number / 100);
        put_pair(out, number % 100);
    } else {
        put_two(out, number);
    }
}

/// Appends a number of at most six digits; mostly it has two.
#[tactic(auto, using(crate::proofs::Digits::digits))]
fn put_six(out: &mut Vec<u8>, number: u32)
    requires few { number < 1000000 }
    requires room { vec_len out.old + 6 ≤ vec_capacity out.old }
    ensures items { out.new.items ≡ out.old.items ++ decimal number }
    ensures within { vec_len out.new ≤ vec_len out.old + 6 }
    ensures capacity { vec_capacity out.new ≡ vec_capacity out.old }
{
    if number < 100 {
        put_two(out, number);
    } else {
        put_four(out, number / 100);
        put_pair(out, number % 100);
    }
}

/// Appends a number of any size. The first test separates four digits from five, since most hints have four or
/// five. It is meant to be inlined into `put_id`.
#[inline(always)]
#[tactic(auto, using(crate::proofs::Digits::halves))]
fn put_digits(out: &mut Vec<u8>, number: u32)
    requires room { vec_len out.old + 10 ≤ vec_capacity out.old }
    ensures items { out.new.items ≡ out.old.items ++ decimal number }
    ensures within { vec_len out.new ≤ vec_len out.old + 10 }
    ensures capacity { vec_capacity out.new ≡ vec_capacity out.old }
{
    if number < 10_000 {
        put_four(out, number);
    } else {
        put_six(out, number / 10_000);
        put_pair(out, number % 10_000 / 100);
        put_pair(out, number % 10_000 % 100);
    }
}

/// Appends an id, followed by a blank. It is meant to be inlined into its callers' loops, which hold the text by
/// value.
#[inline(always)]
pub(crate) fn put_id(out: &mut Vec<u8>, id: u32)
    requires room { vec_len out.old + 11 ≤ vec_capacity out.old }
    ensures items { out.new.items ≡ out.old.items ++ id_item id }
    ensures within { vec_len out.new ≤ vec_len out.old + 11 }
    ensures capacity { vec_capacity out.new ≡ vec_capacity out.old }
{
    put_digits(out, id);
    out.push_reserved(b' ');
}

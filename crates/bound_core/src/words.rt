//! The tests of one output or two, on all 64 rows at once: which inputs an output uses, by its words and the
//! same words shifted; whether a constant or an input has all its specified values; and whether two outputs
//! differ.
ghost use Rattle.std.specs.Prelude.{◌≡◌, ℕ, ◌^◌, ◌<◌, ◌≤◌, length};
ghost use Rattle.chain_theory.specs.Operator.{digit};
ghost use Rattle.chain_theory.specs.declared.data.Out.{Out};
ghost use Rattle.tt_core.specs.Live.{is_live as is_live_of, trivial_value, fits};
ghost use Rattle.tt_core.specs.Words.{specification};
ghost use Rattle.bound_core.specs.Counts.{uses as uses_of, differ as differ_of};
ghost use Rattle.bound_core.specs.WordLaws.{low_rows as low_rows_of, sensitive_rows as sensitive_rows_of};
ghost use Rattle.chain_theory.specs.Limits.{most_inputs};

use op_basis::{input_word, spread};
use tt_core::Spec;

/// The rows whose digit of weight 2^k is 0.
fn low_rows(k: u32) -> u64
    requires { k < most_inputs }
    ensures { result ≡ low_rows_of k }
{
    !input_word(k)
}

/// The rows on which the output is sensitive to an input: rows t whose digit of weight 2^k is 0, where
/// rows t and t + 2^k are both specified and have different values.
#[tactic(auto, using(crate::proofs::Loops::shifting))]
fn sensitive_rows(on: u64, care: u64, k: u32) -> u64
    requires { k < most_inputs }
    ensures { result ≡ sensitive_rows_of on care k }
{
    let step = 1u32 << k;
    care & (care >> step) & (on ^ (on >> step)) & low_rows(k)
}

/// Whether output `h` uses input `j` (has it in its support): on two rows that differ in that input alone, its
/// cells are 0 and 1. Both are numbered from 1.
pub fn uses(spec: &Spec, h: u32, j: u32) -> bool
    requires output { (1 ≤ h) × (h ≤ length spec.now.on) }
    requires input { (1 ≤ j) × (j ≤ spec.now.n) }
    ensures { result ≡ uses_of (specification spec.now) h j }
{
    let k = spec.n() - j;
    let output = (h - 1) as usize;
    sensitive_rows(spec.on()[output], spec.care()[output], k) != 0
}

/// Whether outputs `g` and `h`, numbered from 1, differ: both are specified on some row, with different values.
pub(crate) fn differ(spec: &Spec, g: u32, h: u32) -> bool
    requires first { (1 ≤ g) × (g ≤ length spec.now.on) }
    requires second { (1 ≤ h) × (h ≤ length spec.now.on) }
    ensures { result ≡ differ_of (specification spec.now) g h }
{
    // for the prover: brings in the invariant of the specification
    let _inputs = spec.n();
    let one = (g - 1) as usize;
    let other = (h - 1) as usize;
    spec.care()[one] & spec.care()[other] & (spec.on()[one] ^ spec.on()[other]) != 0
}

/// Whether a word has all specified values of output `h`, numbered from 1.
fn has_values(spec: &Spec, h: u32, word: u64) -> bool
    requires { (1 ≤ h) × (h ≤ length spec.now.on) }
    ensures { (out : Out) → ((t : ℕ) → t < 2 ^ spec.now.n → digit word t ≡ trivial_value spec.now.n t out) →
        result ≡ fits (specification spec.now) h out }
{
    // for the prover: brings in the invariant of the specification
    let _inputs = spec.n();
    let output = (h - 1) as usize;
    (word ^ spec.on()[output]) & spec.care()[output] == 0
}

/// Whether output `h` is live: neither a constant nor an input has all its specified values.
pub(crate) fn is_live(spec: &Spec, h: u32) -> bool
    requires { (1 ≤ h) × (h ≤ length spec.now.on) }
    ensures { result ≡ is_live_of (specification spec.now) h }
{
    let n = spec.n();
    if has_values(spec, h, spread(false)) {
        return false;
    }
    if has_values(spec, h, spread(true)) {
        return false;
    }
    for before in 0..n {
        if has_values(spec, h, input_word(n - (before + 1))) {
            return false;
        }
    }
    true
}

//! The truth tables of a specification: two words of 64 bits for each output, one with its values
//! and one with its care set, the rows on which it is specified.
ghost use Rattle.std.specs.Prelude.{◌≡◌, ◌^◌, ◌<◌, ◌≤◌, length};
ghost use Rattle.tt_core.specs.Words.{IsSpec, specification};

use chain_theory::Cell;
use std::marker::Model;

/// The most inputs of a specification: the 2^6 rows are the bits of one word.
pub const MOST_INPUTS: u32 = 6;

/// The most outputs of a specification.
pub const MOST_OUTPUTS: usize = 8;

/// The tables of up to eight outputs over up to six inputs, with don't-cares.
///
/// Bit t of `on[h - 1]` is the value of output h on row t, and bit t of `care[h - 1]` is 1 where
/// that row is specified. Row t gives input x(j) of n the bit `(t >> (n - j)) & 1`, so x1 is its
/// most significant bit.
#[derive(Drop)]
pub struct Spec {
    n: u32,
    on: Vec<u64>,
    care: Vec<u64>,
}

impl Model for Spec {
    ghost use Rattle.tt_core.specs.Words.{Words, IsSpec};

    ghost Value = { Words };

    ghost view = { λ s. record { n = s.n; on = s.on.items; care = s.care.items } };

    ghost invariant = { λ s. IsSpec (record { n = s.n; on = s.on.items; care = s.care.items }) };
}

impl Spec {
    /// The specification with `n` inputs and these words of values and care sets.
    pub fn new(n: u32, on: Vec<u64>, care: Vec<u64>) -> Spec
        requires { IsSpec (record { n = n; on = on.items; care = care.items }) }
        ensures { result ≡ record { n = n; on = on.items; care = care.items } }
    {
        Spec { n, on, care }
    }

    /// The number of inputs.
    pub fn n(&self) -> u32
        ensures value { result ≡ self.now.n }
        ensures whole { IsSpec self.now }
    {
        self.n
    }

    /// The number of outputs.
    pub fn outputs(&self) -> u32
        ensures { result ≡ length self.now.on }
    {
        self.on.len() as u32
    }

    /// The values of the outputs, a word for each.
    pub fn on(&self) -> &[u64]
        ensures { result.now ≡ self.now.on }
    {
        &self.on
    }

    /// The specified rows of the outputs (their care sets), a word for each.
    pub fn care(&self) -> &[u64]
        ensures { result.now ≡ self.now.care }
    {
        &self.care
    }
}

/// The cell of output `h`, numbered from 1, on row `t`.
#[tactic(auto, using(crate::specs::RowLaws::row_below))]
pub fn row(spec: &Spec, h: u32, t: u32) -> Cell
    requires output { (1 ≤ h) × (h ≤ length spec.now.on) }
    requires row { t < 2 ^ spec.now.n }
    ensures { result ≡ (specification spec.now).cell h t }
{
    let output = (h - 1) as usize;
    if (spec.care[output] >> t) & 1 == 0 {
        Cell::Free
    } else if (spec.on[output] >> t) & 1 == 0 {
        Cell::Zero
    } else {
        Cell::One
    }
}

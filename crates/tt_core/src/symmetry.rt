//! Whether two inputs are symmetric variables: for every row and every output, the row with the two
//! bits exchanged has the same cell. The exchanged row is built bit by bit, from the first input on.
ghost use Rattle.std.specs.Prelude.{◌≡◌, ◌^◌, ◌<◌, ◌≤◌, length, true, false};
ghost use Rattle.tt_core.specs.Symmetry.{exchanged as exchanged_of, exchanged_bit as exchanged_bit_of};
ghost use Rattle.tt_core.specs.Symmetry.{renamed as renamed_of, IsSymmetricOutput, IsSymmetric};
ghost use Rattle.tt_core.specs.Words.{specification};
ghost use Rattle.chain_theory.specs.Limits.{most_inputs};

use crate::{Spec, row};

/// The input whose bit input `j` gets when `p` and `q` are exchanged.
fn renamed(p: u32, q: u32, j: u32) -> u32
    ensures { result ≡ renamed_of p q j }
{
    if j == p {
        q
    } else if j == q {
        p
    } else {
        j
    }
}

/// The bit of input `j` of `n` on row `t` with the bits of `p` and `q` exchanged.
fn exchanged_bit(n: u32, p: u32, q: u32, t: u32, j: u32) -> bool
    requires inputs { n < 32 }
    requires exchange { (p ≤ n) × (q ≤ n) × (j ≤ n) }
    ensures { result ≡ exchanged_bit_of n p q t j }
{
    (t >> (n - renamed(p, q, j))) & 1 == 1
}

/// Row `t` of `n` inputs with the bits of `p` and `q` exchanged.
#[tactic(auto, using(crate::proofs::Exchange::growing))]
fn exchanged(n: u32, p: u32, q: u32, t: u32) -> u32
    requires inputs { n ≤ most_inputs }
    requires exchange { (p ≤ n) × (q ≤ n) }
    ensures row { result ≡ exchanged_of n p q t }
    ensures within { result < 2 ^ n }
{
    let mut exchanged = 0u32;
    for before in 0..n {
        exchanged = 2 * exchanged + u32::from(exchanged_bit(n, p, q, t, before + 1));
    }
    exchanged
}

/// Whether output `h` stays the same when `p` and `q` are exchanged.
#[tactic(auto, using(crate::specs::RowLaws::row_below))]
fn is_symmetric_output(spec: &Spec, p: u32, q: u32, h: u32) -> bool
    requires exchange { (p ≤ spec.now.n) × (q ≤ spec.now.n) }
    requires output { (1 ≤ h) × (h ≤ length spec.now.on) }
    ensures symmetric { result ≡ true → IsSymmetricOutput (specification spec.now) p q h }
    ensures other { result ≡ false → IsSymmetricOutput (specification spec.now) p q h → ⊥ }
{
    let n = spec.n();
    for t in 0..1u32 << n {
        if row(spec, h, exchanged(n, p, q, t)) != row(spec, h, t) {
            return false;
        }
    }
    true
}

/// Whether inputs `p` and `q`, numbered from 1, are symmetric: exchanging them changes no cell of any
/// output.
pub fn symmetric(spec: &Spec, p: u32, q: u32) -> bool
    requires { (1 ≤ p) × (p < q) × (q ≤ spec.now.n) }
    ensures symmetric { result ≡ true → IsSymmetric (specification spec.now) p q }
    ensures other { result ≡ false → IsSymmetric (specification spec.now) p q → ⊥ }
{
    for before in 0..spec.outputs() {
        if !is_symmetric_output(spec, p, q, before + 1) {
            return false;
        }
    }
    true
}

//! Rows with two inputs exchanged and some complemented, and complemented cells.
ghost use Rattle.std.specs.Prelude.{◌≡◌, ◌^◌, ◌<◌, ◌≤◌};
ghost use Rattle.chain_theory.specs.Limits.{most_inputs};
ghost use Rattle.chain_theory.specs.Specification.{input as input_of};
ghost use Rattle.tt_core.specs.Symmetry.{renamed as renamed_of};
ghost use Rattle.npn_laws.specs.Exchange.{image as image_of, image_bit as image_bit_of};
ghost use Rattle.npn_laws.specs.Exchange.{complemented_cell};

use tt_core::Cell;

/// The input whose bit input `j` gets when `p` and `q` are exchanged.
fn renamed(p: u32, q: u32, j: u32) -> u32
    ensures { result ≡ renamed_of p q j }
{
    if j == p {
        q
    } else if j == q {
        p
    } else {
        j
    }
}

/// The bit of input `j` of `n` on row `t`.
fn input(n: u32, t: u32, j: u32) -> bool
    requires inputs { n < 32 }
    requires input { j ≤ n }
    ensures { result ≡ input_of n t j }
{
    (t >> (n - j)) & 1 == 1
}

/// The bit of input `j` on row `t` with those of `p` and `q` exchanged, and then complemented where row `k` has a 1.
fn image_bit(n: u32, p: u32, q: u32, k: u32, t: u32, j: u32) -> bool
    requires inputs { n < 32 }
    requires exchange { (p ≤ n) × (q ≤ n) × (j ≤ n) }
    ensures { result ≡ image_bit_of n p q k t j }
{
    let partner = input(n, t, renamed(p, q, j));
    if input(n, k, j) { !partner } else { partner }
}

/// Row `t` of `n` inputs with `p` and `q` exchanged, and then those complemented that are 1 on row `k`.
#[tactic(auto, using(crate::proofs::Images::growing))]
pub(crate) fn image(n: u32, p: u32, q: u32, k: u32, t: u32) -> u32
    requires inputs { n ≤ most_inputs }
    requires exchange { (p ≤ n) × (q ≤ n) }
    ensures row { result ≡ image_of n p q k t }
    ensures within { result < 2 ^ n }
{
    let mut image = 0u32;
    for before in 0..n {
        image = 2 * image + u32::from(image_bit(n, p, q, k, t, before + 1));
    }
    image
}

/// A cell, complemented if the flag is set.
pub(crate) fn complemented(flag: bool, cell: Cell) -> Cell
    ensures { result ≡ complemented_cell flag cell }
{
    if !flag {
        return cell;
    }
    match cell {
        Cell::Zero => Cell::One,
        Cell::One => Cell::Zero,
        Cell::Free => Cell::Free,
    }
}

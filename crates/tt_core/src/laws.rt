//! What the definitions imply, stated without recursion. Each law is the contract of a function that
//! does nothing.
ghost use Rattle.std.specs.Prelude.{◌≡◌, ◌↔◌, ℕ, ◌^◌, ◌<◌, ◌≤◌, true, false, Some, None, Contains};
ghost use Rattle.tt_core.specs.Agreement.{is_met};
ghost use Rattle.tt_core.specs.Specification.{Specification, input};
ghost use Rattle.std.specs.List.Sorted.{IsStrictlyIncreasing};
ghost use Rattle.tt_core.specs.Live.{trivial_value, fits, trivial_of, IsTrivial, IsFirstFit, is_live, live_outputs};
ghost use Rattle.chain_theory.specs.declared.data.Out.{Out};
ghost use Rattle.tt_core.specs.Symmetry.{renamed, exchanged};

/// The row with the bits of `p` and `q` exchanged gives each input the bit of its exchanged partner,
/// and is one of the 2^n rows.
pub fn rows_are_exchanged()
    ensures bits { (n p q t j : ℕ) → 1 ≤ j → j ≤ n → input n (exchanged n p q t) j ≡ input n t (renamed p q j) }
    ensures row { (n p q t : ℕ) → exchanged n p q t < 2 ^ n }
{}

/// A trivial out fits an output exactly where it meets each of its cells.
pub fn fitting_is_meeting()
    ensures meets { (s : Specification) (h : ℕ) (out : Out) →
        fits s h out ≡ true →
        (t : ℕ) → t < 2 ^ s.inputs → is_met (s.cell h t) (trivial_value s.inputs t out) ≡ true }
    ensures fits { (s : Specification) (h : ℕ) (out : Out) →
        ((t : ℕ) → t < 2 ^ s.inputs → is_met (s.cell h t) (trivial_value s.inputs t out) ≡ true) →
        fits s h out ≡ true }
{}

/// The trivial out of an output is the first of 0, 1, x1, .., xn that fits, and there is none
/// exactly where none of them fits.
pub fn trivial_is_first_fit()
    ensures none { (s : Specification) (h : ℕ) → trivial_of s h ≡ None ↔ ((out : Out) → IsTrivial s.inputs out →
        fits s h out ≡ false) }
    ensures first { (s : Specification) (h : ℕ) (out : Out) → trivial_of s h ≡ Some out → IsFirstFit s h out }
{}

/// The list of live outputs is strictly increasing, and contains exactly the numbers of the live
/// outputs.
pub fn live_outputs_are_listed()
    ensures rising { (s : Specification) → IsStrictlyIncreasing (live_outputs s) }
    ensures live { (s : Specification) (h : ℕ) → Contains (live_outputs s) h ↔ ((1 ≤ h) × (h ≤ s.outputs) ×
        (is_live s h ≡ true)) }
{}

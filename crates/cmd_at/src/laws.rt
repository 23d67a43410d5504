//! Laws of the definitions, each as the contract of a function that does nothing.
ghost use Rattle.std.specs.Prelude.{◌≡◌, List, Bool, Some};
ghost use Rattle.equiv_run.specs.Texts.{bits_text};
ghost use Rattle.cmd_at.specs.AtBits.{bits_in};

/// The bits of a counterexample, as the answer `differ` of `equiv` spells them, are read as these bits.
#[tactic(auto, using(crate::specs::AtLaws::read_back))]
pub fn counterexamples_are_read_back()
    ensures { (bits : List Bool) → bits_in (bits_text bits) ≡ Some bits }
{}

//! Laws about the definitions, each the contract of a function that does nothing.

ghost use Rattle.std.specs.Prelude.{ℕ, ◌≤◌, List, length};
ghost use Rattle.chain_theory.specs.Chain.{Chain};
ghost use Rattle.chain_theory.specs.Specification.{Specification};
ghost use Rattle.net_theory.specs.Net.{Net, IsNet};
ghost use Rattle.net_theory.specs.Implements.{Implements, IsCleanedUp};
ghost use Rattle.window_theory.specs.Window.{Window, Belongs};
ghost use Rattle.window_theory.specs.Care.{IsSpecificationOf};
ghost use Rattle.window_theory.specs.Substituted.{Fits, IsSubstitution};
ghost use Rattle.subst_core.specs.Lists.{HaveSameLists};
ghost use Rattle.subst_core.specs.Substitution.{Meets, KeepsSinks, HasGates, KeepOutputs, IsSubstituted};
ghost use Rattle.subst_core.specs.Substitution.{HasOldOperators};

/// A substitution depends on the three lists of a window alone, not on its root or partner.
pub fn roots_do_not_matter()
    ensures belong { (n : Net) (w v : Window) → HaveSameLists w v → Belongs n w → Belongs n v }
    ensures fit { (w v : Window) (c : Chain) → HaveSameLists w v → Fits w c → Fits v c }
    ensures specification { (n : Net) (w v : Window) (s : Specification) → HaveSameLists w v →
        IsSpecificationOf n w s → IsSpecificationOf n v s }
    ensures meet { (n : Net) (w v : Window) (c : Chain) → HaveSameLists w v → Meets n w c → Meets n v c }
    ensures rebuild_substituted { (n m : Net) (w v : Window) (c : Chain) → HaveSameLists w v →
        IsSubstitution n w c m →
        IsSubstitution n v c m }
{}

/// A net in which a chain that implements the window has replaced it implements the old net where the chain
/// has no more steps than the window has gates, and so does what cleanup leaves of it. Each of its gates has
/// an operator of the old net or of the chain. It suffices that the sinks keep their values; and for this,
/// that the outputs of some set of gates with the window's gates among them do.
pub fn substitution_keeps_the_sinks()
    ensures values { (n m : Net) (w : Window) (c : Chain) → IsNet n → Belongs n w →
        Meets n w c → IsSubstitution n w c m → IsSubstituted n w c m }
    ensures agree { (n : Net) (w : Window) (c : Chain) → IsNet n → Belongs n w → Meets n w c → KeepsSinks n w c }
    ensures outputs { (n : Net) (w : Window) (c : Chain) (gates : List ℕ) → IsNet n → Belongs n w →
        HasGates w gates → KeepOutputs n w c gates → KeepsSinks n w c }
    ensures kept { (n m : Net) (w : Window) (c : Chain) → KeepsSinks n w c → IsSubstitution n w c m →
        IsSubstituted n w c m }
    ensures implements { (n m : Net) (w : Window) (c : Chain) → IsSubstituted n w c m →
        length c.steps ≤ length w.gates → Implements n m }
    ensures cleaned_up { (first n m left : Net) (w : Window) (c : Chain) → IsCleanedUp first n →
        IsSubstituted n w c m →
        length c.steps ≤ length w.gates → IsCleanedUp m left → IsCleanedUp first left }
    ensures operators { (n m : Net) (w : Window) (c : Chain) → IsSubstitution n w c m → HasOldOperators n c m }
{}

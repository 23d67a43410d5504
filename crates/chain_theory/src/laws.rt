//! What the definitions imply, stated without recursion. Each law is the contract of a function that
//! does nothing.
ghost use Rattle.std.specs.Prelude.{◌≡◌, ℕ, ◌+◌, ◌≤◌, Some, Option, slice_get, max};
ghost use Rattle.chain_theory.specs.Operator.{apply};
ghost use Rattle.chain_theory.specs.Specification.{Specification, input};
ghost use Rattle.chain_theory.specs.Chain.{Step, Chain, IsChain};
ghost use Rattle.chain_theory.specs.Value.{value};
ghost use Rattle.chain_theory.specs.Levels.{level, HasLevels, depth};
ghost use Rattle.chain_theory.specs.Difference.{IsComparison};

/// The value of an input is its bit of the row. The value of a step is its operator applied to the
/// values of its two operands.
pub fn values_of_places()
    ensures input { (c : Chain) (t p : ℕ) → p ≤ c.n → value c t p ≡ input c.n t p }
    ensures step { (c : Chain) (t i : ℕ) (s : Step) →
        IsChain c →
        slice_get c.steps i ≡ Some s →
        value c t (c.n + 1 + i) ≡ apply s.op (value c t s.j) (value c t s.k) }
{}

/// The level of an input is 0. The level of a step is 1 + the larger level of its two operands.
pub fn levels_of_places()
    ensures input { (c : Chain) (p : ℕ) → p ≤ c.n → level c p ≡ 0 }
    ensures step { (c : Chain) (i : ℕ) (s : Step) →
        IsChain c →
        slice_get c.steps i ≡ Some s →
        level c (c.n + 1 + i) ≡ 1 + max (level c s.j) (level c s.k) }
{}

/// The depth of a chain is its greatest level: no place has a level above it, and no smaller number
/// bounds all levels.
pub fn depth_is_the_greatest_level()
    ensures bound { (c : Chain) → HasLevels (depth c) c }
    ensures least { (c : Chain) (d : ℕ) → HasLevels d c → depth c ≤ d }
{}

/// The first difference of a chain and a specification is unique, if there is one.
pub fn comparison_is_one()
    ensures { (c : Chain) (s : Specification) (a b : Option (ℕ × ℕ)) →
        IsComparison c s a →
        IsComparison c s b →
        a ≡ b }
{}

//! What the definitions imply. Each law is the contract of a function that does nothing.
ghost use Rattle.std.specs.Prelude.{◌≡◌, ◌↔◌, ℕ, ◌<◌, Ok, Bool, true, false, List, Contains};
ghost use Rattle.std.specs.List.{IsDistinct};
ghost use Rattle.op_basis.specs.Operator.{apply};
ghost use Rattle.op_basis.specs.Closed.{operator_of, every};
ghost use Rattle.op_basis.specs.Basis.{members};
ghost use Rattle.op_basis.specs.Text.{basis_of, basis_text, begins_letter, items_of, same_text};
ghost use Rattle.op_basis.specs.Word.{word_text};

/// The operator of a function of two bits is the one operator that has the function's values.
pub fn operators_are_functions()
    ensures values { (f : Bool → Bool → Bool) (a b : Bool) → apply (operator_of f) a b ≡ f a b }
    ensures below { (f : Bool → Bool → Bool) → operator_of f < 16 }
    ensures only { (f : Bool → Bool → Bool) (op : ℕ) →
        op < 16 →
        ((a b : Bool) → apply op a b ≡ f a b) →
        op ≡ operator_of f }
{}

/// A test of all operators is true exactly where it is true of each of the sixteen.
pub fn every_is_each()
    ensures each { (test : ℕ → Bool) → every test ≡ true → (op : ℕ) → op < 16 → test op ≡ true }
    ensures all { (test : ℕ → Bool) → ((op : ℕ) → op < 16 → test op ≡ true) → every test ≡ true }
{}

/// The text that is written for a basis is read as this basis.
pub fn written_basis_is_read()
    ensures { (set : ℕ) → 0 < set → set < 65536 → basis_of (basis_text set) ≡ Ok set }
{}

/// A list that is read gives its operators: each item is the word of an operator, no item comes
/// twice, and the set has an operator exactly where the operator's word is an item. No basis that is
/// read, by name or as a list, is empty.
pub fn list_is_its_operators()
    ensures members { (word : List ℕ) (set op : ℕ) →
        begins_letter word ≡ false →
        basis_of word ≡ Ok set →
        op < 16 →
        (members set op ≡ true) ↔ Contains (items_of word) (word_text op) }
    ensures words { (word item : List ℕ) (set : ℕ) →
        begins_letter word ≡ false →
        basis_of word ≡ Ok set →
        Contains (items_of word) item →
        (op : ℕ) × (op < 16) × (item ≡ word_text op) }
    ensures once { (word : List ℕ) (set : ℕ) →
        begins_letter word ≡ false →
        basis_of word ≡ Ok set →
        IsDistinct same_text (items_of word) }
    ensures some { (word : List ℕ) (set : ℕ) → basis_of word ≡ Ok set → 0 < set }
    ensures below { (word : List ℕ) (set : ℕ) →
        begins_letter word ≡ false →
        basis_of word ≡ Ok set →
        set < 65536 }
{}

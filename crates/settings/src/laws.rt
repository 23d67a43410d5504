//! Laws of the definitions, each the contract of a function that does nothing.
ghost use Rattle.std.specs.Prelude.{◌≡◌, ◌↔◌, ℕ, List, Some};
ghost use Rattle.settings.specs.declared.methods.Method.{Method};
ghost use Rattle.settings.specs.Methods.{method_text, method_named};

/// `method_named` and `method_text` are inverse: a word is parsed as a method exactly where it is that method's
/// name.
pub fn names_are_of_one_method()
    ensures { (word : List ℕ) (method : Method) →
        (method_named word ≡ Some method) ↔ (word ≡ method_text method) }
{}

//! Laws of the definitions. Each is the contract of a function with an empty body.

ghost use Rattle.std.specs.Prelude.{◌≡◌, ℕ, ◌^◌, ◌<◌, ◌≤◌, ◌↔◌, true, false, List, [], ◌∷◌, ◌++◌, length, decimal};
ghost use Rattle.std.specs.List.{flat_map, join_with_byte};
ghost use Rattle.text_core.specs.Items.{items_of};
ghost use Rattle.text_core.specs.Lines.{lines_of, line_bytes};
ghost use Rattle.text_core.specs.Numbers.{number_up_to};
ghost use Rattle.text_core.specs.Rest.{IsRest};
ghost use Rattle.text_core.specs.Words.{after, is_free};

/// A text is split into lines at each LF, and nowhere else.
pub fn laws_of_lines()
    ensures ended { (text rest : List ℕ) → is_free 10 text ≡ true →
        lines_of (text ++ 10 ∷ rest) ≡ record { text = text; ended = true } ∷ lines_of rest }
    ensures last { (text : List ℕ) → is_free 10 text ≡ true → 0 < length text →
        lines_of text ≡ record { text = text; ended = false } ∷ [] }
    ensures none { lines_of [] ≡ [] }
    ensures spelled { (bytes : List ℕ) → flat_map line_bytes (lines_of bytes) ≡ bytes }
{}

/// A line is split into items at each blank, and nowhere else.
pub fn laws_of_items()
    ensures first { (item rest : List ℕ) → is_free 32 item ≡ true →
        items_of (item ++ 32 ∷ rest) ≡ item ∷ items_of rest }
    ensures last { (item : List ℕ) → is_free 32 item ≡ true → items_of item ≡ item ∷ [] }
    ensures spelled { (text : List ℕ) → join_with_byte 32 (items_of text) ≡ text }
{}

/// If a text is a word and then a rest, `after` returns the rest; and what it returns is such a rest.
pub fn laws_of_words()
    ensures { (word text rest : List ℕ) → (after word text ≡ Some rest) ↔ (text ≡ word ++ rest) }
{}

/// A number is read if and only if the text is its decimal digits and it is within the limit. No blank,
/// LF or other byte below the digits is part of a number.
pub fn laws_of_numbers()
    ensures read { (limit n : ℕ) (text : List ℕ) → limit < 2 ^ 32 →
        (number_up_to limit text ≡ Some n) ↔ ((n ≤ limit) × (text ≡ decimal n)) }
    ensures apart { (n byte : ℕ) → n < 2 ^ 32 → byte < 48 → is_free byte (decimal n) ≡ true }
{}

/// A text is a suffix of itself, and a suffix of a suffix is a suffix.
pub fn laws_of_rests()
    ensures whole { (bytes : List ℕ) → IsRest bytes bytes }
    ensures onward { (a b c : List ℕ) → IsRest a b → IsRest b c → IsRest a c }
{}

//! A law of the definitions: the contract of a function with an empty body.
ghost use Rattle.std.specs.Prelude.{◌≡◌, ℕ, true, List, ◌∷◌, ◌++◌, Ok};
ghost use Rattle.text_core.specs.Lines.{lines_of};
ghost use Rattle.sat_theory.specs.Line.{Line, IsLine};
ghost use Rattle.lrat_text.specs.Reading.{line_in};
ghost use Rattle.lrat_text.specs.Spelling.{line_body, line_text};

/// A line that can be written is read again, and in a text it is one line, whatever follows it.
pub fn laws_of_lines()
    ensures read { (l : Line) → IsLine l → line_in (line_body l) ≡ Ok l }
    ensures whole { (l : Line) (rest : List ℕ) → IsLine l →
        lines_of (line_text l ++ rest) ≡ record { text = line_body l; ended = true } ∷ lines_of rest }
{}

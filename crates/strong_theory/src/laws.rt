//! The definitions agree with an independent program, written from the same description: their formulas have
//! the same numbers of variables, clauses and literals and the same checksums.
ghost use Rattle.std.specs.Prelude.{◌≡◌, map};
ghost use Rattle.enc_theory.specs.Vectors.{outline_by, expected};
ghost use Rattle.enc_theory.specs.FenceVectors.{expected_of};
ghost use Rattle.strong_theory.specs.Strong.{strong_formula};
ghost use Rattle.strong_theory.specs.StrongVectors.{strong_vectors, strong_fence_vectors, strong_outline_of};

/// The formulas of SSV, strengthened.
pub fn strong_is_that_of_another_program()
    ensures { map (outline_by strong_formula) strong_vectors ≡ map expected strong_vectors }
{}

/// The formulas of fences, strengthened.
pub fn strong_fence_is_that_of_another_program()
    ensures { map strong_outline_of strong_fence_vectors ≡ map expected_of strong_fence_vectors }
{}

//! The definitions agree with an independent program, written from the same description: their formulas have
//! the same numbers of variables, clauses and literals and the same checksums, for the tables, sets of
//! operators and sizes of the vectors. Each law is the contract of a function that does nothing.
ghost use Rattle.std.specs.Prelude.{◌≡◌, map};
ghost use Rattle.enc_theory.specs.Vectors.{outline_by, expected};
ghost use Rattle.enc_theory.specs.Plain.{plain_formula};
ghost use Rattle.enc_theory.specs.PlainVectors.{plain_vectors};
ghost use Rattle.enc_theory.specs.Ssv.{ssv_formula};
ghost use Rattle.enc_theory.specs.SsvVectors.{ssv_vectors};
ghost use Rattle.enc_theory.specs.FenceVectors.{fence_vectors, outline_of, expected_of};
ghost use Rattle.enc_theory.specs.Select.{select_formula};
ghost use Rattle.enc_theory.specs.SelectVectors.{select_vectors};

/// The formulas of the plain encoding.
pub fn plain_is_that_of_another_program()
    ensures { map (outline_by plain_formula) plain_vectors ≡ map expected plain_vectors }
{}

/// The formulas with a selection variable for each pair of operands (SSV) and symmetry-breaking constraints.
pub fn ssv_is_that_of_another_program()
    ensures { map (outline_by ssv_formula) ssv_vectors ≡ map expected ssv_vectors }
{}

/// The formulas of fences.
pub fn fence_is_that_of_another_program()
    ensures { map outline_of fence_vectors ≡ map expected_of fence_vectors }
{}

/// The formulas with a selection variable for each operand (MSV).
pub fn select_is_that_of_another_program()
    ensures { map (outline_by select_formula) select_vectors ≡ map expected select_vectors }
{}

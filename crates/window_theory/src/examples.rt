//! Worked examples, each the contract of a function that does nothing: the definitions applied to small nets
//! (`specs/Examples.antt`, `RowExamples.antt` and `WindowExamples.antt` have the nets, with the gates of
//! each).
ghost use Rattle.std.specs.Prelude.{◌≡◌, Some, [], ◌∷◌};
ghost use Rattle.window_theory.specs.Partner.{ArePartners};
ghost use Rattle.window_theory.specs.Window.{Belongs, IsWindow};
ghost use Rattle.window_theory.specs.FaninCone.{ExpandsTo};
ghost use Rattle.window_theory.specs.Care.{IsCareRow};
ghost use Rattle.window_theory.specs.Substituted.{after_substitution};
ghost use Rattle.window_theory.specs.Examples.{nand_not, both_gates, and_chain, and_net};
ghost use Rattle.window_theory.specs.Examples.{three_gates, first_gate, input_chain, one_chain, with_input, with_one};
ghost use Rattle.window_theory.specs.Examples.{two_ands, both_ands, one_for_two, one_and};
ghost use Rattle.window_theory.specs.Examples.{wide_second, third_input, input_above};
ghost use Rattle.window_theory.specs.RowExamples.{and_or};
ghost use Rattle.window_theory.specs.WindowExamples.{side_by_side};

/// A chain substituted for a window: one step for two gates; outputs that are an input or a constant, where
/// the window's output has a gate and a sink as fanouts; two outputs on one step.
pub fn chains_in_place()
    ensures nand_not { after_substitution nand_not both_gates and_chain ≡ and_net }
    ensures input { after_substitution three_gates first_gate input_chain ≡ with_input }
    ensures constant { after_substitution three_gates first_gate one_chain ≡ with_one }
    ensures two { after_substitution two_ands both_ands one_for_two ≡ one_and }
{}

/// Of two gates side by side the second has the first as its partner, and the first has none.
pub fn partners_side_by_side()
    ensures second { ArePartners two_ands 4 (3 ∷ []) }
    ensures first { ArePartners two_ands 3 [] }
{}

/// The window of the second gate with the first as its partner and the count 2 has both gates.
pub fn window_of_partners()
    ensures { IsWindow two_ands 4 (Some 3) 2 side_by_side }
{}

/// A gate that has the gate beside it as a further input is a wide window: the chain whose output is this
/// input can be substituted for it. A gate that reads the window can't be one of its inputs.
pub fn wide_windows()
    ensures belongs { Belongs two_ands wide_second }
    ensures chain { after_substitution two_ands wide_second third_input ≡ one_and }
    ensures above { Belongs nand_not input_above → ⊥ }
{}

/// The leaves of AND and OR of two sources are the sources, and row 10 isn't a care row: no bits of the
/// sources give AND the bit 1 and OR the bit 0.
pub fn rows_of_two_gates()
    ensures leaves { ExpandsTo and_or (3 ∷ 4 ∷ []) (1 ∷ 2 ∷ []) }
    ensures none { IsCareRow and_or (3 ∷ 4 ∷ []) 2 → ⊥ }
{}

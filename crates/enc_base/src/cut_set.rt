//! Which symmetry-breaking constraints a basis allows.
ghost use Rattle.std.specs.Prelude.{◌≡◌};
ghost use Rattle.op_basis.specs.Basis.{members};
ghost use Rattle.op_basis.specs.Closed.{swap_closed, const_closed, polarity_closed, reapply_closed};

use op_basis::Basis;

/// The constraints that a basis allows without excluding all minimum chains.
#[derive(Clone, Copy, PartialEq, Eq)]
pub struct CutSet {
    /// The operands of a step may be ordered.
    pub swap: bool,
    /// No step needs to be a constant.
    pub constants: bool,
    /// A step that drives no output may be complemented (normal steps).
    pub polarity: bool,
    /// No step needs to apply an operator to a step and one of that step's operands (no re-application).
    pub reapply: bool,
}

/// The properties of the basis that the constraints need: whether it is closed under exchanging operands, under
/// constants, under complements, and under re-application.
pub fn cuts(basis: Basis) -> CutSet
    ensures swap { result.swap ≡ swap_closed (members basis) }
    ensures constants { result.constants ≡ const_closed (members basis) }
    ensures polarity { result.polarity ≡ polarity_closed (members basis) }
    ensures reapply { result.reapply ≡ reapply_closed (members basis) }
{
    CutSet {
        swap: basis.swap_closed(),
        constants: basis.const_closed(),
        polarity: basis.polarity_closed(),
        reapply: basis.reapply_closed(),
    }
}

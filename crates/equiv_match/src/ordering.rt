//! The circuit of a text in the order of another circuit.
ghost use Rattle.std.specs.Prelude.{◌≡◌, ◌≤◌, length, Ok, IfOk};
ghost use Rattle.net_theory.specs.Limits.{most_of_two};
ghost use Rattle.net_theory.specs.Circuit.{IsCircuitOf};
ghost use Rattle.net_document.specs.Listed.{Listed};
ghost use Rattle.net_formats.specs.Formats.{format_of};
ghost use Rattle.equiv_match.specs.OrderLaws.{ordered_in, CanOrder};

use crate::listing::read_listing;
use format_names::NetFormat;
use match_core::arrange;
use net_build::circuit_of;
use net_core::Circuit;
use net_theory::MOST_GATES;
use std::alloc::{AllocError, Global};

/// The circuit of a text in the order of another one. It was read before, so that nothing is missing but memory.
#[tactic(auto, using(crate::specs::OrderLaws::ordering))]
pub(crate) fn ordered_circuit(
    alloc: Global,
    format: NetFormat,
    bytes: &[u8],
    first: &Circuit,
) -> Result<Circuit, AllocError>
    requires short { length bytes.now ≤ most_of_two }
    requires ready { (l : Listed) → (format_of format).listed bytes.now ≡ Ok l → CanOrder first.now l.document }
    ensures { IfOk result (λ c. (l : Listed) → (format_of format).listed bytes.now ≡ Ok l →
        IsCircuitOf (ordered_in first.now l.document) c) }
{
    let Ok(listed) = read_listing(alloc, format, bytes) else {
        return Err(AllocError);
    };
    let ordered = arrange(alloc, listed, first)?;
    match circuit_of(alloc, ordered, MOST_GATES) {
        Ok(circuit) => Ok(circuit),
        Err(_) => Err(AllocError),
    }
}

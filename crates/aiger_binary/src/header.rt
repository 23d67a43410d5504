//! The counts of a header.

ghost use Rattle.std.specs.Prelude.{◌≡◌, ◌≤◌, IfSome};
ghost use Rattle.std.specs.Option.{option_map};
ghost use Rattle.text_core.specs.Items.{items_left};
ghost use Rattle.aiger_binary.specs.Header as spec;
ghost use Rattle.aiger_binary.specs.Low.{AreLow};

use text_core::{after, next_item, number_up_to};

/// The greatest count; `specs/Header` has the same.
const MOST_COUNT: u32 = 2_097_152;

/// The numbers of a header: the greatest variable, and how many inputs, latches, outputs and gates there are. Bad
/// states and constraints count as outputs.
#[derive(Clone, Copy)]
pub(crate) struct Counts {
    pub(crate) variables: u32,
    pub(crate) inputs: u32,
    pub(crate) latches: u32,
    pub(crate) outputs: u32,
    pub(crate) gates: u32,
}

/// A number, and the text of the items after it.
#[derive(Clone, Copy)]
struct Found<'a> {
    number: u32,
    more: Option<&'a [u8]>,
}

/// The count that is the first item of a text; None if there is none.
#[tactic(auto, using(crate::proofs::Headers::headers))]
fn first_count(items: Option<&[u8]>) -> Option<Found<'_>>
    ensures exact { option_map (λ (f : Found). spec.found f.number (items_left f.more)) result ≡
        spec.first_count (items_left items.entry) }
    ensures low { IfSome result (λ f. f.number ≤ spec.most_count) }
{
    let text = items?;
    let (item, more) = next_item(text);
    let number = number_up_to(MOST_COUNT, item)?;
    Some(Found { number, more })
}

/// The count that is the first item of a text, or 0 where it was left out.
fn further_count(items: Option<&[u8]>) -> Option<Found<'_>>
    ensures exact { option_map (λ (f : Found). spec.found f.number (items_left f.more)) result ≡
        spec.further_count (items_left items.entry) }
    ensures low { IfSome result (λ f. f.number ≤ spec.most_count) }
{
    if items.is_none() {
        return Some(Found {
            number: 0,
            more: None,
        });
    }
    first_count(items)
}

/// The counts of a header; None if it isn't one.
pub(crate) fn counts_in(text: &[u8]) -> Option<Counts>
    ensures exact { result ≡ spec.counts_in text.now }
    ensures low { IfSome result AreLow }
{
    let rest = after(b"aig ", text)?;
    let variables = first_count(Some(rest))?;
    let inputs = first_count(variables.more)?;
    let latches = first_count(inputs.more)?;
    let outputs = first_count(latches.more)?;
    let gates = first_count(outputs.more)?;
    let bads = further_count(gates.more)?;
    let constraints = further_count(bads.more)?;
    Some(Counts {
        variables: variables.number,
        inputs: inputs.number,
        latches: latches.number,
        outputs: outputs.number + bads.number + constraints.number,
        gates: gates.number,
    })
}

/// Whether each variable is an input, a latch or a gate.
#[tactic(auto, using(crate::proofs::Headers::sums))]
pub(crate) fn is_packed(counts: Counts) -> bool
    requires { AreLow counts }
    ensures { result ≡ spec.is_packed counts }
{
    counts.variables == counts.inputs + counts.latches + counts.gates
}

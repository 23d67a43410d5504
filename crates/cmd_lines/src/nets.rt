//! The statuses and error lines of faults of netlists.
ghost use Rattle.std.specs.Prelude.{◌≡◌, ◌++◌, ◌∷◌, []};
ghost use Rattle.frame_core.specs.Reported.{at as at_of};
ghost use Rattle.frame_core.specs.Views.{shown, line_value};
ghost use Rattle.cmd_lines.specs.NetLines.{net_status as net_status_of, of_name as of_name_text};
ghost use Rattle.cmd_lines.specs.NetLines.{at_name as at_name_text, named_net};

use frame_core::{ErrorLine, Field, Status};
use net_core::{Name, NetError};

/// The status of a fault of a netlist.
pub fn net_status(error: &NetError) -> Status
    ensures { result ≡ net_status_of error.now }
{
    match error {
        NetError::Syntax(_) | NetError::NotSupported(_, _) | NetError::MixedCover(_) =>
            Status::Malformed,
        NetError::DrivenTwice(_) | NetError::Undriven(_) | NetError::Cycle(_) => Status::Malformed,
        NetError::TooWide(_) | NetError::TooManyGates(_) | NetError::LineTooLong(_) =>
            Status::Limit,
        NetError::TooManyRows(_) | NetError::NameTooLong(_) => Status::Limit,
        NetError::Memory => Status::Memory,
    }
}

/// A variant with a number, after the word `lead` unless that is `Nothing`.
#[tactic(auto, unfolding(frame_core::specs::Views::shown))]
fn counted(lead: Field, variant: &'static [u8], count: u32) -> ErrorLine
    ensures { line_value result ≡ shown (lead ∷ []) ++ at_of variant.now count }
{
    ErrorLine::led(lead, variant, Field::Count(count), Field::Nothing)
}

/// A variant with a name from the netlist.
#[tactic(auto, unfolding(frame_core::specs::Views::shown))]
fn of_name(lead: Field, variant: &'static [u8], name: Name) -> ErrorLine
    ensures { line_value result ≡ shown (lead ∷ []) ++ of_name_text variant.now name }
{
    ErrorLine::led(
        lead,
        variant,
        Field::Name(name.into_bytes()),
        Field::Nothing,
    )
}

/// A variant with a line and a name.
#[tactic(auto, unfolding(frame_core::specs::Views::shown))]
fn at_name(lead: Field, variant: &'static [u8], line: u32, name: Name) -> ErrorLine
    ensures { line_value result ≡ shown (lead ∷ []) ++ at_name_text variant.now line name }
{
    ErrorLine::led(
        lead,
        variant,
        Field::Count(line),
        Field::Name(name.into_bytes()),
    )
}

/// The error line of a fault of a netlist, after the word `lead` unless that is `Nothing`.
#[tactic(auto, // for the prover
unfolding(crate::specs::NetLines::named_net, frame_core::specs::Reported::memory, frame_core::specs::Views::shown))]
pub fn name_net(lead: Field, error: NetError) -> ErrorLine
    ensures { line_value result ≡ shown (lead ∷ []) ++ named_net error }
{
    match error {
        NetError::Syntax(line) => counted(lead, b"Syntax", line),
        NetError::NotSupported(line, name) => at_name(lead, b"NotSupported", line, name),
        NetError::MixedCover(line) => counted(lead, b"MixedCover", line),
        NetError::TooWide(line) => counted(lead, b"TooWide", line),
        NetError::TooManyGates(count) => counted(lead, b"TooManyGates", count),
        NetError::DrivenTwice(name) => of_name(lead, b"DrivenTwice", name),
        NetError::Undriven(name) => of_name(lead, b"Undriven", name),
        NetError::Cycle(name) => of_name(lead, b"Cycle", name),
        NetError::LineTooLong(line) => counted(lead, b"LineTooLong", line),
        NetError::TooManyRows(line) => counted(lead, b"TooManyRows", line),
        NetError::NameTooLong(line) => counted(lead, b"NameTooLong", line),
        NetError::Memory => ErrorLine::led(lead, b"Memory", Field::Nothing, Field::Nothing),
    }
}

//! The statuses and error lines of faults of tables.
ghost use Rattle.std.specs.Prelude.{◌≡◌};
ghost use Rattle.frame_core.specs.Views.{line_value};
ghost use Rattle.cmd_lines.specs.TableLines.{spec_status as spec_status_of, named_spec};

use frame_core::{ErrorLine, Status};
use tt_core::SpecError;

/// The most bytes of tables that a command reads: 64 KiB.
pub const MOST_BYTES_OF_TABLES: usize = 65_536;

/// The status of a fault of tables.
pub fn spec_status(error: SpecError) -> Status
    ensures { result ≡ spec_status_of error }
{
    match error {
        SpecError::BadHeader(_) | SpecError::BadRow(_) | SpecError::WrongLength(_) =>
            Status::Malformed,
        SpecError::TooManyInputs | SpecError::TooManyOutputs => Status::Limit,
        SpecError::NoOutput => Status::Malformed,
        SpecError::Memory => Status::Memory,
    }
}

/// The error line of a fault of tables.
#[tactic(auto, unfolding(crate::specs::TableLines::named_spec, frame_core::specs::Reported::memory))]
pub fn name_spec(error: SpecError) -> ErrorLine
    ensures { line_value result ≡ named_spec error }
{
    match error {
        SpecError::BadHeader(line) => ErrorLine::at(b"BadHeader", line),
        SpecError::BadRow(line) => ErrorLine::at(b"BadRow", line),
        SpecError::WrongLength(line) => ErrorLine::at(b"WrongLength", line),
        SpecError::TooManyInputs => ErrorLine::plain(b"TooManyInputs"),
        SpecError::TooManyOutputs => ErrorLine::plain(b"TooManyOutputs"),
        SpecError::NoOutput => ErrorLine::plain(b"NoOutput"),
        SpecError::Memory => ErrorLine::plain(b"Memory"),
    }
}

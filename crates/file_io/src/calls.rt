//! The calls on files that may fail, and what a run ends with that one of them failed.
ghost use Rattle.std.specs.Prelude.{◌≡◌};
ghost use Rattle.file_io.specs.FaultLine.{fault_word, fault_status};

use frame_core::Status;

/// A call on a file that may fail.
#[derive(Clone, Copy)]
pub enum Call {
    /// A file is opened to be read.
    Open,
    /// A draft is created.
    Create,
    /// A draft takes the place of what its name holds.
    Keep,
}

/// The first words of the line of a call that failed.
pub(crate) fn word_of(call: Call) -> &'static [u8]
    ensures { result.now ≡ fault_word call }
{
    match call {
        Call::Open => b"error: ReadFault ",
        Call::Create | Call::Keep => b"error: WriteFault ",
    }
}

/// The status of a run that ends with a call that failed.
pub(crate) fn status_of(call: Call) -> Status
    ensures { result ≡ fault_status call }
{
    match call {
        Call::Open => Status::ReadFault,
        Call::Create | Call::Keep => Status::WriteFault,
    }
}

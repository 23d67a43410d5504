//! The result of a call.

/// The result of a call, as a C struct.
#[repr(C)]
#[derive(Clone, Copy)]
pub struct Answer {
    /// The program's exit status, 0 to 8.
    pub status: u32,
    /// The length of the output in bytes.
    pub output: usize,
    /// The length of the notes in bytes.
    pub notes: usize,
}

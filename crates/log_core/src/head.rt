//! Heads of packed lines.
ghost use Rattle.std.specs.Prelude.{◌≡◌, ◌<◌, ◌^◌};
ghost use Rattle.log_core.specs.Rows.{size_of};

/// What the log keeps of a line outside its byte array: kind, id, and the number of bytes of each list.
#[derive(Clone, Copy)]
pub(crate) enum Head {
    /// An addition: its literals are followed by its hints.
    Add { id: u32, lits: u32, hints: u32 },
    /// A deletion.
    Delete { id: u32, ids: u32 },
}

impl Head {
    /// How many bytes of the byte array the line takes.
    pub(crate) fn size(self) -> usize
        ensures is { result ≡ size_of self }
        ensures few { result < 2 ^ 33 }
    {
        match self {
            Head::Add { lits, hints, .. } => lits as usize + hints as usize,
            Head::Delete { ids, .. } => ids as usize,
        }
    }
}

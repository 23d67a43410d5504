//! The files that a program can name.
ghost use Rattle.std.specs.Prelude.{ℕ, List, IfOk, OnOk, OnErr};
ghost use Rattle.file_io.specs.Names.{Holding, Shows, file_of, Begun, Begins};
ghost use Rattle.file_io.specs.Files.{Faults, files_state, IsUnchanged, Fails, IsReplaced};

use crate::calls::Call;
use port_io::{Sink, Source};
use std::alloc::Global;

/// Why a call on a file failed, in the system's words.
#[derive(Drop)]
pub struct Reason {
    /// One line, as `No such file or directory`; empty if memory ran out.
    pub text: Vec<u8>,
}

/// The files that a program can name. A call that fails changes nothing that contracts see, but for its count.
pub trait Outside {
    /// What each name holds.
    ghost holds: { Self → List ℕ → Holding };

    /// How many calls of each kind have failed, saturating at 2^64 - 1. A call that succeeds leaves all counts as
    /// they are.
    ghost faults: { Self → Faults };

    /// An open file that is read.
    type Input: Source + Drop;

    /// A file beside its name that is written. Until it is kept no name shows it.
    type Draft: Sink + Drop;

    /// Opens the file that a name holds: all its bytes are left.
    fn open(&mut self, alloc: Global, name: &str) -> Result<Self::Input, Reason>
        ensures shows { IfOk result (λ input. Shows (holds self.old name.now) (Self.Input.left input)) }
        ensures unchanged { OnOk result
            (IsUnchanged (files_state holds faults self.old) (files_state holds faults self.new)) }
        ensures fails { OnErr result
            (Fails Call.Open (files_state holds faults self.old) (files_state holds faults self.new)) };

    /// Creates a draft beside a name: nothing is written to it. What is written to it is known where it
    /// is known what the name holds.
    fn create(&mut self, alloc: Global, name: &str) -> Result<Self::Draft, Reason>
        ensures empty { IfOk result (λ draft. Begun (holds self.old name.now) (Self.Draft.written draft)) }
        ensures unchanged { OnOk result
            (IsUnchanged (files_state holds faults self.old) (files_state holds faults self.new)) }
        ensures fails { OnErr result
            (Fails Call.Create (files_state holds faults self.old) (files_state holds faults self.new)) };

    /// Whether anything was written to a draft.
    fn is_begun(draft: &Self::Draft) -> bool
        ensures { Begins (Self.Draft.written draft.now) result };

    /// Opens what was written to a draft: all its bytes are left.
    fn reopen(&mut self, alloc: Global, draft: &Self::Draft) -> Result<Self::Input, Reason>
        ensures shows { IfOk result
            (λ input. Shows (file_of (Self.Draft.written draft.now)) (Self.Input.left input)) }
        ensures unchanged { OnOk result
            (IsUnchanged (files_state holds faults self.old) (files_state holds faults self.new)) }
        ensures fails { OnErr result
            (Fails Call.Open (files_state holds faults self.old) (files_state holds faults self.new)) };

    /// The draft takes the place of what the name holds.
    fn keep(&mut self, alloc: Global, name: &str, draft: Self::Draft) -> Result<(), Reason>
        ensures kept { OnOk result
            (IsReplaced name.now (Self.Draft.written draft)
            (files_state holds faults self.old) (files_state holds faults self.new)) }
        ensures fails { OnErr result
            (Fails Call.Keep (files_state holds faults self.old) (files_state holds faults self.new)) };

    /// The draft goes.
    fn discard(&mut self, draft: Self::Draft)
        ensures { IsUnchanged (files_state holds faults self.old) (files_state holds faults self.new) };
}

//! Files in memory, for tests of what names them: contracts know what the files hold.
ghost use Rattle.std.specs.Prelude.{◌≡◌, true, false};
ghost use Rattle.std.specs.Option.{option_copied};
ghost use Rattle.std.specs.Prelude.{bytes_eq};
ghost use Rattle.frame_tests.specs.Held.{found as found_in, IsGiven};

use file_io::{Call, Outside, Reason};
use port_io::{Failed, Sink, SteadySource};
use std::alloc::Global;

/// A file.
#[derive(Drop)]
pub struct MemoryFile {
    /// Its name.
    pub name: Vec<u8>,
    /// What it holds.
    pub bytes: Vec<u8>,
}

/// Files in memory, of which the calls of one kind may fail.
#[derive(Drop)]
pub struct MemoryFiles {
    /// The files. A name leads to the first that has it.
    pub files: Vec<MemoryFile>,
    failing: Option<Call>,
    room: usize,
    unopened: u64,
    uncreated: u64,
    unkept: u64,
}

/// A draft with a bounded room.
#[derive(Drop)]
pub struct MemoryDraft {
    bytes: Vec<u8>,
    room: usize,
    faults: u64,
}

impl Sink for MemoryDraft {
    ghost use Rattle.std.specs.Prelude.{Some};

    ghost written = { λ d. Some d.bytes.items };

    ghost faults = { λ d. d.faults };

    #[tactic(auto, unfolding(port_io::specs::Bytes::appended))]
    fn write(&mut self, piece: &[u8]) -> Result<usize, Failed> {
        if piece.len() > self.room {
            self.faults = self.faults.saturating_add(1);
            return Err(Failed);
        }
        if self.bytes.extend_from_slice(piece).is_err() {
            self.faults = self.faults.saturating_add(1);
            return Err(Failed);
        }
        self.room -= piece.len();
        Ok(piece.len())
    }
}

/// The reason of each call that fails.
fn refused(alloc: Global) -> Reason {
    let text = match Vec::from_slice(alloc, b"refused") {
        Ok(text) => text,
        Err(_) => Vec::new(alloc),
    };
    Reason { text }
}

/// The number of a kind of calls.
fn number_of(call: Call) -> u8 {
    match call {
        Call::Open => 1,
        Call::Create => 2,
        Call::Keep => 3,
    }
}

/// Whether two names are the same.
fn is_same(name: &[u8], other: &[u8]) -> bool
    ensures { result ≡ bytes_eq name.now other.now }
{
    name == other
}

/// The bytes of the first file with a name.
fn found<'a>(files: &'a [MemoryFile], name: &[u8]) -> Option<&'a [u8]>
    ensures { option_copied result ≡ found_in files.now name.now }
{
    let mut left = files;
    while let Some((file, rest)) = left.split_first() {
        if is_same(&file.name, name) {
            return Some(&file.bytes);
        }
        left = rest;
    }
    None
}

/// Gives a name to bytes, and tells whether that succeeded.
fn give(alloc: Global, files: &mut Vec<MemoryFile>, name: &[u8], bytes: Vec<u8>) -> bool
    ensures given { result ≡ true → IsGiven name.now bytes.items files.old.items files.new.items }
    ensures same { result ≡ false → files.new.items ≡ files.old.items }
{
    match Vec::from_slice(alloc, name) {
        Ok(name) => files.insert(0, MemoryFile { name, bytes }).is_ok(),
        Err(_) => false,
    }
}

impl MemoryFiles {
    /// No files. The calls of a kind may fail, and there is so much room in each draft.
    pub fn new(alloc: Global, failing: Option<Call>, room: usize) -> Self {
        MemoryFiles {
            files: Vec::new(alloc),
            failing,
            room,
            unopened: 0,
            uncreated: 0,
            unkept: 0,
        }
    }

    /// Whether the calls of a kind fail.
    fn is_failing(&self, call: Call) -> bool {
        match self.failing {
            None => false,
            Some(failing) => number_of(failing) == number_of(call),
        }
    }

    /// What a name holds.
    pub fn held(&self, name: &[u8]) -> Option<&[u8]> {
        found(&self.files, name)
    }
}

impl Outside for MemoryFiles {
    ghost use Rattle.frame_tests.specs.Held.{names_of, files_faults};

    ghost holds = { λ files. names_of files.files.items };

    ghost faults = { λ files. files_faults files };

    type Input = SteadySource;

    type Draft = MemoryDraft;

    #[tactic(auto, using(crate::proofs::Holding::holding_rules))]
    fn open(&mut self, alloc: Global, name: &str) -> Result<SteadySource, Reason> {
        if self.is_failing(Call::Open) {
            self.unopened = self.unopened.saturating_add(1);
            return Err(refused(alloc));
        }
        let Some(held) = found(&self.files, name.as_bytes()) else {
            self.unopened = self.unopened.saturating_add(1);
            return Err(refused(alloc));
        };
        match Vec::from_slice(alloc, held) {
            Ok(bytes) => Ok(SteadySource::new(bytes)),
            Err(_) => {
                self.unopened = self.unopened.saturating_add(1);
                Err(refused(alloc))
            }
        }
    }

    #[tactic(auto, using(crate::proofs::Holding::holding_rules))]
    fn create(&mut self, alloc: Global, _name: &str) -> Result<MemoryDraft, Reason> {
        if self.is_failing(Call::Create) {
            self.uncreated = self.uncreated.saturating_add(1);
            return Err(refused(alloc));
        }
        Ok(MemoryDraft {
            bytes: Vec::new(alloc),
            room: self.room,
            faults: 0,
        })
    }

    fn is_begun(draft: &MemoryDraft) -> bool {
        !draft.bytes.is_empty()
    }

    #[tactic(auto, using(crate::proofs::Holding::holding_rules))]
    fn reopen(&mut self, alloc: Global, draft: &MemoryDraft) -> Result<SteadySource, Reason> {
        if self.is_failing(Call::Open) {
            self.unopened = self.unopened.saturating_add(1);
            return Err(refused(alloc));
        }
        match Vec::from_slice(alloc, &draft.bytes) {
            Ok(bytes) => Ok(SteadySource::new(bytes)),
            Err(_) => {
                self.unopened = self.unopened.saturating_add(1);
                Err(refused(alloc))
            }
        }
    }

    #[tactic(auto, using(crate::proofs::Holding::holding_rules))]
    fn keep(&mut self, alloc: Global, name: &str, draft: MemoryDraft) -> Result<(), Reason> {
        if self.is_failing(Call::Keep) {
            self.unkept = self.unkept.saturating_add(1);
            return Err(refused(alloc));
        }
        if give(alloc, &mut self.files, name.as_bytes(), draft.bytes) {
            return Ok(());
        }
        self.unkept = self.unkept.saturating_add(1);
        Err(refused(alloc))
    }

    #[tactic(auto, using(crate::proofs::Holding::holding_rules))]
    fn discard(&mut self, _draft: MemoryDraft) {}
}

//! The files of the system.
ghost use Rattle.std.specs.Prelude.{None};
ghost use Rattle.file_io.specs.Names.{Begins};
ghost use Rattle.system_files.specs.Drafts.{draft_faults};
ghost use Rattle.system_files.specs.Counts.{files_faults};

use crate::links::{end_of, no_memory};
use crate::names::{Stream, descriptor_of, part_of, stream_of};
use crate::nodes::{Node, is_pipe_among, stream_to};
use crate::numbers::OpenAtStart;
use crate::targets::Target;
use file_io::{Outside, Reason};
use port_io::{Failed, InputPort, OutputPort, Sink};
use progress::{Progress, Tell, WatchedSource, Written};
use std::alloc::Global;
use std::fs::{File, Metadata, OpenOptions, Permissions};
use std::io::{Error, ErrorKind};
use std::os::unix::fs::FileTypeExt;
use std::{fs, io, process};

/// The files of the system, and how many calls of each kind have failed. It tells how much is read and written.
#[derive(Drop)]
pub struct SystemFiles<'a, T> {
    rt: &'a HostRuntime,
    tell: &'a T,
    start: OpenAtStart,
    certificate: &'a str,
    pipes: Vec<Node>,
    unopened: u64,
    uncreated: u64,
    unkept: u64,
}

/// A file that is written: beside its name, or in place where the name leads to what isn't a plain file, or to a file
/// that is open.
#[derive(Drop)]
pub struct SystemDraft<'a, T> {
    port: OutputPort<Target>,
    tell: &'a T,
    written: Written,
    is_begun: bool,
    is_screen: bool,
    paths: Option<Paths>,
}

/// The path of a draft, and of the file whose place it takes.
#[derive(Drop)]
struct Paths {
    part: String,
    whole: String,
}

/// Tells of text that is written next where people see the progress.
fn tell_before<T: Tell>(tell: &T, is_screen: bool) {
    if is_screen {
        tell.tell(Progress::Text);
    }
}

/// Tells how much was written, except where people see it.
fn tell_after<T: Tell>(tell: &T, is_screen: bool, written: Written) {
    if !is_screen {
        tell.tell(Progress::Written(written));
    }
}

impl<'a, T: Tell> Sink for SystemDraft<'a, T> {
    ghost written = { λ _. None };

    ghost faults = { draft_faults };

    #[tactic(auto, unfolding(port_io::specs::Bytes::appended))]
    fn write(&mut self, piece: &[u8]) -> Result<usize, Failed> {
        tell_before(self.tell, self.is_screen);
        match self.port.write(piece) {
            Ok(count) => {
                if count > 0 {
                    self.is_begun = true;
                }
                let (part, _) = piece.split_at(count);
                self.written = self.written.and(part);
                tell_after(self.tell, self.is_screen, self.written);
                Ok(count)
            }
            Err(Failed) => Err(Failed),
        }
    }
}

/// The system's reason, as it tells it; empty if memory runs out.
fn reason_of(alloc: Global, error: &Error) -> Reason {
    let text = match format!(in alloc; "{error}") {
        Ok(text) => text.into_bytes(),
        Err(_) => Vec::new(alloc),
    };
    Reason { text }
}

/// A reason of the program's own; empty if memory runs out.
fn own_reason(alloc: Global, says: &[u8]) -> Reason {
    let text = match Vec::from_slice(alloc, says) {
        Ok(text) => text,
        Err(_) => Vec::new(alloc),
    };
    Reason { text }
}

/// The reason where a draft that is written in place would be read again.
fn unreadable(alloc: Global) -> Reason {
    own_reason(
        alloc,
        b"it isn't a plain file by its own name, and so can't be read again",
    )
}

/// Opens a file that isn't a folder, and notes a pipe.
fn open_file(rt: &HostRuntime, pipes: &mut Vec<Node>, name: &str) -> io::Result<File> {
    let file = File::open(rt, name)?;
    let found = file.metadata()?;
    if found.is_dir() {
        return Err(Error::from(ErrorKind::IsADirectory));
    }
    if found.file_type().is_fifo() && pipes.push(Node::of(&found)).is_err() {
        return Err(no_memory());
    }
    Ok(file)
}

/// The reason where an open file is named that the program wasn't started with.
fn unknown(alloc: Global) -> Reason {
    own_reason(
        alloc,
        b"the program was started without an open file of this number",
    )
}

/// Opens a file that is read. A pipe is opened once, whatever its names: what was read of it is gone, and where nobody
/// writes to it any more, opening it again would take forever.
fn open_input(
    rt: &HostRuntime,
    alloc: Global,
    pipes: &mut Vec<Node>,
    name: &str,
    is_known: bool,
) -> Result<File, Reason> {
    if !is_known {
        return Err(unknown(alloc));
    }
    if is_pipe_among(rt, name, pipes) {
        return Err(own_reason(alloc, b"it is a pipe, and so can't be read again"));
    }
    match open_file(rt, pipes, name) {
        Ok(file) => Ok(file),
        Err(error) => Err(reason_of(alloc, &error)),
    }
}

impl<'a, T: Tell> SystemFiles<'a, T> {
    /// The files that the system of a run has, who is told of it, which files were open before the run opened any, and
    /// the name of the certificate, which is read again; empty if there is none.
    pub fn new(rt: &'a HostRuntime, tell: &'a T, start: OpenAtStart, certificate: &'a str) -> Self {
        SystemFiles {
            rt,
            tell,
            start,
            certificate,
            pipes: Vec::new(rt.alloc()),
            unopened: 0,
            uncreated: 0,
            unkept: 0,
        }
    }

    /// Whether a name is one of an open file that the program wasn't started with: its own files have no such names.
    fn is_unknown(&self, name: &str) -> bool {
        match descriptor_of(name, process::id(self.rt.process())) {
            Some(open) => open.is_own && self.start.is_closed(open.number),
            None => false,
        }
    }

    /// The path of the file that a name leads to, at the end of its links, also where there is no file yet.
    fn whole_of(&self, alloc: Global, name: &str) -> io::Result<String> {
        match fs::canonicalize(self.rt, name) {
            Ok(path) => Ok(path.into_string()),
            Err(error) if error.kind() == ErrorKind::NotFound => end_of(self.rt, alloc, name),
            Err(error) => Err(error),
        }
    }

    /// A draft to which nothing was written.
    fn draft_to(&self, target: Target, paths: Option<Paths>) -> SystemDraft<'a, T> {
        let is_screen = target.is_screen();
        SystemDraft {
            port: OutputPort::new(target),
            tell: self.tell,
            written: Written::nothing(),
            is_begun: false,
            is_screen,
            paths,
        }
    }

    /// A standard stream, to be written in place.
    fn standard(&self, stream: Stream) -> SystemDraft<'a, T> {
        let target = match stream {
            Stream::Output => Target::Output(self.rt.stdout()),
            Stream::Errors => Target::Errors(self.rt.stderr()),
        };
        self.draft_to(target, None)
    }

    /// Opens what is written in place: a plain file that is open is written at its end.
    fn open_in_place(&self, name: &str, is_plain: bool) -> io::Result<SystemDraft<'a, T>> {
        let file = OpenOptions::new()
            .write(true)
            .append(is_plain)
            .open(self.rt, name)?;
        Ok(self.draft_to(Target::File(file), None))
    }

    /// Creates the file of a draft, with the mode of the file whose place it takes, if there is one. Where that mode
    /// can't be set, no file is left.
    fn create_part(&self, part: &str, mode: Option<Permissions>) -> io::Result<File> {
        let file = File::create_new(self.rt, part)?;
        let Some(mode) = mode else {
            return Ok(file);
        };
        if let Err(error) = file.set_permissions(mode) {
            let _ = fs::remove_file(self.rt, part);
            return Err(error);
        }
        Ok(file)
    }

    /// Creates a draft beside a plain file, or where no file is.
    fn create_beside(
        &self,
        alloc: Global,
        name: &str,
        mode: Option<Permissions>,
    ) -> io::Result<SystemDraft<'a, T>> {
        let whole = self.whole_of(alloc, name)?;
        let Ok(part) = part_of(alloc, whole.as_str(), process::id(self.rt.process())) else {
            return Err(no_memory());
        };
        let file = self.create_part(part.as_str(), mode)?;
        Ok(self.draft_to(Target::File(file), Some(Paths { part, whole })))
    }

    /// Creates a draft of what a name leads to, which was found.
    fn create_of(
        &self,
        alloc: Global,
        name: &str,
        found: &Metadata,
    ) -> io::Result<SystemDraft<'a, T>> {
        if let Some(stream) = stream_to(self.rt, found) {
            return Ok(self.standard(stream));
        }
        if !found.is_file() {
            return self.open_in_place(name, false);
        }
        match descriptor_of(name, process::id(self.rt.process())) {
            Some(_) => self.open_in_place(name, true),
            None => self.create_beside(alloc, name, Some(found.permissions())),
        }
    }

    /// Creates a draft of what has a name of its own. An empty name leads nowhere.
    fn create_named(&self, alloc: Global, name: &str) -> io::Result<SystemDraft<'a, T>> {
        match fs::metadata(self.rt, name) {
            Ok(found) => self.create_of(alloc, name, &found),
            Err(error) if error.kind() == ErrorKind::NotFound && !name.is_empty() => {
                self.create_beside(alloc, name, None)
            }
            Err(error) => Err(error),
        }
    }

    /// Creates a draft, in place or beside its name.
    fn create_either(&self, alloc: Global, name: &str) -> io::Result<SystemDraft<'a, T>> {
        match stream_of(name) {
            Some(stream) => Ok(self.standard(stream)),
            None => self.create_named(alloc, name),
        }
    }

    /// Whether a name is that of the certificate, and leads to what isn't a plain file.
    fn is_odd_certificate(&self, name: &str) -> bool {
        if name != self.certificate {
            return false;
        }
        match fs::metadata(self.rt, name) {
            Ok(found) => !found.is_file(),
            Err(_) => false,
        }
    }

    /// Creates a draft. That of a certificate is read again, and so can't be written in place: a pipe isn't opened at
    /// all, which would wait for a reader.
    fn create_draft(&self, alloc: Global, name: &str) -> Result<SystemDraft<'a, T>, Reason> {
        if self.is_unknown(name) {
            return Err(unknown(alloc));
        }
        if self.is_odd_certificate(name) {
            return Err(unreadable(alloc));
        }
        match self.create_either(alloc, name) {
            Ok(draft) if draft.paths.is_none() && name == self.certificate => {
                Err(unreadable(alloc))
            }
            Ok(draft) => Ok(draft),
            Err(error) => Err(reason_of(alloc, &error)),
        }
    }

    /// Opens what was written to a draft. What is written in place can't be read again.
    fn open_part(&self, alloc: Global, draft: &SystemDraft<'a, T>) -> Result<File, Reason> {
        let Some(paths) = &draft.paths else {
            return Err(unreadable(alloc));
        };
        match File::open(self.rt, paths.part.as_str()) {
            Ok(file) => Ok(file),
            Err(error) => Err(reason_of(alloc, &error)),
        }
    }

    /// Gives a draft the name of the file whose place it takes.
    fn rename_part(&self, draft: &SystemDraft<'a, T>) -> io::Result<()> {
        match &draft.paths {
            None => Ok(()),
            Some(paths) => fs::rename(self.rt, paths.part.as_str(), paths.whole.as_str()),
        }
    }

    /// Removes a draft. What remains if that fails has a name that says so.
    fn remove_part(&self, draft: &SystemDraft<'a, T>) {
        if let Some(paths) = &draft.paths {
            let _ = fs::remove_file(self.rt, paths.part.as_str());
        }
    }
}

impl<'a, T: Tell> Outside for SystemFiles<'a, T> {
    ghost use Rattle.file_io.specs.Names.{Unknown};
    ghost use Rattle.system_files.specs.Counts.{files_faults};

    ghost holds = { λ _ _. Unknown };

    ghost faults = { λ files. files_faults files };

    type Input = WatchedSource<'a, InputPort<File>, T>;

    type Draft = SystemDraft<'a, T>;

    #[tactic(auto, using(crate::proofs::Failures::failures))]
    fn open(&mut self, alloc: Global, name: &str) -> Result<Self::Input, Reason> {
        let is_known = !self.is_unknown(name);
        match open_input(self.rt, alloc, &mut self.pipes, name, is_known) {
            Ok(file) => Ok(WatchedSource::new(InputPort::new(file), self.tell)),
            Err(reason) => {
                self.unopened = self.unopened.saturating_add(1);
                Err(reason)
            }
        }
    }

    #[tactic(auto, using(crate::proofs::Failures::failures))]
    fn create(&mut self, alloc: Global, name: &str) -> Result<SystemDraft<'a, T>, Reason> {
        match self.create_draft(alloc, name) {
            Ok(draft) => Ok(draft),
            Err(reason) => {
                self.uncreated = self.uncreated.saturating_add(1);
                Err(reason)
            }
        }
    }

    fn is_begun(draft: &SystemDraft<'a, T>) -> bool
        ensures { Begins None result }
    {
        draft.is_begun
    }

    #[tactic(auto, using(crate::proofs::Failures::failures))]
    fn reopen(&mut self, alloc: Global, draft: &SystemDraft<'a, T>) -> Result<Self::Input, Reason> {
        match self.open_part(alloc, draft) {
            Ok(file) => Ok(WatchedSource::new(InputPort::new(file), self.tell)),
            Err(reason) => {
                self.unopened = self.unopened.saturating_add(1);
                Err(reason)
            }
        }
    }

    #[tactic(auto, using(crate::proofs::Failures::failures))]
    fn keep(
        &mut self,
        alloc: Global,
        _name: &str,
        draft: SystemDraft<'a, T>,
    ) -> Result<(), Reason> {
        match self.rename_part(&draft) {
            Ok(()) => Ok(()),
            Err(error) => {
                self.remove_part(&draft);
                self.unkept = self.unkept.saturating_add(1);
                Err(reason_of(alloc, &error))
            }
        }
    }

    #[tactic(auto, using(crate::proofs::Failures::failures))]
    fn discard(&mut self, draft: SystemDraft<'a, T>) {
        self.remove_part(&draft);
    }
}

//! A line of progress on the error stream, where that is a terminal. How much work was done decides when it is
//! written again, not a clock: a short run shows nothing.

use progress::{Progress, Tell, Written};
use std::cell::Cell;
use std::io::IsTerminal;

/// So many bytes are read from one line to the next.
const READ_STEP: u64 = 4_194_304;

/// So many bytes are written from one line to the next.
const WRITTEN_STEP: u64 = 262_144;

/// So many gates go through stages from one line to the next.
const GATES_STEP: u64 = 1_000;

/// The windows of so many roots are attempted from one line to the next.
const ROOTS_STEP: u64 = 1_000;

/// So many lines are added to logs from one line to the next.
const LINES_STEP: u64 = 2_000;

/// Comparisons of gates may take so many conflicts from one line to the next.
const CONFLICTS_STEP: u64 = 200_000;

/// The line of progress.
#[derive(Drop)]
pub struct Terminal<'a> {
    rt: &'a HostRuntime,
    is_on: bool,
    is_shown: Cell<bool>,
    read: Cell<u64>,
    written: Cell<u64>,
    gates: Cell<u64>,
    rounds: Cell<u64>,
    roots: Cell<u64>,
    lines: Cell<u64>,
    shown_lines: Cell<u64>,
    conflicts: Cell<u64>,
}

/// Whether the work has come to a further step, which is kept then.
fn is_due(last: &Cell<u64>, step: u64) -> bool {
    if step == last.get() {
        return false;
    }
    last.set(step);
    true
}

/// Adds to the work since the last line. Whether it is enough for the next one, from which it is counted again.
fn is_enough(work: &Cell<u64>, more: u64, step: u64) -> bool {
    let now = work.get().saturating_add(more);
    if now < step {
        work.set(now);
        return false;
    }
    work.set(0);
    true
}

/// Adds to a sum.
fn add(sum: &Cell<u64>, more: u64) {
    sum.set(sum.get().saturating_add(more));
}

impl<'a> Terminal<'a> {
    /// The error stream of a run; nothing is shown where it is no terminal.
    pub fn new(rt: &'a HostRuntime) -> Self {
        Terminal {
            rt,
            is_on: rt.stderr().is_terminal(),
            is_shown: Cell::new(false),
            read: Cell::new(0),
            written: Cell::new(0),
            gates: Cell::new(0),
            rounds: Cell::new(0),
            roots: Cell::new(0),
            lines: Cell::new(0),
            shown_lines: Cell::new(0),
            conflicts: Cell::new(0),
        }
    }

    /// Removes the line.
    pub fn wipe(&self) {
        if self.is_shown.get() {
            let _ = eprint!(self.rt; "\r\u{1b}[K");
            self.is_shown.set(false);
        }
    }

    /// Shows how much was read.
    fn show_read(&self, bytes: u64) {
        if is_due(&self.read, bytes / READ_STEP) {
            let _ = eprint!(self.rt; "\r{} MiB read\u{1b}[K", bytes / 1_048_576);
            self.is_shown.set(true);
        }
    }

    /// Shows how much was written.
    fn show_written(&self, written: Written) {
        if is_due(&self.written, written.bytes / WRITTEN_STEP) {
            let kib = written.bytes / 1_024;
            let _ = match written.size {
                Some(size) => eprint!(self.rt; "\rup to size {size}: {kib} KiB written\u{1b}[K"),
                None => eprint!(self.rt; "\r{kib} KiB written\u{1b}[K"),
            };
            self.is_shown.set(true);
        }
    }

    /// Shows how many gates are left.
    fn show_gates(&self, gates: usize) {
        if is_enough(&self.gates, gates as u64, GATES_STEP) {
            let _ = eprint!(self.rt; "\r{gates} gates left\u{1b}[K");
            self.is_shown.set(true);
        }
    }

    /// Shows how many roots a round has behind it.
    fn show_root(&self, done: u32, all: u32) {
        if is_enough(&self.roots, 1, ROOTS_STEP) {
            let round = self.rounds.get();
            let _ = eprint!(self.rt; "\rround {round}: windows of {done} of {all} gates\u{1b}[K");
            self.is_shown.set(true);
        }
    }

    /// Shows which subproblem is searched.
    fn show_subproblem(&self, size: u32, number: usize, all: usize) {
        let lines = self.lines.get();
        if is_due(&self.shown_lines, lines / LINES_STEP) {
            let _ = eprint!(self.rt;
                "\rsize {size}: part {number} of {all}, {lines} lines of logs\u{1b}[K"
            );
            self.is_shown.set(true);
        }
    }

    /// Shows how many gates a round of comparisons has behind it.
    fn show_compared(&self, done: u32, all: u32, limit: u32) {
        if is_enough(&self.conflicts, u64::from(limit), CONFLICTS_STEP) {
            let _ = eprint!(self.rt;
                "\r{done} of {all} gates compared, {limit} conflicts each\u{1b}[K"
            );
            self.is_shown.set(true);
        }
    }
}

impl<'a> Tell for Terminal<'a> {
    fn tell(&self, progress: Progress) {
        if !self.is_on {
            return;
        }
        match progress {
            Progress::Read(bytes) => self.show_read(bytes),
            Progress::Written(written) => self.show_written(written),
            Progress::Gates(gates) => self.show_gates(gates),
            Progress::Round => add(&self.rounds, 1),
            Progress::Root { done, all } => self.show_root(done, all),
            Progress::Subproblem { size, number, all } => self.show_subproblem(size, number, all),
            Progress::Logged(lines) => add(&self.lines, lines as u64),
            Progress::Compared { done, all, limit } => self.show_compared(done, all, limit),
            Progress::Text => self.wipe(),
        }
    }
}

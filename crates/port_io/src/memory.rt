//! Sources and sinks in memory. Contracts see their bytes.
ghost use Rattle.std.specs.Prelude.{◌≡◌, ℕ, List, [], Some, Ok, IfOk, OnOk, OnErr, is_err, IsTrue, IsErr};
ghost use Rattle.std.specs.Prelude.{length, take, drop, min, ◌<◌, ◌≤◌};
ghost use Rattle.port_io.specs.Bytes.{Appends, Consumes, IsAtEnd};
ghost use Rattle.port_io.specs.Faults.{Rose};
ghost use Rattle.port_io.specs.Memory.{first_schedule, is_to_fail, after_success, after_failure};

use crate::calls::Calls;
use crate::outside::{Failed, Sink, Source};
use std::alloc::Global;
use std::marker::Model;

/// Copies the longest prefix of `rest` that fits into `buf`, and returns its length.
fn copy_prefix(rest: &[u8], buf: &mut [u8]) -> usize
    ensures count { result ≡ min (length buf.old) (length rest.now) }
    ensures prefix { take result buf.new ≡ take result rest.now }
{
    let count = buf.len().min(rest.len());
    buf[..count].copy_from_slice(&rest[..count]);
    count
}

/// A source of bytes in memory. Its calls never fail.
#[derive(Drop)]
pub struct SteadySource {
    bytes: Vec<u8>,
    at: usize,
}

impl Model for SteadySource {
    ghost use Rattle.std.specs.Prelude.{List, ℕ, drop, length, ◌≤◌};

    ghost Value = { List ℕ };

    ghost view = { λ s. drop s.at s.bytes.items };

    ghost invariant = { λ s. s.at ≤ length s.bytes.items };
}

impl SteadySource {
    /// All of `bytes` are left.
    pub fn new(bytes: Vec<u8>) -> Self
        ensures { result ≡ bytes.items }
    {
        SteadySource { bytes, at: 0 }
    }

    /// How many calls have failed: none.
    pub fn faults(&self) -> u64
        ensures { result ≡ 0 }
    {
        0
    }
}

impl Source for SteadySource {
    ghost left = { λ bytes. Some bytes };

    ghost faults = { λ _. 0 };

    #[tactic(auto, unfolding(crate::specs::Bytes::prepended), using(crate::proofs::Pieces::piece_taken))]
    fn read(&mut self, buf: &mut [u8]) -> Result<usize, Failed>
        ensures count { result ≡ Ok (min (length buf.old) (length self.old)) }
        ensures within { IfOk result (λ count. count ≤ length buf.new) }
        ensures taken { IfOk result
            (λ count. Consumes (Some self.old) (Some self.new) (take count buf.new)) }
        ensures end { result ≡ Ok 0 → 0 < length buf.new → IsAtEnd (Some self.new) }
    {
        let (_, rest) = self.bytes.split_at(self.at);
        let count = copy_prefix(rest, buf);
        self.at += count;
        Ok(count)
    }
}

/// A source of bytes in memory. The calls whose numbers are on a list fail.
#[derive(Drop)]
pub struct MemorySource {
    source: SteadySource,
    calls: Calls,
}

impl Model for MemorySource {
    ghost use Rattle.port_io.specs.Memory.{Supply};

    ghost Value = { Supply };

    ghost view = { λ s. record { left = s.source; schedule = s.calls } };
}

impl MemorySource {
    /// All of `bytes` are left. `failing` lists the numbers of the calls of `read` that fail, counted
    /// from 1. The number saturates: from call 2^64 - 1 on every call has that number.
    pub fn new(bytes: Vec<u8>, failing: Vec<u64>) -> Self
        ensures { result ≡ record { left = bytes.items; schedule = first_schedule failing.items } }
    {
        MemorySource {
            source: SteadySource::new(bytes),
            calls: Calls::new(failing),
        }
    }

    /// How many calls have failed.
    pub fn faults(&self) -> u64
        ensures { result ≡ self.now.schedule.faults }
    {
        self.calls.faults()
    }
}

impl Source for MemorySource {
    ghost left = { λ s. Some s.left };

    ghost faults = { λ s. s.schedule.faults };

    #[tactic(auto, unfolding(crate::specs::Bytes::prepended))]
    fn read(&mut self, buf: &mut [u8]) -> Result<usize, Failed>
        // The call fails if and only if its number is on the list.
        ensures fails { is_err result ≡ is_to_fail self.old.schedule }
        ensures count { IfOk result (λ count. count ≡ min (length buf.old) (length self.old.left)) }
        ensures ok { OnOk result (self.new.schedule ≡ after_success self.old.schedule) }
        ensures err { OnErr result (self.new.schedule ≡ after_failure self.old.schedule) }

        ensures within { IfOk result (λ count. count ≤ length buf.new) }
        ensures taken { IfOk result
            (λ count. Consumes (Some self.old.left) (Some self.new.left) (take count buf.new)) }
        ensures end { result ≡ Ok 0 → 0 < length buf.new → IsAtEnd (Some self.new.left) }
        ensures none_taken { OnErr result (self.new.left ≡ self.old.left) }
        ensures only_if_rose { OnErr result (Rose self.old.schedule.faults self.new.schedule.faults) }
        ensures never_falls { self.old.schedule.faults ≤ self.new.schedule.faults }
    {
        if self.calls.begin() {
            return Err(Failed);
        }
        self.source.read(buf)
    }
}

/// A sink that keeps in memory what is written. A call fails if its number is on a list, or if memory
/// runs out.
#[derive(Drop)]
pub struct MemorySink {
    written: Vec<u8>,
    calls: Calls,
}

impl Model for MemorySink {
    ghost use Rattle.port_io.specs.Memory.{Store};

    ghost Value = { Store };

    ghost view = { λ s. record { written = s.written.items; schedule = s.calls } };
}

impl MemorySink {
    /// Nothing is written yet. `failing` lists the numbers of the calls of `write` that fail, counted
    /// from 1. The number saturates: from call 2^64 - 1 on every call has that number.
    pub fn new(alloc: Global, failing: Vec<u64>) -> Self
        ensures { result ≡ record { written = []; schedule = first_schedule failing.items } }
    {
        MemorySink {
            written: Vec::new(alloc),
            calls: Calls::new(failing),
        }
    }

    /// The bytes that were written, in their order.
    pub fn written(&self) -> &[u8]
        ensures { result.now ≡ self.now.written }
    {
        &self.written
    }

    /// How many calls have failed.
    pub fn faults(&self) -> u64
        ensures { result ≡ self.now.schedule.faults }
    {
        self.calls.faults()
    }
}

impl Sink for MemorySink {
    ghost written = { λ s. Some s.written };

    ghost faults = { λ s. s.schedule.faults };

    #[tactic(auto, unfolding(crate::specs::Bytes::appended))]
    fn write(&mut self, piece: &[u8]) -> Result<usize, Failed>
        // The call fails if its number is on the list, and otherwise only if memory runs out.
        ensures fails { IsTrue (is_to_fail self.old.schedule) → IsErr result }
        ensures whole { IfOk result (λ count. count ≡ length piece.now) }
        ensures ok { OnOk result (self.new.schedule ≡ after_success self.old.schedule) }
        ensures err { OnErr result (self.new.schedule ≡ after_failure self.old.schedule) }

        ensures within { IfOk result (λ count. count ≤ length piece.now) }
        ensures some { IfOk result (λ count. 0 < length piece.now → 0 < count) }
        ensures gone { IfOk result
            (λ count. Appends (Some self.old.written) (Some self.new.written) (take count piece.now)) }
        ensures none_gone { OnErr result (self.new.written ≡ self.old.written) }
        ensures only_if_rose { OnErr result (Rose self.old.schedule.faults self.new.schedule.faults) }
        ensures never_falls { self.old.schedule.faults ≤ self.new.schedule.faults }
    {
        if self.calls.begin() {
            return Err(Failed);
        }
        if self.written.extend_from_slice(piece).is_err() {
            self.calls.count_fault();
            return Err(Failed);
        }
        Ok(piece.len())
    }
}

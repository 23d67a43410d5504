//! The program's environment: sources, which bytes are read from, and sinks, which they are written to.
ghost use Rattle.std.specs.Prelude.{◌≡◌, ℕ, ◌<◌, ◌≤◌, List, Option, Ok, IfOk, OnOk, OnErr, length, take};
ghost use Rattle.port_io.specs.Bytes.{Appends, Consumes, IsAtEnd};
ghost use Rattle.port_io.specs.Faults.{Rose};

/// A call of a source or sink failed. If the bytes are known, the call read or wrote none.
#[derive(Clone, Copy)]
pub struct Failed;

/// A source of bytes: an input.
pub trait Source {
    /// The bytes that are left, in order, or None if this source's bytes aren't known to contracts. Whether
    /// they are known never changes.
    ghost left: { Self → Option (List ℕ) };

    /// How many calls have failed, saturating at 2^64 - 1. A call that succeeds leaves the count as it is.
    ghost faults: { Self → ℕ };

    /// Reads the next bytes into the start of `buf`, and returns how many. The rest of `buf` is
    /// unspecified. A count of 0 for a `buf` that isn't empty means that the input has ended.
    fn read(&mut self, buf: &mut [u8]) -> Result<usize, Failed>
        ensures within { IfOk result (λ count. count ≤ length buf.new) }
        ensures taken { IfOk result
            (λ count. Consumes (left self.old) (left self.new) (take count buf.new)) }
        ensures end { result ≡ Ok 0 → 0 < length buf.new → IsAtEnd (left self.new) }
        ensures none_taken { OnErr result (left self.new ≡ left self.old) }
        ensures faultless { OnOk result (faults self.new ≡ faults self.old) }
        ensures only_if_rose { OnErr result (Rose (faults self.old) (faults self.new)) }
        ensures never_falls { faults self.old ≤ faults self.new };
}

/// A sink of bytes: an output.
pub trait Sink {
    /// The bytes written so far, in order, or None if this sink's bytes aren't known to contracts. Whether
    /// they are known never changes.
    ghost written: { Self → Option (List ℕ) };

    /// How many calls have failed, saturating at 2^64 - 1. A call that succeeds leaves the count as it is.
    ghost faults: { Self → ℕ };

    /// Writes a prefix of `piece`, and returns its length, which is at least 1 for a `piece` that isn't empty.
    fn write(&mut self, piece: &[u8]) -> Result<usize, Failed>
        ensures within { IfOk result (λ count. count ≤ length piece.now) }
        ensures some { IfOk result (λ count. 0 < length piece.now → 0 < count) }
        ensures gone { IfOk result
            (λ count. Appends (written self.old) (written self.new) (take count piece.now)) }
        ensures none_gone { OnErr result (written self.new ≡ written self.old) }
        ensures faultless { OnOk result (faults self.new ≡ faults self.old) }
        ensures only_if_rose { OnErr result (Rose (faults self.old) (faults self.new)) }
        ensures never_falls { faults self.old ≤ faults self.new };
}

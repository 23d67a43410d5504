//! Writing a whole text.
ghost use Rattle.std.specs.Prelude.{◌≡◌, ◌≤◌, OnOk, OnErr};
ghost use Rattle.port_io.specs.Bytes.{Appends, AppendsPrefix};
ghost use Rattle.port_io.specs.Faults.{Rose};

use crate::outside::{Failed, Sink};

/// Why `write_all` didn't write all.
#[derive(Clone, Copy, PartialEq, Eq)]
pub enum WriteFault {
    /// A call of the sink failed.
    WriteFault,
}

/// Writes all of `bytes`, in as many calls as the sink needs. After an error a prefix of them may have
/// been written.
#[tactic(auto, using(crate::specs::TextLaws::writing))]
pub fn write_all<O: Sink>(sink: &mut O, bytes: &[u8]) -> Result<(), WriteFault>
    ensures all { OnOk result (Appends (O.written sink.old) (O.written sink.new) bytes.now) }
    ensures prefix { AppendsPrefix (O.written sink.old) (O.written sink.new) bytes.now }
    ensures faultless { OnOk result (O.faults sink.new ≡ O.faults sink.old) }
    ensures only_if_rose { OnErr result (Rose (O.faults sink.old) (O.faults sink.new)) }
    ensures never_falls { O.faults sink.old ≤ O.faults sink.new }
{
    let mut at = 0;
    while at < bytes.len() {
        let (_, rest) = bytes.split_at(at);
        match sink.write(rest) {
            Err(Failed) => return Err(WriteFault::WriteFault),
            Ok(count) => at += count,
        }
    }
    Ok(())
}

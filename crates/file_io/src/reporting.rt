//! The line of a call on a file that failed.
ghost use Rattle.std.specs.Prelude.{◌≡◌, ◌≤◌, ◌++◌, OnOk, OnErr};
ghost use Rattle.port_io.specs.Bytes.{Appends, AppendsPrefix};
ghost use Rattle.port_io.specs.Faults.{Rose};
ghost use Rattle.frame_core.specs.Outside.{port_state, Writes};
ghost use Rattle.file_io.specs.FaultLine.{escaped_byte, escaped, told_line, fault_line, fault_status};

use crate::calls::{Call, status_of, word_of};
use crate::outside::Reason;
use frame_core::Status;
use port_io::{Sink, WriteFault, write_all};

/// Writes a byte of a name.
#[tactic(auto, unfolding(crate::specs::FaultLine::escaped_byte))]
fn write_byte<N: Sink>(note: &mut N, byte: u8) -> Result<(), WriteFault>
    ensures all { OnOk result (Appends (N.written note.old) (N.written note.new) (escaped_byte byte)) }
    ensures prefix { AppendsPrefix (N.written note.old) (N.written note.new) (escaped_byte byte) }
    ensures faultless { OnOk result (N.faults note.new ≡ N.faults note.old) }
    ensures only_if_rose { OnErr result (Rose (N.faults note.old) (N.faults note.new)) }
    ensures never_falls { N.faults note.old ≤ N.faults note.new }
{
    if byte == b'\n' {
        return write_all(note, b"\\n");
    }
    if byte == b'\\' {
        return write_all(note, b"\\\\");
    }
    if byte < b' ' {
        return write_all(note, b"?");
    }
    write_all(note, &[byte])
}

/// Writes a name, so that it stays on one line.
#[tactic(auto, using(frame_core::specs::PiecesLaws::texts_left))]
fn write_name<N: Sink>(note: &mut N, name: &[u8]) -> Result<(), WriteFault>
    ensures all { OnOk result (Appends (N.written note.old) (N.written note.new) (escaped name.now)) }
    ensures prefix { AppendsPrefix (N.written note.old) (N.written note.new) (escaped name.now) }
    ensures only_if_rose { OnErr result (Rose (N.faults note.old) (N.faults note.new)) }
    ensures never_falls { N.faults note.old ≤ N.faults note.new }
{
    let mut left = name;
    while let Some((byte, rest)) = left.split_first() {
        write_byte(note, *byte)?;
        left = rest;
    }
    Ok(())
}

/// Writes two texts, one after the other.
#[tactic(auto, using(port_io::specs::TextLaws::texts, port_io::specs::CountLaws::counts))]
fn write_two<N: Sink>(note: &mut N, first: &[u8], second: &[u8]) -> Result<(), WriteFault>
    ensures all { OnOk result (Appends (N.written note.old) (N.written note.new) (first.now ++ second.now)) }
    ensures prefix { AppendsPrefix (N.written note.old) (N.written note.new) (first.now ++ second.now) }
    ensures only_if_rose { OnErr result (Rose (N.faults note.old) (N.faults note.new)) }
    ensures never_falls { N.faults note.old ≤ N.faults note.new }
{
    write_all(note, first)?;
    write_all(note, second)
}

/// Writes the end of a line: what leads to the reason, and the reason.
#[tactic(auto, using(port_io::specs::TextLaws::texts, port_io::specs::CountLaws::counts))]
fn write_end<N: Sink>(
    note: &mut N,
    lead: &[u8],
    reason: &[u8],
    end: &[u8],
) -> Result<(), WriteFault>
    ensures all { OnOk result (Appends (N.written note.old) (N.written note.new)
        (lead.now ++ (reason.now ++ end.now))) }
    ensures prefix { AppendsPrefix (N.written note.old) (N.written note.new)
        (lead.now ++ (reason.now ++ end.now)) }
    ensures only_if_rose { OnErr result (Rose (N.faults note.old) (N.faults note.new)) }
    ensures never_falls { N.faults note.old ≤ N.faults note.new }
{
    write_all(note, lead)?;
    write_two(note, reason, end)
}

/// Writes the rest of a line behind its first words.
#[tactic(auto, using(port_io::specs::TextLaws::texts, port_io::specs::CountLaws::counts))]
fn write_named<N: Sink>(
    note: &mut N,
    name: &[u8],
    lead: &[u8],
    reason: &[u8],
    end: &[u8],
) -> Result<(), WriteFault>
    ensures all { OnOk result (Appends (N.written note.old) (N.written note.new)
        (escaped name.now ++ (lead.now ++ (reason.now ++ end.now)))) }
    ensures prefix { AppendsPrefix (N.written note.old) (N.written note.new)
        (escaped name.now ++ (lead.now ++ (reason.now ++ end.now))) }
    ensures only_if_rose { OnErr result (Rose (N.faults note.old) (N.faults note.new)) }
    ensures never_falls { N.faults note.old ≤ N.faults note.new }
{
    write_name(note, name)?;
    write_end(note, lead, reason, end)
}

/// Writes a line.
#[tactic(auto, using(port_io::specs::TextLaws::texts, port_io::specs::CountLaws::counts))]
fn write_line<N: Sink>(
    note: &mut N,
    what: &[u8],
    name: &[u8],
    lead: &[u8],
    reason: &[u8],
    end: &[u8],
) -> Result<(), WriteFault>
    ensures all { OnOk result (Appends (N.written note.old) (N.written note.new)
        (what.now ++ (escaped name.now ++ (lead.now ++ (reason.now ++ end.now))))) }
    ensures prefix { AppendsPrefix (N.written note.old) (N.written note.new)
        (what.now ++ (escaped name.now ++ (lead.now ++ (reason.now ++ end.now)))) }
    ensures only_if_rose { OnErr result (Rose (N.faults note.old) (N.faults note.new)) }
    ensures never_falls { N.faults note.old ≤ N.faults note.new }
{
    write_all(note, what)?;
    write_named(note, name, lead, reason, end)
}

/// Writes the line of a call that failed. If writing it fails, that is ignored.
fn report_line<N: Sink>(note: &mut N, what: &[u8], name: &[u8], reason: &[u8])
    ensures line { Writes (port_state N.written N.faults note.old) (port_state N.written N.faults note.new)
        (told_line what.now name.now reason.now) }
    ensures never_falls { N.faults note.old ≤ N.faults note.new }
{
    let _ = write_line(note, what, name, b": ", reason, b"\n");
}

/// Writes the line of a call that failed, as `error: ReadFault a.blif: No such file or directory`, and returns the
/// status of a run that ends with it. It allocates nothing. If writing it fails, that is ignored.
pub fn report_fault<N: Sink>(note: &mut N, call: Call, name: &str, reason: &Reason) -> Status
    ensures line { Writes (port_state N.written N.faults note.old) (port_state N.written N.faults note.new)
        (fault_line call name.now reason.now.text.items) }
    ensures status { result ≡ fault_status call }
    ensures never_falls { N.faults note.old ≤ N.faults note.new }
{
    report_line(note, word_of(call), name.as_bytes(), &reason.text);
    status_of(call)
}

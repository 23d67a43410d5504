//! Input and output: the traits `Source` and `Sink`, and reading and writing over them.
//!
//! Every crate that reads an input or writes an answer uses these traits; they need the standard
//! library alone. A call of a `Source` or a `Sink` may transfer fewer bytes than asked for, and may fail;
//! a failed call increments the count of faults. Contracts see the bytes of sources and sinks in memory,
//! so a contract that is generic in both says exactly which bytes are read and written wherever they are
//! known. The ports over the standard library's readers and writers show no bytes.
//!
//! What is proved: `read_all` returns all bytes that were left; it reports that there are too many only
//! if there are, and that a call failed only if the count rose. `read_piece` makes one call, for readers
//! that don't keep the whole input. `write_all` writes a whole text; if a call fails, it reports that, and a
//! prefix of the text may have been written.
//!
//! Example: `let input = read_all(alloc, &mut InputPort::new(rt.stdin()), 65536)?;`
#![tactic(auto)]

mod calls;
mod memory;
mod outside;
mod ports;
mod reading;
mod writing;

pub use memory::{MemorySink, MemorySource, SteadySource};
pub use outside::{Failed, Sink, Source};
pub use ports::{InputPort, OutputPort};
pub use reading::{PIECE, ReadError, read_all, read_piece};
pub use writing::{WriteFault, write_all};

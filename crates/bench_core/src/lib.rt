//! Reading and writing BENCH netlists (the ISCAS benchmark files). `read_bench` returns the circuit of a text
//! exactly if the text lists a well-formed document, and else the first fault; `write_bench` appends the text of
//! a circuit that BENCH can express (`specs/Writable`): the tables of its BLIF document, each as a gate of the
//! same function. The definitions are those of `net_theory` and `bench_text`.
//!
//! The main theorem: the circuit is equivalent to the document that its text lists, with as many gates as the
//! document costs.
//!
//! ```text
//! let circuit = read_bench(alloc, b"INPUT(a)\nINPUT(b)\nOUTPUT(y)\ny = NAND(a, b)\n")?;
//! write_bench(&circuit, &mut out)?;
//! ```
#![tactic(auto)]

mod gates;
mod reading;
mod spelling;
mod writing;

pub use net_core::{Circuit, NetError};
pub use reading::{read_bench, read_bench_up_to};
pub use writing::{first_source, write_bench, write_gates};

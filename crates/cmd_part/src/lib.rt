//! A part of a certificate, searched alone: `synth --size R --part P`. A part is a subproblem of a size: the whole
//! size, or by fences one of its fences.
//!
//! `WritePart` is the command for `frame_core` over tables. It solves the formula of the part alone and writes what
//! stands in a certificate for it: its fence, `refuted` or `open`, the log, and `done`. Where the formula is
//! satisfiable, it writes the chain in place of these. So the parts of a size can be searched at once, on several
//! machines, and the texts one after the other are the section of the size (`laws`). `specs/PartReport` has the task,
//! and `specs/PartLaws` the proof that it is one. The argument: the subproblems of a size depend on the tables and the
//! settings alone, and `try_subproblem` of `size_loop` promises for one what a certificate asks of it.
//!
//! ```text
//! let part = PartOfSearch { settings, size: 9, before: 0 }; // the first part of size 9
//! perform(alloc, &AtOnce(WritePart { part, solver: PhantomData::<Cdcl> }), &mut source, &mut out, &mut note)
//! ```
#![tactic(auto)]

pub mod laws;
mod part;
mod replies;
mod trying;

pub use part::PartOfSearch;
pub use replies::WritePart;

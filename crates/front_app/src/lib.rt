//! The front of `batsokemi`: its commands over files that are named, in any format.
//!
//! `serve` is `guide` of `front_guide` for the program of `chain_app`, or for `improve` over AIGER, by the formats
//! that the words ask for (`format_words`). Its contract is `IsFronted` (`specs/Fronted`): the run is that of the
//! words without formats (a canonical line has none), and `IsGuided` (`specs/Guided` of `front_guide`) over
//! `IsServed` (`specs/AtRuns` of `front_at`, `specs/LargeRuns` of `front_large`, and `specs/FormulaRuns` of
//! `front_formula`) and `IsEnding` (`specs/Front` of `front_core`), with `KeepsPromises`. Words that name no file
//! mean what they mean to `run`; words that name files are a run over the bytes of these, with all that `run`
//! promises, and a named output holds the whole answer, or what it held before; `formula` writes a part of a
//! certificate, and `equiv --formula` the miter; `equiv --at` writes values, each netlist in its format; `synth
//! --size` searches a part, and `recheck --most-bytes` reads longer certificates; words that ask for help get a page.
//! Over a netlist that is named, `improve` refuses an empty text (`specs/Named`); over AIGER it keeps `specs/Aiger`; by
//! wishes it is `IsWishServed` (`specs/WishRuns` of `front_wish`).
//! Two files of `equiv` are compared each in its format (`specs/Comparison`).
//!
//! ```text
//! let status = serve(alloc, &words, &mut outside, &mut source, &mut out, &mut note, &reader, &Silent);
//! ```
#![tactic(auto)]

mod aiger;
mod formats;
mod named;
mod programs;
mod serving;

pub use frame_core::Status;
pub use front_guide::{Remembering, Rereads, Retelling};
pub use serving::serve;

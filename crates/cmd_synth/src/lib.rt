//! The command `synth`: a certificate of the fewest steps for tables, or of the fewest steps and levels.
//!
//! `Synth` is the command for `frame_core`, which writes its certificate section by section during the search;
//! `LeastDepth` is `synth --least-depth yes`. `specs/SynthReport` and `specs/LeastDepthReport` have their tasks,
//! `specs/SynthPromise` and `specs/LeastDepthPromise` the promises of their runs, and `specs/SynthLaws` and
//! `specs/LeastDepthLaws` the proofs that every run keeps its promise.
#![tactic(auto)]

mod least_depth;
mod synth;

pub use least_depth::LeastDepth;
pub use synth::Synth;

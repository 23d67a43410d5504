//! Settings of exact synthesis and of netlist improvement as data, with ranges and defaults: shared by the code
//! that parses them, that searches or improves by them, and that writes them into a certificate. The crate
//! depends on `op_basis` for bases, on `chain_theory` and `sat_theory` for the most steps and conflicts, and on
//! nothing that encodes, searches or parses. `limits` has the greatest numbers and the defaults of numbers.
//!
//! `specs/Synth.antt` and `specs/Improve.antt` define the valid ranges (`IsInRange`) and the defaults
//! (`defaults`); `specs/Methods.antt` names each method, and says which one `auto` takes. Names and methods correspond
//! one to one (`laws::names_are_of_one_method`).
//!
//! ```text
//! let settings = SynthSettings { max: 3, ..SynthSettings::defaults() };
//! method_named(method_name(settings.method)) // Some(Method::Ssv)
//! ```
#![tactic(auto)]

mod improve;
pub mod laws;
mod limits;
mod methods;
mod synth;

pub use chain_theory::MOST_STEPS;
pub use improve::ImproveSettings;
pub use limits::{
    DEFAULT_CONFLICTS, DEFAULT_EFFORT, MOST_BLOCKS, MOST_EFFORT, MOST_GATES_OF_WINDOW, MOST_ROUNDS,
    MOST_SEED,
};
pub use methods::{Method, MethodChoice, choice_named, method_for, method_name, method_named};
pub use sat_theory::MOST_CONFLICTS;
pub use synth::SynthSettings;

//! What a user may wish of the netlist that `improve` writes, beyond the settings of the search. `wish_words` reads the
//! words of it.
#![tactic(auto)]

mod wishes;

pub use wishes::{CoversAsked, FormAsked, LevelsAsked, Wishes};

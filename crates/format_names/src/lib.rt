//! The formats of netlists by name. `net_formats` says what each stands for, and reads a text of any of them.
#![tactic(auto)]

mod formats;

pub use formats::{FormatPair, NetFormat};

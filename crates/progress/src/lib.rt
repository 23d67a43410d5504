//! Progress of long work, for people who watch it.
//!
//! A run tells whoever has the trait `Tell` what it has done so far. No clause says what that does, so no answer
//! depends on it: a program that nobody watches tells `Silent`. `WatchedSource` and `WatchedSink` are a source and a
//! sink that tell of the bytes that go through them; contracts see them as those that they wrap.
//!
//! ```text
//! let mut source = WatchedSource::new(source, &tell);
//! ```
#![tactic(auto)]

mod telling;
mod watching;

pub use telling::{Progress, Silent, Tell, Written};
pub use watching::{WatchedSink, WatchedSource};

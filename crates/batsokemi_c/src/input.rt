//! The caller's bytes as a source.
ghost use Rattle.std.specs.Prelude.{◌≡◌, Some};

use port_io::{Failed, Source};
use std::marker::Model;

/// A source of borrowed bytes. Its calls never fail.
#[derive(Drop)]
pub struct Input<'a> {
    rest: &'a [u8],
}

impl<'a> Model for Input<'a> {
    ghost use Rattle.std.specs.Prelude.{List, ℕ};

    ghost Value = { List ℕ };

    ghost view = { λ s. s.rest.now };
}

impl<'a> Input<'a> {
    /// All of `bytes` are left.
    pub fn new(bytes: &'a [u8]) -> Self
        ensures { result ≡ bytes.now }
    {
        Input { rest: bytes }
    }
}

impl<'a> Source for Input<'a> {
    ghost left = { λ bytes. Some bytes };

    ghost faults = { λ _. 0 };

    #[tactic(auto, unfolding(port_io::specs::Bytes::prepended))]
    fn read(&mut self, buf: &mut [u8]) -> Result<usize, Failed> {
        let count = buf.len().min(self.rest.len());
        let (prefix, rest) = self.rest.split_at(count);
        buf[..count].copy_from_slice(prefix);
        self.rest = rest;
        Ok(count)
    }
}

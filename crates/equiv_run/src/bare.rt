//! Texts that say nothing.
ghost use Rattle.std.specs.Prelude.{◌≡◌};
ghost use Rattle.equiv_run.specs.Two.{is_bare as is_bare_of};

use net_document::content_of;
use text_core::next_line;

/// Whether each line of a text is blank or a comment, so that it has no directive.
#[tactic(auto, unfolding(crate::specs::Two::say_nothing))]
pub fn is_bare(bytes: &[u8]) -> bool
    ensures { result ≡ is_bare_of bytes.now }
{
    let mut left = bytes;
    while let Some((line, ended, rest)) = next_line(left) {
        let content = content_of(line, ended);
        if !content.is_empty() {
            return false;
        }
        left = rest;
    }
    true
}

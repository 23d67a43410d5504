//! A question: a header that was checked.
ghost use Rattle.std.specs.Prelude.{◌≡◌, ◌<◌, length};
ghost use Rattle.cert_theory.specs.Certificate.{IsHeader};

use cert_theory::Header;

/// A header whose settings are in range and whose tables have at least one output. The question is whether a chain
/// of at most `header.max` steps over its basis implements its tables.
#[derive(Clone, Copy)]
pub struct Question<'a> {
    pub header: &'a Header,
    ghost checked: { IsHeader header.now },
    ghost output: { 0 < length header.now.spec.on },
}

impl<'a> Question<'a> {
    /// The question of a header.
    pub(crate) fn new(header: &'a Header) -> Question<'a>
        requires checked { IsHeader header.now }
        requires output { 0 < length header.now.spec.on }
        ensures { result.header.now ≡ header.now }
    {
        Question { header }
    }
}

//! Which lines of an answer are shown.
ghost use Rattle.std.specs.Prelude.{◌≡◌};
ghost use Rattle.shown_lines.specs.Shown as spec;

/// Whether a line is a step or an output of a chain, or its first line.
fn is_of_chain(text: &[u8]) -> bool
    ensures { result ≡ spec.is_of_chain text.now }
{
    text.starts_with(b"chain ") || text.starts_with(b"x") || text.starts_with(b"out ")
}

/// Whether a line is a verdict.
fn is_verdict(text: &[u8]) -> bool
    ensures { result ≡ spec.is_verdict text.now }
{
    text.starts_with(b"minimum ")
        || text.starts_with(b"bounded ")
        || text.starts_with(b"none ")
        || text.starts_with(b"open ")
        || text.starts_with(b"levels")
}

/// Whether a line is the result of a comparison, or a counterexample.
fn is_result(text: &[u8]) -> bool
    ensures { result ≡ spec.is_result text.now }
{
    text.starts_with(b"equal")
        || text.starts_with(b"differ ")
        || text.starts_with(b"undecided")
        || text.starts_with(b"at ")
}

/// Whether a line is shown.
pub fn is_shown(text: &[u8]) -> bool
    ensures { result ≡ spec.is_shown text.now }
{
    is_of_chain(text) || is_verdict(text) || is_result(text)
}

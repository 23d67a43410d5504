//! Where the search of a size ends.
ghost use Rattle.std.specs.Prelude.{◌≡◌};
ghost use Rattle.cert_theory.specs.Certificate.{stops_after as stops_after_of};
ghost use Rattle.cert_theory.specs.Coding.{stops_when_open as stops_when_open_of};

use crate::data::LogEnd;
use settings::Method;

/// Whether a size isn't searched further by a method once one of its subproblems is left open.
fn stops_when_open(method: Method) -> bool
    ensures { result ≡ stops_when_open_of method }
{
    match method {
        Method::Plain | Method::Ssv | Method::Select => false,
        Method::Fence | Method::Strong => false,
        Method::StrongFence => true,
    }
}

/// Whether a size isn't searched further by a method after a log that ends so.
pub fn stops_after(method: Method, ended: LogEnd) -> bool
    ensures { result ≡ stops_after_of method ended }
{
    match ended {
        LogEnd::Refuted => false,
        LogEnd::Open => stops_when_open(method),
    }
}

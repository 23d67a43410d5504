//! Windows as the lists that `subst_core` takes.

ghost use Rattle.subst_core.specs.Lists.{window_of, HaveSameLists};

use subst_core::WindowLists;
use window_core::Window;

/// A window by its lists.
pub fn lists_of<'a>(window: &'a Window) -> WindowLists<'a>
    ensures { HaveSameLists window.now (window_of result) }
{
    WindowLists {
        gates: window.gates(),
        inputs: window.inputs(),
        outputs: window.outputs(),
    }
}

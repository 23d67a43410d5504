//! Substitution of a chain for a window, with cleanup.

ghost use Rattle.std.specs.Prelude.{◌≡◌, ◌+◌, ◌≤◌, length, IfOk};
ghost use Rattle.net_theory.specs.Net as nets;
ghost use Rattle.net_theory.specs.Implements.{IsCleanedUp};
ghost use Rattle.net_theory.specs.Dangling.{cleanup};
ghost use Rattle.window_theory.specs.Window.{Belongs};
ghost use Rattle.window_theory.specs.Substituted.{Fits, after_substitution};
ghost use Rattle.subst_core.specs.Lists.{window_of};
ghost use Rattle.subst_core.specs.Substitution.{HasNodeRoom, KeepsSinks, HasOldOperators};

use crate::lists::WindowLists;
use crate::substitution::substitute_keeping;
use chain_core::Chain;
use net_core::{Net, remove_dangling};
use std::alloc::{AllocError, Global};

/// The net in which the chain has replaced the window, where the sinks keep their values, without the gates
/// that dangle then. Each gate has an operator of the net or of the chain. Where the net is what cleanup left
/// of a first one, and the chain has no more steps than the window has gates, the new net implements the
/// first one too.
pub fn replace_keeping(
    alloc: Global,
    net: &Net,
    window: &WindowLists,
    chain: &Chain,
) -> Result<Net, AllocError>
    requires belongs { Belongs net.now (window_of window.now) }
    requires fits { Fits (window_of window.now) chain.now }
    requires keeps { KeepsSinks net.now (window_of window.now) chain.now }
    requires room { HasNodeRoom net.now (window_of window.now) chain.now }
    ensures exact { IfOk result (λ new. new ≡ cleanup (after_substitution net.now (window_of window.now) chain.now)) }
    ensures cleaned_up { (first : nets.Net) → IsCleanedUp first net.now →
        length chain.now.steps ≤ length window.now.gates.now →
        IfOk result (IsCleanedUp first) }
    ensures fewer { IfOk result (λ new.
        length new.gates + length window.now.gates.now ≤ length net.now.gates + length chain.now.steps) }
    ensures operators { IfOk result (HasOldOperators net.now chain.now) }
{
    let substituted = substitute_keeping(alloc, net, window, chain)?;
    remove_dangling(alloc, &substituted)
}

//! Substitution of a chain for a window where every sink keeps its value: by any proof of that, or since the
//! chain implements the window's specification.

ghost use Rattle.std.specs.Prelude.{◌≡◌, ◌≤◌, length, IfOk};
ghost use Rattle.net_theory.specs.Implements.{Implements};
ghost use Rattle.window_theory.specs.Window.{Belongs};
ghost use Rattle.window_theory.specs.Substituted.{Fits, after_substitution};
ghost use Rattle.subst_core.specs.Lists.{window_of};
ghost use Rattle.subst_core.specs.Substitution.{HasNodeRoom, KeepsSinks, Meets, IsSubstituted};

use crate::lists::WindowLists;
use crate::rebuilding::rebuild_substituted;
use chain_core::Chain;
use net_core::Net;
use std::alloc::{AllocError, Global};

/// The net in which the chain has replaced the window, where the sinks keep their values. Where the chain has
/// no more steps than the window has gates, it implements the old net.
pub fn substitute_keeping(
    alloc: Global,
    net: &Net,
    window: &WindowLists,
    chain: &Chain,
) -> Result<Net, AllocError>
    requires belongs { Belongs net.now (window_of window.now) }
    requires fits { Fits (window_of window.now) chain.now }
    requires keeps { KeepsSinks net.now (window_of window.now) chain.now }
    requires room { HasNodeRoom net.now (window_of window.now) chain.now }
    ensures exact { IfOk result (λ new. new ≡ after_substitution net.now (window_of window.now) chain.now) }
    ensures substituted { IfOk result (IsSubstituted net.now (window_of window.now) chain.now) }
    ensures implements { length chain.now.steps ≤ length window.now.gates.now → IfOk result (Implements net.now) }
{
    rebuild_substituted(alloc, net, window, chain)
}

/// The net in which the chain has replaced the window, where the chain implements the window's specification.
/// The sinks keep their values. Where the chain has no more steps than the window has gates, it implements
/// the old net.
pub fn substitute(
    alloc: Global,
    net: &Net,
    window: &WindowLists,
    chain: &Chain,
) -> Result<Net, AllocError>
    requires belongs { Belongs net.now (window_of window.now) }
    requires meets { Meets net.now (window_of window.now) chain.now }
    requires room { HasNodeRoom net.now (window_of window.now) chain.now }
    ensures exact { IfOk result (λ new. new ≡ after_substitution net.now (window_of window.now) chain.now) }
    ensures substituted { IfOk result (IsSubstituted net.now (window_of window.now) chain.now) }
    ensures implements { length chain.now.steps ≤ length window.now.gates.now → IfOk result (Implements net.now) }
{
    // for the prover: brings the type's invariant into the proof
    let _gates = net.gates();
    substitute_keeping(alloc, net, window, chain)
}

//! The variables of a net's nodes.
ghost use Rattle.std.specs.Prelude.{◌≡◌, ◌+◌, ◌<◌, ◌^◌};
ghost use Rattle.net_theory.specs.Net.{IsSigBelow};
ghost use Rattle.equiv_theory.specs.Miter.{signal_is as signal_is_of};
ghost use Rattle.equiv_core.specs.Rows.{numbered};

use clause_core::RawLit;
use net_core::Sig;

/// The numbering of the nodes of one of two nets. Both share the variables of the `sources`; the variables of the
/// gates come after those of the other net's `before` gates, if these come first. All nodes are below `end`.
#[derive(Clone, Copy)]
pub(crate) struct NetNumbering {
    pub sources: u32,
    pub before: u32,
    pub end: u32,
}

impl NetNumbering {
    /// The variable of a node.
    #[tactic(auto, unfolding(equiv_theory::specs::Miter::variable_at))]
    pub(crate) fn variable(self, node: u32) -> u32
        requires { node + self.before < 2 ^ 32 }
        ensures { result ≡ numbered self node }
    {
        if node <= self.sources {
            return node;
        }
        node + self.before
    }

    /// The literal that is true exactly if the signal `sig` has the value `bit`.
    pub(crate) fn signal_is(self, sig: Sig, bit: bool) -> RawLit
        requires below { IsSigBelow self.end sig }
        requires room { self.end + self.before < 2 ^ 32 }
        ensures { result ≡ signal_is_of (numbered self) sig bit }
    {
        match sig {
            Sig::Zero => RawLit::Fixed(!bit),
            Sig::One => RawLit::Fixed(bit),
            Sig::Node(node) => RawLit::Var(self.variable(node), bit),
        }
    }
}

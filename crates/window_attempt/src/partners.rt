//! The partners of a root, one after the other.
ghost use Rattle.std.specs.Prelude.{◌≡◌, true, false, IfOk};
ghost use Rattle.window_core.specs.Fanouts.{AreFanouts};
ghost use Rattle.window_theory.specs.Paths.{IsGate};
ghost use Rattle.window_theory.specs.Window.{IsPartnerOrNone};
ghost use Rattle.improve_theory.specs.Candidates.{IsNextPartner};
ghost use Rattle.window_attempt.specs.PartnerLaws.{first_below as first_below_of};

use net_core::Net;
use std::alloc::{AllocError, Global};
use window_core::{Fanouts, partners_by};

/// The first of `nodes` below `below`. `nodes` is descending.
#[tactic(auto, unfolding(crate::specs::PartnerLaws::first_below))]
fn first_below(nodes: &[u32], below: u32) -> Option<u32>
    ensures { result ≡ first_below_of nodes.now below }
{
    let mut left = nodes;
    while let Some((node, rest)) = left.split_first() {
        if *node < below {
            return Some(*node);
        }
        left = rest;
    }
    None
}

/// The greatest partner of the gate `root` below `below`.
#[tactic(auto, using(crate::specs::PartnerLaws::choosing))]
pub fn next_partner(
    alloc: Global,
    net: &Net,
    fanouts: &Fanouts,
    root: u32,
    below: u32,
) -> Result<Option<u32>, AllocError>
    requires fanouts { AreFanouts net.now fanouts.now }
    requires gate { IsGate net.now root }
    ensures { IfOk result (λ next. IsNextPartner net.now root below next) }
{
    let partners = partners_by(alloc, net, fanouts, root)?;
    Ok(first_below(&partners, below))
}

/// Whether `partner`, if there is one, is a partner of the gate `root`.
#[tactic(auto, using(crate::specs::PartnerLaws::choosing))]
pub fn is_partner_or_none(
    alloc: Global,
    net: &Net,
    fanouts: &Fanouts,
    root: u32,
    partner: Option<u32>,
) -> Result<bool, AllocError>
    requires fanouts { AreFanouts net.now fanouts.now }
    requires gate { IsGate net.now root }
    ensures yes { IfOk result (λ is. is ≡ true → IsPartnerOrNone net.now root partner) }
    ensures not { IfOk result (λ is. is ≡ false → IsPartnerOrNone net.now root partner → ⊥) }
{
    match partner {
        None => Ok(true),
        Some(partner) => {
            let partners = partners_by(alloc, net, fanouts, root)?;
            Ok(partners.contains(&partner))
        }
    }
}

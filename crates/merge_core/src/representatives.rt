//! The representatives of nodes, by their signatures.
ghost use Rattle.std.specs.Prelude.{◌≡◌, ◌+◌, ◌-◌, ◌*◌, ◌≤◌, ◌<◌, ◌^◌, length, replicate, None, IfOk, IfSome};
ghost use Rattle.net_theory.specs.Net.{end_of};
ghost use Rattle.lane_sim.specs.Words.{AreWords, width_of as width_of_rows};
ghost use Rattle.merge_core.specs.Whole.{cone_of};
ghost use Rattle.merge_core.specs.Representatives.{IsRepresentativeIn, HaveRepresentatives, AreRepresentatives};
ghost use Rattle.net_theory.specs.Limits.{most_leaves};

use crate::signatures::{are_all, are_same, hash_of, signature_start};
use crate::whole::whole_cone;
use lane_sim::{MOST_LEAVES, Words, cone_words, lanes_of};
use net_core::{Net, Sig};
use std::alloc::{AllocError, Global};
use std::collections::HashMap;

/// The number of words of a signature over `sources` sources.
fn width_of(sources: u32) -> usize
    requires { sources ≤ most_leaves }
    ensures { result ≡ width_of_rows (2 ^ sources) }
{
    ((1u32 << sources) as usize + 63) / 64
}

/// The earlier node that is recorded for the hash of the signature of `node`, if it has the same signature. If no
/// node is recorded for that hash, records `node`.
fn earlier(
    lanes: &[u64],
    width: usize,
    node: u32,
    seen: &mut HashMap<u64, u32>,
) -> Result<Option<Sig>, AllocError>
    requires some { 1 ≤ node }
    requires room { node * width ≤ length lanes.now }
    requires small { length lanes.now < 2 ^ 63 }
    ensures { IfOk result (λ representative. IfSome representative (IsRepresentativeIn lanes.now width node)) }
{
    let start = signature_start(node, width);
    let hash = hash_of(lanes, start, width);
    let first = match seen.get(&hash) {
        Some(first) => *first,
        None => 0,
    };
    if first == 0 {
        seen.insert(hash, node)?;
        return Ok(None);
    }
    if first >= node {
        return Ok(None);
    }
    if are_same(lanes, signature_start(first, width), start, width) {
        return Ok(Some(Sig::Node(first)));
    }
    Ok(None)
}

/// A constant or an earlier node with the signature of `node`.
fn representative_of(
    lanes: &[u64],
    width: usize,
    node: u32,
    seen: &mut HashMap<u64, u32>,
) -> Result<Option<Sig>, AllocError>
    requires some { 1 ≤ node }
    requires room { node * width ≤ length lanes.now }
    requires small { length lanes.now < 2 ^ 63 }
    ensures { IfOk result (λ representative. IfSome representative (IsRepresentativeIn lanes.now width node)) }
{
    let start = signature_start(node, width);
    if are_all(lanes, start, width, 0) {
        return Ok(Some(Sig::Zero));
    }
    if are_all(lanes, start, width, u64::MAX) {
        return Ok(Some(Sig::One));
    }
    earlier(lanes, width, node, seen)
}

/// For each node below `end` its representative, if any.
fn all_representatives(
    alloc: Global,
    lanes: &[u64],
    width: usize,
    end: u32,
) -> Result<Vec<Option<Sig>>, AllocError>
    requires some { 1 ≤ end }
    requires room { (end - 1) * width ≤ length lanes.now }
    requires small { length lanes.now < 2 ^ 63 }
    ensures { IfOk result (λ representatives. HaveRepresentatives lanes.now width end representatives.items) }
{
    let mut seen = HashMap::new(alloc);
    let mut representatives = Vec::new(alloc);
    representatives.push(None)?;
    for node in 1..end {
        representatives.push(representative_of(lanes, width, node, &mut seen)?)?;
    }
    Ok(representatives)
}

/// No representative for any node below `end`.
fn no_representatives(alloc: Global, end: u32) -> Result<Vec<Option<Sig>>, AllocError>
    ensures { IfOk result (λ representatives. representatives.items ≡ replicate end None) }
{
    let representatives = vec![in alloc; None; end as usize]?;
    Ok(representatives)
}

/// The representatives of the nodes of a simulated net.
fn representatives_by(
    alloc: Global,
    net: &Net,
    words: &Words,
    end: u32,
) -> Result<Vec<Option<Sig>>, AllocError>
    requires few { net.now.sources ≤ most_leaves }
    requires words { AreWords (cone_of net.now) words.now }
    requires end { end ≡ end_of net.now }
    ensures { IfOk result (λ representatives. AreRepresentatives net.now representatives.items) }
{
    let width = width_of(net.sources());
    let representatives = all_representatives(alloc, lanes_of(words), width, end)?;
    Ok(representatives)
}

/// The representatives of the nodes of a net; none if it has more than 12 sources.
pub fn representatives_of(alloc: Global, net: &Net) -> Result<Vec<Option<Sig>>, AllocError>
    ensures { IfOk result (λ representatives. AreRepresentatives net.now representatives.items) }
{
    let end = net.sources() + 1 + net.gates().len() as u32;
    if net.sources() as usize > MOST_LEAVES {
        return no_representatives(alloc, end);
    }
    let cone = whole_cone(alloc, net)?;
    let words = cone_words(alloc, &cone)?;
    representatives_by(alloc, net, &words, end)
}

//! The first name that one of two netlists lacks.
ghost use Rattle.std.specs.Prelude.{◌≡◌, map, IfOk};
ghost use Rattle.net_theory.specs.Document.{latch_output};
ghost use Rattle.net_document.specs.Refusals.{missing};
ghost use Rattle.match_core.specs.Lacks as spec;

use indexmap::IndexSet;
use net_core::{Circuit, Latch, Name, take_names};
use std::alloc::{AllocError, Global};

/// What a name is of.
#[derive(Clone, Copy)]
pub enum NameKind {
    /// An input.
    Input,
    /// An output.
    Output,
    /// A latch, by the name of its output.
    Latch,
}

/// A name that one of two netlists lacks.
#[derive(Drop)]
pub struct Lack {
    /// Whether the second lacks it, and not the first.
    pub in_second: bool,
    /// What it is of in the other.
    pub kind: NameKind,
    /// The name.
    pub name: Name,
}

/// The first of `names` that isn't in a set.
#[tactic(auto, unfolding(net_document::specs::Refusals::missing, net_theory::specs::Document::has))]
fn first_outside(set: &IndexSet<Name>, names: &[Name]) -> Result<Option<Name>, AllocError>
    ensures { IfOk result (λ name. name ≡ missing set.now.keys names.now) }
{
    let mut left = names;
    while let Some((name, rest)) = left.split_first() {
        if !set.contains(name) {
            return Ok(Some(name.copied()?));
        }
        left = rest;
    }
    Ok(None)
}

/// The first of `names` that isn't among `others`.
#[tactic(auto, using(crate::specs::MatchedLaws::lacking))]
fn first_missing(alloc: Global, names: &[Name], others: &[Name]) -> Result<Option<Name>, AllocError>
    ensures { IfOk result (λ name. name ≡ missing others.now names.now) }
{
    let mut set = IndexSet::new(alloc);
    take_names(&mut set, others)?;
    first_outside(&set, names)
}

/// A name that is lacking, if there is one.
fn lacks(in_second: bool, kind: NameKind, name: Option<Name>) -> Option<Lack>
    ensures { result ≡ spec.lacks in_second kind name }
{
    match name {
        None => None,
        Some(name) => Some(Lack {
            in_second,
            kind,
            name,
        }),
    }
}

/// The first name of `ones` that isn't among `others`, or else of `others` that isn't among `ones`.
fn lack_among(
    alloc: Global,
    kind: NameKind,
    ones: &[Name],
    others: &[Name],
) -> Result<Option<Lack>, AllocError>
    ensures { IfOk result (λ found. found ≡ spec.lack_among kind ones.now others.now) }
{
    match lacks(true, kind, first_missing(alloc, ones, others)?) {
        Some(lack) => Ok(Some(lack)),
        None => {
            let name = first_missing(alloc, others, ones)?;
            Ok(lacks(false, kind, name))
        }
    }
}

/// The names of latches.
fn names_of(alloc: Global, latches: &[Latch]) -> Result<Vec<Name>, AllocError>
    ensures { IfOk result (λ names. names.items ≡ map latch_output latches.now) }
{
    let mut names = Vec::new(alloc);
    let mut left = latches;
    while let Some((latch, rest)) = left.split_first() {
        names.push(latch.output.copied()?)?;
        left = rest;
    }
    Ok(names)
}

/// The first latch that one of two circuits lacks.
fn latch_lack(alloc: Global, first: &Circuit, second: &Circuit) -> Result<Option<Lack>, AllocError>
    ensures { IfOk result (λ found. found ≡ spec.lack_among NameKind.Latch (map latch_output first.now.latches)
        (map latch_output second.now.latches)) }
{
    let ones = names_of(alloc, &first.latches)?;
    let others = names_of(alloc, &second.latches)?;
    lack_among(alloc, NameKind::Latch, &ones, &others)
}

/// The first output or latch that one of two circuits lacks.
fn later_lack(alloc: Global, first: &Circuit, second: &Circuit) -> Result<Option<Lack>, AllocError>
    ensures { IfOk result (λ found. found ≡ spec.or_else
        (spec.lack_among NameKind.Output first.now.outputs second.now.outputs)
        (spec.lack_among NameKind.Latch (map latch_output first.now.latches)
        (map latch_output second.now.latches))) }
{
    match lack_among(alloc, NameKind::Output, &first.outputs, &second.outputs)? {
        Some(lack) => Ok(Some(lack)),
        None => latch_lack(alloc, first, second),
    }
}

/// The first name that one of two circuits lacks: of the inputs, then the outputs, then the latches, each time first of
/// those of the first circuit. The only error is out of memory.
pub fn first_lack(
    alloc: Global,
    first: &Circuit,
    second: &Circuit,
) -> Result<Option<Lack>, AllocError>
    ensures { IfOk result (λ found. found ≡ spec.first_among first.now.inputs first.now.outputs
        (map latch_output first.now.latches) second.now.inputs second.now.outputs
        (map latch_output second.now.latches)) }
{
    match lack_among(alloc, NameKind::Input, &first.inputs, &second.inputs)? {
        Some(lack) => Ok(Some(lack)),
        None => later_lack(alloc, first, second),
    }
}

//! Latches by the names of their outputs.
ghost use Rattle.std.specs.Prelude.{◌≡◌, ◌<◌, ◌^◌, [], ◌++◌, length, None, map, OnOk, IfOk};
ghost use Rattle.std.specs.List.{filter_map, cons_option};
ghost use Rattle.indexmap.specs.IndexMap.{get};
ghost use Rattle.net_theory.specs.Document.{is_same, latch_output};
ghost use Rattle.match_core.specs.Matched.{line_named};
ghost use Rattle.match_core.specs.ListedLaws.{place_of, with_place};

use indexmap::IndexMap;
use net_core::{Latch, Name, Trigger};
use net_document::LatchLine;
use std::alloc::{AllocError, Global};

/// A copy of the control of a latch.
fn copied_control(control: &Option<(Trigger, Name)>) -> Result<Option<(Trigger, Name)>, AllocError>
    ensures { IfOk result (λ copy. copy ≡ control.now) }
{
    match control {
        Some((trigger, name)) => Ok(Some((*trigger, name.copied()?))),
        None => Ok(None),
    }
}

/// A copy of a latch.
fn copied_latch(latch: &Latch) -> Result<Latch, AllocError>
    ensures { IfOk result (λ copy. copy ≡ latch.now) }
{
    Ok(Latch {
        output: latch.output.copied()?,
        control: copied_control(&latch.control)?,
        init: latch.init,
    })
}

/// A copy of a latch with its input.
fn copied_line(line: &LatchLine) -> Result<LatchLine, AllocError>
    ensures { IfOk result (λ copy. copy ≡ line.now) }
{
    Ok(LatchLine {
        input: line.input.copied()?,
        latch: copied_latch(&line.latch)?,
    })
}

/// Records the place of a latch.
#[tactic(auto, using(crate::proofs::Places::updates))]
fn set_place(
    places: &mut IndexMap<Name, u32>,
    line: &LatchLine,
    place: u32,
) -> Result<(), AllocError>
    ensures { OnOk result (get is_same places.new ≡
        with_place (get is_same places.old) line.now.latch.output place) }
{
    places.insert(line.latch.output.copied()?, place)?;
    Ok(())
}

/// Records the places of latches; if several have one name, that of the first.
#[tactic(auto, using(crate::proofs::Places::places))]
fn set_places(places: &mut IndexMap<Name, u32>, lines: &[LatchLine]) -> Result<(), AllocError>
    requires none { get is_same places.old ≡ (λ n. None) }
    requires few { length lines.now < 2 ^ 31 }
    ensures { OnOk result (get is_same places.new ≡ place_of lines.now) }
{
    let mut left = lines;
    while let Some((line, rest)) = left.split_last() {
        set_place(places, line, rest.len() as u32)?;
        left = rest;
    }
    Ok(())
}

/// The place of a name.
fn place_in(places: &IndexMap<Name, u32>, name: &Name) -> Option<u32>
    ensures { result ≡ get is_same places.now name.now }
{
    match places.get(name) {
        Some(place) => Some(*place),
        None => None,
    }
}

/// Appends a copy of the latch with this name, if there is one.
fn push_line(
    found: &mut Vec<LatchLine>,
    places: &IndexMap<Name, u32>,
    lines: &[LatchLine],
    name: &Name,
) -> Result<(), AllocError>
    requires { get is_same places.now ≡ place_of lines.now }
    ensures { OnOk result (found.new.items ≡ found.old.items ++ cons_option (line_named lines.now name.now) []) }
{
    match place_in(places, name) {
        Some(place) => {
            found.push(copied_line(&lines[place as usize])?)?;
            Ok(())
        }
        None => Ok(()),
    }
}

/// Appends copies of the latches with the names of others, in the order of these.
fn push_lines(
    found: &mut Vec<LatchLine>,
    places: &IndexMap<Name, u32>,
    lines: &[LatchLine],
    latches: &[Latch],
) -> Result<(), AllocError>
    requires { get is_same places.now ≡ place_of lines.now }
    ensures { OnOk result (found.new.items ≡
        found.old.items ++ filter_map (line_named lines.now) (map latch_output latches.now)) }
{
    let mut left = latches;
    while let Some((latch, rest)) = left.split_first() {
        push_line(found, places, lines, &latch.output)?;
        left = rest;
    }
    Ok(())
}

/// The latches with the names of others, in the order of these.
#[tactic(auto, using(crate::proofs::Places::places))]
pub(crate) fn lines_for(
    alloc: Global,
    lines: &[LatchLine],
    latches: &[Latch],
) -> Result<Vec<LatchLine>, AllocError>
    requires { length lines.now < 2 ^ 31 }
    ensures { IfOk result (λ found. found.items ≡ filter_map (line_named lines.now) (map latch_output latches.now)) }
{
    let mut places = IndexMap::new(alloc);
    set_places(&mut places, lines)?;
    let mut found = Vec::new(alloc);
    push_lines(&mut found, &places, lines, latches)?;
    Ok(found)
}

//! Counts the windows of a net, with their inputs, gates and outputs.

ghost use Rattle.std.specs.Prelude.{◌≤◌, ◌<◌, Some};
ghost use Rattle.window_theory.specs.Paths.{IsGate};
ghost use Rattle.window_theory.specs.Window.{IsPartnerOrNone};
ghost use Rattle.window_core.specs.Fanouts.{AreFanouts};

use net_core::Net;
use std::alloc::{AllocError, Global};
use window_core::{Fanouts, fanouts_of, partners_by, spec_of, window_by};

/// The number of windows, and totals over all of them.
#[derive(Clone, Copy)]
pub struct Count {
    pub windows: u64,
    pub gates: u64,
    pub inputs: u64,
    pub outputs: u64,
    pub rows: u64,
}

/// Counts the windows of a root, with a partner or without, for these numbers of gates.
fn count_windows(
    alloc: Global,
    net: &Net,
    fanouts: &Fanouts,
    root: u32,
    partner: Option<u32>,
    first: u32,
    count: &mut Count,
) -> Result<(), AllocError>
    requires fanouts { AreFanouts net.now fanouts.now }
    requires root { IsGate net.now root }
    requires partner { IsPartnerOrNone net.now root partner }
    requires first { 1 ≤ first }
{
    let _sources = net.sources(); // for the prover
    for size in first..6 {
        let Some(window) = window_by(alloc, net, fanouts, root, partner, size)? else {
            continue;
        };
        let spec = spec_of(alloc, net, &window)?;
        count.windows = count.windows.wrapping_add(1);
        count.gates = count.gates.wrapping_add(window.gates().len() as u64);
        count.inputs = count.inputs.wrapping_add(window.inputs().len() as u64);
        count.outputs = count.outputs.wrapping_add(window.outputs().len() as u64);
        if let Some(mask) = spec.care().first() {
            count.rows = count.rows.wrapping_add(u64::from(mask.count_ones()));
        }
    }
    Ok(())
}

/// Counts the windows of a root, alone and with each partner.
fn count_root(
    alloc: Global,
    net: &Net,
    fanouts: &Fanouts,
    root: u32,
    count: &mut Count,
) -> Result<(), AllocError>
    requires fanouts { AreFanouts net.now fanouts.now }
    requires root { IsGate net.now root }
{
    count_windows(alloc, net, fanouts, root, None, 1, count)?;
    let partners = partners_by(alloc, net, fanouts, root)?;
    for i in 0..partners.len() {
        count_windows(alloc, net, fanouts, root, Some(partners[i]), 2, count)?;
    }
    Ok(())
}

/// Counts the windows of all roots.
pub fn count_all(alloc: Global, net: &Net) -> Result<Count, AllocError> {
    let mut count = Count {
        windows: 0,
        gates: 0,
        inputs: 0,
        outputs: 0,
        rows: 0,
    };
    let fanouts = fanouts_of(alloc, net)?;
    let first = net.sources() + 1;
    for i in 0..net.gates().len() {
        count_root(alloc, net, &fanouts, first + i as u32, &mut count)?;
    }
    Ok(count)
}

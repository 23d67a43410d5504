//! The assignments of a fanin cone's leaves under which the fanout cone's outputs depend on the window's
//! outputs. The fanin cone is simulated once, and the fanout cone above it with each value of the window's
//! outputs; the words of its outputs are compared with those for the value 0.

ghost use Rattle.std.specs.Prelude.{◌≡◌, ℕ, ◌+◌, ◌*◌, ◌≤◌, ◌<◌, ◌^◌, true, length, slice_index_or, slice_set, bit_or};
ghost use Rattle.std.specs.Prelude.{bit_xor, IfOk, OnOk};
ghost use Rattle.lane_sim.specs.Above.{BeginsWithWords};
ghost use Rattle.lane_sim.specs.Words.{AreWords, width_of};
ghost use Rattle.window_theory.specs.Nodes.{among};
ghost use Rattle.observe_core.specs.Differing.{IsDifferenceAdded, AreAdded, AreDistinguishing};
ghost use Rattle.observe_core.specs.Forcing.{StandsAbove, HaveBits, Distinguish};
ghost use Rattle.observe_core.specs.Putting.{IsAbove};
ghost use Rattle.chain_theory.specs.Limits.{most_outputs};

use crate::forced_outputs::Forced;
use crate::with_constants::put_gates;
use lane_sim::{Cone, Words, copy_words, index_of, lanes_of, simulate_above};
use std::alloc::{AllocError, Global};
use window_core::{Net, has};

/// ORs into `differ[j]` the bits in which word `j` of two rows differs; both rows begin at `start`.
fn add_one(differ: &mut [u64], first: &[u64], second: &[u64], start: usize, j: usize)
    requires within { j < length differ.old }
    requires one { start + j < length first.now }
    requires two { start + j < length second.now }
    ensures { differ.new ≡ slice_set differ.old j
        (bit_or (slice_index_or differ.old j 0) (bit_xor (slice_index_or first.now (start + j) 0)
        (slice_index_or second.now (start + j) 0))) }
{
    differ[j] |= first[start + j] ^ second[start + j];
}

/// The same for all words of the rows.
fn add_difference(differ: &mut [u64], first: &[u64], second: &[u64], start: usize)
    requires one { start + length differ.old ≤ length first.now }
    requires two { start + length differ.old ≤ length second.now }
    ensures { IsDifferenceAdded first.now second.now start (length differ.old) differ.old differ.new }
{
    for j in 0..differ.len() {
        add_one(differ, first, second, start, j);
    }
}

/// ORs in the bits in which the rows of the fanout cone's outputs differ. The rows of the fanout cone's gates
/// follow each other after the first `start` rows.
fn add_cone_outputs(
    differ: &mut [u64],
    first: &[u64],
    second: &[u64],
    start: usize,
    fanout_cone: &[u32],
    cone_outputs: &[u32],
)
    requires some { 1 ≤ length differ.old }
    requires small { length first.now < 2 ^ 63 }
    requires one { (start + length fanout_cone.now) * length differ.old ≤ length first.now }
    requires two { (start + length fanout_cone.now) * length differ.old ≤ length second.now }
    ensures { AreAdded first.now second.now start fanout_cone.now cone_outputs.now
        (length fanout_cone.now) differ.old differ.new }
{
    for i in 0..fanout_cone.len() {
        if !has(cone_outputs, fanout_cone[i]) {
            continue;
        }
        let row = (start + i) * differ.len();
        add_difference(differ, first, second, row);
    }
}

/// Simulates the fanout cone with the window's outputs forced to `bits`; the rows of the fanin cone stay.
fn put_words(alloc: Global, forced: Forced, bits: u32, words: &mut Words) -> Result<(), AllocError>
    requires above { StandsAbove forced }
    requires words { BeginsWithWords forced.fanin_cone.now words.old }
    ensures put { OnOk result (HaveBits forced.entry bits words.new) }
    ensures below { OnOk result (BeginsWithWords forced.entry.fanin_cone.now words.new) }
{
    let _sources = forced.net.sources(); // for the prover: brings the type's invariant into the proof
    let _leaves = forced.fanin_cone.leaves(); // for the prover: the fanin cone is a cone
    let gates = put_gates(alloc, forced.net, forced.outputs, bits, forced.fanout_cone)?;
    simulate_above(words, forced.index, forced.fanin_cone, &gates)?;
    Ok(())
}

/// ORs in the assignments that distinguish the value `bits` of the window's outputs from 0.
fn add_bits(
    alloc: Global,
    forced: Forced,
    bits: u32,
    zero: &Words,
    words: &mut Words,
    differ: &mut [u64],
) -> Result<(), AllocError>
    requires above { StandsAbove forced }
    requires zero { HaveBits forced 0 zero.now }
    requires words { BeginsWithWords forced.fanin_cone.now words.old }
    requires size { length differ.old ≡ width_of (2 ^ length forced.fanin_cone.now.leaves) }
    requires distinguished { Distinguish forced bits differ.old }
    ensures distinguished { OnOk result (Distinguish forced.entry (bits + 1) differ.new) }
    ensures size { length differ.new ≡ length differ.old }
    ensures words { OnOk result (BeginsWithWords forced.entry.fanin_cone.now words.new) }
{
    let _sources = forced.net.sources(); // for the prover: brings the type's invariant into the proof
    put_words(alloc, forced, bits, words)?;
    let start = forced.fanin_cone.leaves().len() + forced.fanin_cone.gates().len();
    add_cone_outputs(
        differ,
        lanes_of(zero),
        lanes_of(words),
        start,
        forced.fanout_cone,
        forced.cone_outputs,
    );
    Ok(())
}

/// ORs in the assignments that distinguish some value of the window's outputs from 0.
fn add_all_bits(
    alloc: Global,
    forced: Forced,
    zero: &Words,
    words: &mut Words,
    differ: &mut [u64],
) -> Result<(), AllocError>
    requires above { StandsAbove forced }
    requires zero { HaveBits forced 0 zero.now }
    requires words { BeginsWithWords forced.fanin_cone.now words.old }
    requires size { length differ.old ≡ width_of (2 ^ length forced.fanin_cone.now.leaves) }
    requires distinguished { Distinguish forced 1 differ.old }
    ensures distinguished { OnOk result (Distinguish forced.entry (2 ^ length forced.entry.outputs.now) differ.new) }
    ensures size { length differ.new ≡ length differ.old }
{
    for bits in 1..(1u32 << forced.outputs.len()) {
        add_bits(alloc, forced, bits, zero, words, differ)?;
    }
    Ok(())
}

/// The words of both cones with the window's outputs forced to 0, from those of the fanin cone.
fn zero_words(alloc: Global, forced: Forced, words: &Words) -> Result<Words, AllocError>
    requires above { StandsAbove forced }
    requires words { AreWords forced.fanin_cone.now words.now }
    ensures put { IfOk result (HaveBits forced.entry 0) }
    ensures below { IfOk result (BeginsWithWords forced.entry.fanin_cone.now) }
{
    let more = lanes_of(words).len();
    let mut zero = copy_words(alloc, words, more)?;
    put_words(alloc, forced, 0, &mut zero)?;
    Ok(zero)
}

/// The assignments of the fanin cone's leaves that distinguish two values of the window's outputs, as the
/// bits of words. The fanin cone's words are given, so it isn't simulated again.
pub(crate) fn distinguishing(
    alloc: Global,
    net: &Net,
    outputs: &[u32],
    fanin_cone: &Cone,
    words: &Words,
    fanout_cone: &[u32],
    cone_outputs: &[u32],
) -> Result<Vec<u64>, AllocError>
    requires few { length outputs.now ≤ most_outputs }
    requires above { IsAbove net.now outputs.now fanin_cone.now fanout_cone.now }
    requires words { AreWords fanin_cone.now words.now }
    requires cone_outputs { (p : ℕ) → among cone_outputs.now p ≡ true → among fanout_cone.now p ≡ true }
    ensures size { IfOk result (λ differ. length differ.items ≡ width_of (2 ^ length fanin_cone.now.leaves)) }
    ensures distinguishing { IfOk result (λ differ.
        AreDistinguishing net.now fanin_cone.now.leaves outputs.now cone_outputs.now differ.items) }
{
    let _sources = net.sources(); // for the prover: brings the type's invariant into the proof
    let _leaves = fanin_cone.leaves(); // for the prover: the fanin cone is a cone
    let index = index_of(alloc, fanin_cone, fanout_cone)?;
    let forced = Forced {
        net,
        outputs,
        fanin_cone,
        fanout_cone,
        cone_outputs,
        index: &index,
    };
    let zero = zero_words(alloc, forced, words)?;
    let mut other = copy_words(alloc, &zero, 0)?;
    let rows = 1usize << fanin_cone.leaves().len();
    let mut differ = vec![in alloc; 0u64; (rows + 63) / 64]?;
    add_all_bits(alloc, forced, &zero, &mut other, &mut differ)?;
    Ok(differ)
}

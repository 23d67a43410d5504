//! The command `gen`: a netlist of generated blocks.
ghost use Rattle.std.specs.Prelude.{◌≡◌, ◌≤◌, ℕ, List, IfOk};
ghost use Rattle.gen_core.specs.Generated.{generated_text};
ghost use Rattle.command_line.specs.declared.command.GenAction.TheVariants.{Write, Improve};
ghost use Rattle.settings.specs.Limits.{most_blocks};
ghost use Rattle.frame_core.specs.Views.{reply_value, Judges};
ghost use Rattle.cmd_gen.specs.GenReport.{gen_reply, gen_task};

use command_line::GenAction;
use frame_core::{Replier, Reply, Status, Stop};
use gen_core::generate;
use gen_core::laws::{generated_netlists_are_netlists, generated_netlists_are_small};
use improve_windows::improve_blif;
use net_core::NetError;
use progress::Silent;
use sat_solve::Solver;
use settings::ImproveSettings;
use std::alloc::{AllocError, Global};
use std::marker::PhantomData;

/// The netlist of `blocks` blocks.
fn text_of(alloc: Global, blocks: u32) -> Result<Vec<u8>, AllocError>
    ensures { IfOk result (λ text. text.items ≡ generated_text blocks) }
{
    let mut text = Vec::new(alloc);
    generate(blocks, &mut text)?;
    Ok(text)
}

/// The reply with the netlist of `blocks` blocks.
fn reply_of(alloc: Global, blocks: u32) -> Result<Reply, AllocError>
    ensures { IfOk result (λ reply. reply_value reply ≡ gen_reply blocks) }
{
    Ok(Reply {
        text: text_of(alloc, blocks)?,
        report: None,
        status: Status::Done,
    })
}

/// The reply of `gen` if the netlist is written.
#[tactic(auto, using(crate::proofs::Generating::reporting))]
fn written(alloc: Global, blocks: u32) -> Result<Reply, Stop>
    ensures { (bytes : List ℕ) → Judges (gen_task blocks Write) bytes result }
{
    match reply_of(alloc, blocks) {
        Ok(reply) => Ok(reply),
        Err(AllocError) => Err(Stop::NoMemory),
    }
}

/// The reply of `gen` if the netlist is improved.
#[tactic(auto, using(crate::proofs::Generating::reporting))]
fn improved<S: Solver>(alloc: Global, blocks: u32) -> Result<Reply, Stop>
    requires { blocks ≤ most_blocks }
    ensures { (bytes : List ℕ) → Judges (gen_task blocks Improve) bytes result }
{
    // for the prover: two laws about generated netlists
    generated_netlists_are_small();
    generated_netlists_are_netlists();
    let Ok(text) = text_of(alloc, blocks) else {
        return Err(Stop::NoMemory);
    };
    match improve_blif::<S, Silent>(alloc, &text, ImproveSettings::defaults(), &Silent) {
        Ok(improved) => Ok(cmd_improve::reply_of(improved)),
        Err(NetError::Memory) => Err(Stop::NoMemory),
        Err(_) => unreachable!(),
    }
}

/// The command: a generated netlist of `blocks` blocks, written, or improved with the solver `S`.
#[derive(Drop)]
pub struct Gen<S> {
    /// The number of blocks.
    pub blocks: u32,
    /// Whether the netlist is written as generated, or improved.
    pub action: GenAction,
    /// The solver.
    pub solver: PhantomData<S>,
}

impl<S: Solver> Replier for Gen<S> {
    ghost task = { λ job. gen_task job.blocks job.action };

    ghost ready = { λ job. (1 ≤ job.blocks) × (job.blocks ≤ most_blocks) };

    fn reads(&self) -> Option<usize> {
        None
    }

    fn reply(&self, alloc: Global, bytes: &[u8]) -> Result<Reply, Stop> {
        let _nothing = bytes;
        match self.action {
            GenAction::Write => written(alloc, self.blocks),
            GenAction::Improve => improved::<S>(alloc, self.blocks),
        }
    }
}

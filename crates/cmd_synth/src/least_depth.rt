//! The command `synth --least-depth yes`.
ghost use Rattle.std.specs.Prelude.{◌≡◌};
ghost use Rattle.settings.specs.declared.methods.Method.TheVariants.{Fence};
ghost use Rattle.settings.specs.declared.methods.MethodChoice.TheVariants.{Named};
ghost use Rattle.settings.specs.Synth.{IsInRange};
ghost use Rattle.frame_core.specs.Views.{reply_value};
ghost use Rattle.cmd_synth.specs.LeastDepthReport.{found_status as found_status_of, least_depth_reply};
ghost use Rattle.cmd_synth.specs.LeastDepthReport.{least_depth_task};

use crate::synth::{refusal_of, verdict_status};
use cmd_lines::MOST_BYTES_OF_TABLES;
use frame_core::{Replier, Reply, Status, Stop};
use progress::Tell;
use sat_solve::Solver;
use settings::SynthSettings;
use std::alloc::Global;
use std::marker::PhantomData;
use synth_core::{CertifiedDepth, DepthFound, DepthVerdict, certify_depth};
use tt_core::SpecError;

/// The status of what was found.
fn found_status(found: DepthFound) -> Status
    ensures { result ≡ found_status_of found }
{
    match found {
        DepthFound::Least(DepthVerdict::Levels(_)) => Status::Done,
        DepthFound::Least(DepthVerdict::Bounded { .. }) => Status::Undecided,
        DepthFound::Other(verdict) => verdict_status(verdict),
    }
}

/// A certificate as a reply.
fn reply_of(certificate: CertifiedDepth) -> Reply
    ensures { reply_value result ≡ least_depth_reply (record {
      text = certificate.text.items;
      found = certificate.found;
    }) }
{
    Reply {
        text: certificate.text,
        report: None,
        status: found_status(certificate.found),
    }
}

/// The command: a certificate of the fewest steps and levels for tables, searched with the solver `S`.
#[derive(Drop)]
pub struct LeastDepth<'a, S, T> {
    /// The settings of the search.
    pub settings: SynthSettings,
    /// The solver.
    pub solver: PhantomData<S>,
    /// Who is told of the progress.
    pub tell: &'a T,
}

impl<'a, S: Solver, T: Tell> Replier for LeastDepth<'a, S, T> {
    ghost task = { λ job. least_depth_task job.settings };

    ghost ready = { λ job. IsInRange job.settings × (job.settings.method ≡ Named Fence) };

    fn reads(&self) -> Option<usize> {
        Some(MOST_BYTES_OF_TABLES)
    }

    #[tactic(auto, using(crate::proofs::LeastDepths::reporting))]
    fn reply(&self, alloc: Global, bytes: &[u8]) -> Result<Reply, Stop> {
        match certify_depth::<S, T>(alloc, bytes, &self.settings, self.tell) {
            Ok(certificate) => Ok(reply_of(certificate)),
            Err(SpecError::Memory) => Err(Stop::NoMemory),
            Err(error) => Err(Stop::NoAnswer(refusal_of(error))),
        }
    }
}

//! Certificates of more bytes than the program without files reads: the caller names the most.
ghost use Rattle.std.specs.Prelude.{refl};
ghost use Rattle.cmd_recheck.specs.LongReport.{long_task, long_depth_task};

use crate::job::CertificateKind;
use crate::recheck::{refusal_of, verdict_bytes};
use crate::recheck_depth::{levels_bytes, refusal_of as depth_refusal_of};
use cert_file::{CertificateError, Verdict};
use depth_file::{DepthError, DepthVerdict};
use frame_core::Stop;
use std::alloc::{AllocError, Global};

/// The most bytes of a certificate that may be asked for: 1 TiB.
pub const MOST_OF_LONG: u64 = 1_099_511_627_776;

/// The certificates of the fewest steps of at most so many bytes.
#[derive(Drop)]
pub struct LongSteps {
    /// The most bytes.
    pub most: u64,
}

impl CertificateKind for LongSteps {
    type Lines = cert_file::Stage;

    ghost task = { λ kind. long_task kind.most };

    ghost most = { λ kind. kind.most };

    ghost reads = { λ kind. refl };

    fn most_bytes(&self) -> usize {
        self.most as usize
    }

    fn text_of(&self, alloc: Global, verdict: Verdict) -> Result<Vec<u8>, AllocError> {
        verdict_bytes(alloc, verdict)
    }

    fn stop(&self, error: CertificateError) -> Stop {
        match error {
            CertificateError::Memory => Stop::NoMemory,
            error => Stop::NoAnswer(refusal_of(error)),
        }
    }
}

/// The certificates of the fewest levels of at most so many bytes.
#[derive(Drop)]
pub struct LongLevels {
    /// The most bytes.
    pub most: u64,
}

impl CertificateKind for LongLevels {
    type Lines = depth_file::Stage;

    ghost task = { λ kind. long_depth_task kind.most };

    ghost most = { λ kind. kind.most };

    ghost reads = { λ kind. refl };

    fn most_bytes(&self) -> usize {
        self.most as usize
    }

    fn text_of(&self, alloc: Global, verdict: DepthVerdict) -> Result<Vec<u8>, AllocError> {
        levels_bytes(alloc, verdict)
    }

    fn stop(&self, error: DepthError) -> Stop {
        match error {
            DepthError::Memory => Stop::NoMemory,
            error => Stop::NoAnswer(depth_refusal_of(error)),
        }
    }
}

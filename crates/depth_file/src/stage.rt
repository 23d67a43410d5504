//! The stages of reading a depth certificate: what is due next, and what is kept of the lines so far. A stage
//! determines the answer of the whole text, whatever lines follow (`specs/Stages.antt`).
use cert_file::{CertificateReader, SubproblemReader};
use cert_theory::Header;
use depth_theory::DepthVerdict;
use enc_theory::Subproblem;

/// The chain of a certificate, by what was asked and its numbers of steps and of levels.
#[derive(Drop)]
pub struct LeveledChain {
    pub(crate) header: Header,
    pub(crate) size: u32,
    pub(crate) levels: u32,
}

/// The fences with fewer levels than the chain, and the position of the current one.
#[derive(Drop)]
pub struct FenceCursor {
    pub(crate) chain: LeveledChain,
    pub(crate) fences: Vec<Subproblem>,
    /// The index of the current fence.
    pub(crate) at: usize,
    /// The number of levels of the first open fence before it.
    pub(crate) low: Option<u32>,
}

/// What is due next in a depth certificate whose lines so far were right. The variants are for this crate alone.
#[derive(Drop)]
pub enum Stage {
    /// A line of the certificate, which ends with the first line `end`.
    Prefix {
        reader: CertificateReader,
    },
    /// The line with the depth, after a certificate with this chain.
    Depth {
        chain: LeveledChain,
    },
    /// The name of the current fence, or the verdict if none is left.
    Due {
        flat: FenceCursor,
    },
    /// How the log of the current fence ends.
    Begun {
        flat: FenceCursor,
    },
    /// A line of the log of the current fence.
    Within {
        flat: FenceCursor,
        reader: SubproblemReader,
    },
    /// The last line.
    End {
        verdict: DepthVerdict,
    },
    /// Nothing more.
    Done {
        verdict: DepthVerdict,
    },
}

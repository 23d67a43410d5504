//! The state of the checker between two lines: which line is due next, and what is kept of those before. A
//! stage determines the result of the whole text, given the lines to come (`specs/Stages.antt`).
use crate::claim::Claim;
use crate::subproblem::SubproblemReader;
use cert_theory::Header;
use chain_core::{Basis, Chain, Frame, Out, Step};
use enc_theory::Subproblem;
use settings::Method;
use tt_core::Spec;

/// The next size, whose section or the trailer is due.
#[derive(Drop)]
pub struct NextSize {
    pub(crate) header: Header,
    pub(crate) size: u32,
    /// The first open size so far.
    pub(crate) low: Option<u32>,
}

/// A size whose section is being read, and its current subproblem.
#[derive(Drop)]
pub struct Running {
    pub(crate) header: Header,
    pub(crate) size: u32,
    /// The first open size so far.
    pub(crate) low: Option<u32>,
    pub(crate) subproblems: Vec<Subproblem>,
    /// The index of the current subproblem.
    pub(crate) at: usize,
}

/// A chain whose lines are being read.
#[derive(Drop)]
pub struct ChainLines {
    pub(crate) header: Header,
    /// The first open size.
    pub(crate) low: Option<u32>,
    /// The number of its first line, and how many steps and outputs it has.
    pub(crate) frame: Frame,
    /// The steps so far.
    pub(crate) steps: Vec<Step>,
    /// The outputs so far: none before the last step.
    pub(crate) outs: Vec<Out>,
}

/// What is due next in a certificate without a fault so far, and what is kept of it. Only this
/// crate and `depth_file` use the variants.
#[derive(Drop)]
pub enum Stage {
    /// The first line.
    Start,
    /// The number of inputs.
    Inputs,
    /// A table, or the line of the basis.
    Tables {
        n: u32,
        on: Vec<u64>,
        care: Vec<u64>,
    },
    /// The method.
    Methods {
        spec: Spec,
        basis: Basis,
    },
    /// The conflict limit.
    Conflicts {
        spec: Spec,
        basis: Basis,
        method: Method,
    },
    /// The greatest size.
    Sizes {
        spec: Spec,
        basis: Basis,
        method: Method,
        conflicts: u32,
    },
    /// The line of the next size, or the trailer.
    Between {
        next: NextSize,
    },
    /// The name of this subproblem, or the first line of its log if it has no name.
    Due {
        running: Running,
    },
    /// The first line of this subproblem's log.
    Begun {
        running: Running,
    },
    /// A line of this subproblem's log.
    Within {
        running: Running,
        reader: SubproblemReader,
    },
    /// A step of the chain.
    Steps {
        lines: ChainLines,
    },
    /// An output of the chain.
    Outs {
        lines: ChainLines,
    },
    /// The verdict after this chain.
    Found {
        header: Header,
        low: Option<u32>,
        chain: Chain,
    },
    /// The line `end`.
    End {
        claim: Claim,
    },
    /// Nothing: the text is complete.
    Done {
        claim: Claim,
    },
}

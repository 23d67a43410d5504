//! A certificate that is written while it is searched: the header, each section as soon as its size is done, and
//! the trailer. Nothing of a section is kept once its text is handed out.
ghost use Rattle.std.specs.Prelude.{◌≡◌, ◌^◌, ◌<◌, List, ℕ, length, IfOk, IfErr};
ghost use Rattle.text_core.specs.Lines.{lines_of};
ghost use Rattle.settings.specs.Synth.{IsInRange};
ghost use Rattle.settings.specs.declared.synth.SynthSettings.{SynthSettings};
ghost use Rattle.tt_core.specs.Gives.{Fails};
ghost use Rattle.synth_core.specs.Pieces.{IsInProgress, IsNextPiece, Rises};
ghost use Rattle.synth_core.specs.SettingsHeader.{header_of};
ghost use Rattle.synth_core.specs.Tables.{tables_alone};

use crate::counting::used_inputs;
use crate::reading::tables;
use cert_text::{write_header, write_section, write_trailer};
use cert_theory::Verdict;
use progress::Tell;
use sat_solve::Solver;
use settings::{Method, SynthSettings, method_for};
use size_loop::{Advance, SizeSearch};
use std::alloc::{AllocError, Global};
use tt_core::{Spec, SpecError};

/// A search before its first size.
#[derive(Drop)]
pub struct BegunSynthesis {
    pub search: SizeSearch,
    /// The text of its certificate's header.
    pub text: Vec<u8>,
}

/// What the next size adds to the certificate.
#[derive(Drop)]
pub enum Piece {
    /// A section, and the search that goes on after it.
    Section { search: SizeSearch, text: Vec<u8> },
    /// The trailer.
    Trailer { text: Vec<u8>, verdict: Verdict },
}

/// The method that the settings take for the tables.
pub fn method_of(settings: &SynthSettings, spec: &Spec) -> Method
    ensures { result ≡ (header_of spec.now settings.now).method }
{
    method_for(settings.method, used_inputs(spec), spec.outputs())
}

/// Begins a search for a chain of the fewest steps that implements the tables in the input. A line after the
/// tables is refused as `BadRow`.
#[tactic(auto, using(crate::proofs::InProgress::in_progress))]
pub fn begin(
    alloc: Global,
    bytes: &[u8],
    settings: &SynthSettings,
) -> Result<BegunSynthesis, SpecError>
    requires length { length bytes.now < 2 ^ 31 }
    requires range { IsInRange settings.now }
    ensures begun { IfOk result (λ b. IsInProgress bytes.now settings.now b.search b.text.items) }
    ensures first { IfOk result (λ b. b.search.next ≡ 0) }
    ensures refusal { IfErr result (λ e. Fails e (tables_alone (lines_of bytes.now))) }
{
    let spec = tables(alloc, bytes)?;
    let method = method_of(settings, &spec);
    let mut text = Vec::new(alloc);
    write_header(
        &spec,
        settings.basis,
        method,
        settings.conflicts,
        settings.max,
        &mut text,
    )?;
    let search = SizeSearch::new(
        spec,
        settings.basis,
        method,
        settings.max,
        settings.conflicts,
        settings.effort,
    );
    Ok(BegunSynthesis { search, text })
}

/// Searches the next size with the solver `S`, and writes what it adds. `tell` hears of each subproblem.
#[tactic(auto, using(crate::proofs::InProgress::in_progress))]
pub fn next_piece<S: Solver, T: Tell>(
    alloc: Global,
    search: SizeSearch,
    tell: &T,
) -> Result<Piece, AllocError>
    ensures piece { IfOk result (λ piece. (bytes : List ℕ) (settings : SynthSettings) (before : List ℕ) →
        IsInProgress bytes settings search before → IsNextPiece bytes settings before piece) }
    ensures up { IfOk result (λ piece. Rises search piece) }
{
    let mut text = Vec::new(alloc);
    match search.advance::<S, T>(alloc, tell)? {
        Advance::Section { rest, section } => {
            write_section(&section, &mut text)?;
            Ok(Piece::Section { search: rest, text })
        }
        Advance::Ended { chain, verdict } => {
            write_trailer(&chain, verdict, &mut text)?;
            Ok(Piece::Trailer { text, verdict })
        }
    }
}

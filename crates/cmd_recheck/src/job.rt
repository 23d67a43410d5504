//! The job of `recheck`, for both kinds of certificates: they are read piece by piece, and the verdict is
//! reported at the end.
ghost use Rattle.std.specs.Prelude.{◌≡◌, ℕ, ◌≤◌, List, ◌++◌, Some, None, Ok, Err, IfOk, length};
ghost use Rattle.line_reader.specs.Reader.{IsReader, StandsFor};
ghost use Rattle.line_reader.specs.Seen.{seen};
ghost use Rattle.cmd_recheck.specs.Keeping.{Keeps, IsWhole};
ghost use Rattle.frame_core.specs.declared.status.Status.TheVariants.{Done};
ghost use Rattle.frame_core.specs.Task.{Task, HasReply};
ghost use Rattle.frame_core.specs.Views.{Judges};

use frame_core::{Refusal, Reply, RunEnd, Status, Stop, StreamJob, finish};
use line_reader::{LineStage, PieceReader};
use port_io::Sink;
use std::alloc::{AllocError, Global};

/// The most bytes of a certificate that the program without files reads: 256 MiB.
pub(crate) const MOST_BYTES: usize = 268_435_456;

/// The state of reading a certificate whose lines the stage `S` takes.
#[derive(Drop)]
pub enum Reading<S> {
    /// The reader of the lines so far.
    Good(PieceReader<S>),
    /// Why it has no verdict: a line has a fault. The rest of the input is read and ignored.
    Refused(Refusal),
}

/// A kind of certificates: the stage that takes their lines, and the texts that report their verdicts.
pub trait CertificateKind {
    /// The stage that takes their lines.
    type Lines: LineStage;

    /// The task of `recheck` for this kind.
    ghost task: { Self → Task };

    /// The most bytes that are read.
    ghost most: { Self → ℕ };

    /// It is what the task says.
    ghost reads: { (kind : Self) → (task kind).reads ≡ Some (most kind) };

    /// The most bytes that are read.
    fn most_bytes(&self) -> usize
        ensures { result ≡ most self.now };

    /// The output for the result of a certificate.
    fn text_of(
        &self,
        alloc: Global,
        end: <Self::Lines as LineStage>::End,
    ) -> Result<Vec<u8>, AllocError>
        ensures { (bytes : List ℕ) → length bytes ≤ most self.now → Self.Lines.gives (Ok end) bytes →
            IfOk result (λ text. HasReply (task self.now) bytes (record {
              text = text.items;
              report = None;
              status = Done;
            })) };

    /// The refusal of a text with this fault.
    fn stop(&self, fault: <Self::Lines as LineStage>::Fault) -> Stop
        ensures { (bytes : List ℕ) → length bytes ≤ most self.now → Self.Lines.gives (Err fault) bytes →
            Judges (task self.now) bytes (Err result) };
}

/// Reads the next piece. A refusal holds for every text that begins with what was read.
fn read_on<K: CertificateKind>(
    kind: &K,
    reader: PieceReader<K::Lines>,
    piece: &[u8],
) -> Result<Reading<K::Lines>, AllocError>
    requires whole { IsReader K.Lines.whole (seen reader) }
    ensures whole { IfOk result (λ next. IsWhole K.Lines.whole next) }
    ensures keeps { (bytes : List ℕ) → StandsFor K.Lines.stands (seen reader) bytes →
        IfOk result (λ next. Keeps (K.task kind.now) (K.most kind.now) K.Lines.stands next (bytes ++ piece.now)) }
{
    match reader.feed(piece) {
        Ok(reader) => Ok(Reading::Good(reader)),
        Err(fault) => match kind.stop(fault) {
            Stop::NoAnswer(refusal) => Ok(Reading::Refused(refusal)),
            Stop::NoMemory => Err(AllocError),
        },
    }
}

/// The reply for the result of a certificate.
fn reply_to<K: CertificateKind>(
    alloc: Global,
    kind: &K,
    end: <K::Lines as LineStage>::End,
) -> Result<Reply, Stop>
    ensures { (bytes : List ℕ) → length bytes ≤ K.most kind.now → K.Lines.gives (Ok end) bytes →
        Judges (K.task kind.now) bytes result }
{
    match kind.text_of(alloc, end) {
        Ok(text) => Ok(Reply {
            text,
            report: None,
            status: Status::Done,
        }),
        Err(AllocError) => Err(Stop::NoMemory),
    }
}

/// The reply at the end of a certificate.
fn reply_of<K: CertificateKind>(
    alloc: Global,
    kind: &K,
    kept: Reading<K::Lines>,
) -> Result<Reply, Stop>
    requires { IsWhole K.Lines.whole kept }
    ensures { (bytes : List ℕ) → Keeps (K.task kind.now) (K.most kind.now) K.Lines.stands kept bytes →
        length bytes ≤ K.most kind.now →
        Judges (K.task kind.now) bytes result }
{
    match kept {
        Reading::Good(reader) => match reader.finish() {
            Ok(end) => reply_to(alloc, kind, end),
            Err(fault) => Err(kind.stop(fault)),
        },
        Reading::Refused(refusal) => Err(Stop::NoAnswer(refusal)),
    }
}

/// The command: the verdict of a certificate of a kind, from the text alone.
#[derive(Drop)]
pub struct Recheck<K>(pub K);

impl<K: CertificateKind> StreamJob for Recheck<K> {
    ghost task = { λ job. K.task job.0 };

    ghost ready = { λ _. Unit {0} };

    type Kept = Reading<K::Lines>;

    ghost holds = { λ job kept bytes. Keeps (K.task job.0) (K.most job.0) K.Lines.stands kept bytes };

    ghost whole = { λ _ kept. IsWhole K.Lines.whole kept };

    ghost count = { λ _ _. 0 };

    fn reads(&self) -> Option<usize> {
        Some(self.0.most_bytes())
    }

    fn begin(&self, alloc: Global) -> Reading<K::Lines> {
        Reading::Good(PieceReader::new(alloc))
    }

    fn take(
        &self,
        _alloc: Global,
        kept: Reading<K::Lines>,
        piece: &[u8],
    ) -> Result<Reading<K::Lines>, AllocError> {
        match kept {
            Reading::Good(reader) => read_on(&self.0, reader, piece),
            Reading::Refused(refusal) => Ok(Reading::Refused(refusal)),
        }
    }

    fn answer<O: Sink, N: Sink>(
        &self,
        alloc: Global,
        kept: Reading<K::Lines>,
        out: &mut O,
        note: &mut N,
    ) -> RunEnd {
        finish(reply_of(alloc, &self.0, kept), out, note)
    }
}

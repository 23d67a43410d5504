//! Replies and refusals of commands, and how a run ended.
ghost use Rattle.std.specs.Prelude.{◌≡◌, ◌++◌, ◌∷◌, []};
ghost use Rattle.frame_core.specs.Reported.{Word, plain as plain_of, at as at_of};
ghost use Rattle.frame_core.specs.Views.{shown, line_value, report_text, status_in};

use crate::status::Status;

/// A field of an error line.
#[derive(Drop)]
pub enum Field {
    /// No field.
    Nothing,
    /// A word of the program.
    Known(&'static [u8]),
    /// A number.
    Count(u32),
    /// A name from the input, as bytes.
    Name(Vec<u8>),
}

/// The content of an error line: the name of a variant, and its fields. The array has the size of the longest
/// line, and unused fields are `Nothing`, so that a line allocates nothing.
#[derive(Drop)]
pub struct ErrorLine {
    /// The fields, the variant's name first.
    pub fields: [Field; 5],
}

impl ErrorLine {
    /// A variant without fields.
    #[tactic(auto, unfolding(crate::specs::Views::shown))]
    pub fn plain(name: &'static [u8]) -> ErrorLine
        ensures { line_value result ≡ plain_of name.now }
    {
        ErrorLine::of(name, Field::Nothing, Field::Nothing, Field::Nothing)
    }

    /// A variant with a number.
    #[tactic(auto, unfolding(crate::specs::Views::shown))]
    pub fn at(name: &'static [u8], number: u32) -> ErrorLine
        ensures { line_value result ≡ at_of name.now number }
    {
        ErrorLine::of(name, Field::Count(number), Field::Nothing, Field::Nothing)
    }

    /// A variant with at most two fields, after the word `lead` unless that is `Nothing`.
    #[tactic(auto, unfolding(crate::specs::Views::shown), using(crate::proofs::Leads::leading))]
    pub fn led(lead: Field, name: &'static [u8], first: Field, second: Field) -> ErrorLine
        ensures { line_value result ≡ shown (lead ∷ []) ++ (Word name.now ∷ shown (first ∷ second ∷ [])) }
    {
        ErrorLine {
            fields: [lead, Field::Known(name), first, second, Field::Nothing],
        }
    }

    /// A variant with at most three fields.
    #[tactic(auto, unfolding(crate::specs::Views::shown))]
    pub fn of(name: &'static [u8], first: Field, second: Field, third: Field) -> ErrorLine
        ensures { line_value result ≡ Word name.now ∷ shown (first ∷ second ∷ third ∷ []) }
    {
        ErrorLine {
            fields: [Field::Known(name), first, second, third, Field::Nothing],
        }
    }

    /// A variant with at most three fields, after the word `lead` unless that is `Nothing`.
    #[tactic(auto, unfolding(crate::specs::Views::shown), using(crate::proofs::Leads::leading))]
    pub fn following(
        lead: Field,
        name: &'static [u8],
        first: Field,
        second: Field,
        third: Field,
    ) -> ErrorLine
        ensures { line_value result ≡ shown (lead ∷ []) ++ (Word name.now ∷ shown (first ∷ second ∷ third ∷ [])) }
    {
        ErrorLine {
            fields: [lead, Field::Known(name), first, second, third],
        }
    }
}

/// A report in parts, which are written to the notes one after the other.
#[derive(Drop)]
pub struct Report {
    /// The first part.
    pub first: Vec<u8>,
    /// The parts between the first and the last.
    pub parts: Vec<Vec<u8>>,
    /// The last part.
    pub last: Vec<u8>,
}

impl Report {
    /// A report of one part. It allocates nothing.
    #[tactic(auto, unfolding(crate::specs::Reported::joined))]
    pub fn whole(text: Vec<u8>) -> Report
        ensures { report_text result ≡ text.items }
    {
        let alloc = *text.allocator();
        Report {
            first: text,
            parts: Vec::new(alloc),
            last: Vec::new(alloc),
        }
    }
}

/// An answer: its text, its report if the command makes one, and its status.
#[derive(Drop)]
pub struct Reply {
    /// What is written to the output.
    pub text: Vec<u8>,
    /// What is written to the notes, if the command reports.
    pub report: Option<Report>,
    /// The status: one of those that answers have.
    pub status: Status,
}

/// No answer: the status, and the content of the error line.
#[derive(Drop)]
pub struct Refusal {
    /// The status: one of those that faults have.
    pub status: Status,
    /// The content of the error line.
    pub line: ErrorLine,
}

/// Why a command has no reply.
#[derive(Drop)]
pub enum Stop {
    /// Out of memory.
    NoMemory,
    /// The input has no answer.
    NoAnswer(Refusal),
}

/// How the run of a command ended. It determines the status and the error line.
#[derive(Drop)]
pub enum RunEnd {
    /// A call of the source failed.
    ReadFault,
    /// The source had more bytes than the command reads.
    TooLong,
    /// Out of memory before anything was written.
    Memory,
    /// A reply with this status was written whole.
    Answered(Status),
    /// The output failed while the reply's text was written: the text is truncated.
    Truncated,
    /// Out of memory while the reply's text was written in pieces: the text is truncated.
    OutOfMemoryMidway,
    /// The notes failed while the reply's report was written: the report is truncated.
    ReportTruncated,
    /// The input has no answer.
    NoAnswer(Refusal),
}

impl RunEnd {
    /// The status of a run that ended so.
    pub fn status(&self) -> Status
        ensures { result ≡ status_in self.now }
    {
        match self {
            RunEnd::ReadFault => Status::ReadFault,
            RunEnd::TooLong => Status::Limit,
            RunEnd::Memory | RunEnd::OutOfMemoryMidway => Status::Memory,
            RunEnd::Answered(status) => *status,
            RunEnd::Truncated | RunEnd::ReportTruncated => Status::WriteFault,
            RunEnd::NoAnswer(refusal) => refusal.status,
        }
    }
}

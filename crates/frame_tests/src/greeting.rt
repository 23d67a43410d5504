//! A command that reads nothing and reports in parts.
ghost use Rattle.std.specs.Prelude.{◌≡◌, [], ◌∷◌, codes, IfOk};
ghost use Rattle.frame_core.specs.Views.{texts_of, reply_value};
ghost use Rattle.frame_tests.specs.Small.{greeting, greeting_task};

use frame_core::{Replier, Reply, Report, Status, Stop};
use std::alloc::{AllocError, Global};

/// A command that reads nothing, writes a greeting, and reports in parts.
pub struct Greeting;

/// The parts of the report.
fn parts_of(alloc: Global) -> Result<Vec<Vec<u8>>, AllocError>
    ensures { IfOk result (λ parts. texts_of parts.items ≡ codes "one\n" ∷ codes "two\n" ∷ []) }
{
    let mut parts = Vec::new(alloc);
    parts.push(Vec::from_slice(alloc, b"one\n")?)?;
    parts.push(Vec::from_slice(alloc, b"two\n")?)?;
    Ok(parts)
}

/// The greeting.
fn greet(alloc: Global) -> Result<Reply, AllocError>
    ensures { IfOk result (λ reply. reply_value reply ≡ greeting tt) }
{
    let text = Vec::from_slice(alloc, b"hello\n")?;
    let first = Vec::from_slice(alloc, b"2 parts\n")?;
    let last = Vec::from_slice(alloc, b"done\n")?;
    let parts = parts_of(alloc)?;
    Ok(Reply {
        text,
        report: Some(Report { first, parts, last }),
        status: Status::Done,
    })
}

impl Replier for Greeting {
    ghost task = { λ _. greeting_task };

    ghost ready = { λ _. Unit {0} };

    fn reads(&self) -> Option<usize> {
        None
    }

    #[tactic(auto, using(crate::proofs::Smalls::telling))]
    fn reply(&self, alloc: Global, _bytes: &[u8]) -> Result<Reply, Stop> {
        match greet(alloc) {
            Ok(reply) => Ok(reply),
            Err(AllocError) => Err(Stop::NoMemory),
        }
    }
}

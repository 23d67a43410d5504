//! The reply to a text that was improved by wishes.
ghost use Rattle.std.specs.Prelude.{◌≡◌, IfOk};
ghost use Rattle.frame_core.specs.Views.{reply_value};
ghost use Rattle.cmd_wishes.specs.Replies.{IsReplyOf};
ghost use Rattle.cmd_wishes.specs.WishReport as spec;

use crate::forms::formed;
use cmd_improve::reply_of;
use format_names::NetFormat;
use frame_core::{Reply, Report, Status};
use improve_wishes::{FormAsked, WishedText};
use std::alloc::{AllocError, Global};

/// No text, and a line that says why.
fn without_text(alloc: Global, line: Vec<u8>) -> Reply
    ensures { reply_value result ≡ spec.without_text line.items }
{
    Reply {
        text: Vec::new(alloc),
        report: Some(Report::whole(line)),
        status: Status::Refused,
    }
}

/// The line of a gate that the basis can't express.
#[tactic(auto, unfolding(crate::specs::WishReport::cannot_line))]
fn cannot_line(alloc: Global, name: &[u8]) -> Result<Vec<u8>, AllocError>
    ensures { IfOk result (λ line. line.items ≡ spec.cannot_line name.now) }
{
    let mut line = Vec::new(alloc);
    line.extend_from_slice(b"error: CannotExpress ")?;
    line.extend_from_slice(name)?;
    line.extend_from_slice(b"\n")?;
    Ok(line)
}

/// The line of too many gates over the basis.
#[tactic(auto, unfolding(crate::specs::WishReport::too_large_line))]
fn too_large_line(alloc: Global) -> Result<Vec<u8>, AllocError>
    ensures { IfOk result (λ line. line.items ≡ spec.too_large_line) }
{
    Vec::from_slice(alloc, b"error: TooManyOverBasis\n")
}

/// The reply to a text that was improved by wishes: in the sections of the text that was read, and in the form that is
/// wanted.
#[tactic(auto, using(crate::proofs::Answering::answering))]
pub(crate) fn reply_of_text(
    alloc: Global,
    format: NetFormat,
    form: FormAsked,
    bytes: &[u8],
    wished: WishedText,
) -> Result<Reply, AllocError>
    ensures { IfOk result (λ reply. IsReplyOf format form bytes.now wished (reply_value reply)) }
{
    match wished {
        WishedText::Text(improved) => {
            let answer = formed(alloc, format, form, bytes, improved)?;
            Ok(reply_of(answer))
        }
        WishedText::Cannot(name) => {
            let line = cannot_line(alloc, &name)?;
            Ok(without_text(alloc, line))
        }
        WishedText::TooMany => {
            let line = too_large_line(alloc)?;
            Ok(without_text(alloc, line))
        }
    }
}

//! The reply of a comparison.
ghost use Rattle.std.specs.Prelude.{◌≡◌, IfOk};
ghost use Rattle.std.specs.Option.{option_map};
ghost use Rattle.frame_core.specs.Views.{report_text, reply_value};
ghost use Rattle.equiv_values.specs.Told.{told_in};
ghost use Rattle.cmd_formats.specs.FormatsReport.{told_or, named_reply};

use cmd_equiv::reply_of_two;
use equiv_formats::NamedTwo;
use equiv_run::ComparedTwo;
use frame_core::{Reply, Report};
use std::alloc::{AllocError, Global};

/// A reply with what is told of a difference, if there is one.
fn with_told(reply: Reply, told: Option<Vec<u8>>) -> Reply
    ensures text { result.text.items ≡ reply.text.items }
    ensures status { result.status ≡ reply.status }
    ensures told { option_map report_text result.report ≡
        told_or (told_in told) (option_map report_text reply.report) }
{
    match told {
        Some(names) => Reply {
            report: Some(Report::whole(names)),
            ..reply
        },
        None => reply,
    }
}

/// The reply of a comparison of two netlists.
pub fn reply_of_named(alloc: Global, two: NamedTwo) -> Result<Reply, AllocError>
    ensures { IfOk result (λ reply. reply_value reply ≡ named_reply (record {
      compared = record { text = two.compared.text.items; outcome = two.compared.outcome };
      told = told_in two.told;
      no_sink = two.no_sink;
    })) }
{
    let NamedTwo {
        compared,
        told,
        no_sink,
    } = two;
    let reply = reply_of_two(alloc, ComparedTwo { compared, no_sink })?;
    Ok(with_told(reply, told))
}

//! The summary of a message.
ghost use Rattle.std.specs.Prelude.{◌≡◌, option_map, IfOk};
ghost use Rattle.md_head.specs.Bodies.{body_value};
ghost use Rattle.md_head.specs.Summaries.{IsSummary, summary_of};

use crate::body::FieldBody;
use crate::date::seconds_of;
use crate::error::HeadError;
use crate::header::header_fields;
use crate::shown::Summary;
use md_name::Bytes;
use std::alloc::{AllocError, Global};

fn value_of(alloc: Global, body: Option<FieldBody<'_>>) -> Result<Option<Bytes>, AllocError>
    ensures { IfOk result (λ value. value ≡ option_map body_value body.entry) }
{
    body.map(|body| body.value(alloc)).transpose()
}

/// The summary of a message, which reads its header section alone. No message is refused.
pub fn summary(alloc: Global, message: &[u8]) -> Result<Summary, HeadError>
    ensures by_rules { IfOk result (IsSummary message.now) }
    ensures value { IfOk result (λ shown. shown ≡ summary_of message.now) }
{
    let fields = header_fields(message);
    let subject = value_of(alloc, fields.subject)?;
    let from = value_of(alloc, fields.from)?;
    let message_id = value_of(alloc, fields.message_id)?;
    let date = value_of(alloc, fields.date)?;
    let seconds = date.as_ref().and_then(|date| seconds_of(date.as_slice()));
    Ok(Summary {
        subject,
        from,
        message_id,
        date,
        seconds,
    })
}

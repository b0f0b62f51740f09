//! The replies of a transaction as JSON.

ghost use Rattle.std.specs.Prelude.{◌≡◌, All, IfOk};
ghost use Rattle.serde_json.specs.Data.{string};
ghost use Rattle.serde_json.specs.View.{view};
ghost use Rattle.library.specs.Fitting.{ReplyFits};
ghost use Rattle.replylines.specs.ReplyLines.{told_reply, replies_data};

use crate::naming::shown;
use historytext::put_reply;
use library::Reply;
use mmsyntax::Prelude;
use serde_json::Value;
use std::alloc::{AllocError, Global};

/// A reply as a text: `done`, or the lines that a report has for it.
fn reply_value(alloc: Global, prelude: &Prelude, reply: &Reply) -> Result<Value, AllocError>
    requires { ReplyFits prelude.now reply.now }
    ensures { IfOk result (λ value. view value ≡ string (told_reply prelude.now reply.now)) }
{
    if let Reply::Done = reply {
        return Value::try_from_str(alloc, "done");
    }
    let mut lines = Vec::new(alloc);
    put_reply(alloc, &mut lines, prelude, reply)?;
    Value::try_from_str(alloc, shown(lines.as_slice()))
}

/// The list of these replies.
pub(crate) fn replies_value(
    alloc: Global,
    prelude: &Prelude,
    replies: &[Reply],
) -> Result<Value, AllocError>
    requires { All (ReplyFits prelude.now) replies.now }
    ensures { IfOk result (λ value. view value ≡ replies_data prelude.now replies.now) }
{
    let mut list = Vec::new(alloc);
    for reply in replies {
        list.push(reply_value(alloc, prelude, reply)?)?;
    }
    Ok(Value::Array(list))
}

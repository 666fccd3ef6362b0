//! What a value of JSON says.

ghost use Rattle.std.specs.Prelude.{◌≡◌, Some, codes, option_map};
ghost use Rattle.json.specs.Find.{get};
ghost use Rattle.json.specs.Value.{value_view};
ghost use Rattle.json_rpc.specs.Ids.{HasNumberText};
ghost use Rattle.json_rpc.specs.Messages.{message_in, naming, has_outcome, call as call_of, outcome as outcome_of, id_of};
ghost use Rattle.json_rpc.specs.Shown.{message_view, naming_view};

use crate::id::{Id, MAX_ID};
use json::Value;

/// A message.
#[derive(Debug, Drop)]
pub enum Message<'m, 'a> {
    /// It is to be answered.
    Request {
        id: Id<'a>,
        method: &'a str,
        params: Option<&'m Value<'a>>,
    },
    /// It has no answer.
    Notification {
        method: &'a str,
        params: Option<&'m Value<'a>>,
    },
    /// The outcome of a request that was sent.
    Response,
    /// None of these, to be answered as [`crate::Code::InvalidRequest`] under this id.
    Invalid(Id<'a>),
    /// To be answered as [`crate::Code::ParseError`] under the id null.
    NotJson,
}

// What the member `id` says.
#[derive(Drop)]
pub(crate) enum Named<'a> {
    Unnamed,
    Misnamed,
    By(Id<'a>),
}

// The message that a value of JSON is.
pub(crate) fn message_in<'m, 'a>(tree: &'m Value<'a>) -> Message<'m, 'a>
    requires { HasNumberText (get (codes "id") (value_view tree.now)) }
    ensures { message_view result ≡ message_in (Some (value_view tree.now)) }
{
    let named = named_by(tree.get("id"));
    match tree.get("method") {
        None => outcome(named, has_outcome(tree)),
        Some(Value::String(method)) => call(named, method, tree.get("params")),
        Some(_) => Message::Invalid(id_of(named)),
    }
}

fn named_by<'a>(member: Option<&Value<'a>>) -> Named<'a>
    requires { HasNumberText (option_map (λ v. value_view v.now) member) }
    ensures { naming_view result ≡ naming (option_map (λ v. value_view v.now) member.entry) }
{
    match member {
        None => Named::Unnamed,
        Some(Value::Number(text)) if text.len() <= MAX_ID => Named::By(Id::number(text)),
        Some(Value::String(text)) if text.len() <= MAX_ID => Named::By(Id::text(text)),
        Some(_) => Named::Misnamed,
    }
}

fn has_outcome(tree: &Value<'_>) -> bool
    ensures { result ≡ has_outcome (value_view tree.now) }
{
    tree.get("result").is_some() || tree.get("error").is_some()
}

// The id that an answer has.
pub(crate) fn id_of(named: Named<'_>) -> Id<'_>
    ensures { result ≡ id_of (naming_view named.entry) }
{
    match named {
        Named::By(id) => id,
        Named::Unnamed | Named::Misnamed => Id::null(),
    }
}

// A message with a method.
fn call<'m, 'a>(named: Named<'a>, method: &'a str, params: Option<&'m Value<'a>>) -> Message<'m, 'a>
    ensures { message_view result ≡ call_of (naming_view named.entry) method.now
        (option_map (λ v. value_view v.now) params.entry) }
{
    match named {
        Named::Unnamed => Message::Notification { method, params },
        Named::Misnamed => Message::Invalid(Id::null()),
        Named::By(id) => Message::Request { id, method, params },
    }
}

// A message without one, which may have an outcome.
fn outcome<'m, 'a>(named: Named<'a>, given: bool) -> Message<'m, 'a>
    ensures { message_view result ≡ outcome_of (naming_view named.entry) given }
{
    match named {
        Named::Misnamed | Named::By(_) if given => Message::Response,
        named => Message::Invalid(id_of(named)),
    }
}

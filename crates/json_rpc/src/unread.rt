//! The ids under which messages are to be answered that fail to allocate to be read.

ghost use Rattle.std.specs.Prelude.{◌≡◌, ◌∷◌, ◌<◌, ◌≤◌, length, Some, None, IsTrue, IfOk, OnOk, OnErr, MatchResult};
ghost use Rattle.json.specs.Json.{members, value};
ghost use Rattle.json.specs.Print.{IsPrintable};
ghost use Rattle.json.specs.Reads.{token_of, skip_items, skip_members};
ghost use Rattle.json.specs.Scratch.{room};
ghost use Rattle.json.specs.Token.{begin_object};
ghost use Rattle.json_rpc.specs.Messages.{message_in, message_of};
ghost use Rattle.json_rpc.specs.Outline.{answered_id, answered_by, answered_with, no_outline, noted, naming_at, opens_object, document_at, IsRead};
ghost use Rattle.json_rpc.specs.Outlined.{outline_view, kind_view};
ghost use Rattle.json_rpc.specs.OutlineRead.{IsOutlined};
ghost use Rattle.json_rpc.specs.Shown.{naming_view};

use crate::id::{Id, MAX_ID};
use crate::message::{Named, id_of};
use json::{Invalid, MAX_DEPTH, Reader, Scratch, Token};
use std::alloc::AllocError;
use std::str;

// How deep the values of members may nest, and those within them.
const DEPTH: usize = MAX_DEPTH - 1;

const INNER: usize = MAX_DEPTH - 2;

// What of the members of a message says how it is answered.
#[derive(Drop)]
pub(crate) struct Outline<'a> {
    named: Named<'a>,
    method: Method,
    has_outcome: bool,
}

#[derive(Clone, Copy)]
pub(crate) enum Method {
    Absent,
    Text,
    Other,
}

/// The id under which bytes are to be answered, if they are to be: that of a request or of what is not a message, or
/// null where that has none. It is for where [`crate::Incoming::read`] fails to allocate: it builds no tree, and room
/// for the bytes in the scratch is all that it needs.
pub fn id_to_answer<'a>(
    bytes: &'a [u8],
    scratch: &'a mut Scratch,
) -> Result<Option<Id<'a>>, AllocError>
    ensures id { IfOk result (λ id. id ≡ answered_id (message_of bytes.now)) }
    ensures full { OnErr result (room scratch.old < length bytes.now) }
{
    let Ok(text) = str::from_utf8(bytes) else {
        return Ok(Some(Id::null()));
    };
    let mut reader = Reader::new(text, scratch)?;
    Ok(id_in(&mut reader))
}

fn id_in<'a>(reader: &mut Reader<'a>) -> Option<Id<'a>>
    ensures { result ≡ answered_id (message_in (document_at reader.old)) }
{
    if !opens_object(reader) {
        return Some(Id::null());
    }
    let Ok(outline) = read_outline(reader) else {
        return Some(Id::null());
    };
    if reader.next().is_some() {
        return Some(Id::null());
    }
    outline.id_to_answer()
}

fn opens_object(reader: &mut Reader<'_>) -> bool
    ensures opens { result ≡ opens_object reader.old }
    ensures rest { IsTrue result → reader.old ≡ begin_object ∷ reader.new }
{
    matches!(reader.next(), Some(Token::BeginObject))
}

// Reads the members of an object to its end.
fn read_outline<'a>(reader: &mut Reader<'a>) -> Result<Outline<'a>, Invalid>
    ensures { MatchResult result
        (λ o. IsOutlined reader.old (outline_view o) reader.new)
        (λ _. members (value DEPTH) (length reader.old) reader.old ≡ None) }
{
    let mut outline = Outline {
        named: Named::Unnamed,
        method: Method::Absent,
        has_outcome: false,
    };
    while let Some(key) = reader.next_key()? {
        let first = read_value(reader)?;
        outline.note(key, first);
    }
    Ok(outline)
}

// Passes over a value, and gives its first token.
fn read_value<'a>(reader: &mut Reader<'a>) -> Result<Token<'a>, Invalid>
    ensures value { MatchResult result
        (λ t. IsRead DEPTH reader.old (token_of t) reader.new)
        (λ _. value DEPTH reader.old ≡ None) }
    ensures printable { IfOk result (λ t. IsPrintable (token_of t)) }
    ensures shorter { OnOk result (length reader.new < length reader.old) }
{
    let first = reader.next().ok_or(Invalid)?;
    match first {
        Token::String(_) | Token::Number(_) | Token::Bool(_) | Token::Null => Ok(first),
        Token::EndObject | Token::EndArray | Token::Key(_) | Token::Bad => Err(Invalid),
        Token::BeginArray => {
            end_items(reader)?;
            Ok(first)
        }
        Token::BeginObject => {
            end_members(reader)?;
            Ok(first)
        }
    }
}

// Passes over the items of an array, and its end.
fn end_items(reader: &mut Reader<'_>) -> Result<(), Invalid>
    ensures { MatchResult result
        (λ _. (skip_items INNER reader.old ≡ Some reader.new) × (length reader.new ≤ length reader.old))
        (λ _. skip_items INNER reader.old ≡ None) }
{
    while !reader.take_end_array() {
        reader.skip_value(INNER)?;
    }
    Ok(())
}

// Passes over the members of an object, and its end.
fn end_members(reader: &mut Reader<'_>) -> Result<(), Invalid>
    ensures { MatchResult result
        (λ _. (skip_members INNER reader.old ≡ Some reader.new) × (length reader.new ≤ length reader.old))
        (λ _. skip_members INNER reader.old ≡ None) }
{
    while let Some(_) = reader.next_key()? {
        reader.skip_value(INNER)?;
    }
    Ok(())
}

impl<'a> Outline<'a> {
    // Notes a member whose value begins with a token.
    fn note(&mut self, key: &str, first: Token<'a>)
        requires { IsPrintable (token_of first) }
        ensures { outline_view self.new
            ≡ noted (outline_view self.old) key.now (token_of first.entry) }
    {
        match key {
            "id" => self.named = named_at(first),
            "method" => {
                self.method = if matches!(first, Token::String(_)) {
                    Method::Text
                } else {
                    Method::Other
                }
            }
            "result" | "error" => self.has_outcome = true,
            _ => {}
        }
    }

    fn id_to_answer(self) -> Option<Id<'a>>
        ensures { result ≡ answered_by (outline_view self.entry) }
    {
        match (self.method, self.named) {
            (Method::Text, Named::Unnamed) => None,
            (Method::Absent, Named::Misnamed | Named::By(_)) if self.has_outcome => None,
            (_, named) => Some(id_of(named)),
        }
    }
}

fn named_at(first: Token<'_>) -> Named<'_>
    requires { IsPrintable (token_of first) }
    ensures { naming_view result ≡ naming_at (token_of first.entry) }
{
    match first {
        Token::Number(text) if text.len() <= MAX_ID => Named::By(Id::number(text)),
        Token::String(text) if text.len() <= MAX_ID => Named::By(Id::text(text)),
        _ => Named::Misnamed,
    }
}

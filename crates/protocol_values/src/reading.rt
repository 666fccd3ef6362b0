//! Values that are read.

ghost use Rattle.std.specs.Prelude.{◌≡◌, IfOk, map, option_map};
ghost use Rattle.json.specs.Value.{value_view};
ghost use Rattle.text_edits.specs.Edits.{change_view};
ghost use Rattle.protocol_values.specs.Members.{seen, member_of, text_in, array_in, is_set, number_in};
ghost use Rattle.protocol_values.specs.Reading.{position_in, range_in, part_in, change_in, changes_in, offers, encoding_in};

use json::Value;
use std::alloc::{AllocError, Global};
use text_edits::{Change, Encoding, Position};

/// The member of this name, where there is an object that has one: of several the last.
pub fn member<'m, 'a>(value: Option<&'m Value<'a>>, name: &str) -> Option<&'m Value<'a>>
    ensures { seen result ≡ member_of name.now (seen value.entry) }
{
    value?.get(name)
}

/// The text, where there is one.
pub fn text_of<'a>(value: Option<&Value<'a>>) -> Option<&'a str>
    ensures { option_map (λ t. t.now) result ≡ text_in (seen value.entry) }
{
    value?.as_str()
}

/// The number of 64 bits, where there is one in decimal digits alone.
pub fn number_of(value: Option<&Value<'_>>) -> Option<u64>
    ensures { result ≡ number_in (seen value.entry) }
{
    value?.as_u64()
}

/// Whether there is a `true`.
pub fn is_set(value: Option<&Value<'_>>) -> bool
    ensures { result ≡ is_set (seen value.entry) }
{
    match value {
        Some(value) => value.as_bool() == Some(true),
        None => false,
    }
}

/// The items, where there is an array.
pub fn items_of<'m, 'a>(value: Option<&'m Value<'a>>) -> Option<&'m [Value<'a>]>
    ensures { option_map (λ items. map value_view items.now) result ≡ array_in (seen value.entry) }
{
    match value? {
        Value::Array(items) => Some(items.as_slice()),
        _ => None,
    }
}

/// The position, where there is one.
pub fn position_of(value: Option<&Value<'_>>) -> Option<Position>
    ensures { result ≡ position_in (seen value.entry) }
{
    let line = number_of(member(value, "line"))?;
    let character = number_of(member(value, "character"))?;
    Some(Position {
        line: line as usize,
        character: character as usize,
    })
}

/// The range, where there is one: where it begins, and where it ends.
pub fn range_of(value: Option<&Value<'_>>) -> Option<(Position, Position)>
    ensures { result ≡ range_in (seen value.entry) }
{
    let start = position_of(member(value, "start"))?;
    let end = position_of(member(value, "end"))?;
    Some((start, end))
}

/// The changes of a text, in order; none where one of them is malformed, or there is no array.
pub fn changes_of<'a>(
    alloc: Global,
    value: Option<&Value<'a>>,
) -> Result<Option<Vec<Change<'a>>>, AllocError>
    ensures { IfOk result (λ r. option_map (λ v. map change_view v.items) r ≡ changes_in (seen value.entry)) }
{
    let Some(items) = items_of(value) else {
        return Ok(None);
    };
    let mut changes = Vec::new(alloc);
    for item in items {
        match change_of(item) {
            Some(change) => changes.push(change)?,
            None => return Ok(None),
        }
    }
    Ok(Some(changes))
}

fn change_of<'a>(value: &Value<'a>) -> Option<Change<'a>>
    ensures { option_map change_view result ≡ change_in (value_view value.now) }
{
    let text = text_of(member(Some(value), "text"))?;
    match member(Some(value), "range") {
        Some(Value::Null) | None => Some(Change::Whole(text)),
        range => part_of(range, text),
    }
}

fn part_of<'a>(range: Option<&Value<'_>>, text: &'a str) -> Option<Change<'a>>
    ensures { option_map change_view result ≡ part_in (seen range.entry) text.now }
{
    let (start, end) = range_of(range)?;
    Some(Change::Part(start, end, text))
}

/// The encoding of positions by what a client offers: UTF-8 where it does, UTF-32 where it offers that and no UTF-16, and
/// else UTF-16.
pub fn encoding_of(offered: Option<&Value<'_>>) -> Encoding
    ensures { result ≡ encoding_in (seen offered.entry) }
{
    let Some(items) = items_of(offered) else {
        return Encoding::Utf16;
    };
    if offers(items, "utf-8") {
        Encoding::Utf8
    } else if offers(items, "utf-32") && !offers(items, "utf-16") {
        Encoding::Utf32
    } else {
        Encoding::Utf16
    }
}

// Whether one of them is this text.
fn offers(items: &[Value<'_>], name: &str) -> bool
    ensures { result ≡ offers name.now (map value_view items.now) }
{
    for item in items {
        if item.as_str() == Some(name) {
            return true;
        }
    }
    false
}

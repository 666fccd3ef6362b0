//! Constants as JSON.

ghost use Rattle.std.specs.Prelude.{◌≡◌, ◌+◌, ◌++◌, [], ◌∷◌, IfOk, OnOk};
ghost use Rattle.std.specs.Fmt.{signed_decimal};
ghost use Rattle.json.specs.Token.{begin_object, end_object, begin_array, end_array, key, number, string};
ghost use Rattle.tera_base.specs.Text.{key_text, value_text};
ghost use Rattle.tera_base.specs.ValueView.{key_view, value_view, vals_view, pairs_view};
ghost use Rattle.tera_catalogue.specs.Constants.{constant, constants, members_of};

use json::{Pretty, Token};
use std::alloc::{AllocError, Global};
use tera_parser::value::{Key, Map, Value};

/// Writes the constant.
pub(crate) fn write_constant(
    alloc: Global,
    writer: &mut Pretty,
    value: &Value,
) -> Result<(), AllocError>
    ensures { OnOk result (writer.new ≡ writer.old ++ constant (value_view value.now)) }
{
    write_value(alloc, writer, usize::MAX, value)
}

// The same for a constant that nests at most `room` levels deep.
#[cycle(constants)]
fn write_value(
    alloc: Global,
    writer: &mut Pretty,
    room: usize,
    value: &Value,
) -> Result<(), AllocError>
    ensures { OnOk result (writer.new ≡ writer.old ++ constant (value_view value.now)) }
{
    match value {
        Value::None => writer.token(Token::Null),
        Value::Bool(truth) => writer.token(Token::Bool(*truth)),
        Value::I64(whole) => write_whole(alloc, writer, *whole),
        Value::String(text) => writer.token(Token::String(text.as_str())),
        Value::Array(values) => write_array(alloc, writer, room, values),
        Value::Map(map) => write_map(alloc, writer, room, map),
        _ => write_shown(alloc, writer, value),
    }
}

// Writes a whole number.
fn write_whole(alloc: Global, writer: &mut Pretty, whole: i64) -> Result<(), AllocError>
    ensures { OnOk result (writer.new ≡ writer.old ++ number (signed_decimal whole) ∷ []) }
{
    let text = format!(in alloc; "{whole}")?;
    writer.token(Token::Number(text.as_str()))
}

// Writes the text that a value is shown as.
fn write_shown(alloc: Global, writer: &mut Pretty, value: &Value) -> Result<(), AllocError>
    ensures { OnOk result (writer.new
        ≡ writer.old ++ string (value_text (value_view value.now)) ∷ []) }
{
    let text = format!(in alloc; "{value}")?;
    writer.token(Token::String(text.as_str()))
}

#[cycle(constants)]
fn write_array(
    alloc: Global,
    writer: &mut Pretty,
    room: usize,
    values: &Vec<Value>,
) -> Result<(), AllocError>
    ensures { OnOk result (writer.new ≡ writer.old
        ++ begin_array ∷ (constants (vals_view values.now.items) ++ end_array ∷ [])) }
{
    let room = deeper(room)?;
    writer.token(Token::BeginArray)?;
    for value in values {
        write_value(alloc, writer, room, value)?;
    }
    writer.token(Token::EndArray)
}

#[cycle(constants)]
fn write_map(alloc: Global, writer: &mut Pretty, room: usize, map: &Map) -> Result<(), AllocError>
    ensures { OnOk result (writer.new ≡ writer.old
        ++ begin_object ∷ (members_of (pairs_view map.now) ++ end_object ∷ [])) }
{
    writer.token(Token::BeginObject)?;
    write_members(alloc, writer, room, map)?;
    writer.token(Token::EndObject)
}

#[cycle(constants)]
fn write_members(
    alloc: Global,
    writer: &mut Pretty,
    room: usize,
    map: &Map,
) -> Result<(), AllocError>
    ensures { OnOk result (writer.new ≡ writer.old ++ members_of (pairs_view map.now)) }
{
    let room = deeper(room)?;
    for (name, value) in map.iter() {
        write_name(alloc, writer, name)?;
        write_value(alloc, writer, room, value)?;
    }
    Ok(())
}

// The room one level deeper. If there is none, after more levels than a memory holds, this is an allocation failure.
fn deeper(room: usize) -> Result<usize, AllocError>
    ensures { IfOk result (λ left. left + 1 ≡ room) }
{
    if room == 0 {
        Err(AllocError)
    } else {
        Ok(room - 1)
    }
}

// Writes the name of a member.
fn write_name(alloc: Global, writer: &mut Pretty, name: &Key) -> Result<(), AllocError>
    ensures { OnOk result (writer.new ≡ writer.old ++ key (key_text (key_view name.now)) ∷ []) }
{
    let text = format!(in alloc; "{name}")?;
    writer.token(Token::Key(text.as_str()))
}

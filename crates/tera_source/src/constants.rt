//! Constants, and the keys of maps.

ghost use Rattle.std.specs.Prelude.{◌≡◌, ◌++◌, false, codes, string_bytes, OnOk};
ghost use Rattle.std.specs.Fmt.{decimal};
ghost use Rattle.tera_base.specs.Text.{truth_text};
ghost use Rattle.tera_base.specs.ValueView.{key_view, value_view, vals_view, pairs_view};
ghost use Rattle.tera_source.specs.Writing.{key_source, number_text, constant_text, vals_text, pairs_text, comma_text};

use crate::texts::push_quoted;
use std::alloc::AllocError;
use std::fmt::Write;
use tera_base::{Key, Map, Value};

/// A key of a map.
pub(crate) fn push_key(out: &mut String, key: &Key) -> Result<(), AllocError>
    ensures { OnOk result (string_bytes out.new
        ≡ string_bytes out.old ++ key_source (key_view key.now)) }
{
    if let Key::String(text) = key {
        return push_quoted(out, text.as_str());
    }
    write!(out, "{key}")?;
    Ok(())
}

/// A constant. What stands for no value, and in no template, is written `none`.
#[cycle(constants)]
pub(crate) fn push_constant(out: &mut String, value: &Value) -> Result<(), AllocError>
    ensures { OnOk result (string_bytes out.new
        ≡ string_bytes out.old ++ constant_text (value_view value.now)) }
{
    match value {
        Value::Undefined | Value::None | Value::Bytes(_) => out.push_str("none"),
        Value::Bool(b) => push_truth(out, *b),
        Value::I64(n) => push_signed(out, i128::from(*n)),
        Value::U64(n) => push_number(out, u128::from(*n)),
        Value::I128(n) => push_signed(out, *n),
        Value::U128(n) => push_number(out, *n),
        Value::String(text) => push_quoted(out, text.as_str()),
        Value::Array(values) => push_array(out, values),
        Value::Map(map) => push_map(out, map),
    }
}

fn push_truth(out: &mut String, truth: bool) -> Result<(), AllocError>
    ensures { OnOk result (string_bytes out.new ≡ string_bytes out.old ++ truth_text truth) }
{
    out.push_str(if truth { "true" } else { "false" })
}

fn push_number(out: &mut String, n: u128) -> Result<(), AllocError>
    ensures { OnOk result (string_bytes out.new ≡ string_bytes out.old ++ decimal n) }
{
    write!(out, "{n}")?;
    Ok(())
}

// A number with its sign, which is a prefix.
fn push_signed(out: &mut String, n: i128) -> Result<(), AllocError>
    ensures { OnOk result (string_bytes out.new ≡ string_bytes out.old ++ number_text n) }
{
    if n < 0 {
        out.push_str("- ")?;
    }
    push_number(out, n.unsigned_abs())
}

#[cycle(constants)]
fn push_array(out: &mut String, values: &Vec<Value>) -> Result<(), AllocError>
    ensures { OnOk result (string_bytes out.new ≡ string_bytes out.old ++ (codes "["
        ++ (vals_text false (vals_view values.now.items) ++ codes " ]"))) }
{
    out.push_str("[")?;
    let mut later = false;
    for value in values {
        push_comma(out, later)?;
        push_constant(out, value)?;
        later = true;
    }
    out.push_str(" ]")
}

#[cycle(constants)]
fn push_map(out: &mut String, map: &Map) -> Result<(), AllocError>
    ensures { OnOk result (string_bytes out.new ≡ string_bytes out.old ++ (codes "{"
        ++ (pairs_text false (pairs_view map.now) ++ codes " }"))) }
{
    out.push_str("{")?;
    push_pairs(out, map)?;
    out.push_str(" }")
}

#[cycle(constants)]
fn push_pairs(out: &mut String, map: &Map) -> Result<(), AllocError>
    ensures { OnOk result (string_bytes out.new
        ≡ string_bytes out.old ++ pairs_text false (pairs_view map.now)) }
{
    let mut later = false;
    for (key, value) in map.iter() {
        push_comma(out, later)?;
        push_pair(out, key, value)?;
        later = true;
    }
    Ok(())
}

#[cycle(constants)]
fn push_pair(out: &mut String, key: &Key, value: &Value) -> Result<(), AllocError>
    ensures { OnOk result (string_bytes out.new
        ≡ string_bytes out.old ++ (key_source (key_view key.now)
        ++ (codes " : " ++ constant_text (value_view value.now)))) }
{
    push_key(out, key)?;
    out.push_str(" : ")?;
    push_constant(out, value)
}

/// What is before one of several.
pub(crate) fn push_comma(out: &mut String, later: bool) -> Result<(), AllocError>
    ensures { OnOk result (string_bytes out.new ≡ string_bytes out.old ++ comma_text later) }
{
    out.push_str(if later { " , " } else { " " })
}

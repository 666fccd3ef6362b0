//! Keys and values as they are shown.

ghost use Rattle.std.specs.Prelude.{Some, false, ◌++◌, codes};
ghost use Rattle.std.specs.Fmt.{WritesOnOk};
ghost use Rattle.tera_base.specs.ValueView.{key_view, value_view, vals_view, pairs_view};
ghost use Rattle.tera_base.specs.Text.{key_text, inner_key_text, comma_text, inner_text, vals_text, pairs_text, value_text};

use crate::values::{Key, Map, Value};
use std::fmt;
use std::fmt::{Display, Formatter, Write};

impl Display for Key {
    ghost output = { λ k. Some (key_text (key_view k)) };

    fn fmt<W: Write>(&self, f: &mut Formatter<W>) -> fmt::Result {
        match self {
            Key::String(s) => f.write_str(s.as_str()),
            Key::I64(n) => n.fmt(f),
            Key::Bool(b) => b.fmt(f),
        }
    }
}

/// A text is shown as it is, and between quotes inside an array or a map.
impl Display for Value {
    ghost output = { λ v. Some (value_text (value_view v)) };

    fn fmt<W: Write>(&self, f: &mut Formatter<W>) -> fmt::Result {
        match self {
            Value::String(s) => f.write_str(s.as_str()),
            _ => show_inner(self, f),
        }
    }
}

// A value inside another.
#[cycle(show)]
fn show_inner<W: Write>(value: &Value, f: &mut Formatter<W>) -> fmt::Result
    ensures { WritesOnOk W.write_str_gives f.old result (inner_text (value_view value.now)) f.new }
{
    match value {
        Value::Undefined => f.write_str("undefined"),
        Value::None => f.write_str("null"),
        Value::Bool(b) => b.fmt(f),
        Value::I64(n) => n.fmt(f),
        Value::U64(n) => n.fmt(f),
        Value::I128(n) => n.fmt(f),
        Value::U128(n) => n.fmt(f),
        Value::String(s) => show_quoted(s.as_str(), f),
        Value::Bytes(_) => f.write_str("<bytes>"),
        Value::Array(values) => show_array(values, f),
        Value::Map(map) => show_map(map, f),
    }
}

// A text inside another value.
fn show_quoted<W: Write>(text: &str, f: &mut Formatter<W>) -> fmt::Result
    ensures { WritesOnOk W.write_str_gives f.old result
        (codes "\"" ++ (text.now ++ codes "\"")) f.new }
{
    f.write_str("\"")?;
    f.write_str(text)?;
    f.write_str("\"")
}

#[cycle(show)]
fn show_array<W: Write>(values: &Vec<Value>, f: &mut Formatter<W>) -> fmt::Result
    ensures { WritesOnOk W.write_str_gives f.old result
        (codes "[" ++ (vals_text false (vals_view values.now.items) ++ codes "]")) f.new }
{
    f.write_str("[")?;
    show_values(values, f)?;
    f.write_str("]")
}

#[cycle(show)]
fn show_map<W: Write>(map: &Map, f: &mut Formatter<W>) -> fmt::Result
    ensures { WritesOnOk W.write_str_gives f.old result
        (codes "{" ++ (pairs_text false (pairs_view map.now) ++ codes "}")) f.new }
{
    f.write_str("{")?;
    show_pairs(map, f)?;
    f.write_str("}")
}

#[cycle(show)]
fn show_values<W: Write>(values: &Vec<Value>, f: &mut Formatter<W>) -> fmt::Result
    ensures { WritesOnOk W.write_str_gives f.old result
        (vals_text false (vals_view values.now.items)) f.new }
{
    let mut later = false;
    for value in values {
        show_value(later, value, f)?;
        later = true;
    }
    Ok(())
}

// One of several values.
#[cycle(show)]
fn show_value<W: Write>(later: bool, value: &Value, f: &mut Formatter<W>) -> fmt::Result
    ensures { WritesOnOk W.write_str_gives f.old result
        (comma_text later ++ inner_text (value_view value.now)) f.new }
{
    if later {
        f.write_str(", ")?;
    }
    show_inner(value, f)
}

#[cycle(show)]
fn show_pairs<W: Write>(map: &Map, f: &mut Formatter<W>) -> fmt::Result
    ensures { WritesOnOk W.write_str_gives f.old result
        (pairs_text false (pairs_view map.now)) f.new }
{
    let mut keys = map.keys().iter();
    let mut later = false;
    for value in map.values() {
        let Some(key) = keys.next() else {
            return Ok(());
        };
        show_pair(later, key, value, f)?;
        later = true;
    }
    Ok(())
}

// One of several pairs.
#[cycle(show)]
fn show_pair<W: Write>(later: bool, key: &Key, value: &Value, f: &mut Formatter<W>) -> fmt::Result
    ensures { WritesOnOk W.write_str_gives f.old result
        (comma_text later
        ++ (inner_key_text (key_view key.now) ++ (codes ": " ++ inner_text (value_view value.now))))
        f.new }
{
    if later {
        f.write_str(", ")?;
    }
    show_key(key, f)?;
    f.write_str(": ")?;
    show_inner(value, f)
}

// A key inside a map.
fn show_key<W: Write>(key: &Key, f: &mut Formatter<W>) -> fmt::Result
    ensures { WritesOnOk W.write_str_gives f.old result (inner_key_text (key_view key.now)) f.new }
{
    match key {
        Key::String(s) => show_quoted(s.as_str(), f),
        Key::I64(n) => n.fmt(f),
        Key::Bool(b) => b.fmt(f),
    }
}

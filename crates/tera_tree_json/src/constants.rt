//! Constants, and the keys of their maps.

ghost use Rattle.std.specs.Prelude.{codes, unsigned_abs};
ghost use Rattle.std.specs.Fmt.{decimal, signed_decimal};
ghost use Rattle.json.specs.Json.{null, string, array, item, no_items};
ghost use Rattle.tera_base.specs.ValueView.{key_view, value_view, vals_view, pairs_view};
ghost use Rattle.tera_tree_json.specs.Constants.{whole_json, other_json, key_json, value_json, bytes_json, vals_json, pairs_json};
ghost use Rattle.json_members.specs.Written.{PutsJson};

use itoa::Buffer;
use json::Writer;
use std::alloc::AllocError;
use tera_base::{Key, Map, Value};

// From this size on a `double` holds not each whole number.
const LIMIT: u64 = 9007199254740992;

/// A constant.
#[cycle(constants)]
pub(crate) fn put_value(out: &mut Writer, value: &Value) -> Result<(), AllocError>
    ensures { PutsJson result out.old out.new (value_json (value_view value.now)) }
{
    match value {
        Value::Undefined => put_undefined(out),
        Value::None => out.null(),
        Value::Bool(b) => out.boolean(*b),
        Value::I64(n) => put_i64(out, *n),
        Value::U64(n) => put_u64(out, *n),
        Value::I128(n) => put_i128(out, *n),
        Value::U128(n) => put_u128(out, *n),
        Value::String(text) => out.string(text.as_str()),
        Value::Bytes(bytes) => put_bytes(out, bytes.as_slice()),
        Value::Array(values) => put_values(out, values),
        Value::Map(map) => put_map(out, map),
    }
}

/// A key of a map.
pub(crate) fn put_key(out: &mut Writer, key: &Key) -> Result<(), AllocError>
    ensures { PutsJson result out.old out.new (key_json (key_view key.now)) }
{
    match key {
        Key::String(text) => out.string(text.as_str()),
        Key::I64(n) => put_i64(out, *n),
        Key::Bool(b) => out.boolean(*b),
    }
}

fn put_undefined(out: &mut Writer) -> Result<(), AllocError>
    ensures { PutsJson result out.old out.new (other_json (codes "undefined") null) }
{
    out.begin_object()?;
    out.key("undefined")?;
    out.null()?;
    out.end_object()
}

// A whole number that is given by its digits.
fn put_digits(out: &mut Writer, digits: &str) -> Result<(), AllocError>
    ensures { PutsJson result out.old out.new (other_json (codes "integer") (string digits.now)) }
{
    out.begin_object()?;
    out.key("integer")?;
    out.string(digits)?;
    out.end_object()
}

fn put_i64(out: &mut Writer, n: i64) -> Result<(), AllocError>
    ensures { PutsJson result out.old out.new (whole_json (unsigned_abs n) (signed_decimal n)) }
{
    if n.unsigned_abs() < LIMIT {
        return out.i64(n);
    }
    let mut buffer = Buffer::new();
    put_digits(out, buffer.format(n))
}

fn put_u64(out: &mut Writer, n: u64) -> Result<(), AllocError>
    ensures { PutsJson result out.old out.new (whole_json n (decimal n)) }
{
    if n < LIMIT {
        return out.u64(n);
    }
    let mut buffer = Buffer::new();
    put_digits(out, buffer.format(n))
}

fn put_i128(out: &mut Writer, n: i128) -> Result<(), AllocError>
    ensures { PutsJson result out.old out.new (whole_json (unsigned_abs n) (signed_decimal n)) }
{
    if n.unsigned_abs() < u128::from(LIMIT) {
        return out.i64(n as i64);
    }
    let mut buffer = Buffer::new();
    put_digits(out, buffer.format(n))
}

fn put_u128(out: &mut Writer, n: u128) -> Result<(), AllocError>
    ensures { PutsJson result out.old out.new (whole_json n (decimal n)) }
{
    if n < u128::from(LIMIT) {
        return out.u64(n as u64);
    }
    let mut buffer = Buffer::new();
    put_digits(out, buffer.format(n))
}

fn put_bytes(out: &mut Writer, bytes: &[u8]) -> Result<(), AllocError>
    ensures { PutsJson result out.old out.new
        (other_json (codes "bytes") (array (bytes_json bytes.now))) }
{
    out.begin_object()?;
    out.key("bytes")?;
    put_each_byte(out, bytes)?;
    out.end_object()
}

fn put_each_byte(out: &mut Writer, bytes: &[u8]) -> Result<(), AllocError>
    ensures { PutsJson result out.old out.new (array (bytes_json bytes.now)) }
{
    out.begin_array()?;
    for byte in bytes {
        out.u64(u64::from(*byte))?;
    }
    out.end_array()
}

#[cycle(constants)]
fn put_values(out: &mut Writer, values: &Vec<Value>) -> Result<(), AllocError>
    ensures { PutsJson result out.old out.new (array (vals_json (vals_view values.now.items))) }
{
    out.begin_array()?;
    for value in values {
        put_value(out, value)?;
    }
    out.end_array()
}

#[cycle(constants)]
fn put_map(out: &mut Writer, map: &Map) -> Result<(), AllocError>
    ensures { PutsJson result out.old out.new
        (other_json (codes "map") (array (pairs_json (pairs_view map.now)))) }
{
    out.begin_object()?;
    out.key("map")?;
    put_pairs(out, map)?;
    out.end_object()
}

#[cycle(constants)]
fn put_pairs(out: &mut Writer, map: &Map) -> Result<(), AllocError>
    ensures { PutsJson result out.old out.new (array (pairs_json (pairs_view map.now))) }
{
    out.begin_array()?;
    for (key, value) in map.iter() {
        put_pair(out, key, value)?;
    }
    out.end_array()
}

#[cycle(constants)]
fn put_pair(out: &mut Writer, key: &Key, value: &Value) -> Result<(), AllocError>
    ensures { PutsJson result out.old out.new
        (array (item (key_json (key_view key.now)) (item (value_json (value_view value.now)) no_items))) }
{
    out.begin_array()?;
    put_key(out, key)?;
    put_value(out, value)?;
    out.end_array()
}

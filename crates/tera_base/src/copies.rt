//! Copies of keys and values, which may fail to allocate.

ghost use Rattle.std.specs.Prelude.{◌≡◌, IfOk, map};
ghost use Rattle.std.specs.Map.{values_of};
ghost use Rattle.tera_base.specs.ValueView.{key_view, value_view, pairs_view};

use crate::values::{Key, Map, Value};
use std::alloc::{AllocError, Global};

impl Clone for Key {
    ghost is_clone = { λ k l. key_view l ≡ key_view k };

    fn clone(&self) -> Result<Key, AllocError> {
        match self {
            Key::String(s) => Ok(Key::String(s.clone()?)),
            Key::I64(n) => Ok(Key::I64(*n)),
            Key::Bool(b) => Ok(Key::Bool(*b)),
        }
    }
}

impl Clone for Value {
    ghost is_clone = { λ v w. value_view w ≡ value_view v };

    fn clone(&self) -> Result<Value, AllocError> {
        copy(self)
    }
}

#[cycle(copy)]
fn copy(value: &Value) -> Result<Value, AllocError>
    ensures { IfOk result (λ v. value_view v ≡ value_view value.now) }
{
    match value {
        Value::Undefined => Ok(Value::Undefined),
        Value::None => Ok(Value::None),
        Value::Bool(b) => Ok(Value::Bool(*b)),
        Value::I64(n) => Ok(Value::I64(*n)),
        Value::U64(n) => Ok(Value::U64(*n)),
        Value::I128(n) => Ok(Value::I128(*n)),
        Value::U128(n) => Ok(Value::U128(*n)),
        Value::String(text) => Ok(Value::String(text.clone()?)),
        Value::Bytes(bytes) => Ok(Value::Bytes(copy_bytes(bytes)?)),
        Value::Array(values) => {
            let copies = copy_values(*values.allocator(), values.as_slice())?;
            Ok(Value::Array(copies))
        }
        Value::Map(map) => Ok(Value::Map(copy_map(map)?)),
    }
}

fn copy_bytes(bytes: &Vec<u8>) -> Result<Vec<u8>, AllocError>
    ensures { IfOk result (λ v. v.items ≡ bytes.now.items) }
{
    let mut copies = Vec::with_capacity(*bytes.allocator(), bytes.len())?;
    copies.extend_from_slice(bytes.as_slice())?;
    Ok(copies)
}

#[cycle(copy)]
fn copy_values(alloc: Global, values: &[Value]) -> Result<Vec<Value>, AllocError>
    ensures { IfOk result (λ v. map value_view v.items ≡ map value_view values.now) }
{
    let mut copies = Vec::with_capacity(alloc, values.len())?;
    for value in values {
        copies.push(copy(value)?)?;
    }
    Ok(copies)
}

#[tactic(auto, using(crate::proofs::KeysAndValues::same_pairs, crate::proofs::KeysAndValues::copied_values))]
fn joined(like: &Map, values: Vec<Value>) -> Result<Map, AllocError>
    requires { map value_view values.items ≡ map value_view (values_of like.now) }
    ensures { IfOk result (λ c. pairs_view c ≡ pairs_view like.now) }
{
    like.with_values(values)
}

#[cycle(copy)]
fn copy_map(like: &Map) -> Result<Map, AllocError>
    ensures { IfOk result (λ c. pairs_view c ≡ pairs_view like.now) }
{
    let values = copy_values(like.allocator(), like.values())?;
    joined(like, values)
}

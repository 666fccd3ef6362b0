//! The types of the arguments of a component.

ghost use Rattle.std.specs.Prelude.{◌≡◌, ◌↔◌, IsTrue, IfSome, IfNone, IfOk, IfErr, map, string_bytes};
ghost use Rattle.std.specs.Char.{to_ascii_lowercase};
ghost use Rattle.tera_base.specs.Errors.{Says};
ghost use Rattle.tera_base.specs.Kinds.{kind_of};
ghost use Rattle.tera_base.specs.ValueView.{value_view};
ghost use Rattle.tera_tree.specs.Types.{type_name, type_of_kind, is_of_type, no_type_text};
ghost use Rattle.tera_tree.specs.declared.ast.ArgType.{ArgType};

use crate::ast::ArgType;
use std::alloc::{AllocError, Global};
use tera_base::{Error, Value, ValueKind};

impl ArgType {
    /// The type with this name, whatever the case of its ASCII letters. The refusal of another name is a
    /// message that lists the types, or `Memory`.
    pub fn from_str(alloc: Global, name: &str) -> Result<ArgType, Error>
        ensures found { IfOk result (λ typ. map to_ascii_lowercase name.now ≡ type_name typ) }
        ensures none { IfErr result (λ _. (typ : ArgType) →
            map to_ascii_lowercase name.now ≡ type_name typ → ⊥) }
        ensures refusal { IfErr result (Says (no_type_text name.now)) }
    {
        match named(name) {
            Some(typ) => Ok(typ),
            None => Err(no_type(alloc, name)),
        }
    }

    /// Its name, in lower case.
    pub fn as_str(&self) -> &'static str
        ensures { result.now ≡ type_name self.now }
    {
        match self {
            ArgType::String => "string",
            ArgType::Bool => "bool",
            ArgType::Integer => "integer",
            ArgType::Number => "number",
            ArgType::Array => "array",
            ArgType::Map => "map",
            ArgType::Bytes => "bytes",
        }
    }

    /// Whether the value is of this type. A whole number of any kind is both an integer and a number.
    pub fn matches_value(&self, value: &Value) -> bool
        ensures { result ≡ is_of_type self.now (kind_of (value_view value.now)) }
    {
        match self {
            ArgType::String => value.is_string(),
            ArgType::Bool => value.is_bool(),
            ArgType::Integer | ArgType::Number => value.is_number(),
            ArgType::Array => value.is_array(),
            ArgType::Map => value.is_map(),
            ArgType::Bytes => value.is_bytes(),
        }
    }

    /// The type of the value: that of a whole number is `Integer`, and `Undefined` and `None` have none.
    pub fn from_value(value: &Value) -> Option<ArgType>
        ensures { result ≡ type_of_kind (kind_of (value_view value.now)) }
    {
        match value.kind() {
            ValueKind::Undefined | ValueKind::None => None,
            ValueKind::Bool => Some(ArgType::Bool),
            ValueKind::I64 | ValueKind::U64 | ValueKind::I128 | ValueKind::U128 => {
                Some(ArgType::Integer)
            }
            ValueKind::String => Some(ArgType::String),
            ValueKind::Bytes => Some(ArgType::Bytes),
            ValueKind::Array => Some(ArgType::Array),
            ValueKind::Map => Some(ArgType::Map),
        }
    }
}

// Whether this is the name of the type, whatever the case of its ASCII letters.
#[tactic(auto, using(crate::proofs::Names::lower_name))]
fn is_name(name: &str, typ: ArgType) -> bool
    ensures { IsTrue result ↔ (map to_ascii_lowercase name.now ≡ type_name typ) }
{
    name.eq_ignore_ascii_case(typ.as_str())
}

// The type with this name.
#[tactic(auto, using(crate::proofs::Names::no_name))]
fn named(name: &str) -> Option<ArgType>
    ensures some { IfSome result (λ typ. map to_ascii_lowercase name.now ≡ type_name typ) }
    ensures none { IfNone result ((typ : ArgType) →
        map to_ascii_lowercase name.now ≡ type_name typ → ⊥) }
{
    if is_name(name, ArgType::String) {
        Some(ArgType::String)
    } else if is_name(name, ArgType::Bool) {
        Some(ArgType::Bool)
    } else if is_name(name, ArgType::Integer) {
        Some(ArgType::Integer)
    } else if is_name(name, ArgType::Number) {
        Some(ArgType::Number)
    } else if is_name(name, ArgType::Array) {
        Some(ArgType::Array)
    } else if is_name(name, ArgType::Map) {
        Some(ArgType::Map)
    } else if is_name(name, ArgType::Bytes) {
        Some(ArgType::Bytes)
    } else {
        None
    }
}

// The refusal of a name that is not a type's.
fn no_type(alloc: Global, name: &str) -> Error
    ensures { Says (no_type_text name.now) result }
{
    match no_type_message(alloc, name) {
        Ok(message) => Error::message(alloc, message.as_str()),
        Err(error) => Error::from(error),
    }
}

fn no_type_message(alloc: Global, name: &str) -> Result<String, AllocError>
    ensures { IfOk result (λ m. string_bytes m ≡ no_type_text name.now) }
{
    format!(in alloc;
        "Found {name} but the only types allowed are: string, bool, integer, number, array, map and bytes"
    )
}

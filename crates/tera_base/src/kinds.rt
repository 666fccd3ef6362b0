//! Kinds of values.

ghost use Rattle.std.specs.Prelude.{◌≡◌};
ghost use Rattle.tera_base.specs.ValueView.{value_view};
ghost use Rattle.tera_base.specs.Kinds.{kind_of, kind_name, is_whole_number};

use crate::values::{Map, Value};

/// What a value is.
#[derive(Clone, Copy, Debug, PartialEq, Eq)]
pub enum ValueKind {
    Undefined,
    None,
    Bool,
    I64,
    U64,
    I128,
    U128,
    String,
    Bytes,
    Array,
    Map,
}

impl ValueKind {
    /// The name in lower case.
    pub fn name(&self) -> &'static str
        ensures { result.now ≡ kind_name self.now }
    {
        match self {
            ValueKind::Undefined => "undefined",
            ValueKind::None => "none",
            ValueKind::Bool => "bool",
            ValueKind::I64 => "i64",
            ValueKind::U64 => "u64",
            ValueKind::I128 => "i128",
            ValueKind::U128 => "u128",
            ValueKind::String => "string",
            ValueKind::Bytes => "bytes",
            ValueKind::Array => "array",
            ValueKind::Map => "map",
        }
    }
}

impl Value {
    ghost use Rattle.std.specs.Prelude.{◌↔◌, IsTrue, IsSome, IfSome};
    ghost use Rattle.tera_base.specs.ValueView.{pairs_view};
    ghost use Rattle.tera_base.specs.Values as values;
    ghost use Rattle.tera_base.specs.declared.kinds.ValueKind.TheVariants as kinds;

    /// What it is.
    pub fn kind(&self) -> ValueKind
        ensures { result ≡ kind_of (value_view self.now) }
    {
        match self {
            Value::Undefined => ValueKind::Undefined,
            Value::None => ValueKind::None,
            Value::Bool(_) => ValueKind::Bool,
            Value::I64(_) => ValueKind::I64,
            Value::U64(_) => ValueKind::U64,
            Value::I128(_) => ValueKind::I128,
            Value::U128(_) => ValueKind::U128,
            Value::String(_) => ValueKind::String,
            Value::Bytes(_) => ValueKind::Bytes,
            Value::Array(_) => ValueKind::Array,
            Value::Map(_) => ValueKind::Map,
        }
    }

    /// The name of its kind.
    pub fn name(&self) -> &'static str
        ensures { result.now ≡ kind_name (kind_of (value_view self.now)) }
    {
        self.kind().name()
    }

    /// Whether it is the undefined value.
    pub fn is_undefined(&self) -> bool
        ensures { IsTrue result ↔ (kind_of (value_view self.now) ≡ kinds.Undefined) }
    {
        matches!(self, Value::Undefined)
    }

    /// Whether it is not a value.
    pub fn is_none(&self) -> bool
        ensures { IsTrue result ↔ (kind_of (value_view self.now) ≡ kinds.None) }
    {
        matches!(self, Value::None)
    }

    /// Whether it is one of the two truths.
    pub fn is_bool(&self) -> bool
        ensures { IsTrue result ↔ (kind_of (value_view self.now) ≡ kinds.Bool) }
    {
        matches!(self, Value::Bool(_))
    }

    /// Whether it is a text.
    pub fn is_string(&self) -> bool
        ensures { IsTrue result ↔ (kind_of (value_view self.now) ≡ kinds.String) }
    {
        matches!(self, Value::String(_))
    }

    /// Whether it is bytes.
    pub fn is_bytes(&self) -> bool
        ensures { IsTrue result ↔ (kind_of (value_view self.now) ≡ kinds.Bytes) }
    {
        matches!(self, Value::Bytes(_))
    }

    /// Whether it is a list of values.
    pub fn is_array(&self) -> bool
        ensures { IsTrue result ↔ (kind_of (value_view self.now) ≡ kinds.Array) }
    {
        matches!(self, Value::Array(_))
    }

    /// Whether it is a map.
    pub fn is_map(&self) -> bool
        ensures { IsTrue result ↔ (kind_of (value_view self.now) ≡ kinds.Map) }
    {
        matches!(self, Value::Map(_))
    }

    /// Whether it is a whole number of one of the four kinds.
    pub fn is_number(&self) -> bool
        ensures { result ≡ is_whole_number (kind_of (value_view self.now)) }
    {
        matches!(
            self,
            Value::I64(_) | Value::U64(_) | Value::I128(_) | Value::U128(_)
        )
    }

    /// The map that it is.
    pub fn as_map(&self) -> Option<&Map>
        ensures pairs { IfSome result (λ m. value_view self.now ≡ values.Map (pairs_view m.now)) }
        ensures found { IsSome result ↔ (kind_of (value_view self.now) ≡ kinds.Map) }
    {
        match self {
            Value::Map(entries) => Some(entries),
            _ => None,
        }
    }
}

//! What a catalogue of components has of an argument.

ghost use Rattle.std.specs.Prelude.{◌≡◌, Some, IfOk};
ghost use Rattle.std.specs.Option.{option_map};
ghost use Rattle.tera_base.specs.ValueView.{value_view};
ghost use Rattle.tera_tree.specs.Infos.{shown_type, shown_type_name, argument_info, is_required, arg_view};
ghost use Rattle.tera_tree.specs.View.{argument_view};

use crate::ast::{ArgType, ComponentArgument};
use std::alloc::{AllocError, Global};
use std::fmt;
use std::fmt::{Display, Formatter, Write};
use tera_base::Value;

/// The type of an argument of a component.
#[derive(Clone, Copy, Debug, PartialEq, Eq)]
pub enum ComponentArgType {
    String,
    Bool,
    Integer,
    Number,
    Array,
    Map,
    Bytes,
}

/// An argument of a component.
#[derive(Debug, Drop)]
pub struct ComponentArg {
    name: String,
    default: Option<Value>,
    arg_type: Option<ComponentArgType>,
    implicit: bool,
}

impl ComponentArgType {
    /// Its name, in lower case.
    pub fn as_str(&self) -> &'static str
        ensures { result.now ≡ shown_type_name self.now }
    {
        match self {
            ComponentArgType::String => "string",
            ComponentArgType::Bool => "bool",
            ComponentArgType::Integer => "integer",
            ComponentArgType::Number => "number",
            ComponentArgType::Array => "array",
            ComponentArgType::Map => "map",
            ComponentArgType::Bytes => "bytes",
        }
    }
}

impl Display for ComponentArgType {
    ghost output = { λ t. Some (shown_type_name t) };

    fn fmt<W: Write>(&self, f: &mut Formatter<W>) -> fmt::Result {
        f.write_str(self.as_str())
    }
}

/// The type of the same name.
impl From<ArgType> for ComponentArgType {
    ghost from_gives = { λ t shown. shown ≡ shown_type t };

    fn from(typ: ArgType) -> ComponentArgType {
        match typ {
            ArgType::String => ComponentArgType::String,
            ArgType::Bool => ComponentArgType::Bool,
            ArgType::Integer => ComponentArgType::Integer,
            ArgType::Number => ComponentArgType::Number,
            ArgType::Array => ComponentArgType::Array,
            ArgType::Map => ComponentArgType::Map,
            ArgType::Bytes => ComponentArgType::Bytes,
        }
    }
}

impl ComponentArg {
    /// What is reported for the argument of this name.
    pub(crate) fn described(
        alloc: Global,
        name: &str,
        argument: &ComponentArgument,
    ) -> Result<ComponentArg, AllocError>
        ensures { IfOk result (λ described.
            arg_view described ≡ argument_info (name.now, argument_view argument.now)) }
    {
        Ok(ComponentArg {
            name: String::from_str(alloc, name)?,
            default: argument.default.clone()?,
            arg_type: argument.typ.map(ComponentArgType::from),
            implicit: argument.implicit,
        })
    }

    /// Its name.
    pub fn name(&self) -> &str
        ensures { result.now ≡ (arg_view self.now).name }
    {
        self.name.as_str()
    }

    /// Its default.
    pub fn default(&self) -> Option<&Value>
        ensures { option_map (λ v. value_view v.now) result ≡ (arg_view self.now).default }
    {
        self.default.as_ref()
    }

    /// Its type.
    pub fn arg_type(&self) -> Option<ComponentArgType>
        ensures { result ≡ (arg_view self.now).typ }
    {
        self.arg_type
    }

    /// Whether a call has to pass it: it is not implicit, and has no default.
    pub fn is_required(&self) -> bool
        ensures { result ≡ is_required (arg_view self.now) }
    {
        !self.implicit && self.default.is_none()
    }

    /// Whether it is found for a call that does not pass it.
    pub fn is_implicit(&self) -> bool
        ensures { result ≡ (arg_view self.now).implicit }
    {
        self.implicit
    }
}

impl Clone for ComponentArg {
    ghost is_clone = { λ a b. arg_view b ≡ arg_view a };

    fn clone(&self) -> Result<ComponentArg, AllocError> {
        Ok(ComponentArg {
            name: self.name.clone()?,
            default: self.default.clone()?,
            arg_type: self.arg_type,
            implicit: self.implicit,
        })
    }
}

//! The arguments of a component: what one takes.

ghost use Rattle.std.specs.Prelude.{◌≡◌, ℕ, List, IfOk, string_bytes};
ghost use Rattle.tera_base.specs.Errors.{Says};
ghost use Rattle.tera_base.specs.ValueView.{value_view};
ghost use Rattle.tera_tree.specs.Calls.{is_of, of_type, default_of};
ghost use Rattle.tera_tree.specs.Outcomes.{ComesTo};
ghost use Rattle.tera_tree.specs.View.{argument_view};

use crate::ast::ComponentArgument;
use crate::refusals::{missing_argument, wrong_type};
use std::alloc::{AllocError, Global};
use tera_base::{Error, ErrorKind, Value};

impl ComponentArgument {
    /// Whether the value is of the argument's type; without a type each value is.
    pub fn type_matches(&self, value: &Value) -> bool
        ensures { result ≡ is_of self.now.typ (value_view value.now) }
    {
        match &self.typ {
            Some(typ) => typ.matches_value(value),
            None => true,
        }
    }

    // What was passed, or found, where it is of the argument's type.
    pub(crate) fn checked(&self, alloc: Global, name: &str, value: Value) -> Result<Value, Error>
        ensures { ComesTo (λ v. (name.now, value_view v))
            (λ o. o ≡ of_type name.now self.now.typ (value_view value)) result }
    {
        match &self.typ {
            Some(typ) => {
                if typ.matches_value(&value) {
                    Ok(value)
                } else {
                    let message = wrong_type(alloc, name, &value, *typ);
                    Err(message_error(message))
                }
            }
            None => Ok(value),
        }
    }

    // The default, and where there is none the refusal.
    pub(crate) fn default_value(&self, alloc: Global, name: &str) -> Result<Value, Error>
        ensures { ComesTo (λ v. (name.now, value_view v))
            (λ o. o ≡ default_of name.now (argument_view self.now)) result }
    {
        match &self.default {
            Some(value) => Ok(value.clone()?),
            None => {
                let message = missing_argument(alloc, name, self.typ, self.implicit);
                Err(message_error(message))
            }
        }
    }
}

// An error with no place whose text was made, or `Memory` where it was not.
pub(crate) fn message_error(message: Result<String, AllocError>) -> Error
    ensures { (text : List ℕ) → IfOk message (λ m. string_bytes m ≡ text) → Says text result }
{
    match message {
        Ok(message) => Error {
            kind: ErrorKind::Message(message),
        },
        Err(error) => Error::from(error),
    }
}

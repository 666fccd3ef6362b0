//! What is read after the first token of a source.

use crate::faults::{Detail, error_text};
use crate::settings::Setting;
use case_files::Shown;
use std::alloc::{AllocError, Global};
use std::collections::BTreeMap;
use tera_base::{Error, Value};
use tera_lexer::{Cursor, tokenize};
use tera_parser::expr::{
    Scope, attributes, component_name, expression, filter, kwargs, literal_array, literal_map,
};
use tera_tree::{Expression, MapEntry};

/// What is read after the first token, and where the token taken last ends.
pub(crate) fn front(
    alloc: Global,
    setting: &Setting<'_>,
    source: &str,
) -> Result<String, AllocError> {
    let delimiters = setting.delimiters.clone()?;
    if delimiters.validate(alloc).is_err() || !setting.limits.valid() {
        return Ok(String::new(alloc));
    }
    let scope = Scope {
        in_loop: setting.options.in_loop,
        limits: setting.limits,
    };
    let mut cursor = Cursor::new(tokenize(alloc, source, delimiters));
    let answer = after_first(alloc, &mut cursor, scope, setting.options.shown);
    let end = cursor.current_span().range.end;
    match answer {
        Ok(text) => format!(in alloc; "{text}, up to {end}"),
        // Notes are about no file yet.
        Err(error) => error_text(alloc, "", Detail::Start, &error),
    }
}

fn after_first(
    alloc: Global,
    cursor: &mut Cursor<'_>,
    scope: Scope,
    shown: Shown,
) -> Result<String, Error> {
    let _first = cursor.next_or_eoi()?;
    if !scope.limits.valid() {
        return Err(Error::message(alloc, "no limits"));
    }
    match shown {
        Shown::Filter => expression_text(alloc, filter(cursor, scope)),
        Shown::Attributes => attributes_text(alloc, attributes(cursor, scope)),
        Shown::Arguments => arguments_text(alloc, kwargs(cursor, scope)),
        Shown::Name => component_name(cursor),
        Shown::Array => value_text(alloc, literal_array(cursor, scope.limits)),
        Shown::Map => {
            let read = literal_map(cursor, "default argument", scope.limits);
            value_text(alloc, read)
        }
        _ => expression_text(alloc, expression(cursor, scope)),
    }
}

fn expression_text(alloc: Global, read: Result<Expression, Error>) -> Result<String, Error> {
    match read {
        Ok(expression) => placed_text(alloc, &expression),
        Err(error) => Err(error),
    }
}

fn placed_text(alloc: Global, expression: &Expression) -> Result<String, Error> {
    let range = &expression.span().range;
    Ok(format!(in alloc; "{range:?} {expression}")?)
}

fn attributes_text(alloc: Global, read: Result<Vec<MapEntry>, Error>) -> Result<String, Error> {
    match read {
        Ok(attributes) => row_text(alloc, &attributes),
        Err(error) => Err(error),
    }
}

fn row_text(alloc: Global, attributes: &Vec<MapEntry>) -> Result<String, Error> {
    let mut all = String::new(alloc);
    for attribute in attributes {
        if !all.is_empty() {
            all.push_str(", ")?;
        }
        let text = format!(in alloc; "{attribute}")?;
        all.push_str(text.as_str())?;
    }
    Ok(all)
}

fn arguments_text(
    alloc: Global,
    read: Result<BTreeMap<String, Expression>, Error>,
) -> Result<String, Error> {
    match read {
        Ok(arguments) => pairs_text(alloc, &arguments),
        Err(error) => Err(error),
    }
}

fn pairs_text(alloc: Global, arguments: &BTreeMap<String, Expression>) -> Result<String, Error> {
    let mut all = String::new(alloc);
    for (name, value) in arguments {
        if !all.is_empty() {
            all.push_str(", ")?;
        }
        let name = name.as_str();
        let text = format!(in alloc; "{name}={value}")?;
        all.push_str(text.as_str())?;
    }
    Ok(all)
}

fn value_text(alloc: Global, read: Result<Value, Error>) -> Result<String, Error> {
    match read {
        Ok(value) => constant_text(alloc, &value),
        Err(error) => Err(error),
    }
}

fn constant_text(alloc: Global, value: &Value) -> Result<String, Error> {
    Ok(format!(in alloc; "{value}")?)
}

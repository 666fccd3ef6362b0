//! What is reported for the components that a template defines.

use std::alloc::{AllocError, Global};
use tera_base::Error;
use tera_parser::ParserOutput;
use tera_tree::{ComponentArg, ComponentDefinition, ComponentInfo};

/// What is reported for each component, and the names of its parameters.
pub(crate) fn parameters(alloc: Global, output: &ParserOutput) -> Result<String, AllocError> {
    let mut all = String::new(alloc);
    for definition in &output.component_definitions {
        if !all.is_empty() {
            all.push_str("\n")?;
        }
        push_reported(alloc, &mut all, definition)?;
    }
    Ok(all)
}

// What is reported for the component, and on a line below it the names of its parameters.
fn push_reported(
    alloc: Global,
    all: &mut String,
    definition: &ComponentDefinition,
) -> Result<(), AllocError> {
    let reported = reported(alloc, definition)?;
    all.push_str(reported.as_str())?;
    all.push_str("\n")?;
    match definition.kwargs_list(alloc) {
        Ok(names) => push_names(all, names.as_slice()),
        Err(_) => Err(AllocError),
    }
}

fn push_names(all: &mut String, names: &[&str]) -> Result<(), AllocError> {
    for (at, name) in names.iter().enumerate() {
        if at != 0 {
            all.push_str(" ")?;
        }
        all.push_str(name)?;
    }
    Ok(())
}

fn reported(alloc: Global, definition: &ComponentDefinition) -> Result<String, AllocError> {
    match ComponentInfo::from_definition(alloc, definition) {
        Ok(info) => reported_twice(alloc, &info),
        Err(_) => Err(AllocError),
    }
}

// What the information says, where a copy of it says the same.
fn reported_twice(alloc: Global, info: &ComponentInfo) -> Result<String, AllocError> {
    let first = info_text(alloc, info)?;
    let second = reported_by_copy(alloc, info)?;
    if first == second {
        Ok(first)
    } else {
        format!(in alloc; "{first}, and of a copy {second}")
    }
}

fn reported_by_copy(alloc: Global, info: &ComponentInfo) -> Result<String, AllocError> {
    match info.clone() {
        Ok(copy) => info_text(alloc, &copy),
        Err(error) => Err(error),
    }
}

fn info_text(alloc: Global, info: &ComponentInfo) -> Result<String, AllocError> {
    let mut all = String::from_str(alloc, info.name())?;
    for argument in info.args() {
        all.push_str(" ")?;
        all.push_str(argument_text(alloc, argument)?.as_str())?;
    }
    if let Some(rest) = info.rest_param() {
        all.push_str(format!(in alloc; " ...{rest}")?.as_str())?;
    }
    push_metadata(alloc, &mut all, info)?;
    Ok(all)
}

fn push_metadata(alloc: Global, all: &mut String, info: &ComponentInfo) -> Result<(), AllocError> {
    for (name, value) in info.metadata() {
        let name = name.as_str();
        all.push_str(format!(in alloc; "; {name} = {value}")?.as_str())?;
    }
    Ok(())
}

// An argument as a parameter is written, with a mark where a call has to pass it.
fn argument_text(alloc: Global, argument: &ComponentArg) -> Result<String, AllocError> {
    let name = argument.name();
    let mark = if argument.is_implicit() { "@" } else { "" };
    let mut all = format!(in alloc; "{mark}{name}")?;
    if let Some(typ) = argument.arg_type() {
        all.push_str(format!(in alloc; ": {typ}")?.as_str())?;
    }
    if let Some(default) = argument.default() {
        all.push_str(format!(in alloc; " = {default}")?.as_str())?;
    }
    if argument.is_required() {
        all.push_str("!")?;
    }
    Ok(all)
}

//! Functions that give a component its values, and fail.

use std::alloc::{AllocError, Global};
use std::test::Fail;
use tera_base::{Error, Value};
use tera_tree::{ComponentArgument, ComponentDefinition};

/// The result of a function for each name.
#[derive(Clone, Copy)]
enum Answer {
    Yes,
    Nothing,
    Stop,
    NoMemory,
}

fn value(alloc: Global, answer: Answer) -> Result<Option<Value>, Error> {
    match answer {
        Answer::Yes => Ok(Some(Value::Bool(true))),
        Answer::Nothing => Ok(None),
        Answer::Stop => Err(Error::message(alloc, "stop")),
        Answer::NoMemory => Err(Error::from(AllocError)),
    }
}

fn found(alloc: Global, answer: Answer) -> Result<Value, Error> {
    Ok(value(alloc, answer)?.unwrap_or(Value::Undefined))
}

// The value of `user` in the context of the component, or the text of the error. It is given the names, and the results
// of the functions for names and for implicit arguments.
fn context_text(
    alloc: Global,
    definition: &ComponentDefinition,
    names: &[&str],
    given: Answer,
    implicit: Answer,
) -> Result<String, AllocError> {
    let get_value = |_: &str| -> Result<Option<Value>, Error> { value(alloc, given) };
    let get_implicit_value = |_: &str| -> Result<Value, Error> { found(alloc, implicit) };
    let names = names.iter().copied();
    match definition.build_context(alloc, names, get_value, get_implicit_value, None) {
        Ok(context) => format!(in alloc; "{:?}", context.get("user")),
        Err(error) => format!(in alloc; "{error}"),
    }
}

// Adds an implicit argument `user`, if memory is found.
fn add_user(alloc: Global, definition: &mut ComponentDefinition) -> Result<(), AllocError> {
    let name = String::from_str(alloc, "user")?;
    let user = ComponentArgument {
        implicit: true,
        ..ComponentArgument::default()
    };
    definition.kwargs.insert(name, user)?;
    Ok(())
}

// The result for names, the result for implicit arguments, and what is shown then.
const USERS: [(Answer, Answer, &str); 5] = [
    (Answer::Nothing, Answer::Stop, "stop"),
    (Answer::Nothing, Answer::NoMemory, "out of memory"),
    (Answer::Stop, Answer::Nothing, "stop"),
    (Answer::NoMemory, Answer::Nothing, "out of memory"),
    (Answer::Yes, Answer::Stop, "Some(Bool(true))"),
];

fn shows_users(alloc: Global, definition: &ComponentDefinition) -> Result<bool, AllocError> {
    for (given, implicit, text) in &USERS {
        let reported = context_text(alloc, definition, &[], *given, *implicit)?;
        if reported.as_str() != *text {
            return Ok(false);
        }
    }
    Ok(true)
}

// Whether an error that stops at what is left of the names is shown.
fn stops_at_the_rest(alloc: Global, definition: &ComponentDefinition) -> Result<bool, AllocError> {
    let reported = context_text(
        alloc,
        definition,
        &["z", "a"],
        Answer::Stop,
        Answer::Nothing,
    )?;
    Ok(reported.as_str() == "stop")
}

#[test]
fn an_error_of_a_function_is_passed_on(rt: HostRuntime) -> Result<(), Fail> {
    let alloc = rt.alloc();
    let mut definition = ComponentDefinition::empty(alloc);
    definition.rest_param_name = String::from_str(alloc, "rest").ok();
    let stops = stops_at_the_rest(alloc, &definition);
    let added = add_user(alloc, &mut definition);
    let shows = shows_users(alloc, &definition);
    drop(definition);
    added?;
    assert!(rt; stops? && shows?);
    Ok(())
}

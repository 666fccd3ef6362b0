//! The faults of what is in tags, in the order in which the language's document lists them.

ghost use Rattle.tera_lexer.specs.code.Cursors.{Position};
ghost use Rattle.tera_grammar.specs.statements.Reading.Meeting.{Located};
ghost use Rattle.tera_tags.specs.Knowing.{MeetsAgain, RefusesKnowing};
ghost use Rattle.tera_expect.specs.Taking.{Refuses};

use tera_base::{Error, ErrorKind, Span, Value};
use tera_expect::{fault, first_defined, reported};
use tera_lexer::{Cursor, Token};
use tera_tree::ArgType;

/// That the name at the end of what has a name, which was taken last, is another one.
pub fn renamed(cursor: &Cursor<'_>, kind: &str, name: &str, end: &str) -> Error
    ensures { Refuses cursor.now cursor.now result }
{
    let message = format!(in cursor.alloc();
        "{kind} was named `{name}` in the opening tag, found `{end}` as name in the end tag"
    );
    reported(cursor, message)
}

/// That nothing begins with the token taken last.
pub(crate) fn unknown(cursor: &Cursor<'_>) -> Error
    ensures { Refuses cursor.now cursor.now result }
{
    fault(cursor, "Unknown tag")
}

/// That a component of the name, which was taken last, was defined before at the span.
pub(crate) fn repeated_component(cursor: &Cursor<'_>, name: &str, first: &Span) -> Error
    ensures { (known : Located) (old : Position) → MeetsAgain known name.now first.now old cursor.now →
        RefusesKnowing known old cursor.now result }
{
    let message = format!(in cursor.alloc();
        "Template already contains a component named `{name}`"
    );
    let error = reported(cursor, message);
    first_defined(error, first)
}

/// That a parameter, whose name was taken last, is called `body`.
pub(crate) fn parameter_named_body(cursor: &Cursor<'_>) -> Error
    ensures { Refuses cursor.now cursor.now result }
{
    fault(
        cursor,
        "The name `body` is reserved for component body content.",
    )
}

/// That the name, which was taken last, is that of the parameter whose name is at the span.
pub(crate) fn repeated_parameter(cursor: &Cursor<'_>, name: &str, first: &Span) -> Error
    ensures { (known : Located) (old : Position) → MeetsAgain known name.now first.now old cursor.now →
        RefusesKnowing known old cursor.now result }
{
    let message = format!(in cursor.alloc();
        "Component argument `{name}` is defined more than once"
    );
    let error = reported(cursor, message);
    first_defined(error, first)
}

/// That the name of the rest parameter, which was taken last, is that of another one.
pub(crate) fn rest_is_parameter(cursor: &Cursor<'_>, name: &str) -> Error
    ensures { Refuses cursor.now cursor.now result }
{
    let message = format!(in cursor.alloc();
        "Rest parameter `{name}` conflicts with an existing parameter."
    );
    reported(cursor, message)
}

/// That the rest parameter, whose name was taken last, is not the last one.
pub(crate) fn rest_is_not_last(cursor: &Cursor<'_>) -> Error
    ensures { Refuses cursor.now cursor.now result }
{
    fault(
        cursor,
        "Rest parameter must be the last parameter in component definition.",
    )
}

/// What the message says of the name taken last, which is that of no type.
#[tactic(auto, using(tera_expect::proofs::TakingLemmas::memory_refused))]
pub(crate) fn no_named_type(cursor: &Cursor<'_>, error: Error) -> Error
    ensures { Refuses cursor.now cursor.now result }
{
    match error.kind {
        ErrorKind::Message(message) => reported(cursor, Ok(message)),
        _ => Error {
            kind: ErrorKind::Memory,
        },
    }
}

/// That a token, which was taken last, is not a type.
pub(crate) fn no_type(cursor: &Cursor<'_>, token: &Token<'_>) -> Error
    ensures { Refuses cursor.now cursor.now result }
{
    let message = format!(in cursor.alloc();
        "Found {token} but the only types allowed are: string, bool, integer, number, bytes, array and map"
    );
    reported(cursor, message)
}

/// That a token, which was taken last, is not a number after a minus.
pub(crate) fn no_number(cursor: &Cursor<'_>, token: &Token<'_>) -> Error
    ensures { Refuses cursor.now cursor.now result }
{
    let message = format!(in cursor.alloc();
        "Found {token} but `-` can only be followed by an integer"
    );
    reported(cursor, message)
}

/// That a token, which was taken last, is not a default.
pub(crate) fn no_default(cursor: &Cursor<'_>, token: &Token<'_>) -> Error
    ensures { Refuses cursor.now cursor.now result }
{
    let message = format!(in cursor.alloc();
        "Found {token} but component default arguments can only be one of: string, bool, integer, array or map"
    );
    reported(cursor, message)
}

/// That a default has another type than its argument.
pub(crate) fn mistyped(cursor: &Cursor<'_>, name: &str, typ: &ArgType, value: &Value) -> Error
    ensures { Refuses cursor.now cursor.now result }
{
    let expected = typ.as_str();
    let found = match ArgType::from_value(value) {
        Some(found) => found.as_str(),
        None => value.name(),
    };
    let message = format!(in cursor.alloc();
        "Default value for `{name}` has type `{found}` but the argument has type `{expected}`"
    );
    reported(cursor, message)
}

//! The faults of what holds expressions, in the order in which the language's document lists them. Those of the parts
//! of expressions are in `tera_expr_parts`.

ghost use Rattle.tera_base.specs.Errors.{HasNoNotes, ReportsBy};
ghost use Rattle.tera_lexer.specs.grammar.Place.{IsWithin};
ghost use Rattle.tera_expr_parts.specs.Ranges.{RunsFrom};
ghost use Rattle.tera_expect.specs.Taking.{Refuses};

use tera_base::{Error, Span};
use tera_expect::{fault, reported};
use tera_expr_parts::reported_from;
use tera_lexer::Cursor;

/// That a call hangs on a chain with links, the last of which was taken last.
pub(crate) fn call_after_link(cursor: &Cursor<'_>) -> Error
    ensures { Refuses cursor.now cursor.now result }
{
    fault(
        cursor,
        "Function calls are only allowed at the first element of a chain",
    )
}

/// That `loop` has no field of this name, which was taken last.
pub(crate) fn no_loop_field(cursor: &Cursor<'_>, name: &str) -> Error
    ensures { Refuses cursor.now cursor.now result }
{
    let message = format!(in cursor.alloc();
        "Found invalid field of `loop`: {name}. Only `index`, `index0`, `first`, `last` and `length` exist."
    );
    reported(cursor, message)
}

/// That a comprehension has a second `for`, which was taken last.
pub(crate) fn second_for(cursor: &Cursor<'_>) -> Error
    ensures { Refuses cursor.now cursor.now result }
{
    fault(
        cursor,
        "List comprehensions support only a single `for` clause.",
    )
}

/// That an array which has to be a constant is none; its bracket is at the span, and it was taken last.
pub(crate) fn array_not_constant(cursor: &Cursor<'_>, first: &Span) -> Error
    requires { IsWithin cursor.now.source first.now }
    ensures reports { ReportsBy (λ text span. RunsFrom first.now cursor.now span) result }
    ensures notes { HasNoNotes result }
{
    let message = String::from_str(
        cursor.alloc(),
        "Invalid default argument: this array should only contain literal values.",
    );
    reported_from(cursor, first, message)
}

/// The same of a map, which is in this context.
pub(crate) fn map_not_constant(cursor: &Cursor<'_>, first: &Span, context: &str) -> Error
    requires { IsWithin cursor.now.source first.now }
    ensures reports { ReportsBy (λ text span. RunsFrom first.now cursor.now span) result }
    ensures notes { HasNoNotes result }
{
    let message = format!(in cursor.alloc();
        "Invalid {context}: this map should only contain literal values."
    );
    reported_from(cursor, first, message)
}

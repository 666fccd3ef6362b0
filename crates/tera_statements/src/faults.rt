//! The other faults of statements, in the order in which the language's document lists them.

ghost use Rattle.tera_lexer.specs.code.Cursors.{Position};
ghost use Rattle.tera_statements.specs.Templates.{ComesNext};
ghost use Rattle.tera_expect.specs.Taking.{Refuses, RefusesIn, ReportsAs, Took};

use crate::around::Opening;
use tera_base::{Error, Span};
use tera_expect::{fault, noted, reported};
use tera_expr_parts::up_to_last;
use tera_lexer::Cursor;

/// That no name comes after the `<` of a tag, which was taken last.
pub(crate) fn no_called_name(cursor: &Cursor<'_>) -> Error
    ensures { Refuses cursor.now cursor.now result }
{
    fault(
        cursor,
        "Found `<` but expected identifier after it for XML component call.",
    )
}

/// That the input ends before the component of this name is closed.
pub(crate) fn unclosed_call(cursor: &Cursor<'_>, name: &str) -> Error
    ensures { Refuses cursor.now cursor.now result }
{
    let message = format!(in cursor.alloc(); "Unclosed component '{name}'");
    reported(cursor, message)
}

/// That the name at the end of a component that is called, which was taken last, is another one.
pub(crate) fn other_call(cursor: &Cursor<'_>, name: &str, end: &str) -> Error
    ensures { Refuses cursor.now cursor.now result }
{
    let message = format!(in cursor.alloc();
        "Closing tag '{end}' doesn't match opening tag '{name}'"
    );
    reported(cursor, message)
}

/// That neither a value nor a body comes after the name that is set, which was taken last.
pub(crate) fn nothing_to_set(cursor: &Cursor<'_>) -> Error
    ensures { Refuses cursor.now cursor.now result }
{
    fault(
        cursor,
        "Invalid syntax for `set`: expecting an `=` followed by an expression or a `%}`",
    )
}

/// That more bodies are open than may be.
pub(crate) fn too_deep(cursor: &Cursor<'_>) -> Error
    ensures { Refuses cursor.now cursor.now result }
{
    fault(cursor, "The template nesting is too deep")
}

/// That a template extends another, at the string taken last, and extends one already.
pub(crate) fn again_extended(cursor: &Cursor<'_>, parent: &str) -> Error
    ensures { Refuses cursor.now cursor.now result }
{
    let message = format!(in cursor.alloc(); "Template is already extending `{parent}`");
    reported(cursor, message)
}

/// That a template extends another, at the string taken last, after something else.
pub(crate) fn late_extended(cursor: &Cursor<'_>) -> Error
    ensures { Refuses cursor.now cursor.now result }
{
    fault(
        cursor,
        "`extends` needs to be the first tag of the template",
    )
}

/// That a template extends another, at the string taken last, in another tag.
pub(crate) fn nested_extends(cursor: &Cursor<'_>, opening: &Opening) -> Error
    ensures { Refuses cursor.now cursor.now result }
{
    let error = fault(cursor, "`extends` cannot be nested in other tags.");
    inside_of(cursor, error, opening)
}

/// That an item is of no use in a template that extends another: from its first token, whose place is known if it was
/// shown, to the one taken last.
pub(crate) fn ignored(cursor: &Cursor<'_>, first: Option<Span>) -> Error
    ensures { (old : Position) → Took old cursor.now → ComesNext first old → RefusesIn old cursor.now result }
{
    let text =
        "This content would be ignored: only `extends`, `block` and `component` are allowed at the top level of a child template.";
    match first {
        Some(first) => Error::syntax_error(cursor.alloc(), text, &up_to_last(cursor, &first)),
        None => fault(cursor, text),
    }
}

/// That a block, whose word was taken last, is where none may.
pub(crate) fn barred_block(cursor: &Cursor<'_>, opening: &Opening) -> Error
    ensures { Refuses cursor.now cursor.now result }
{
    let name = opening.context.name();
    let message = format!(in cursor.alloc(); "Blocks cannot be written inside a {name}.");
    let error = reported(cursor, message);
    inside_of(cursor, error, opening)
}

/// That a block of this name, which was taken last, was there before.
pub(crate) fn repeated_block(cursor: &Cursor<'_>, name: &str) -> Error
    ensures { Refuses cursor.now cursor.now result }
{
    let message = format!(in cursor.alloc(); "Template already contains a block named `{name}`");
    reported(cursor, message)
}

/// That this word, which was taken last, is in a body that is taken as a value.
pub(crate) fn captured_jump(cursor: &Cursor<'_>, word: &str, opening: &Opening) -> Error
    ensures { Refuses cursor.now cursor.now result }
{
    let name = opening.context.name();
    let message = format!(in cursor.alloc(); "`{word}` cannot be used inside a {name}");
    let error = reported(cursor, message);
    inside_of(cursor, error, opening)
}

/// That this word, which was taken last, is in no loop.
pub(crate) fn jump_in_no_loop(cursor: &Cursor<'_>, word: &str) -> Error
    ensures { Refuses cursor.now cursor.now result }
{
    let message = format!(in cursor.alloc(); "{word} can only be used in a for loop");
    reported(cursor, message)
}

/// That the definition of a component, whose word was taken last, is in another tag.
pub(crate) fn nested_definition(cursor: &Cursor<'_>, opening: &Opening) -> Error
    ensures { Refuses cursor.now cursor.now result }
{
    let error = fault(
        cursor,
        "Component definitions cannot be written in another tag.",
    );
    inside_of(cursor, error, opening)
}

// The error with a note on where what is around begins.
#[tactic(auto, using(tera_expect::proofs::TakingLemmas::memory_refused))]
fn inside_of(cursor: &Cursor<'_>, error: Error, opening: &Opening) -> Error
    requires { Refuses cursor.now cursor.now error }
    ensures reports { ReportsAs error result }
    ensures refusal { Refuses cursor.now cursor.now result }
{
    let name = opening.context.name();
    match format!(in cursor.alloc(); "the {name} starts here") {
        Ok(label) => noted(error, label.as_str(), &opening.at),
        Err(refused) => Error::from(refused),
    }
}

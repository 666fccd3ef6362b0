//! The faults of expressions, in the order in which the language's document lists them.

ghost use Rattle.std.specs.Prelude.{◌≡◌, ◌⊎◌, ◌≤◌, true};
ghost use Rattle.tera_base.specs.Errors.{HasNoNotes, IsMemory, ReportsBy};
ghost use Rattle.tera_lexer.specs.code.Cursors.{Position, ReportsAt};
ghost use Rattle.tera_lexer.specs.grammar.Tokens.{Items};
ghost use Rattle.tera_lexer.specs.grammar.Faults.{BeginsWith, EndsWith};
ghost use Rattle.tera_lexer.specs.grammar.Place.{IsWithin};
ghost use Rattle.tera_grammar.specs.expressions.Marks.{Not};
ghost use Rattle.tera_grammar.specs.expressions.Reading.Front.{begins, begins_sign};
ghost use Rattle.tera_expr_parts.specs.Kept.{AreKept};
ghost use Rattle.tera_expr_parts.specs.Ranges.{RunsFrom};
ghost use Rattle.tera_expect.specs.Notes.{Comes};
ghost use Rattle.tera_expect.specs.Taking.{GoesOn, Refuses, TookFirst, name_in};

use std::alloc::{AllocError, Global};
use tera_base::{Error, Span};
use tera_expect::{Fixed, expect, fault, first_defined, reported};
use tera_lexer::{Cursor, Token};
use tera_tree::UnaryOperator;

/// That a token begins no expression, which was taken.
pub(crate) fn no_expression(cursor: &Cursor<'_>, token: &Token<'_>) -> Error
    ensures { Refuses cursor.now cursor.now result }
{
    let message = format!(in cursor.alloc();
        "Found {token} but expected one of: integer, string, bool, ident, `-`, `not`, `<`, `{{`, `[` or `(`"
    );
    reported(cursor, message)
}

/// That a prefix comes after a prefix; it is taken.
#[tactic(auto, using(tera_expect::proofs::TakingLemmas::untaken_refused, tera_expect::proofs::TakingLemmas::token_refused))]
pub fn consecutive(cursor: &mut Cursor<'_>) -> Error
    ensures refusal { Refuses cursor.old cursor.new result }
    ensures takes { begins_sign cursor.old.left ≡ true →
        IsMemory result ⊎ TookFirst cursor.old.left cursor.new.left }
{
    match cursor.next_or_eoi() {
        Ok((_, span)) => Error::syntax_error(
            cursor.alloc(),
            "`-` and `not` cannot be used consecutively.",
            &span,
        ),
        Err(error) => error,
    }
}

/// That a `not` comes after an operand without `in`; it is taken.
#[tactic(auto, using(tera_expect::proofs::TakingLemmas::refused_after))]
pub fn misplaced_not(cursor: &mut Cursor<'_>) -> Error
    ensures refusal { Refuses cursor.old cursor.new result }
    ensures takes { begins Not cursor.old.left ≡ true →
        IsMemory result ⊎ TookFirst cursor.old.left cursor.new.left }
{
    match expect(cursor, Fixed::Not) {
        Ok(()) => fault(cursor, "`not` is only valid here as part of `not in`"),
        Err(error) => error,
    }
}

/// That a prefix comes after `~`.
pub(crate) fn prefix_after_tilde(cursor: &Cursor<'_>, prefix: UnaryOperator) -> Error
    ensures { Refuses cursor.now cursor.now result }
{
    let message = format!(in cursor.alloc(); "`{prefix}` is not allowed after `~`");
    reported(cursor, message)
}

const TOO_COMPLEX: &str = "The expression is too complex";

/// That more expressions or links are open than may be.
pub fn too_complex(cursor: &Cursor<'_>) -> Error
    ensures { Refuses cursor.now cursor.now result }
{
    fault(cursor, TOO_COMPLEX)
}

/// That the `not` of a `not in` is where no link may come; it is taken.
#[tactic(auto, using(tera_expect::proofs::TakingLemmas::refused_after))]
pub(crate) fn uncounted_not(cursor: &mut Cursor<'_>) -> Error
    ensures refusal { Refuses cursor.old cursor.new result }
    ensures takes { begins Not cursor.old.left ≡ true →
        IsMemory result ⊎ TookFirst cursor.old.left cursor.new.left }
{
    match expect(cursor, Fixed::Not) {
        Ok(()) => too_complex(cursor),
        Err(error) => error,
    }
}

/// That more subscripts are open than may be, which are so many.
pub(crate) fn too_many_subscripts(cursor: &Cursor<'_>, most: usize) -> Error
    ensures { Refuses cursor.now cursor.now result }
{
    let message = format!(in cursor.alloc();
        "Identifiers can only have up to {most} nested brackets."
    );
    reported(cursor, message)
}

/// That more arrays are open than may be, which are so many.
pub(crate) fn too_many_arrays(cursor: &Cursor<'_>, most: usize) -> Error
    ensures { Refuses cursor.now cursor.now result }
{
    let message = format!(in cursor.alloc(); "Arrays can have a maximum of {most} dimensions.");
    reported(cursor, message)
}

/// That an argument of this name, which was taken last, was defined before, where the names say.
pub(crate) fn repeated_argument(cursor: &Cursor<'_>, name: &str, names: &[(&str, Span)]) -> Error
    ensures { (start : Position) (before : Items) → GoesOn start cursor.now →
        AreKept names.now before start.left →
        Comes (name_in name.now cursor.now.span) cursor.now.left before →
        Refuses start cursor.now result }
{
    let message = format!(in cursor.alloc(); "Keyword argument `{name}` is defined more than once");
    let error = reported(cursor, message);
    for (known, span) in names {
        if *known == name {
            return first_defined(error, span);
        }
    }
    error
}

/// That a token, which is at the span, is not a key of a map.
pub(crate) fn no_key(alloc: Global, token: &Token<'_>, span: &Span) -> Error
    ensures reports { ReportsAt span.now result }
    ensures notes { HasNoNotes result }
{
    let message = format!(in alloc;
        "Found {token} but expected `...`, a string, an integer or a bool."
    );
    Error::reported(alloc, message, span)
}

/// That a name, which was taken last, is reserved; `purpose` ends the sentence.
pub(crate) fn reserved(cursor: &Cursor<'_>, name: &str, purpose: &str) -> Error
    ensures { Refuses cursor.now cursor.now result }
{
    let message = format!(in cursor.alloc();
        "{name} is a reserved keyword of Tera, it cannot be {purpose}"
    );
    reported(cursor, message)
}

/// That no name comes after the `<` of a component, which was taken last.
pub fn no_component_name(cursor: &Cursor<'_>) -> Error
    ensures { Refuses cursor.now cursor.now result }
{
    fault(
        cursor,
        "Found `<` but expected identifier after it for component call. Use `<` for comparisons in proper context.",
    )
}

/// That a token, which was taken, is not a value of an attribute.
pub(crate) fn no_attribute_value(cursor: &Cursor<'_>, token: &Token<'_>) -> Error
    ensures { Refuses cursor.now cursor.now result }
{
    let message = format!(in cursor.alloc();
        "Expected \"string\" or {{expression}} but found {token}"
    );
    reported(cursor, message)
}

/// That a token, which comes next, does not end a component; it is reported at the token before.
pub(crate) fn unclosed_component(cursor: &Cursor<'_>, token: &Token<'_>) -> Error
    ensures { Refuses cursor.now cursor.now result }
{
    let message = format!(in cursor.alloc(); "Found {token} but expected `/` or `>`");
    reported(cursor, message)
}

/// That a component in an expression has a body; its `>` was taken last.
pub(crate) fn component_with_body(cursor: &Cursor<'_>) -> Error
    ensures { Refuses cursor.now cursor.now result }
{
    fault(
        cursor,
        "Components with body content must use tag syntax: {% <component()> %}...{% </component> %}",
    )
}

/// A fault from the token at the span to the token taken last, whose text was made.
pub fn reported_from(
    cursor: &Cursor<'_>,
    first: &Span,
    message: Result<String, AllocError>,
) -> Error
    requires { IsWithin cursor.now.source first.now }
    ensures reports { ReportsBy (λ text span. RunsFrom first.now cursor.now span) result }
    ensures notes { HasNoNotes result }
{
    Error::reported(cursor.alloc(), message, &up_to_last(cursor, first))
}

/// From the start of a span to the end of the token taken last.
pub fn up_to_last(cursor: &Cursor<'_>, first: &Span) -> Span
    ensures within { IsWithin cursor.now.source first.now → IsWithin cursor.now.source result }
    ensures starts { BeginsWith first.now result }
    ensures ends { EndsWith first.now result ⊎ EndsWith cursor.now.span result }
    ensures reaches { cursor.now.span.range.end ≤ result.range.end }
{
    let last = cursor.current_span();
    let mut span = first.copied();
    if span.range.end <= last.range.end {
        span.expand(last);
    }
    span
}

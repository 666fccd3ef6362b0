//! Arrays and comprehensions.

ghost use Rattle.std.specs.Prelude.{◌≡◌, IfErr, IfOk};
ghost use Rattle.tera_ast.specs.View.{expression_view};
ghost use Rattle.tera_grammar.specs.expressions.Concrete.{Element, Tree, of_items};
ghost use Rattle.tera_grammar.specs.expressions.Marks.{RightBracket};
ghost use Rattle.tera_grammar.specs.expressions.Output.{output};
ghost use Rattle.tera_grammar.specs.expressions.Reading.Atoms.{array_of, comprehension_of, items_from};
ghost use Rattle.tera_grammar.specs.expressions.Reading.Front.{at, takes};
ghost use Rattle.tera_grammar.specs.expressions.Reading.Bracketed.{element_of, extra_of};
ghost use Rattle.tera_grammar.specs.expressions.Stack.{HeadGives};
ghost use Rattle.tera_expr_reader.specs.Elements.{IsExtra, IsItem};
ghost use Rattle.tera_expr_parts.specs.Literals.{MayBeNegated};
ghost use Rattle.tera_expr_parts.specs.Rooms.{room_of};
ghost use Rattle.tera_expr_parts.specs.CommaLists.{reader_of};
ghost use Rattle.tera_expect.specs.Taking.{GivesAs, GivesAt, GoesOn, Refuses, Took, mark_of, place_at};

use crate::faults::second_for;
use crate::rows::value;
use tera_base::{Error, Span};
use tera_expect::{Fixed, eat, expect};
use tera_expr_parts::{Values, array_or_constant, more, spanning, variables};
use tera_lexer::Cursor;
use tera_tree::{ArrayEntry, Expression, build};

/// An array or a comprehension, after its bracket, which is at the span and was taken last.
#[cycle(reader)]
#[tactic(auto, using(tera_expect::proofs::TakingLemmas::after_tokens, crate::proofs::ArraysLemmas::array_negatable))]
pub(crate) fn array(
    cursor: &mut Cursor<'_>,
    links: &mut usize,
    values: Values,
    first: &Span,
) -> Result<Expression, Error>
    ensures gives { HeadGives expression_view values.room.scope.in_loop result cursor.new.span
        (at links.new cursor.new.left)
        (array_of (reader_of values) (room_of values.room) first.now
        (at links.old cursor.old.left)) }
    ensures negatable { IfOk result (λ e. MayBeNegated (expression_view e)) }
    ensures refusal { IfErr result (Refuses cursor.old cursor.new) }
    ensures later { IfOk result (λ _. Took cursor.old cursor.new) }
{
    let alloc = cursor.alloc();
    let room = values.room.in_array(cursor)?;
    let inside = Values { room, ..values };
    if eat(cursor, Fixed::RightBracket) {
        let span = spanning(first, cursor.current_span());
        return Ok(array_or_constant(alloc, Vec::new(alloc), span)?);
    }
    if eat(cursor, Fixed::Spread) {
        let spread = value(cursor, links, inside, 0)?;
        let spread = ArrayEntry::Spread(spread);
        return items(cursor, links, inside, first, spread);
    }
    let element = value(cursor, links, inside, 0)?;
    if eat(cursor, Fixed::For) {
        return comprehension(cursor, links, values, first, element);
    }
    let element = ArrayEntry::Item(element);
    items(cursor, links, inside, first, element)
}

// The items after the first one of an array, whose bracket is at the span.
#[cycle(reader)]
#[tactic(auto, using(tera_expect::proofs::TakingLemmas::after_tokens, crate::proofs::ArraysLemmas::array_negatable))]
fn items(
    cursor: &mut Cursor<'_>,
    links: &mut usize,
    values: Values,
    first: &Span,
    element: ArrayEntry,
) -> Result<Expression, Error>
    ensures gives { (x : Element) → IsItem values.room.scope.in_loop element x →
        HeadGives expression_view values.room.scope.in_loop result cursor.new.span
        (at links.new cursor.new.left) (items_from (reader_of values)
        (room_of values.room) first.now x (at links.old cursor.old.left)) }
    ensures negatable { IfOk result (λ e. MayBeNegated (expression_view e)) }
    ensures refusal { IfErr result (Refuses cursor.old cursor.new) }
    ensures later { IfOk result (λ _. Took cursor.old cursor.new) }
{
    let alloc = cursor.alloc();
    let mut items = Vec::new(alloc);
    items.push(element)?;
    let mut open = more(cursor, Fixed::RightBracket)?;
    'elements: while open {
        let element = item(cursor, links, values)?;
        items.push(element)?;
        open = more(cursor, Fixed::RightBracket)?;
    }
    let span = spanning(first, cursor.current_span());
    Ok(array_or_constant(alloc, items, span)?)
}

// An item of an array, or a spread.
#[cycle(reader)]
#[tactic(auto, using(tera_expect::proofs::TakingLemmas::after_tokens))]
fn item(cursor: &mut Cursor<'_>, links: &mut usize, values: Values) -> Result<ArrayEntry, Error>
    ensures gives { GivesAt (IsItem values.room.scope.in_loop) result (at links.new cursor.new.left)
        (element_of (reader_of values)
        (room_of values.room) of_items (at links.old cursor.old.left)) }
    ensures refusal { IfErr result (Refuses cursor.old cursor.new) }
    ensures later { IfOk result (λ _. Took cursor.old cursor.new) }
{
    if eat(cursor, Fixed::Spread) {
        let spread = value(cursor, links, values, 0)?;
        return Ok(ArrayEntry::Spread(spread));
    }
    let element = value(cursor, links, values, 0)?;
    Ok(ArrayEntry::Item(element))
}

// A comprehension after its `for`, which was taken last; its bracket is at the span.
#[cycle(reader)]
#[tactic(auto, using(tera_expect::proofs::TakingLemmas::on_the_way, crate::proofs::ArraysLemmas::comprehension_negatable))]
fn comprehension(
    cursor: &mut Cursor<'_>,
    links: &mut usize,
    values: Values,
    first: &Span,
    element: Expression,
) -> Result<Expression, Error>
    ensures gives { (t : Tree) → expression_view element ≡ output values.room.scope.in_loop t →
        HeadGives expression_view values.room.scope.in_loop result cursor.new.span
        (at links.new cursor.new.left) (comprehension_of (reader_of values)
        (room_of values.room) first.now t cursor.old.span (at links.old cursor.old.left)) }
    ensures negatable { IfOk result (λ e. MayBeNegated (expression_view e)) }
    ensures refusal { IfErr result (Refuses cursor.old cursor.new) }
    ensures later { IfOk result (λ _. Took cursor.old cursor.new) }
{
    let named = variables(cursor, "used as a list comprehension variable.")?;
    expect(cursor, Fixed::In)?;
    let target = value(cursor, links, values, 1)?;
    let condition = extra(cursor, links, values, Fixed::If, 1)?;
    close_comprehension(cursor)?;
    let span = spanning(first, cursor.current_span());
    let (key, variable) = named;
    Ok(build::comprehension(
        cursor.alloc(),
        element,
        key,
        variable,
        target,
        condition,
        span,
    )?)
}

/// An expression after a token of its own, at a least power, where that token is.
#[cycle(reader)]
#[tactic(auto, using(tera_expect::proofs::TakingLemmas::on_the_way))]
pub(crate) fn extra(
    cursor: &mut Cursor<'_>,
    links: &mut usize,
    values: Values,
    before: Fixed,
    least: u8,
) -> Result<Option<Expression>, Error>
    ensures gives { GivesAt
        (IsExtra values.room.scope.in_loop) result (at links.new cursor.new.left)
        (extra_of (reader_of values) (room_of values.room)
        (mark_of before) least (at links.old cursor.old.left)) }
    ensures refusal { IfErr result (Refuses cursor.old cursor.new) }
    ensures later { IfOk result (λ _. GoesOn cursor.old cursor.new) }
{
    if eat(cursor, before) {
        Ok(Some(value(cursor, links, values, least)?))
    } else {
        Ok(None)
    }
}

// The bracket after a comprehension.
#[tactic(auto, using(tera_expect::proofs::TakingLemmas::refused_after))]
fn close_comprehension(cursor: &mut Cursor<'_>) -> Result<(), Error>
    ensures gives { GivesAs (place_at cursor.new.span) result cursor.new.left
        (takes RightBracket cursor.old.left) }
    ensures refusal { IfErr result (Refuses cursor.old cursor.new) }
    ensures later { IfOk result (λ _. Took cursor.old cursor.new) }
{
    if eat(cursor, Fixed::For) {
        return Err(second_for(cursor));
    }
    expect(cursor, Fixed::RightBracket)
}

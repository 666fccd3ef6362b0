//! Subscripts.

ghost use Rattle.std.specs.Prelude.{◌≡◌, IfErr, IfOk};
ghost use Rattle.tera_base.specs.declared.utils.Span.{Span};
ghost use Rattle.tera_ast.specs.View.{expression_view};
ghost use Rattle.tera_grammar.specs.expressions.Concrete.{Part};
ghost use Rattle.tera_grammar.specs.expressions.Marks.{Colon};
ghost use Rattle.tera_grammar.specs.expressions.Reading.Front.{at};
ghost use Rattle.tera_grammar.specs.expressions.Reading.Bracketed.{extra_of, part_of, slice_of, sub_of};
ghost use Rattle.tera_grammar.specs.expressions.Reading.Loop.{expr};
ghost use Rattle.tera_expr_reader.specs.Chains.{IsPart, IsSubscript, subscripted};
ghost use Rattle.tera_expr_reader.specs.Elements.{IsExtra};
ghost use Rattle.tera_expr_parts.specs.Rooms.{room_of};
ghost use Rattle.tera_expect.specs.Taking.{GivesAt, GoesOn, Refuses, Took};

use crate::stack::expression;
use std::alloc::{AllocError, Global};
use tera_base::{Error, Span};
use tera_expect::{Fixed, begins, eat, expect};
use tera_expr_parts::Room;
use tera_lexer::Cursor;
use tera_tree::{Expression, build};

/// What is between the brackets of a subscript.
#[derive(Drop)]
pub(crate) enum Subscript {
    Index(Expression),
    Slice {
        start: Option<Expression>,
        end: Option<Expression>,
        step: Option<Expression>,
    },
}

/// Reads what is in a subscript, whose opening bracket was taken last, up to the closing one.
#[cycle(reader)]
#[tactic(auto, unfolding(crate::specs::Unfold::sub_of), using(tera_expect::proofs::TakingLemmas::after_tokens))]
pub(crate) fn read_subscript(
    cursor: &mut Cursor<'_>,
    links: &mut usize,
    room: Room,
    depth: usize,
) -> Result<Subscript, Error>
    ensures gives { GivesAt (IsSubscript room.scope.in_loop cursor.new.span) result
        (at links.new cursor.new.left)
        (sub_of (expr depth) (room_of room) (at links.old cursor.old.left)) }
    ensures refusal { IfErr result (Refuses cursor.old cursor.new) }
    ensures later { IfOk result (λ _. Took cursor.old cursor.new) }
{
    let inside = room.in_subscript(cursor)?;
    if eat(cursor, Fixed::Colon) {
        return slice(cursor, links, inside, depth, None);
    }
    let first = expression(cursor, links, inside, depth, 0)?;
    if eat(cursor, Fixed::Colon) {
        return slice(cursor, links, inside, depth, Some(first));
    }
    expect(cursor, Fixed::RightBracket)?;
    Ok(Subscript::Index(first))
}

// The end and the step of a slice, whose first colon was taken.
#[cycle(reader)]
#[tactic(auto, using(tera_expect::proofs::TakingLemmas::on_the_way))]
fn slice(
    cursor: &mut Cursor<'_>,
    links: &mut usize,
    room: Room,
    depth: usize,
    start: Option<Expression>,
) -> Result<Subscript, Error>
    ensures gives { (a : Part) (s : Span) → IsPart room.scope.in_loop start a →
        GivesAt (IsSubscript room.scope.in_loop cursor.new.span) result (at links.new
        cursor.new.left) (slice_of (expr depth) (room_of room) a s (at links.old cursor.old.left)) }
    ensures refusal { IfErr result (Refuses cursor.old cursor.new) }
    ensures later { IfOk result (λ _. Took cursor.old cursor.new) }
{
    let end = end(cursor, links, room, depth)?;
    let step = step(cursor, links, room, depth)?;
    expect(cursor, Fixed::RightBracket)?;
    Ok(Subscript::Slice { start, end, step })
}

// The end of a slice, which may be left out.
#[cycle(reader)]
#[tactic(auto, unfolding(crate::specs::Unfold::part_of, crate::specs::Unfold::skip), using(tera_expect::proofs::TakingLemmas::on_the_way))]
fn end(
    cursor: &mut Cursor<'_>,
    links: &mut usize,
    room: Room,
    depth: usize,
) -> Result<Option<Expression>, Error>
    ensures gives { GivesAt (IsPart room.scope.in_loop) result (at links.new cursor.new.left)
        (part_of (expr depth) (room_of room) (at links.old cursor.old.left)) }
    ensures refusal { IfErr result (Refuses cursor.old cursor.new) }
    ensures later { IfOk result (λ _. GoesOn cursor.old cursor.new) }
{
    if begins(cursor, Fixed::Colon) || begins(cursor, Fixed::RightBracket) {
        return Ok(None);
    }
    Ok(Some(expression(cursor, links, room, depth, 0)?))
}

// The step of a slice after a second colon, if it has one.
#[cycle(reader)]
#[tactic(auto, unfolding(crate::specs::Unfold::extra_of, crate::specs::Unfold::skip), using(tera_expect::proofs::TakingLemmas::on_the_way))]
fn step(
    cursor: &mut Cursor<'_>,
    links: &mut usize,
    room: Room,
    depth: usize,
) -> Result<Option<Expression>, Error>
    ensures gives { GivesAt (IsExtra room.scope.in_loop) result (at links.new cursor.new.left)
        (extra_of (expr depth) (room_of room) Colon 0 (at links.old cursor.old.left)) }
    ensures refusal { IfErr result (Refuses cursor.old cursor.new) }
    ensures later { IfOk result (λ _. GoesOn cursor.old cursor.new) }
{
    if !eat(cursor, Fixed::Colon) {
        return Ok(None);
    }
    Ok(Some(expression(cursor, links, room, depth, 0)?))
}

/// An operand with a subscript, up to the bracket at the span.
pub(crate) fn with_subscript(
    alloc: Global,
    operand: Expression,
    subscript: Subscript,
    optional: bool,
    last: &Span,
) -> Result<Expression, AllocError>
    ensures { IfOk result (λ e.
        expression_view e ≡ subscripted subscript optional (expression_view operand) last.now) }
{
    let mut span = operand.span().copied();
    span.expand(last);
    match subscript {
        Subscript::Index(index) => build::get_item(alloc, operand, index, optional, span),
        Subscript::Slice { start, end, step } => {
            build::slice(alloc, operand, start, end, step, optional, span)
        }
    }
}

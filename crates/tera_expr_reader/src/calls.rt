//! Names with arguments: tests and filters.

ghost use Rattle.std.specs.Prelude.{IfErr, IfOk};
ghost use Rattle.tera_ast.specs.View.{expression_view};
ghost use Rattle.tera_grammar.specs.expressions.Reading.Front.{at, ends_test};
ghost use Rattle.tera_grammar.specs.expressions.Reading.Bracketed.{args_of};
ghost use Rattle.tera_grammar.specs.expressions.Reading.Loop.{expr, suffix_in};
ghost use Rattle.tera_grammar.specs.expressions.Stack.{SuffixGives};
ghost use Rattle.tera_expr_reader.specs.Calls.{AreArgs, IsCall, IsFilter, call_of};
ghost use Rattle.tera_expr_parts.specs.Fronts.{ending_of};
ghost use Rattle.tera_expr_parts.specs.Rooms.{room_of};
ghost use Rattle.tera_expr_parts.specs.CommaLists.{reader_of};
ghost use Rattle.tera_expect.specs.Taking.{GivesAt, GoesOn, Refuses, Took};

use crate::arguments::arguments;
use crate::subscripts::{read_subscript, with_subscript};
use std::collections::BTreeMap;
use tera_base::{Error, Span};
use tera_expect::{Fixed, eat, name};
use tera_expr_parts::{Ending, Room, Values, negation};
use tera_lexer::Cursor;
use tera_tree::{Expression, build};

/// A name with its arguments, and where both are.
#[derive(Drop)]
pub(crate) struct Call {
    pub name: String,
    pub kwargs: BTreeMap<String, Expression>,
    pub span: Span,
}

/// Reads a test, a filter or a subscript of an operand that begins at `start`, after its first token, which was taken
/// last; its link is counted.
#[cycle(reader)]
#[tactic(auto, unfolding(crate::specs::Unfold::suffix_in), using(tera_expect::proofs::TakingLemmas::after_tokens))]
pub(crate) fn suffix(
    cursor: &mut Cursor<'_>,
    links: &mut usize,
    room: Room,
    depth: usize,
    ending: Ending,
    left: Expression,
    start: &Span,
) -> Result<Expression, Error>
    ensures gives { SuffixGives expression_view room.scope.in_loop
        (expression_view left, start.now) result cursor.new.span (at links.new cursor.new.left)
        (suffix_in (expr depth) (room_of room) (ending_of ending cursor.old.span)
        (at links.old cursor.old.left)) }
    ensures refusal { IfErr result (Refuses cursor.old cursor.new) }
    ensures later { IfOk result (λ _. Took cursor.old cursor.new) }
{
    let values = Values {
        room,
        depth,
        own: None,
    };
    match ending {
        Ending::Test => test(cursor, links, values, left, start),
        Ending::Filter => filter_with(cursor, links, values, left),
        Ending::Subscript => {
            let item = read_subscript(cursor, links, room, depth)?;
            let last = cursor.current_span();
            Ok(with_subscript(cursor.alloc(), left, item, false, last)?)
        }
    }
}

// A test of an operand that begins at `start`, whose `is` was taken last.
#[cycle(reader)]
#[tactic(auto, using(tera_expect::proofs::TakingLemmas::after_tokens))]
fn test(
    cursor: &mut Cursor<'_>,
    links: &mut usize,
    values: Values,
    left: Expression,
    start: &Span,
) -> Result<Expression, Error>
    ensures gives { SuffixGives expression_view values.room.scope.in_loop
        (expression_view left, start.now) result cursor.new.span (at links.new cursor.new.left)
        (suffix_in (reader_of values) (room_of values.room)
        (ends_test cursor.old.span) (at links.old cursor.old.left)) }
    ensures refusal { IfErr result (Refuses cursor.old cursor.new) }
    ensures later { IfOk result (λ _. Took cursor.old cursor.new) }
{
    let alloc = cursor.alloc();
    let negated = eat(cursor, Fixed::Not);
    let call = read_call(cursor, links, values)?;
    let test = build::test(alloc, left, call.name, call.kwargs, call.span)?;
    if !negated {
        return Ok(test);
    }
    Ok(negation(alloc, test, start, cursor.current_span())?)
}

/// A filter of an expression, whose name comes next.
#[cycle(reader)]
#[tactic(auto, using(tera_expect::proofs::TakingLemmas::after_tokens))]
pub(crate) fn filter_with(
    cursor: &mut Cursor<'_>,
    links: &mut usize,
    values: Values,
    left: Expression,
) -> Result<Expression, Error>
    ensures gives { GivesAt
        (IsFilter values.room.scope.in_loop (expression_view left) cursor.new.span) result
        (at links.new cursor.new.left)
        (call_of (reader_of values) (room_of values.room) (at links.old cursor.old.left)) }
    ensures refusal { IfErr result (Refuses cursor.old cursor.new) }
    ensures later { IfOk result (λ _. Took cursor.old cursor.new) }
{
    let call = read_call(cursor, links, values)?;
    Ok(build::filter(cursor.alloc(), left, call.name, call.kwargs, call.span)?)
}

// A name with its arguments, if it has some.
#[cycle(reader)]
#[tactic(auto, using(tera_expect::proofs::TakingLemmas::on_the_way))]
fn read_call(cursor: &mut Cursor<'_>, links: &mut usize, values: Values) -> Result<Call, Error>
    ensures gives { GivesAt
        (IsCall values.room.scope.in_loop cursor.new.span) result (at links.new cursor.new.left)
        (call_of (reader_of values) (room_of values.room) (at links.old cursor.old.left)) }
    ensures refusal { IfErr result (Refuses cursor.old cursor.new) }
    ensures later { IfOk result (λ _. Took cursor.old cursor.new) }
{
    let name = name(cursor)?;
    let mut span = cursor.current_span().copied();
    let name = String::from_str(cursor.alloc(), name)?;
    let kwargs = maybe_arguments(cursor, links, values)?;
    span.expand(cursor.current_span());
    Ok(Call { name, kwargs, span })
}

// The arguments after a name, which was taken last, if it has some.
#[cycle(reader)]
#[tactic(auto, using(tera_expect::proofs::TakingLemmas::on_the_way))]
fn maybe_arguments(
    cursor: &mut Cursor<'_>,
    links: &mut usize,
    values: Values,
) -> Result<BTreeMap<String, Expression>, Error>
    ensures gives { GivesAt (AreArgs values.room.scope.in_loop cursor.old.span cursor.new.span)
        result (at links.new cursor.new.left)
        (args_of (reader_of values) (room_of values.room) (at links.old cursor.old.left)) }
    ensures refusal { IfErr result (Refuses cursor.old cursor.new) }
    ensures later { IfOk result (λ _. GoesOn cursor.old cursor.new) }
{
    if !eat(cursor, Fixed::LeftParen) {
        return Ok(BTreeMap::new(cursor.alloc()));
    }
    arguments(cursor, links, values)
}

//! Maps.

ghost use Rattle.std.specs.Prelude.{IfErr, IfOk};
ghost use Rattle.tera_ast.specs.View.{expression_view};
ghost use Rattle.tera_grammar.specs.expressions.Concrete.{of_entries};
ghost use Rattle.tera_grammar.specs.expressions.Reading.Atoms.{map_of};
ghost use Rattle.tera_grammar.specs.expressions.Reading.Front.{at};
ghost use Rattle.tera_grammar.specs.expressions.Reading.Bracketed.{element_of};
ghost use Rattle.tera_grammar.specs.expressions.Stack.{HeadGives};
ghost use Rattle.tera_expr_reader.specs.Elements.{IsEntry};
ghost use Rattle.tera_expr_parts.specs.Literals.{MayBeNegated};
ghost use Rattle.tera_expr_parts.specs.Rooms.{room_of};
ghost use Rattle.tera_expr_parts.specs.CommaLists.{reader_of};
ghost use Rattle.tera_expect.specs.Taking.{GivesAt, Refuses, Took};

use crate::rows::value;
use tera_base::{Error, Span};
use tera_expect::{Fixed, eat, expect};
use tera_expr_parts::{Values, key, map_or_constant, more, spanning};
use tera_lexer::Cursor;
use tera_tree::{Expression, MapEntry};

/// A map, after its brace, which is at the span and was taken last.
#[cycle(reader)]
#[tactic(auto, using(tera_expect::proofs::TakingLemmas::on_the_way))]
pub(crate) fn map(
    cursor: &mut Cursor<'_>,
    links: &mut usize,
    values: Values,
    first: &Span,
) -> Result<Expression, Error>
    ensures gives { HeadGives expression_view values.room.scope.in_loop result cursor.new.span
        (at links.new cursor.new.left)
        (map_of (reader_of values) (room_of values.room) first.now (at links.old cursor.old.left)) }
    ensures negatable { IfOk result (λ e. MayBeNegated (expression_view e)) }
    ensures refusal { IfErr result (Refuses cursor.old cursor.new) }
    ensures later { IfOk result (λ _. Took cursor.old cursor.new) }
{
    let alloc = cursor.alloc();
    let mut entries = Vec::new(alloc);
    let mut open = !eat(cursor, Fixed::RightBrace);
    'elements: while open {
        let entry = entry(cursor, links, values)?;
        entries.push(entry)?;
        open = more(cursor, Fixed::RightBrace)?;
    }
    let span = spanning(first, cursor.current_span());
    map_or_constant(alloc, entries, span)
}

// A pair of a key and a value, or a spread.
#[cycle(reader)]
#[tactic(auto, using(tera_expect::proofs::TakingLemmas::after_tokens))]
fn entry(cursor: &mut Cursor<'_>, links: &mut usize, values: Values) -> Result<MapEntry, Error>
    ensures gives { GivesAt
        (IsEntry values.room.scope.in_loop) result (at links.new cursor.new.left)
        (element_of (reader_of values) (room_of values.room) of_entries
        (at links.old cursor.old.left)) }
    ensures refusal { IfErr result (Refuses cursor.old cursor.new) }
    ensures later { IfOk result (λ _. Took cursor.old cursor.new) }
{
    if eat(cursor, Fixed::Spread) {
        let spread = value(cursor, links, values, 0)?;
        return Ok(MapEntry::Spread(spread));
    }
    let key = key(cursor)?;
    expect(cursor, Fixed::Colon)?;
    let value = value(cursor, links, values, 0)?;
    Ok(MapEntry::KeyValue { key, value })
}

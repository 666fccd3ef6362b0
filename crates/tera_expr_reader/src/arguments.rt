//! Arguments.

ghost use Rattle.std.specs.Prelude.{IfErr, IfOk};
ghost use Rattle.tera_grammar.specs.expressions.Reading.Front.{at};
ghost use Rattle.tera_grammar.specs.expressions.Reading.Bracketed.{arguments_of};
ghost use Rattle.tera_expr_parts.specs.Rooms.{room_of};
ghost use Rattle.tera_expr_reader.specs.Calls.{AreArguments};
ghost use Rattle.tera_expr_parts.specs.CommaLists.{reader_of};
ghost use Rattle.tera_expect.specs.Taking.{GivesAt, Refuses, Took};

use crate::rows::value;
use std::collections::BTreeMap;
use tera_base::Error;
use tera_expect::{Fixed, eat, expect, name};
use tera_expr_parts::{Values, argument_name, more, put_argument};
use tera_lexer::Cursor;
use tera_tree::Expression;

/// Arguments, whose opening parenthesis was taken.
#[cycle(reader)]
#[tactic(auto, using(tera_expect::proofs::TakingLemmas::on_the_way))]
pub(crate) fn arguments(
    cursor: &mut Cursor<'_>,
    links: &mut usize,
    values: Values,
) -> Result<BTreeMap<String, Expression>, Error>
    ensures gives { GivesAt (AreArguments values.room.scope.in_loop cursor.new.span) result
        (at links.new cursor.new.left)
        (arguments_of (reader_of values) (room_of values.room) (at links.old cursor.old.left)) }
    ensures refusal { IfErr result (Refuses cursor.old cursor.new) }
    ensures later { IfOk result (λ _. Took cursor.old cursor.new) }
{
    let alloc = cursor.alloc();
    let mut arguments = BTreeMap::new(alloc);
    let mut names = Vec::new(alloc);
    let mut open = !eat(cursor, Fixed::RightParen);
    'elements: while open {
        let name = argument_name(cursor, &arguments, &mut names)?;
        expect(cursor, Fixed::Assign)?;
        let value = value(cursor, links, values, 0)?;
        put_argument(alloc, &mut arguments, name, value)?;
        open = more(cursor, Fixed::RightParen)?;
    }
    Ok(arguments)
}

//! What is between brackets, parted by commas.

ghost use Rattle.std.specs.Prelude.{IfErr, IfOk};
ghost use Rattle.tera_ast.specs.View.{expression_view};
ghost use Rattle.tera_grammar.specs.expressions.Reading.Front.{at};
ghost use Rattle.tera_grammar.specs.expressions.Stack.{Gives};
ghost use Rattle.tera_expr_parts.specs.Rooms.{room_of};
ghost use Rattle.tera_expr_parts.specs.CommaLists.{reader_of};
ghost use Rattle.tera_expect.specs.Taking.{Refuses, Took};

use crate::stack::expression;
use tera_base::Error;
use tera_expr_parts::Values;
use tera_lexer::Cursor;
use tera_tree::Expression;

/// One value of a row, at a least power.
#[cycle(reader)]
pub(crate) fn value(
    cursor: &mut Cursor<'_>,
    links: &mut usize,
    values: Values,
    least: u8,
) -> Result<Expression, Error>
    ensures gives { Gives expression_view values.room.scope.in_loop result
        (at links.new cursor.new.left)
        (reader_of values (room_of values.room) least (at links.old cursor.old.left)) }
    ensures refusal { IfErr result (Refuses cursor.old cursor.new) }
    ensures later { IfOk result (λ _. Took cursor.old cursor.new) }
{
    match values.own {
        Some(all) => {
            let mut own = all;
            expression(cursor, &mut own, values.room, values.depth, least)
        }
        None => expression(cursor, links, values.room, values.depth, least),
    }
}

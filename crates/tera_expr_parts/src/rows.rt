//! What is between brackets, parted by commas.

ghost use Rattle.std.specs.Prelude.{IfErr, IfOk};
ghost use Rattle.tera_expr_parts.specs.Rooms.{room_of};
ghost use Rattle.tera_expr_parts.specs.CommaLists.{Continues, reader_of};
ghost use Rattle.tera_expect.specs.Taking.{Refuses, Took, mark_of};

use crate::limits::{Room, Scope};
use tera_base::Error;
use tera_expect::{Fixed, eat, expect};
use tera_lexer::Cursor;

/// What the values of a row are read within.
#[derive(Clone, Copy)]
pub struct Values {
    /// The room of each value.
    pub room: Room,
    /// How many expressions may be open inside.
    pub depth: usize,
    /// The links of each value, where it has its own.
    pub own: Option<usize>,
}

impl Values {
    ghost use Rattle.std.specs.Prelude.{◌≡◌};
    ghost use Rattle.tera_grammar.specs.expressions.Reading.Whole.{outermost, widest};
    ghost use Rattle.tera_expr_parts.specs.Allowed.{limits_of};

    /// The values of an outermost row, each with all that may come.
    pub fn outermost(scope: Scope) -> Values
        ensures reader { reader_of result ≡ outermost (limits_of scope.limits) }
        ensures room { room_of result.room ≡ widest (limits_of scope.limits) scope.in_loop }
        ensures scope { result.room.scope ≡ scope }
    {
        Values {
            room: Room::widest(scope),
            depth: scope.limits.depth,
            own: Some(scope.limits.links),
        }
    }
}

/// After an element of a row: whether another one is there, after a comma, or else the end of the row is taken.
#[tactic(auto, using(tera_expect::proofs::TakingLemmas::on_the_way))]
pub fn more(cursor: &mut Cursor<'_>, end: Fixed) -> Result<bool, Error>
    ensures gives { Continues (mark_of end) cursor.old.left cursor.new result }
    ensures refusal { IfErr result (Refuses cursor.old cursor.new) }
    ensures later { IfOk result (λ _. Took cursor.old cursor.new) }
{
    if eat(cursor, end) {
        return Ok(false);
    }
    expect(cursor, Fixed::Comma)?;
    Ok(!eat(cursor, end))
}

//! The names of components.

ghost use Rattle.std.specs.Prelude.{IfErr, IfOk};
ghost use Rattle.tera_expr_parts.specs.Paths.{GivesPath};
ghost use Rattle.tera_expect.specs.Taking.{Refuses, Took};

use tera_base::Error;
use tera_expect::{Fixed, eat, name};
use tera_lexer::Cursor;

/// Reads names joined by dots.
#[tactic(auto, using(tera_expect::proofs::TakingLemmas::after_tokens))]
pub fn dotted_name(cursor: &mut Cursor<'_>) -> Result<String, Error>
    ensures gives { GivesPath cursor.old.left result cursor.new.left }
    ensures refusal { IfErr result (Refuses cursor.old cursor.new) }
    ensures later { IfOk result (λ _. Took cursor.old cursor.new) }
{
    let first = name(cursor)?;
    let mut text = String::from_str(cursor.alloc(), first)?;
    'names: while eat(cursor, Fixed::Dot) {
        let part = name(cursor)?;
        text.push('.')?;
        text.push_str(part)?;
    }
    Ok(text)
}

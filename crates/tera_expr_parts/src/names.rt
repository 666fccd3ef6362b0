//! The names of variables.

ghost use Rattle.std.specs.Prelude.{ℕ, IfErr, IfOk};
ghost use Rattle.tera_grammar.specs.expressions.Reading.Atoms.{variables_of};
ghost use Rattle.tera_grammar.specs.expressions.Reading.Front.{at};
ghost use Rattle.tera_grammar.specs.statements.Reading.Heads.{free_name};
ghost use Rattle.tera_expr_parts.specs.Names.{AreVariables};
ghost use Rattle.tera_expect.specs.Taking.{GivesAs, GivesAt, Refuses, Took, name_at};

use crate::faults::reserved;
use crate::words::is_reserved;
use tera_base::Error;
use tera_expect::{Fixed, eat, name};
use tera_lexer::Cursor;

/// A name that is not reserved; `purpose` ends the sentence that reports one that is.
#[tactic(auto, using(tera_expect::proofs::TakingLemmas::refused_after))]
pub fn free_name<'a>(cursor: &mut Cursor<'a>, purpose: &str) -> Result<&'a str, Error>
    ensures gives { GivesAs (name_at cursor.new.span) result cursor.new.left
        (free_name cursor.old.left) }
    ensures refusal { IfErr result (Refuses cursor.old cursor.new) }
    ensures later { IfOk result (λ _. Took cursor.old cursor.new) }
{
    let name = name(cursor)?;
    if is_reserved(name) {
        return Err(reserved(cursor, name, purpose));
    }
    Ok(name)
}

/// The variables of a loop or a comprehension: the name of the key, if any, and that of the value. What is reported for
/// a reserved name ends in the same way.
#[tactic(auto, using(tera_expect::proofs::TakingLemmas::after_tokens))]
pub fn variables(cursor: &mut Cursor<'_>, purpose: &str) -> Result<(Option<String>, String), Error>
    ensures gives { (i : ℕ) →
        GivesAt AreVariables result (at i cursor.new.left) (variables_of (at i cursor.old.left)) }
    ensures refusal { IfErr result (Refuses cursor.old cursor.new) }
    ensures later { IfOk result (λ _. Took cursor.old cursor.new) }
{
    let alloc = cursor.alloc();
    let first = free_name(cursor, purpose)?;
    if eat(cursor, Fixed::Comma) {
        let second = free_name(cursor, purpose)?;
        let key = String::from_str(alloc, first)?;
        return Ok((Some(key), String::from_str(alloc, second)?));
    }
    Ok((None, String::from_str(alloc, first)?))
}

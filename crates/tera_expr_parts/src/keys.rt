//! The keys of maps.

ghost use Rattle.std.specs.Prelude.{IfErr, IfOk};
ghost use Rattle.tera_expr_parts.specs.Keys.{GivesKey, taken_literal};
ghost use Rattle.tera_expect.specs.Taking.{Refuses, Took};

use crate::faults::no_key;
use tera_base::{Error, Key};
use tera_lexer::{Cursor, Token};

/// The key of a pair.
#[tactic(auto, unfolding(tera_expect::specs::Taking::Took), using(tera_expect::proofs::TakingLemmas::untaken_refused, tera_expect::proofs::TakingLemmas::token_refused, tera_expect::proofs::TakingLemmas::memory_refused))]
pub fn key(cursor: &mut Cursor<'_>) -> Result<Key, Error>
    ensures gives { GivesKey result cursor.new.span cursor.new.left
        (taken_literal cursor.old.left) }
    ensures refusal { IfErr result (Refuses cursor.old cursor.new) }
    ensures later { IfOk result (λ _. Took cursor.old cursor.new) }
{
    let alloc = cursor.alloc();
    let (token, span) = cursor.next_or_eoi()?;
    match token {
        Token::Str(text) => Ok(Key::String(String::from_str(alloc, text)?)),
        Token::String(text) => Ok(Key::String(text)),
        Token::Integer(n) => Ok(Key::I64(n)),
        Token::Bool(b) => Ok(Key::Bool(b)),
        token => Err(no_key(alloc, &token, &span)),
    }
}

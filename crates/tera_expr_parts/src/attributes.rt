//! The attributes of components, and the ends of their calls.

ghost use Rattle.std.specs.Prelude.{IfErr, IfOk};
ghost use Rattle.tera_grammar.specs.expressions.Reading.Front.{taken_quote};
ghost use Rattle.tera_expr_parts.specs.Attributes.{ClosesAt, GivesQuote, closed_at};
ghost use Rattle.tera_expect.specs.Taking.{Refuses, Took};

use crate::faults::{component_with_body, no_attribute_value, unclosed_component};
use crate::leaves;
use tera_base::Error;
use tera_expect::{Fixed, eat, expect, take};
use tera_lexer::{Cursor, Token};
use tera_tree::Expression;

/// A string that is the value of an attribute.
#[tactic(auto, using(tera_expect::proofs::TakingLemmas::after_tokens))]
pub fn quote(cursor: &mut Cursor<'_>) -> Result<Expression, Error>
    ensures gives { GivesQuote result cursor.new (taken_quote cursor.old.left) }
    ensures refusal { IfErr result (Refuses cursor.old cursor.new) }
    ensures later { IfOk result (λ _. Took cursor.old cursor.new) }
{
    let alloc = cursor.alloc();
    let (token, span) = take(cursor)?;
    match token {
        Token::Str(text) => Ok(leaves::text(alloc, text, span)?),
        Token::String(text) => Ok(leaves::string(alloc, text, span)?),
        token => Err(no_attribute_value(cursor, &token)),
    }
}

/// The end of a call of a component that closes itself.
#[tactic(auto, using(tera_expect::proofs::TakingLemmas::after_tokens))]
pub fn close_component(cursor: &mut Cursor<'_>) -> Result<(), Error>
    ensures gives { ClosesAt result cursor.new (closed_at cursor.old.left) }
    ensures refusal { IfErr result (Refuses cursor.old cursor.new) }
    ensures later { IfOk result (λ _. Took cursor.old cursor.new) }
{
    if eat(cursor, Fixed::Slash) {
        return expect(cursor, Fixed::GreaterThan);
    }
    if eat(cursor, Fixed::GreaterThan) {
        return Err(component_with_body(cursor));
    }
    match cursor.first() {
        Some(token) => Err(unclosed_component(cursor, token)),
        None => expect(cursor, Fixed::Slash),
    }
}

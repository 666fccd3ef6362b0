//! Expressions of one token.

ghost use Rattle.std.specs.Prelude.{◌≡◌, ◌<◌, IfOk};
ghost use Rattle.std.specs.Option.{option_map};
ghost use Rattle.tera_lexer.specs.code.Seen.{seen};
ghost use Rattle.tera_lexer.specs.grammar.Tokens.{Ident};
ghost use Rattle.tera_ast.specs.View.{expression_view};
ghost use Rattle.tera_expr_reader.specs.Lone.{GivesLone, is_stop, leaf_of, second_is_stop};

use std::alloc::{AllocError, Global};
use tera_base::Span;
use tera_expr_parts::{is_none, is_not, leaves};
use tera_lexer::{Cursor, Token};
use tera_tree::Expression;

/// Reads an expression of one token, where so many may open, if the token after it ends it. Else it takes nothing.
pub(crate) fn lone(cursor: &mut Cursor<'_>, depth: usize) -> Result<Option<Expression>, AllocError>
    ensures { IfOk result (λ e. GivesLone depth e cursor.old cursor.new) }
{
    if depth == 0 {
        return Ok(None);
    }
    let Some(token) = cursor.first() else {
        return Ok(None);
    };
    if !stop_is_second(cursor) {
        return Ok(None);
    }
    let Some(span) = cursor.first_span() else {
        return Ok(None);
    };
    let Some(expr) = leaf(cursor.alloc(), token, span)? else {
        return Ok(None);
    };
    let _ = cursor.skip();
    Ok(Some(expr))
}

// Whether every expression ends before the token after the next one.
fn stop_is_second(cursor: &Cursor<'_>) -> bool
    requires { 0 < cursor.now.sight }
    ensures { result ≡ second_is_stop cursor.now.left }
{
    match cursor.second() {
        Some(token) => is_stop(token),
        None => false,
    }
}

// Whether every expression ends before the token, which is not a word.
fn is_stop(token: &Token<'_>) -> bool
    ensures { result ≡ is_stop (seen token.now) }
{
    match token {
        Token::Comma | Token::Colon => true,
        Token::RightParen | Token::RightBracket | Token::RightBrace => true,
        Token::VariableEnd(_) | Token::TagEnd(_) => true,
        _ => false,
    }
}

// The expression that the token is by itself, which is at the span. The text of a string with escapes is left in its
// token.
fn leaf(alloc: Global, token: &Token<'_>, span: &Span) -> Result<Option<Expression>, AllocError>
    ensures { IfOk result (λ e.
        option_map expression_view e ≡ leaf_of (seen token.now) span.now) }
{
    match token {
        Token::Ident(name) => variable(alloc, name, span),
        Token::Integer(n) => Ok(Some(leaves::integer(alloc, *n, span.copied())?)),
        Token::Str(text) => Ok(Some(leaves::text(alloc, text, span.copied())?)),
        Token::Bool(b) => Ok(Some(leaves::truth(alloc, *b, span.copied())?)),
        _ => Ok(None),
    }
}

// The variable of the name, which is at the span, if it is one.
fn variable(alloc: Global, name: &str, span: &Span) -> Result<Option<Expression>, AllocError>
    ensures { IfOk result (λ e.
        option_map expression_view e ≡ leaf_of (Ident name.now) span.now) }
{
    if is_none(name) || is_not(name) {
        return Ok(None);
    }
    Ok(Some(leaves::variable(alloc, name, span.copied())?))
}

//! Tokens that forms and tags have at fixed places.

ghost use Rattle.std.specs.Prelude.{◌≡◌, IfErr, IfOk};
ghost use Rattle.tera_lexer.specs.code.Cursors.{TakesOne};
ghost use Rattle.tera_lexer.specs.code.Seen.{seen};
ghost use Rattle.tera_lexer.specs.grammar.Tokens.{Ident};
ghost use Rattle.tera_grammar.specs.expressions.Marks.{mark_token};
ghost use Rattle.tera_grammar.specs.expressions.Reading.Front.{begins, same_token, taken_name, takes};
ghost use Rattle.tera_grammar.specs.statements.Reading.Components.{is_name};
ghost use Rattle.tera_expect.specs.Taking.{Eats, EatsName, GivesAs, IsCounted, Refuses, Took, fixed_text, mark_of, name_at, place_at};

use crate::faults::unexpected;
use tera_base::{Error, Span};
use tera_lexer::{Cursor, Token};

/// A token that a form or a tag has at a fixed place.
#[derive(Clone, Copy)]
pub enum Fixed {
    Comma,
    Minus,
    Assign,
    Colon,
    Dot,
    Spread,
    Bar,
    At,
    Slash,
    GreaterThan,
    LeftParen,
    RightParen,
    LeftBracket,
    RightBracket,
    LeftBrace,
    RightBrace,
    For,
    In,
    If,
    Else,
    Not,
}

impl Fixed {
    // What messages call it.
    fn text(self) -> &'static str
        ensures { result.now ≡ fixed_text self }
    {
        match self {
            Fixed::Comma => ",",
            Fixed::Minus => "-",
            Fixed::Assign => "=",
            Fixed::Colon => ":",
            Fixed::Dot => ".",
            Fixed::Spread => "...",
            Fixed::Bar => "|",
            Fixed::At => "@",
            Fixed::Slash => "/",
            Fixed::GreaterThan => ">",
            Fixed::LeftParen => "(",
            Fixed::RightParen => ")",
            Fixed::LeftBracket => "[",
            Fixed::RightBracket => "]",
            Fixed::LeftBrace => "{",
            Fixed::RightBrace => "}",
            Fixed::For => "for",
            Fixed::In => "in",
            Fixed::If => "if",
            Fixed::Else => "else",
            Fixed::Not => "not",
        }
    }

    // Whether the token is this one.
    fn is(self, token: &Token<'_>) -> bool
        ensures { result ≡ same_token (seen token.now) (mark_token (mark_of self)) }
    {
        match token {
            Token::Comma => matches!(self, Fixed::Comma),
            Token::Minus => matches!(self, Fixed::Minus),
            Token::Assign => matches!(self, Fixed::Assign),
            Token::Colon => matches!(self, Fixed::Colon),
            Token::Dot => matches!(self, Fixed::Dot),
            Token::Spread => matches!(self, Fixed::Spread),
            Token::Pipe => matches!(self, Fixed::Bar),
            Token::At => matches!(self, Fixed::At),
            Token::Div => matches!(self, Fixed::Slash),
            Token::GreaterThan => matches!(self, Fixed::GreaterThan),
            Token::LeftParen => matches!(self, Fixed::LeftParen),
            Token::RightParen => matches!(self, Fixed::RightParen),
            Token::LeftBracket => matches!(self, Fixed::LeftBracket),
            Token::RightBracket => matches!(self, Fixed::RightBracket),
            Token::LeftBrace => matches!(self, Fixed::LeftBrace),
            Token::RightBrace => matches!(self, Fixed::RightBrace),
            Token::Ident(word) => self.is_word(word),
            _ => false,
        }
    }

    // Whether it is this word.
    fn is_word(self, word: &str) -> bool
        ensures { result ≡ same_token (Ident word.now) (mark_token (mark_of self)) }
    {
        match self {
            Fixed::For => matches!(word.as_bytes(), b"for"),
            Fixed::In => matches!(word.as_bytes(), b"in"),
            Fixed::If => matches!(word.as_bytes(), b"if"),
            Fixed::Else => matches!(word.as_bytes(), b"else"),
            Fixed::Not => matches!(word.as_bytes(), b"not"),
            _ => false,
        }
    }
}

/// Whether the next token is this one.
pub fn begins(cursor: &Cursor<'_>, expected: Fixed) -> bool
    ensures { result ≡ begins (mark_of expected) cursor.now.left }
{
    match cursor.first() {
        Some(token) => expected.is(token),
        None => false,
    }
}

/// Takes the next token where it is this one.
#[tactic(auto, unfolding(crate::specs::Taking::Took))]
pub fn eat(cursor: &mut Cursor<'_>, expected: Fixed) -> bool
    ensures { Eats result cursor.old cursor.new (takes (mark_of expected) cursor.old.left) }
{
    match cursor.first() {
        Some(token) if expected.is(token) => cursor.skip(),
        _ => false,
    }
}

/// Takes the next token where it is a name.
#[tactic(auto, unfolding(crate::specs::Taking::Took))]
pub fn eat_name<'a>(cursor: &mut Cursor<'a>) -> Option<&'a str>
    ensures { EatsName result cursor.old cursor.new (taken_name cursor.old.left) }
{
    let Some(Token::Ident(name)) = cursor.first() else {
        return None;
    };
    let name = *name;
    if cursor.skip() { Some(name) } else { None }
}

/// Takes the next token, where one has to come: at the end of the input, or at a lexical fault, that is
/// the answer.
#[tactic(auto, unfolding(crate::specs::Taking::Took), using(crate::proofs::TakingLemmas::counted, crate::proofs::TakingLemmas::untaken_refused_err))]
pub fn take<'a>(cursor: &mut Cursor<'a>) -> Result<(Token<'a>, Span), Error>
    ensures takes { TakesOne cursor.old result cursor.new }
    ensures number { IfOk result (λ p. IsCounted (seen p.0)) }
    ensures refusal { IfErr result (Refuses cursor.old cursor.new) }
    ensures later { IfOk result (λ _. Took cursor.old cursor.new) }
{
    cursor.next_or_eoi()
}

/// Takes the next token, which has to be this one: another is a fault at that token.
#[tactic(auto, unfolding(crate::specs::Taking::Took), using(crate::proofs::TakingLemmas::untaken_refused, crate::proofs::TakingLemmas::token_refused))]
pub fn expect(cursor: &mut Cursor<'_>, expected: Fixed) -> Result<(), Error>
    ensures gives { GivesAs (place_at cursor.new.span) result cursor.new.left
        (takes (mark_of expected) cursor.old.left) }
    ensures refusal { IfErr result (Refuses cursor.old cursor.new) }
    ensures later { IfOk result (λ _. Took cursor.old cursor.new) }
{
    if eat(cursor, expected) {
        return Ok(());
    }
    let (token, span) = cursor.next_or_eoi()?;
    Err(unexpected(cursor.alloc(), &token, expected.text(), &span))
}

/// Takes the next token, which has to be a name: another is a fault at that token.
#[tactic(auto, unfolding(crate::specs::Taking::Took), using(crate::proofs::TakingLemmas::untaken_refused, crate::proofs::TakingLemmas::token_refused))]
pub fn name<'a>(cursor: &mut Cursor<'a>) -> Result<&'a str, Error>
    ensures gives { GivesAs (name_at cursor.new.span) result cursor.new.left
        (taken_name cursor.old.left) }
    ensures refusal { IfErr result (Refuses cursor.old cursor.new) }
    ensures later { IfOk result (λ _. Took cursor.old cursor.new) }
{
    if let Some(name) = eat_name(cursor) {
        return Ok(name);
    }
    let (token, span) = cursor.next_or_eoi()?;
    Err(unexpected(cursor.alloc(), &token, "identifier", &span))
}

/// Whether the next token is a name.
pub fn begins_name(cursor: &Cursor<'_>) -> bool
    ensures { result ≡ is_name cursor.now.left }
{
    matches!(cursor.first(), Some(Token::Ident(_)))
}

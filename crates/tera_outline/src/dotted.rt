//! Names of parts with dots between.

ghost use Rattle.std.specs.Prelude.{◌≡◌, ◌≤◌, codes, length, map, string_bytes, IfOk};
ghost use Rattle.tera_lexer.specs.code.Seen.{seen};
ghost use Rattle.tera_outline.specs.Pieces.{part_of};
ghost use Rattle.tera_outline.specs.Dotted as specs;

use crate::pieces::Piece;
use std::alloc::{AllocError, Global};
use tera_lexer::Token;

/// The dotted name with which the pieces begin, as long as it goes on; none where no name comes first. White space may
/// be around its dots.
pub(crate) fn dotted<'p, 'a>(pieces: &'p [Piece<'a>]) -> &'p [Piece<'a>]
    ensures name { map part_of result.now ≡ specs.dotted (map part_of pieces.now) }
    ensures within { length result.now ≤ length pieces.now }
{
    let mut len = match pieces {
        [name, ..] if matches!(name.token, Token::Ident(_)) => 1,
        _ => return &pieces[..0],
    };
    'links: while begins_link(&pieces[len..]) {
        len += 2;
    }
    &pieces[..len]
}

// Whether a dot and a name come first.
fn begins_link(pieces: &[Piece<'_>]) -> bool
    ensures { result ≡ specs.begins_link (map part_of pieces.now) }
{
    match pieces {
        [dot, name, ..] => is_dot(&dot.token) && matches!(name.token, Token::Ident(_)),
        _ => false,
    }
}

pub(crate) fn is_dot(token: &Token<'_>) -> bool
    ensures { result ≡ specs.is_operator (codes ".") (seen token.now) }
{
    matches!(token, Token::Dot)
}

/// The text of the name, and the bytes between which it is.
pub(crate) fn text_of(alloc: Global, name: &[Piece<'_>]) -> Result<String, AllocError>
    ensures { IfOk result (λ text. string_bytes text ≡ specs.text_of (map part_of name.now)) }
{
    let mut text = String::new(alloc);
    let mut rest = name;
    'parts: while let [part, following @ ..] = rest {
        text.push_str(meant(&part.token))?;
        rest = following;
    }
    Ok(text)
}

pub(crate) fn start_of(name: &[Piece<'_>]) -> usize
    ensures { result ≡ specs.start_of (map part_of name.now) }
{
    match name {
        [first, ..] => first.start,
        [] => 0,
    }
}

pub(crate) fn end_of(name: &[Piece<'_>]) -> usize
    ensures { result ≡ specs.end_of (map part_of name.now) }
{
    match name {
        [.., last] => last.end,
        [] => 0,
    }
}

// What a name, a dot or a string stands for.
fn meant<'t>(token: &'t Token<'_>) -> &'t str
    ensures { result.now ≡ specs.meant (seen token.now) }
{
    match token {
        Token::Ident(name) => name,
        Token::Dot => ".",
        Token::Str(text) => text,
        Token::String(text) => text.as_str(),
        _ => "",
    }
}

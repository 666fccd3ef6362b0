//! The names in a text that stand for components and templates.

ghost use Rattle.std.specs.Prelude.{◌≡◌, map, option_map, IfOk};
ghost use Rattle.std.specs.List.{find};
ghost use Rattle.tera_lexer.specs.code.Seen.{seen};
ghost use Rattle.tera_outline.specs.Pieces.{part_of};
ghost use Rattle.tera_outline.specs.Names as specs;
ghost use Rattle.tera_outline.specs.Names.{name_view, found_view, names_of};

use crate::dotted::{dotted, end_of, start_of, text_of};
use crate::pieces::Piece;
use std::alloc::{AllocError, Global};
use tera_lexer::{Token, words};

/// What is there by its name.
#[derive(Clone, Copy, Debug, PartialEq, Eq)]
pub enum NameKind {
    /// A component that is called.
    Called,
    /// A component whose call with a body ends.
    Closed,
    /// A component that is defined, or whose definition ends.
    Defined,
    /// A template that is extended.
    Extended,
    /// A template that is included.
    Included,
}

/// A name that stands for a component or a template.
#[derive(Debug, PartialEq, Eq, Drop)]
pub struct Name {
    pub kind: NameKind,
    /// Of a component the name without the white space that may be around its dots; of a template what the string
    /// stands for, without its quotes and escapes.
    pub text: String,
    /// The byte with which it begins, of a template its quote.
    pub start: usize,
    /// The byte after it.
    pub end: usize,
}

impl Name {
    /// Whether the byte is in the name, or right after it.
    pub fn holds(&self, byte: usize) -> bool
        ensures { result ≡ specs.holds byte (name_view self.now) }
    {
        self.start <= byte && byte <= self.end
    }
}

/// The names of components and templates in a text that is in these pieces, in order. A `<` after what may be the end
/// of an operand compares, and any other begins a call; the words `and`, `or`, `not`, `in`, `is`, `if`, `else`, `elif`
/// and `filter` are not operands, except as fields after a dot.
pub fn names_of(alloc: Global, pieces: &[Piece<'_>]) -> Result<Vec<Name>, AllocError>
    ensures { IfOk result (λ names. map name_view names.items ≡ names_of (map part_of pieces.now)) }
{
    let mut names = Vec::new(alloc);
    let mut before = Before::Other;
    let mut rest = pieces;
    'pieces: while let [piece, following @ ..] = rest {
        if let Some(found) = name_after(before, &piece.token, following) {
            names.push(found.name(alloc)?)?;
        }
        before = after_token(before, &piece.token);
        rest = following;
    }
    Ok(names)
}

/// The one of them in which the byte is, or right after which it does.
pub fn under(alloc: Global, pieces: &[Piece<'_>], byte: usize) -> Result<Option<Name>, AllocError>
    ensures { IfOk result (λ name. option_map name_view name
        ≡ find (specs.holds byte) (names_of (map part_of pieces.now))) }
{
    let names = names_of(alloc, pieces)?;
    Ok(names.into_iter().find(|name| name.holds(byte)))
}

// What is before a token.
#[derive(Clone, Copy)]
pub(crate) enum Before {
    // The start of a tag of a statement.
    Tag,
    // What may be the end of an operand.
    Operand,
    // A slash.
    Slash,
    // A dot, after which a word is a field.
    Dot,
    Other,
}

// What is before the next token after this one.
pub(crate) fn after_token(before: Before, token: &Token<'_>) -> Before
    ensures { result ≡ specs.after_token before (seen token.now) }
{
    match token {
        Token::TagStart(_) => Before::Tag,
        Token::Ident(_) if matches!(before, Before::Dot) => Before::Operand,
        Token::Ident(word) => after_word(word),
        Token::String(_) | Token::Str(_) | Token::Integer(_) | Token::Bool(_) => Before::Operand,
        Token::RightParen | Token::RightBracket | Token::RightBrace => Before::Operand,
        Token::Div => Before::Slash,
        Token::Dot | Token::QuestionMarkDot => Before::Dot,
        Token::GreaterThan if matches!(before, Before::Slash) => Before::Operand,
        _ => Before::Other,
    }
}

fn after_word(word: &str) -> Before
    ensures { result ≡ specs.after_word word.now }
{
    match word {
        "if" | "else" | "elif" | "filter" => Before::Other,
        _ if words::is_operator(word) => Before::Other,
        _ => Before::Operand,
    }
}

// A name, by the pieces in which it is, of which there is one at least.
#[derive(Clone, Copy)]
struct Found<'p, 'a> {
    kind: NameKind,
    parts: &'p [Piece<'a>],
}

impl Found<'_, '_> {
    fn name(self, alloc: Global) -> Result<Name, AllocError>
        ensures { IfOk result (λ name. name_view name ≡ found_view self.entry) }
    {
        Ok(Name {
            kind: self.kind,
            text: text_of(alloc, self.parts)?,
            start: start_of(self.parts),
            end: end_of(self.parts),
        })
    }
}

// The name that the token makes of what comes after it.
fn name_after<'p, 'a>(
    before: Before,
    token: &Token<'a>,
    following: &'p [Piece<'a>],
) -> Option<Found<'p, 'a>>
    ensures { option_map found_view result
        ≡ specs.name_after before (seen token.now) (map part_of following.now) }
{
    match token {
        Token::LessThan if matches!(before, Before::Operand) => None,
        Token::LessThan => named(NameKind::Called, dotted(following)),
        Token::ClosingTagStart => named(NameKind::Closed, dotted(following)),
        Token::Ident(word) if matches!(before, Before::Tag) => word_name(word, following),
        _ => None,
    }
}

// The name that the first word of a tag makes of what comes after it.
fn word_name<'p, 'a>(word: &str, following: &'p [Piece<'a>]) -> Option<Found<'p, 'a>>
    ensures { option_map found_view result ≡ specs.word_name word.now (map part_of following.now) }
{
    match word {
        "component" | "endcomponent" => named(NameKind::Defined, dotted(following)),
        "extends" => named(NameKind::Extended, string(following)),
        "include" => named(NameKind::Included, string(following)),
        _ => None,
    }
}

fn named<'p, 'a>(kind: NameKind, parts: &'p [Piece<'a>]) -> Option<Found<'p, 'a>>
    ensures { option_map found_view result ≡ specs.named kind (map part_of parts.now) }
{
    match parts {
        [] => None,
        parts => Some(Found { kind, parts }),
    }
}

// The string with which the pieces begin; none where no string comes first.
fn string<'p, 'a>(pieces: &'p [Piece<'a>]) -> &'p [Piece<'a>]
    ensures { map part_of result.now ≡ specs.string (map part_of pieces.now) }
{
    match pieces {
        [first, ..] if is_string(&first.token) => &pieces[..1],
        _ => &pieces[..0],
    }
}

pub(crate) fn is_string(token: &Token<'_>) -> bool
    ensures { result ≡ specs.is_string (seen token.now) }
{
    matches!(token, Token::Str(_) | Token::String(_))
}

//! The tokens of a text that an editor colours, each with what it is.

ghost use Rattle.std.specs.Prelude.{◌≡◌, ◌+◌, ◌++◌, ◌<◌, ◌≤◌, ◌^◌, List, length, map, max, slice_range, IfOk, OnOk};
ghost use Rattle.tera_lexer.specs.code.Seen.{seen};
ghost use Rattle.tera_outline.specs.Pieces.{Part, part_of, ArePartsOf};
ghost use Rattle.tera_outline.specs.SemanticTokens as specs;
ghost use Rattle.tera_outline.specs.SemanticTokens.{semantic_tokens_of};

use crate::names::{Before, after_token};
use crate::pieces::{Piece, pieces_of};
use std::alloc::{AllocError, Global};
use tera_lexer::{Token, words};

/// What a token is.
#[derive(Clone, Copy, Debug, PartialEq, Eq)]
pub enum SemanticKind {
    Comment,
    /// A word of a statement or of an expression, also `true`, `false` and `none`.
    Keyword,
    String,
    Number,
    /// An operator, the bar of a filter, or a mark of the call of a component.
    Operator,
    /// The name of a block.
    Namespace,
    /// A part of the name of a component.
    Class,
    /// The type of a parameter.
    Type,
    /// The name of a function that is called, of a filter or of a test.
    Function,
    /// The name of an argument, or of a parameter that has a type or a default.
    Parameter,
    /// The name of a field.
    Property,
    Variable,
}

/// A token, or what of it is on one line.
#[derive(Clone, Copy, Debug, PartialEq, Eq)]
pub struct SemanticToken {
    pub kind: SemanticKind,
    /// The byte with which it begins.
    pub start: usize,
    /// The byte after it.
    pub end: usize,
}

/// The tokens of a text, with a fault or without one, that are comments, words, names, strings, numbers or operators,
/// in order: what they are by themselves and by the tokens beside them. One that goes over the end of a line is as many
/// as there are lines on which some of it is. The markers are the default ones.
pub fn semantic_tokens_of(alloc: Global, text: &str) -> Result<Vec<SemanticToken>, AllocError>
    ensures { IfOk result (λ tokens. (parts : List Part) × ArePartsOf text.now parts
        × (tokens.items ≡ semantic_tokens_of text.now parts)) }
{
    let pieces = pieces_of(alloc, text)?;
    tokens_of(alloc, text, pieces.as_slice())
}

fn tokens_of(
    alloc: Global,
    text: &str,
    pieces: &[Piece<'_>],
) -> Result<Vec<SemanticToken>, AllocError>
    ensures { IfOk result (λ tokens.
        tokens.items ≡ semantic_tokens_of text.now (map part_of pieces.now)) }
{
    let mut tokens = Vec::new(alloc);
    let mut context = Context {
        before: Before::Other,
        lead: Lead::Other,
    };
    let mut rest = pieces;
    'pieces: while let [piece, following @ ..] = rest {
        let bytes = bytes_of(text, piece);
        if let Some(kind) = kind_of(context.lead, &piece.token, bytes, following) {
            push_lines(&mut tokens, kind, piece.start, bytes)?;
        }
        context = context.following(&piece.token, following);
        rest = following;
    }
    Ok(tokens)
}

// What is before a token.
#[derive(Clone, Copy)]
struct Context {
    before: Before,
    lead: Lead,
}

// What the tokens before a name make of it.
#[derive(Clone, Copy)]
enum Lead {
    // The start of a tag.
    Tag,
    // The word of a statement.
    Statement,
    // The word of a block.
    Block,
    // What the name of a component, or the next part of it, comes after.
    Component,
    // A part of the name of a component.
    Part,
    Dot,
    Bar,
    // `is`, or `is not`.
    Is,
    // What an argument or a parameter may come after.
    Comma,
    // A parameter.
    Parameter,
    // The colon after a parameter.
    Colon,
    Other,
}

impl Context {
    // What is before the next token after this one.
    fn following(self, token: &Token<'_>, rest: &[Piece<'_>]) -> Context
        ensures { result ≡ specs.following self (seen token.now) (map part_of rest.now) }
    {
        let lead = match token {
            Token::TagStart(_) => Lead::Tag,
            Token::Ident(word) => word_lead(self.lead, word, rest),
            Token::LessThan if !matches!(self.before, Before::Operand) => Lead::Component,
            Token::ClosingTagStart => Lead::Component,
            Token::Dot if matches!(self.lead, Lead::Part) => Lead::Component,
            Token::Dot | Token::QuestionMarkDot => Lead::Dot,
            Token::Pipe => Lead::Bar,
            Token::LeftParen | Token::Comma | Token::At => Lead::Comma,
            Token::Colon if matches!(self.lead, Lead::Parameter) => Lead::Colon,
            _ => Lead::Other,
        };
        Context {
            before: after_token(self.before, token),
            lead,
        }
    }
}

fn word_lead(lead: Lead, word: &str, rest: &[Piece<'_>]) -> Lead
    ensures { result ≡ specs.word_lead lead word.now (map part_of rest.now) }
{
    match lead {
        Lead::Tag => statement_lead(word),
        Lead::Component => Lead::Part,
        Lead::Is if word == "not" => Lead::Is,
        _ => match word_kind(lead, word, rest) {
            SemanticKind::Parameter => Lead::Parameter,
            SemanticKind::Keyword if word == "is" => Lead::Is,
            _ => Lead::Other,
        },
    }
}

fn statement_lead(word: &str) -> Lead
    ensures { result ≡ specs.statement_lead word.now }
{
    match word {
        "component" | "endcomponent" => Lead::Component,
        "block" | "endblock" => Lead::Block,
        "filter" => Lead::Bar,
        _ => Lead::Statement,
    }
}

// What the token of these bytes is, if it is something.
fn kind_of(lead: Lead, token: &Token<'_>, bytes: &[u8], rest: &[Piece<'_>]) -> Option<SemanticKind>
    ensures { result ≡ specs.kind_of lead (seen token.now) bytes.now (map part_of rest.now) }
{
    match token {
        Token::Ident(word) => Some(word_kind(lead, word, rest)),
        Token::Str(_) | Token::String(_) => Some(SemanticKind::String),
        Token::Integer(_) => Some(SemanticKind::Number),
        Token::Bool(_) => Some(SemanticKind::Keyword),
        // Of what is between tags, a comment is something.
        Token::Content(_) if matches!(bytes, [b'{', b'#', ..]) => Some(SemanticKind::Comment),
        Token::Plus | Token::Minus | Token::Mul | Token::Div => Some(SemanticKind::Operator),
        Token::FloorDiv | Token::Mod | Token::Power => Some(SemanticKind::Operator),
        Token::LessThan | Token::LessThanOrEqual => Some(SemanticKind::Operator),
        Token::GreaterThan | Token::GreaterThanOrEqual => Some(SemanticKind::Operator),
        Token::Equal | Token::NotEqual | Token::Assign => Some(SemanticKind::Operator),
        Token::Tilde | Token::Pipe | Token::ClosingTagStart => Some(SemanticKind::Operator),
        _ => None,
    }
}

// What a name is.
fn word_kind(lead: Lead, word: &str, rest: &[Piece<'_>]) -> SemanticKind
    ensures { result ≡ specs.word_kind lead word.now (map part_of rest.now) }
{
    match lead {
        Lead::Tag => SemanticKind::Keyword,
        Lead::Block => SemanticKind::Namespace,
        Lead::Component => SemanticKind::Class,
        Lead::Dot => SemanticKind::Property,
        Lead::Bar => SemanticKind::Function,
        Lead::Colon => SemanticKind::Type,
        Lead::Is if word != "not" => SemanticKind::Function,
        _ if is_keyword(word) => SemanticKind::Keyword,
        _ => name_kind(lead, rest),
    }
}

fn is_keyword(word: &str) -> bool
    ensures { result ≡ specs.is_keyword word.now }
{
    matches!(word, "if" | "else" | "for") || words::is_operator(word) || words::is_none(word)
}

// What a name is by what comes after it.
fn name_kind(lead: Lead, rest: &[Piece<'_>]) -> SemanticKind
    ensures { result ≡ specs.name_kind lead (map part_of rest.now) }
{
    match rest {
        [next, ..] => match (&next.token, lead) {
            (Token::LeftParen, _) => SemanticKind::Function,
            (Token::Assign, Lead::Statement) => SemanticKind::Variable,
            (Token::Assign, _) => SemanticKind::Parameter,
            (Token::Colon, Lead::Comma) => SemanticKind::Parameter,
            _ => SemanticKind::Variable,
        },
        [] => SemanticKind::Variable,
    }
}

// The bytes of the text at the piece.
fn bytes_of<'t>(text: &'t str, piece: &Piece<'_>) -> &'t [u8]
    ensures bytes { result.now ≡ slice_range text.now piece.now.start piece.now.end }
    ensures within { piece.now.start + length result.now ≤ max piece.now.start (length text.now) }
{
    let bytes = text.as_bytes();
    let end = piece.end.min(bytes.len());
    if piece.start < end {
        &bytes[piece.start..end]
    } else {
        &bytes[..0]
    }
}

// Adds the part on each line of a token of these bytes, the first of which is at `start`.
fn push_lines(
    tokens: &mut Vec<SemanticToken>,
    kind: SemanticKind,
    start: usize,
    bytes: &[u8],
) -> Result<(), AllocError>
    requires { start + length bytes.now < 2 ^ 64 }
    ensures { OnOk result (tokens.new.items
        ≡ tokens.old.items ++ specs.on_lines kind start start bytes.now) }
{
    let mut from = start;
    let mut at = start;
    let mut rest = bytes;
    'bytes: while let [byte, following @ ..] = rest {
        if *byte == b'\n' || *byte == b'\r' {
            push_token(tokens, kind, from, at)?;
            from = at + 1;
        }
        at += 1;
        rest = following;
    }
    push_token(tokens, kind, from, at)
}

// Adds the token, if it is not empty.
fn push_token(
    tokens: &mut Vec<SemanticToken>,
    kind: SemanticKind,
    start: usize,
    end: usize,
) -> Result<(), AllocError>
    ensures { OnOk result (tokens.new.items ≡ tokens.old.items ++ specs.token kind start end) }
{
    if start < end {
        tokens.push(SemanticToken { kind, start, end })?;
    }
    Ok(())
}

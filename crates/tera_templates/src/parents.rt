//! Where a text names the template that it extends.

ghost use Rattle.std.specs.Prelude.{◌≡◌, IfOk};
ghost use Rattle.tera_lexer.specs.code.Seen.{seen};
ghost use Rattle.tera_lexer.specs.grammar.Marks.{default_marks};
ghost use Rattle.tera_lexer.specs.grammar.Tokens.{AreTokensOf, Items};
ghost use Rattle.tera_templates.specs.Parents.{before_next, first_word, is_name_after, is_string, name_after};
ghost use Rattle.tera_templates.specs.declared.parents.Before.TheVariants.{Other};

use std::alloc::{AllocError, Global};
use tera_parser::lexer::{Delimiters, Token, Tokens, tokenize};
use tera_parser::value::{ErrorKind, Span};

/// The place of the string after the first `extends` that begins a tag, if there is one. It takes time for the text
/// before it.
pub(crate) fn parent_at(alloc: Global, text: &str) -> Result<Option<Span>, AllocError>
    ensures { IfOk result (λ at. (items : Items) × AreTokensOf default_marks text.now items
        × (at ≡ name_after Other items)) }
{
    parent_in(&mut tokenize(alloc, text, Delimiters::default()))
}

fn parent_in(tokens: &mut Tokens<'_>) -> Result<Option<Span>, AllocError>
    ensures { IfOk result (λ at. at ≡ name_after Other tokens.old.left) }
{
    let mut before = Before::Other;
    'tokens: while let Some(item) = tokens.next() {
        match item {
            Ok((token, span)) => {
                let is_name = is_name_after(before, &token);
                before = before_next(before, &token);
                drop(token);
                if is_name {
                    return Ok(Some(span));
                }
            }
            Err(error) => {
                return match &error.kind {
                    ErrorKind::SyntaxError(_) => Ok(None),
                    _ => Err(AllocError),
                };
            }
        }
    }
    Ok(None)
}

// What the last token was.
#[derive(Clone, Copy, Debug)]
pub(crate) enum Before {
    /// The start of a tag.
    Start,
    /// `extends`, after that.
    Extends,
    Other,
}

// What the next token has before it, after this one.
fn before_next(before: Before, token: &Token<'_>) -> Before
    ensures { result ≡ before_next before (seen token.now) }
{
    match token {
        Token::TagStart(_) => Before::Start,
        Token::Ident(word) => first_word(before, word),
        _ => Before::Other,
    }
}

fn first_word(before: Before, word: &str) -> Before
    ensures { result ≡ first_word before word.now }
{
    match before {
        Before::Start => {
            if word == "extends" {
                Before::Extends
            } else {
                Before::Other
            }
        }
        Before::Extends | Before::Other => Before::Other,
    }
}

// Whether the token is the name of the template.
fn is_name_after(before: Before, token: &Token<'_>) -> bool
    ensures { result ≡ is_name_after before (seen token.now) }
{
    match before {
        Before::Extends => is_string(token),
        Before::Start | Before::Other => false,
    }
}

fn is_string(token: &Token<'_>) -> bool
    ensures { result ≡ is_string (seen token.now) }
{
    match token {
        Token::Str(_) | Token::String(_) => true,
        _ => false,
    }
}

//! The tokens of a source, one at a time.

ghost use Rattle.std.specs.Prelude.{◌≡◌, ◌≤◌, ◌<◌, ◌^◌, None, IsUtf8, length};
ghost use Rattle.tera_lexer.specs.grammar.Marks.{marks_of, IsValid};
ghost use Rattle.tera_lexer.specs.grammar.Tokens.{AreTokensOf};
ghost use Rattle.tera_lexer.specs.reading.Left.{item_count};
ghost use Rattle.tera_lexer.specs.grammar.Lexed.{AreLexed};
ghost use Rattle.tera_lexer.specs.code.Steps.{Steps};

use crate::lexer::delimiters::Delimiters;
use crate::lexer::scanner::Scanner;
use crate::lexer::tokens::Token;
use std::alloc::Global;
use std::marker::Model;
use tera_base::{Error, Span};

/// The tokens of a source, each with its span, to its end or to its fault.
///
/// An item is an error at a lexical fault, which is a syntax error with its place, and at a string with escapes for
/// which an allocation fails. After an error none comes. The other tokens take no memory.
///
/// A text loses the white space at its start or at its end where a dash of its neighbours says so. The body of a
/// raw piece is a text too, and a comment an empty one. The span of each is that of the whole piece.
#[derive(Drop)]
pub struct Tokens<'a> {
    scanner: Scanner<'a>,
}

impl<'a> Model for Tokens<'a> {
    ghost use Rattle.tera_lexer.specs.reading.Stream.{Stream};
    ghost use Rattle.tera_lexer.specs.code.Codes.{stream_code};

    ghost Value = { Stream };

    ghost coded = { stream_code };

    ghost use Rattle.tera_lexer.specs.reading.Left.{stream_of};

    ghost view = { λ t. stream_of t.scanner };
}

/// The tokens of a source between these markers, which `Delimiters::validate` accepts. Nothing is read yet.
pub fn tokenize(alloc: Global, input: &str, delimiters: Delimiters) -> Tokens<'_>
    requires { IsValid (marks_of delimiters) }
    ensures source { result.source ≡ input.now }
    ensures tokens { AreTokensOf (marks_of delimiters) input.now result.left }
    ensures going { result.stopped ≡ None }
    ensures count { item_count result.left ≤ length input.now }
{
    Tokens {
        scanner: Scanner::new(alloc, input, delimiters),
    }
}

impl<'a> Iterator for Tokens<'a> {
    ghost use Rattle.std.specs.Iterator.{at_most};

    type Item = Result<(Token<'a>, Span), Error>;

    ghost next_gives = { Steps };

    ghost remaining = { λ t. at_most (item_count t.left) };

    fn next(&mut self) -> Option<Result<(Token<'a>, Span), Error>> {
        self.scanner.read()
    }
}

impl<'a> Tokens<'a> {
    /// The allocator of the tokens, which are those of a text, and not more than it has bytes.
    pub(crate) fn alloc(&self) -> Global
        ensures text { IsUtf8 self.now.source }
        ensures count { item_count self.now.left ≤ length self.now.source }
        ensures fits { length self.now.source < 2 ^ 64 }
        ensures tokens { AreLexed self.now.left }
    {
        self.scanner.alloc()
    }
}

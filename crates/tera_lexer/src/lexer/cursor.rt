//! A cursor over the tokens of a source.

ghost use Rattle.std.specs.Prelude.{◌≡◌, ◌<◌, ◌≤◌, IfOk, IfErr, MatchOption, length, codes};
ghost use Rattle.tera_lexer.specs.grammar.Place.{IsWithin};
ghost use Rattle.tera_lexer.specs.grammar.Lexed.{AreLexed};
ghost use Rattle.tera_lexer.specs.code.Seen.{seen};
ghost use Rattle.std.specs.Option.{option_map, option_transpose};
ghost use Rattle.tera_lexer.specs.code.CursorView.{IsTokenAhead};
ghost use Rattle.tera_base.specs.Errors.{end_of};
ghost use Rattle.tera_lexer.specs.code.Steps.{ReportsAlone};

use crate::lexer::stream::Tokens;
use crate::lexer::tokens::Token;
use std::alloc::Global;
use std::marker::Model;
use std::mem;
use tera_base::{Error, ReportError, Span};

/// The tokens of a source that are not taken yet, of which the next two can be looked at.
///
/// A fault, or an allocation failure for a token, that is met while looking ahead is answered when its place is taken.
#[derive(Drop)]
pub struct Cursor<'a> {
    alloc: Global,
    tokens: Tokens<'a>,
    first: Option<Result<(Token<'a>, Span), Error>>,
    second: Option<Result<(Token<'a>, Span), Error>>,
    taken: usize,
    current_span: Span,
}

impl<'a> Model for Cursor<'a> {
    ghost use Rattle.tera_lexer.specs.code.Cursors.{Position};
    ghost use Rattle.tera_lexer.specs.code.Codes.{position_code};

    ghost Value = { Position };

    ghost coded = { position_code };

    ghost use Rattle.tera_lexer.specs.code.CursorView.{position_of, AreReadAhead};

    ghost view = { position_of };

    ghost invariant = { AreReadAhead };
}

impl<'a> Cursor<'a> {
    ghost use Rattle.tera_lexer.specs.code.Cursors.{nowhere, is_end, FirstIs, FirstIsAt, SecondIs, SeesTwo, Skips, Takes, TakesOne, IsLater, RefusesFrom};

    /// A cursor before the next of the tokens. The next two are read.
    pub fn new(tokens: Tokens<'a>) -> Cursor<'a>
        ensures source { result.source ≡ tokens.entry.source }
        ensures left { result.left ≡ tokens.entry.left }
        ensures taken { result.taken ≡ 0 }
        ensures span { result.span ≡ nowhere }
        ensures sight { SeesTwo result }
        ensures tokens { AreLexed result.left }
    {
        let alloc = tokens.alloc();
        let mut tokens = tokens;
        let first = tokens.next();
        let second = tokens.next();
        Cursor {
            alloc,
            tokens,
            first,
            second,
            taken: 0,
            current_span: Span::default(),
        }
    }

    /// Takes the next token; `None` is the end of the tokens.
    ///
    /// An error is that of the tokens: the lexical fault, or `Memory` at a string with escapes or where the
    /// fault finds none. A token that `first` showed is taken without an error. After an error none is left.
    pub fn next(&mut self) -> Result<Option<(Token<'a>, Span)>, Error>
        ensures takes { Takes self.old result self.new }
        ensures sight { SeesTwo self.new }
        ensures count { self.new.taken ≤ length self.new.source }
        ensures tokens { AreLexed self.old.left }
    {
        self.step().transpose()
    }

    // The same, as the tokens answer it.
    #[inline(always)]
    fn step(&mut self) -> Option<Result<(Token<'a>, Span), Error>>
        ensures takes { Takes self.old (option_transpose result) self.new }
        ensures sight { SeesTwo self.new }
        ensures count { self.new.taken ≤ length self.new.source }
        ensures tokens { AreLexed self.old.left }
    {
        let third = self.tokens.next();
        let second = mem::replace(&mut self.second, third);
        let first = mem::replace(&mut self.first, second);
        if let Some((_, span)) = token_ahead(&first) {
            self.taken += 1;
            self.current_span = span.copied();
        }
        first
    }

    /// Takes the next token and lets it go, where `first` shows one, and says whether it did. Else nothing is taken.
    pub fn skip(&mut self) -> bool
        ensures skips { Skips self.old result self.new }
        ensures sight { SeesTwo self.new }
        ensures count { self.new.taken ≤ length self.new.source }
        ensures tokens { AreLexed self.old.left }
    {
        let Some((_, span)) = token_ahead(&self.first) else {
            return false;
        };
        self.current_span = span.copied();
        self.taken += 1;
        self.first = mem::replace(&mut self.second, self.tokens.next());
        true
    }

    /// The next token. There is none at the end, at a fault, and if an allocation fails for it.
    pub fn first(&self) -> Option<&Token<'a>>
        ensures shows { MatchOption result (self.now.sight ≡ 0) (λ t.
            (0 < self.now.sight) × FirstIs self.now.left (seen t.now)) }
        ensures sight { SeesTwo self.now }
        ensures tokens { AreLexed self.now.left }
    {
        let (token, _) = token_ahead(&self.first)?;
        Some(token)
    }

    /// The token after the next one. There is none where either is not shown.
    pub fn second(&self) -> Option<&Token<'a>>
        ensures shows { MatchOption result (self.now.sight ≤ 1) (λ t.
            (1 < self.now.sight) × SecondIs self.now.left (seen t.now)) }
        ensures sight { SeesTwo self.now }
    {
        let _ = token_ahead(&self.first)?;
        let (token, _) = token_ahead(&self.second)?;
        Some(token)
    }

    /// The span of the next token, where `first` shows that.
    pub fn first_span(&self) -> Option<&Span>
        ensures shows { MatchOption result (self.now.sight ≡ 0) (λ s. (0 < self.now.sight)
            × FirstIsAt self.now.left s.now × IsWithin self.now.source s.now) }
        ensures sight { SeesTwo self.now }
    {
        let (_, span) = token_ahead(&self.first)?;
        Some(span)
    }

    /// Whether neither a token nor a fault is left.
    pub fn at_end(&self) -> bool
        ensures { result ≡ is_end self.now.left }
    {
        self.first.is_none()
    }

    /// The span of the token taken last, which is all zeros before.
    pub fn current_span(&self) -> &Span
        ensures span { result.now ≡ self.now.span }
        ensures within { IsWithin self.now.source result.now }
    {
        &self.current_span
    }

    /// The allocator of the tokens: what is made of them takes memory from it.
    pub fn alloc(&self) -> Global {
        self.alloc
    }

    /// The end of the input, after the token taken last: a syntax error, or `Memory` if its text cannot be
    /// allocated.
    pub fn eoi(&self) -> Error
        ensures reports { ReportsAlone (codes "Unexpected end of input") (end_of self.now.span) result }
        ensures within { IsWithin self.now.source (end_of self.now.span) }
    {
        ReportError::unexpected_end_of_input(self.alloc, &self.current_span)
    }

    /// Takes the next token, where one has to come: that none does is the end of the input.
    ///
    /// An error is that of `next`, after which none is left, or the end of the input, at which the cursor stays.
    pub fn next_or_eoi(&mut self) -> Result<(Token<'a>, Span), Error>
        ensures takes { TakesOne self.old result self.new }
        ensures sight { SeesTwo self.new }
        ensures count { self.new.taken ≤ length self.new.source }
        ensures tokens { AreLexed self.old.left }
        ensures later { IfOk result (λ _. IsLater self.old self.new) }
        ensures refusal { IfErr result (RefusesFrom self.old) }
    {
        match self.step() {
            Some(item) => item,
            None => Err(self.eoi()),
        }
    }
}

// The token that was read ahead, if one was.
fn token_ahead<'b, 'a>(
    item: &'b Option<Result<(Token<'a>, Span), Error>>,
) -> Option<&'b (Token<'a>, Span)>
    ensures { IsTokenAhead item.now (option_map (λ p. p.now) result) }
{
    match item {
        Some(Ok(pair)) => Some(pair),
        _ => None,
    }
}

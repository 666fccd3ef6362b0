//! Reads a source, token by token.

ghost use Rattle.std.specs.Prelude.{◌≡◌, ◌+◌, ◌++◌, ◌<◌, ◌≤◌, ◌^◌, List, ℕ, None, Some, Ok, Err, IfOk, IsUtf8, length, take, drop, string_bytes, true, false};
ghost use Rattle.std.specs.Char.{is_ascii_whitespace};
ghost use Rattle.std.specs.Str.{IsCharBoundary};
ghost use Rattle.tera_lexer.specs.grammar.Marks.{marks_of, end_marker, IsValid};
ghost use Rattle.tera_lexer.specs.grammar.Place.{place_after, span_of, IsWithin};
ghost use Rattle.tera_lexer.specs.grammar.Lexeme.{StopsAt, is_at_end};
ghost use Rattle.tera_lexer.specs.reading.Left.{start_of, left_of, whole_of, stream_of, item_count};
ghost use Rattle.tera_lexer.specs.grammar.Lexed.{AreLexed};
ghost use Rattle.tera_lexer.specs.grammar.Trimming.{trimmed};
ghost use Rattle.tera_lexer.specs.grammar.Tokens.{Finish};
ghost use Rattle.tera_lexer.specs.code.Counting.{ArePrintable};
ghost use Rattle.tera_lexer.specs.code.Seen.{seen};
ghost use Rattle.tera_lexer.specs.reading.Front.{front_of};
ghost use Rattle.tera_lexer.specs.code.Found.{IsEscapedAt};
ghost use Rattle.tera_lexer.specs.grammar.Division.{is_at_start};
ghost use Rattle.tera_lexer.specs.reading.Front.{find_marker};
ghost use Rattle.tera_lexer.specs.code.Markers.{marker_len, IsStartOf, IsEndOf, OpensBy, ClosesBy, IsAhead};
ghost use Rattle.tera_lexer.specs.code.Steps.{ReportsAlone, Steps, IsPart};

use crate::lexer::delimiters::{Delimiters, Kind};
use crate::lexer::lexeme::{Class, Fault, Found, begins_printable, lexeme_at, run_len, unescape};
use crate::lexer::markers::{
    Ahead, Pairs, Start, WordTag, dash_len, end_at, find_marker, look_ahead, raw_end, raw_tag_at,
    text_len,
};
use crate::lexer::place::Place;
use crate::lexer::tokens::Token;
use std::alloc::{AllocError, Global};
use std::marker::Model;
use tera_base::{Error, Span};

/// Where the reading of a source is.
#[derive(Drop)]
pub(crate) struct Scanner<'a> {
    source: &'a str,
    // What is left of the source.
    rest: &'a str,
    alloc: Global,
    delimiters: Delimiters,
    pairs: Pairs,
    place: Place,
    tag: Option<Kind>,
    trim: bool,
    failed: bool,
    // What is known of a piece, and where it begins.
    ahead: Ahead,
    ahead_at: usize,
}

impl<'a> Model for Scanner<'a> {
    ghost use Rattle.tera_lexer.specs.reading.State.{Progress};

    ghost Value = { Progress };

    ghost use Rattle.tera_lexer.specs.code.StateView.{reading_of, IsAtPlace};

    ghost view = { reading_of };

    ghost invariant = { IsAtPlace };
}

impl<'a> Scanner<'a> {
    /// Before the first token.
    pub(crate) fn new(alloc: Global, source: &'a str, delimiters: Delimiters) -> Scanner<'a>
        requires { IsValid (marks_of delimiters) }
        ensures { result ≡ start_of (marks_of delimiters) source.now }
    {
        let pairs = Pairs::of(&delimiters);
        Scanner {
            source,
            rest: source,
            alloc,
            delimiters,
            pairs,
            place: Place {
                line: 1,
                column: 0,
                byte: 0,
            },
            tag: None,
            trim: false,
            failed: false,
            ahead: Ahead::Nothing,
            ahead_at: 0,
        }
    }

    /// The next token; `None` at the end, and after an error.
    pub(crate) fn read(&mut self) -> Option<Result<(Token<'a>, Span), Error>>
        ensures { Steps (stream_of self.old) result (stream_of self.new) }
    {
        if self.failed {
            return None;
        }
        match self.tag {
            None => self.outside(),
            Some(kind) => self.inside(kind),
        }
    }

    /// The allocator of the tokens, which are those of a text, and not more than it has bytes.
    pub(crate) fn alloc(&self) -> Global
        ensures text { IsUtf8 (whole_of self.now) }
        ensures count { item_count (left_of self.now) ≤ length (whole_of self.now) }
        ensures fits { length (whole_of self.now) < 2 ^ 64 }
        ensures tokens { AreLexed (left_of self.now) }
    {
        self.alloc
    }

    // What is left of the source.
    fn rest(&self) -> &'a str
        ensures rest { result.now ≡ self.now.rest }
        ensures valid { IsValid self.now.marks }
    {
        self.rest
    }

    // The next bytes, and the place after them.
    #[inline(always)]
    fn peek(&self, n: usize) -> (&'a str, Place)
        requires { IsCharBoundary self.now.rest n }
        ensures text { result.0.now ≡ take n self.now.rest }
        ensures place { result.1 ≡ place_after (self.now.front ++ take n self.now.rest) }
        ensures within { IsWithin (whole_of self.now)
            (span_of self.now.front (take n self.now.rest)) }
    {
        let (text, _) = self.rest.split_at(n);
        (text, self.place.after(text))
    }

    // Takes the next bytes, and says which they are and where they are.
    #[inline(always)]
    fn advance(&mut self, n: usize) -> (&'a str, Span)
        requires { IsCharBoundary self.old.rest n }
        ensures state { self.new ≡ record self.old {
          front = self.old.front ++ take n self.old.rest;
          rest = drop n self.old.rest;
        } }
        ensures text { result.0.now ≡ take n self.old.rest }
        ensures span { result.1 ≡ span_of self.old.front (take n self.old.rest) }
        ensures within { IsWithin (whole_of self.old) result.1 }
    {
        let (text, end) = self.peek(n);
        let (_, rest) = self.rest.split_at(n);
        let span = self.place.to(end);
        self.place = end;
        self.rest = rest;
        (text, span)
    }

    // Reports a fault in the next bytes, after which nothing comes.
    fn fail(&mut self, message: Result<String, AllocError>, len: usize) -> Error
        requires { IsCharBoundary self.old.rest len }
        ensures state { self.new ≡ record self.old { failed = true } }
        ensures within { IsWithin (whole_of self.old)
            (span_of self.old.front (take len self.old.rest)) }
        ensures error { (text : List ℕ) → IfOk message (λ t. string_bytes t ≡ text) →
            ReportsAlone text (span_of self.old.front (take len self.old.rest)) result }
    {
        let (_, end) = self.peek(len);
        let span = self.place.to(end);
        self.failed = true;
        Error::reported(self.alloc, message, &span)
    }

    // The next token outside a tag.
    fn outside(&mut self) -> Option<Result<(Token<'a>, Span), Error>>
        requires going { self.old.failed ≡ false }
        requires outside { self.old.tag ≡ None }
        ensures { Steps (stream_of self.old) result (stream_of self.new) }
    {
        let known = self.ahead_at == self.place.byte;
        match self.ahead {
            Ahead::Comment(len) if known => Some(Ok(self.closed_comment(true, len))),
            Ahead::Raw(opening, end) if known => Some(Ok(self.closed_raw(true, opening, end))),
            _ => self.unseen(),
        }
    }

    // The same, where nothing is known of what is left.
    fn unseen(&mut self) -> Option<Result<(Token<'a>, Span), Error>>
        requires going { self.old.failed ≡ false }
        requires outside { self.old.tag ≡ None }
        ensures { Steps (stream_of self.old) result (stream_of self.new) }
    {
        let rest = self.rest();
        if rest.is_empty() {
            return None;
        }
        match self.pairs.start_of(rest) {
            Start::Variable(dash) => Some(Ok(self.variable(dash))),
            Start::Block(dash) => Some(self.block(dash)),
            Start::Comment(dash) => Some(self.comment(dash)),
            Start::Text => Some(Ok(self.text())),
        }
    }

    // A text.
    fn text(&mut self) -> (Token<'a>, Span)
        requires going { self.old.failed ≡ false }
        requires outside { self.old.tag ≡ None }
        requires some { 0 < length self.old.rest }
        requires text { is_at_start self.old.marks self.old.rest ≡ false }
        ensures { Steps (stream_of self.old) (Some (Ok result)) (stream_of self.new) }
    {
        let rest = self.rest();
        let len = text_len(rest, &self.pairs);
        let (text, following) = rest.split_at(len);
        let (trim_end, ahead) = look_ahead(false, following, &self.pairs, &self.delimiters);
        let text = trimmed(text, self.trim, trim_end);
        let (_, span) = self.advance(len);
        self.trim = false;
        self.keep(ahead);
        (Token::Content(text), span)
    }

    // Keeps what is known of the piece that comes next.
    #[inline(always)]
    fn keep(&mut self, ahead: Ahead)
        requires { IsAhead self.old.marks self.old.rest ahead }
        ensures { self.new ≡ self.old }
    {
        if let Ahead::Nothing = ahead {
            return;
        }
        self.ahead = ahead;
        self.ahead_at = self.place.byte;
    }

    // The start of a variable tag.
    fn variable(&mut self, dash: bool) -> (Token<'a>, Span)
        requires going { self.old.failed ≡ false }
        requires outside { self.old.tag ≡ None }
        requires starts { IsStartOf self.old.marks.variable_start self.old.rest (Some dash) }
        ensures { Steps (stream_of self.old) (Some (Ok result)) (stream_of self.new) }
    {
        let len = self.delimiters.variable_start.len() + dash_len(dash);
        let (_, span) = self.advance(len);
        self.tag = Some(Kind::Variable);
        (Token::VariableStart(dash), span)
    }

    // A raw piece, or the start of another block tag.
    fn block(&mut self, dash: bool) -> Result<(Token<'a>, Span), Error>
        requires going { self.old.failed ≡ false }
        requires outside { self.old.tag ≡ None }
        requires starts { IsStartOf self.old.marks.block_start self.old.rest (Some dash) }
        ensures { Steps (stream_of self.old) (Some result) (stream_of self.new) }
    {
        let len = self.delimiters.block_start.len() + dash_len(dash);
        let (_, following) = self.rest().split_at(len);
        let end = self.delimiters.block_end.as_str().as_bytes();
        if let Some(opening) = raw_tag_at(following.as_bytes(), end) {
            return self.raw(dash, opening);
        }
        let (_, span) = self.advance(len);
        self.tag = Some(Kind::Block);
        Ok((Token::TagStart(dash), span))
    }

    // A raw piece, which this tag opens.
    #[inline(never)]
    fn raw(&mut self, dash: bool, opening: WordTag) -> Result<(Token<'a>, Span), Error>
        requires going { self.old.failed ≡ false }
        requires outside { self.old.tag ≡ None }
        requires starts { IsStartOf self.old.marks.block_start self.old.rest (Some dash) }
        requires opens { OpensBy self.old.marks dash opening self.old.rest }
        ensures { Steps (stream_of self.old) (Some result) (stream_of self.new) }
    {
        let start = self.delimiters.block_start.len() + dash_len(dash);
        let (_, body) = self.rest().split_at(start + opening.len);
        let Some(end) = raw_end(body, &self.delimiters) else {
            let message = String::from_str(self.alloc, "unexpected end of raw block");
            return Err(self.fail(message, start));
        };
        Ok(self.closed_raw(dash, opening, end))
    }

    // The same, which that tag closes.
    #[inline(never)]
    fn closed_raw(
        &mut self,
        dash: bool,
        opening: WordTag,
        end: (usize, WordTag),
    ) -> (Token<'a>, Span)
        requires going { self.old.failed ≡ false }
        requires outside { self.old.tag ≡ None }
        requires starts { IsStartOf self.old.marks.block_start self.old.rest (Some dash) }
        requires opens { OpensBy self.old.marks dash opening self.old.rest }
        requires closes { ClosesBy self.old.marks dash opening (Some end) self.old.rest }
        ensures { Steps (stream_of self.old) (Some (Ok result)) (stream_of self.new) }
    {
        let (len, closing) = end;
        let begin = self.delimiters.block_start.len() + dash_len(dash) + opening.len;
        let whole = begin + (len + (self.delimiters.block_start.len() + closing.len));
        let (_, body) = self.rest().split_at(begin);
        let (text, _) = body.split_at(len);
        let (_, following) = self.rest().split_at(whole);
        let trim_start = opening.dash_out || self.trim;
        let (pairs, delimiters) = (&self.pairs, &self.delimiters);
        let (trim_end, ahead) = look_ahead(closing.dash_in, following, pairs, delimiters);
        let text = trimmed(text, trim_start, trim_end);
        let (_, span) = self.advance(whole);
        self.trim = closing.dash_out;
        self.keep(ahead);
        (Token::Content(text), span)
    }

    // A comment.
    fn comment(&mut self, dash: bool) -> Result<(Token<'a>, Span), Error>
        requires going { self.old.failed ≡ false }
        requires outside { self.old.tag ≡ None }
        requires starts { IsStartOf self.old.marks.comment_start self.old.rest (Some dash) }
        ensures { Steps (stream_of self.old) (Some result) (stream_of self.new) }
    {
        let start = self.delimiters.comment_start.len() + dash_len(dash);
        let (_, following) = self.rest().split_at(start);
        let end = self.delimiters.comment_end.as_str();
        let Some(len) = find_marker(following.as_bytes(), end.as_bytes()) else {
            let message = format!(in self.alloc; "Closing comment tag `{end}` not found");
            return Err(self.fail(message, start));
        };
        Ok(self.closed_comment(dash, len))
    }

    // The same, of which so many bytes are before the end marker.
    fn closed_comment(&mut self, dash: bool, len: usize) -> (Token<'a>, Span)
        requires going { self.old.failed ≡ false }
        requires outside { self.old.tag ≡ None }
        requires starts { IsStartOf self.old.marks.comment_start self.old.rest (Some dash) }
        requires closes { find_marker self.old.marks.comment_end
            (drop (marker_len self.old.marks.comment_start dash) self.old.rest) ≡ Some len }
        ensures { Steps (stream_of self.old) (Some (Ok result)) (stream_of self.new) }
    {
        let start = self.delimiters.comment_start.len() + dash_len(dash);
        let (_, following) = self.rest().as_bytes().split_at(start);
        let (inside, _) = following.split_at(len);
        let dash_end = inside.ends_with(b"-");
        let end = self.delimiters.comment_end.as_str();
        let whole = start + (len + end.len());
        let (_, span) = self.advance(whole);
        self.trim |= dash_end;
        (Token::Content(""), span)
    }

    // Takes the next bytes, which are printable, so that there is no need to look at them, and says where they are.
    #[inline(always)]
    fn advance_plain(&mut self, n: usize) -> Span
        requires cut { IsCharBoundary self.old.rest n }
        requires printable { ArePrintable (take n self.old.rest) }
        ensures state { self.new ≡ record self.old {
          front = self.old.front ++ take n self.old.rest;
          rest = drop n self.old.rest;
        } }
        ensures span { result ≡ span_of self.old.front (take n self.old.rest) }
        ensures within { IsWithin (whole_of self.old) result }
    {
        let (_, rest) = self.rest.split_at(n);
        let end = self.place.along(n);
        let span = self.place.to(end);
        self.place = end;
        self.rest = rest;
        span
    }

    // Takes the next bytes, of which most are short and printable, and says where they are.
    #[inline(always)]
    fn advance_string(&mut self, n: usize) -> Span
        requires { IsCharBoundary self.old.rest n }
        ensures state { self.new ≡ record self.old {
          front = self.old.front ++ take n self.old.rest;
          rest = drop n self.old.rest;
        } }
        ensures span { result ≡ span_of self.old.front (take n self.old.rest) }
        ensures within { IsWithin (whole_of self.old) result }
    {
        let rest = self.rest();
        if begins_printable(rest.as_bytes(), n) {
            return self.advance_plain(n);
        }
        let (_, span) = self.advance(n);
        span
    }

    // Passes over the next bytes, if there are any. Most often it is one space.
    #[inline(always)]
    fn pass(&mut self, n: usize)
        requires { IsCharBoundary self.old.rest n }
        ensures { self.new ≡ record self.old {
          front = self.old.front ++ take n self.old.rest;
          rest = drop n self.old.rest;
        } }
    {
        if n == 0 {
            return;
        }
        if n == 1 && self.rest.as_bytes()[0] == b' ' {
            let _ = self.advance_plain(n);
        } else {
            let _ = self.advance(n);
        }
    }

    // The next token inside a tag.
    fn inside(&mut self, kind: Kind) -> Option<Result<(Token<'a>, Span), Error>>
        requires going { self.old.failed ≡ false }
        requires inside { self.old.tag ≡ Some kind }
        ensures { Steps (stream_of self.old) result (stream_of self.new) }
    {
        let rest = self.rest();
        let gap = run_len(rest.as_bytes(), Class::Space);
        if gap == rest.len() {
            return None;
        }
        self.pass(gap);
        Some(self.after_gap(kind))
    }

    // The next token inside a tag, where no white space comes first.
    fn after_gap(&mut self, kind: Kind) -> Result<(Token<'a>, Span), Error>
        requires going { self.old.failed ≡ false }
        requires inside { self.old.tag ≡ Some kind }
        requires some { 0 < length self.old.rest }
        requires stops { StopsAt is_ascii_whitespace self.old.rest }
        ensures { Steps (stream_of self.old) (Some result) (stream_of self.new) }
    {
        let rest = self.rest();
        if let Some(dash) = end_at(rest, self.delimiters.end(kind)) {
            return Ok(self.close(kind, dash));
        }
        match lexeme_at(rest) {
            Found::Lexeme(token, len) => {
                let span = self.advance_plain(len);
                Ok((token, span))
            }
            Found::Text(inside, len) => {
                let span = self.advance_string(len);
                Ok((Token::Str(inside), span))
            }
            Found::Escaped(inside, len) => self.escaped(kind, inside, len),
            Found::Fault(Fault { message, len }) => {
                let message = String::from_str(self.alloc, message);
                Err(self.fail(message, len))
            }
        }
    }

    // The end of a tag.
    fn close(&mut self, kind: Kind, dash: bool) -> (Token<'a>, Span)
        requires going { self.old.failed ≡ false }
        requires inside { self.old.tag ≡ Some kind }
        requires stops { StopsAt is_ascii_whitespace self.old.rest }
        requires ends { IsEndOf (end_marker kind self.old.marks) self.old.rest (Some dash) }
        ensures { Steps (stream_of self.old) (Some (Ok result)) (stream_of self.new) }
    {
        let len = self.delimiters.end(kind).len() + dash_len(dash);
        let (_, span) = self.advance(len);
        self.tag = None;
        self.trim = dash;
        (end_token(kind, dash), span)
    }

    // A string with escapes, which has this inside and takes so many bytes.
    fn escaped(
        &mut self,
        kind: Kind,
        inside: &'a str,
        len: usize,
    ) -> Result<(Token<'a>, Span), Error>
        requires going { self.old.failed ≡ false }
        requires inside { self.old.tag ≡ Some kind }
        requires some { 0 < length self.old.rest }
        requires stops { StopsAt is_ascii_whitespace self.old.rest }
        requires no_end { is_at_end (end_marker kind self.old.marks) self.old.rest ≡ false }
        requires string { IsEscapedAt inside.now len (front_of self.old.rest) }
        requires cut { IsCharBoundary self.old.rest len }
        ensures { Steps (stream_of self.old) (Some result) (stream_of self.new) }
    {
        match unescape(self.alloc, inside) {
            Ok(text) => {
                let (_, span) = self.advance(len);
                Ok((Token::String(text), span))
            }
            Err(error) => {
                self.failed = true;
                Err(Error::from(error))
            }
        }
    }
}

// The token of the end of a tag.
fn end_token(kind: Kind, dash: bool) -> Token<'static>
    ensures { seen result ≡ Finish kind dash }
{
    match kind {
        Kind::Variable => Token::VariableEnd(dash),
        Kind::Block => Token::TagEnd(dash),
    }
}

// The text without the white space at its start and at its end, where asked.
fn trimmed(text: &str, start: bool, end: bool) -> &str
    ensures value { result.now ≡ trimmed start end text.now }
    ensures part { IsPart result.now text.now }
{
    let text = if start { text.trim_start() } else { text };
    if end { text.trim_end() } else { text }
}

//! The tokens of a text, which go on with the next tag after a lexical fault.

ghost use Rattle.std.specs.Prelude.{◌≡◌, ◌+◌, ◌++◌, ◌^◌, ◌<◌, map, None, Some, IfOk, IfSome, OnOk};
ghost use Rattle.std.specs.Str.{IsCharBoundary};
ghost use Rattle.tera_lexer.specs.code.Seen.{seen};
ghost use Rattle.tera_lexer.specs.grammar.Division.{is_at_start};
ghost use Rattle.tera_lexer.specs.grammar.Marks.{default_marks};
ghost use Rattle.tera_lexer.specs.grammar.Tokens.{Items, AreTokensOf};
ghost use Rattle.tera_outline.specs.Pieces as specs;
ghost use Rattle.tera_outline.specs.Added.{Adds};
ghost use Rattle.tera_outline.specs.Pieces.{part_of, read_in, stopped_after, moved, before, ArePartsOf};

use std::alloc::{AllocError, Global};
use tera_base::ErrorKind;
use tera_lexer::{Delimiters, Token, Tokens, tokenize};

/// A token of a text, and where it is.
#[derive(Debug, PartialEq, Eq, Drop)]
pub struct Piece<'a> {
    pub token: Token<'a>,
    /// The byte with which it begins.
    pub start: usize,
    /// The byte after it.
    pub end: usize,
}

/// At how many places of a text reading begins at most.
const READINGS: usize = 100;

/// The tokens of the text between the default markers: all of them, if it has no lexical fault.
///
/// After a fault they go on with the first tag, comment or raw piece that begins after the start of the one in which
/// the fault is. What was read from there on is left out: a string may go over it that is not closed where it should
/// be. From there on a tag ends where the next one begins at the latest, and the tokens go on there in the same way, so
/// that a tag without an end is read once. They go on 99 times at most, after faults and such tags together.
pub fn pieces_of(alloc: Global, text: &str) -> Result<Vec<Piece<'_>>, AllocError>
    ensures { IfOk result (λ pieces. ArePartsOf text.now (map part_of pieces.items)) }
{
    let mut pieces = Vec::new(alloc);
    let mut from = 0;
    let mut again = false;
    'readings: for _reading in 0..READINGS {
        match push_reading(alloc, &mut pieces, again, text, from)? {
            Some(next) => from = next,
            None => return Ok(pieces),
        }
        again = true;
    }
    Ok(pieces)
}

// Adds the pieces of the text from the byte on, up to the byte at which they go on, and returns that byte.
fn push_reading<'a>(
    alloc: Global,
    pieces: &mut Vec<Piece<'a>>,
    again: bool,
    text: &'a str,
    from: usize,
) -> Result<Option<usize>, AllocError>
    requires { IsCharBoundary text.now from }
    ensures cut { IfOk result (λ next. IfSome next (IsCharBoundary text.now)) }
    ensures read { IfOk result (λ next. Adds again text.now from
        (map part_of pieces.old.items) next (map part_of pieces.new.items)) }
{
    let (_, rest) = text.split_at(from);
    let reading = reading_of(alloc, Rest { text: rest, again })?;
    let next = next_after(rest, reading.opened);
    push_before(pieces, from, next.unwrap_or(rest.len()), reading.pieces)?;
    match next {
        Some(next) => Ok(Some(from + next)),
        None => Ok(None),
    }
}

// What is left of a text. After a fault (`again`) a tag in it ends where the next one begins at the latest.
#[derive(Clone, Copy)]
struct Rest<'t> {
    text: &'t str,
    again: bool,
}

impl Rest<'_> {
    // Where the tag ends at the latest whose start ends with the byte, if that is known.
    fn stop(self, opened: usize) -> Option<usize>
        ensures { result ≡ specs.stop_of self.entry.again self.entry.text.now (Some opened) }
    {
        if self.again {
            next_start(self.text, opened)
        } else {
            None
        }
    }
}

// What is read of a text.
#[derive(Drop)]
struct Reading<'a> {
    pieces: Vec<Piece<'a>>,
    // The byte after the start of the tag in which it stops, or of the comment or the raw piece that has no end.
    opened: Option<usize>,
}

fn reading_of(alloc: Global, rest: Rest<'_>) -> Result<Reading<'_>, AllocError>
    ensures { IfOk result (λ r. (items : Items)
        × AreTokensOf default_marks rest.entry.text.now items
        × (map part_of r.pieces.items ≡ read_in rest.entry.again rest.entry.text.now None items)
        × (r.opened ≡ stopped_after rest.entry.again rest.entry.text.now None items)) }
{
    read(
        alloc,
        rest,
        &mut tokenize(alloc, rest.text, Delimiters::default()),
    )
}

fn read<'a>(
    alloc: Global,
    rest: Rest<'_>,
    tokens: &mut Tokens<'a>,
) -> Result<Reading<'a>, AllocError>
    ensures pieces { IfOk result (λ r. map part_of r.pieces.items
        ≡ read_in rest.entry.again rest.entry.text.now None tokens.old.left) }
    ensures opened { IfOk result (λ r. r.opened
        ≡ stopped_after rest.entry.again rest.entry.text.now None tokens.old.left) }
{
    let mut pieces = Vec::new(alloc);
    let mut tag = Open::none();
    'tokens: while let Some(item) = tokens.next() {
        let piece = match item {
            Ok((token, span)) => Piece {
                token,
                start: span.range.start,
                end: span.range.end,
            },
            Err(error) => {
                return match &error.kind {
                    ErrorKind::SyntaxError(fault) => Ok(Reading {
                        pieces,
                        opened: Some(tag.opened.unwrap_or(fault.span.range.end)),
                    }),
                    _ => Err(AllocError),
                };
            }
        };
        let opened = tag.opened;
        let ends = is_over(tag.stop, piece.end);
        tag = tag.after(rest, &piece.token, piece.end);
        pieces.push(piece)?;
        if ends {
            return Ok(Reading { pieces, opened });
        }
    }
    Ok(Reading {
        pieces,
        opened: None,
    })
}

// The tag that is open.
#[derive(Clone, Copy)]
struct Open {
    // The byte after its start; none if no tag is open.
    opened: Option<usize>,
    // Where it ends at the latest, if that is known.
    stop: Option<usize>,
}

impl Open {
    // No tag is open.
    fn none() -> Open
        ensures opened { result.opened ≡ None }
        ensures stop { result.stop ≡ None }
    {
        Open {
            opened: None,
            stop: None,
        }
    }

    // The one after the token, which ends with the byte.
    fn after(self, rest: Rest<'_>, token: &Token<'_>, end: usize) -> Open
        requires { self.stop ≡ specs.stop_of rest.again rest.text.now self.opened }
        ensures opened { result.opened ≡ specs.opened_after self.opened (seen token.now) end }
        ensures stop { result.stop
            ≡ specs.stop_of rest.entry.again rest.entry.text.now result.opened }
    {
        match token {
            Token::VariableStart(_) | Token::TagStart(_) => Open {
                opened: Some(end),
                stop: rest.stop(end),
            },
            Token::VariableEnd(_) | Token::TagEnd(_) => Open::none(),
            _ => self,
        }
    }
}

// Whether a token that ends with the byte goes over the end of its tag.
fn is_over(stop: Option<usize>, end: usize) -> bool
    ensures { result ≡ specs.is_over stop end }
{
    match stop {
        Some(stop) => stop < end,
        None => false,
    }
}

// The byte of the text at which the pieces go on, if they stop in a tag, a comment or a raw piece whose start ends with
// the byte `opened`.
fn next_after(text: &str, opened: Option<usize>) -> Option<usize>
    ensures next { result ≡ specs.start_after text.now opened }
    ensures cut { IfSome result (IsCharBoundary text.now) }
{
    match opened {
        Some(opened) => next_start(text, opened),
        None => None,
    }
}

// The first byte from this one on with which a tag, a comment or a raw piece begins.
fn next_start(text: &str, from: usize) -> Option<usize>
    ensures next { result ≡ specs.start_from from text.now }
    ensures cut { IfSome result (IsCharBoundary text.now) }
{
    let bytes = text.as_bytes();
    for at in from..bytes.len() {
        if is_start(&bytes[at..]) {
            return Some(at);
        }
    }
    None
}

// Whether a start marker begins the bytes.
fn is_start(bytes: &[u8]) -> bool
    ensures { result ≡ is_at_start default_marks bytes.now }
{
    matches!(bytes, [b'{', b'{' | b'%' | b'#', ..])
}

// Adds those that begin before the byte `stop` of what is read from the byte `from` on, and ends the last there at the
// latest.
fn push_before<'a>(
    pieces: &mut Vec<Piece<'a>>,
    from: usize,
    stop: usize,
    read: Vec<Piece<'a>>,
) -> Result<(), AllocError>
    requires { from + stop < 2 ^ 64 }
    ensures { OnOk result (map part_of pieces.new.items ≡ map part_of pieces.old.items
        ++ map (moved from) (before stop (map part_of read.entry.items))) }
{
    for piece in read {
        if stop <= piece.start {
            return Ok(());
        }
        pieces.push(Piece {
            token: piece.token,
            start: from + piece.start,
            end: from + piece.end.min(stop),
        })?;
    }
    Ok(())
}

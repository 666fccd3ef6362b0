//! What is at a place in a tag.

ghost use Rattle.std.specs.Prelude.{◌≡◌, ◌^◌, ◌<◌, ◌≤◌, ◌∷◌, [], length, take, drop, get_or, true, false, pos, string_bytes, IfOk, MatchOption};
ghost use Rattle.std.specs.List.{AllByRecursion, prefix_len};
ghost use Rattle.std.specs.Char.{is_ascii_digit};
ghost use Rattle.tera_lexer.specs.grammar.Lexeme.{begins_name, goes_on_name, is_quote, is_known, escaped, long_operator_at, short_operator, operator_at, decimal};
ghost use Rattle.tera_lexer.specs.grammar.Tokens.{name_token, unclosed};
ghost use Rattle.std.specs.Bool.{OnTrue};
ghost use Rattle.tera_lexer.specs.code.Counting.{ArePrintable, is_printable_byte};
ghost use Rattle.tera_lexer.specs.code.Seen.{seen};
ghost use Rattle.std.specs.Str.{IsCharBoundary};
ghost use Rattle.tera_lexer.specs.reading.Front.{front_of, begins_long_operator, closing_at, is_plain, unescaped, unknown_in};
ghost use Rattle.tera_lexer.specs.code.Found.{passes, goes_on_string, BeginsBy, IsClosing, IsFound, IsOperatorOf, IsTokenOf};

use crate::lexer::tokens::Token;
use memchr::memchr2;
use std::alloc::{AllocError, Global};
use std::simd::prelude::*;
use tera_base::lanes::first_set;

/// What was found: a token that is not a string, or the inside of a string without or with escapes, with how many bytes
/// it takes; or a fault.
#[derive(Drop)]
pub enum Found<'a> {
    Lexeme(Token<'a>, usize),
    Text(&'a str, usize),
    Escaped(&'a str, usize),
    Fault(Fault),
}

/// A lexical fault: its text, and how many bytes it covers.
#[derive(Clone, Copy)]
pub struct Fault {
    pub message: &'static str,
    pub len: usize,
}

/// A class of bytes.
#[derive(Clone, Copy)]
pub enum Class {
    Space,
    Name,
    Digit,
}

// Each byte of a name is at its own place, and a comma at every other place.
static NAMES: [u8; 256] = *b"\
    ,,,,,,,,,,,,,,,,,,,,,,,,,,,,,,,,\
    ,,,,,,,,,,,,,,,,0123456789,,,,,,\
    ,ABCDEFGHIJKLMNOPQRSTUVWXYZ,,,,_\
    ,abcdefghijklmnopqrstuvwxyz,,,,,\
    ,,,,,,,,,,,,,,,,,,,,,,,,,,,,,,,,\
    ,,,,,,,,,,,,,,,,,,,,,,,,,,,,,,,,\
    ,,,,,,,,,,,,,,,,,,,,,,,,,,,,,,,,\
    ,,,,,,,,,,,,,,,,,,,,,,,,,,,,,,,,";

fn is_in(class: Class, b: u8) -> bool
    ensures { result ≡ passes class b }
{
    match class {
        Class::Space => b.is_ascii_whitespace(),
        Class::Name => NAMES[usize::from(b)] != b',',
        Class::Digit => b.is_ascii_digit(),
    }
}

/// How many bytes at the front are of the class.
pub(crate) fn run_len(bytes: &[u8], class: Class) -> usize
    ensures run { result ≡ prefix_len (passes class) bytes.now }
    ensures within { result ≤ length bytes.now }
{
    bytes.iter().take_while(|b| is_in(class, **b)).count()
}

// How many bytes at the front go on a name. So many are found at a time.
fn name_len(bytes: &[u8]) -> usize
    ensures { result ≡ prefix_len goes_on_name bytes.now }
{
    if bytes.len() >= LANES {
        let len = name_lanes(bytes);
        if len < LANES {
            return len;
        }
    }
    run_len(bytes, Class::Name)
}

const LANES: usize = 16;

// The same of the first bytes.
#[inline(always)]
fn name_lanes(bytes: &[u8]) -> usize
    requires { 16 ≤ length bytes.now }
    ensures { result ≡ prefix_len goes_on_name (take 16 bytes.now) }
{
    let lanes = u8x16::from_slice(bytes);
    let from_a = (lanes | u8x16::splat(0x20)) - u8x16::splat(b'a');
    let from_0 = lanes - u8x16::splat(b'0');
    let no_letter = from_a.simd_ge(u8x16::splat(26));
    let no_digit = from_0.simd_ge(u8x16::splat(10));
    let stops = no_letter & no_digit & lanes.simd_ne(u8x16::splat(b'_'));
    first_set(stops.to_bitmask(), LANES)
}

/// Whether so many bytes at the front are printable, where one look at the lanes decides it.
#[inline(always)]
pub(crate) fn begins_printable(bytes: &[u8], len: usize) -> bool
    ensures { OnTrue result (ArePrintable (take len bytes.now)) }
{
    bytes.len() >= LANES && len <= printable_lanes(bytes)
}

// How many of the first bytes are printable.
#[inline(always)]
fn printable_lanes(bytes: &[u8]) -> usize
    requires { 16 ≤ length bytes.now }
    ensures { result ≡ prefix_len is_printable_byte (take 16 bytes.now) }
{
    let lanes = u8x16::from_slice(bytes);
    let from_space = lanes - u8x16::splat(b' ');
    let stops = from_space.simd_ge(u8x16::splat(0x60));
    first_set(stops.to_bitmask(), LANES)
}

fn is_quote(b: u8) -> bool
    ensures { result ≡ is_quote b }
{
    b == b'"' || b == b'\'' || b == b'`'
}

/// What is at the front of the text, in a tag.
pub(crate) fn lexeme_at(rest: &str) -> Found<'_>
    requires { 0 < length rest.now }
    ensures { IsFound result (front_of rest.now) }
{
    let first = rest.as_bytes()[0];
    if is_in(Class::Name, first) {
        if first.is_ascii_digit() {
            number_at(rest)
        } else {
            name_at(rest)
        }
    } else if is_quote(first) {
        string_at(rest)
    } else {
        match operator_at(rest.as_bytes()) {
            Some((token, len)) => Found::Lexeme(token, len),
            None => Found::Fault(Fault {
                message: "Unexpected character",
                len: 0,
            }),
        }
    }
}

fn number_at(rest: &str) -> Found<'_>
    requires { BeginsBy is_ascii_digit rest.now }
    ensures { IsFound result (front_of rest.now) }
{
    let len = run_len(rest.as_bytes(), Class::Digit);
    let (digits, following) = rest.split_at(len);
    let following = following.as_bytes();
    if following.starts_with(b".") {
        let more = run_len(&following[1..], Class::Digit);
        return Found::Fault(Fault {
            message: "Float literals are not supported",
            len: len + 1 + more,
        });
    }
    match integer_of(digits) {
        Some(n) => Found::Lexeme(Token::Integer(n), len),
        None => Found::Fault(Fault {
            message: "Invalid Integer",
            len,
        }),
    }
}

// The number that the digits write, unless it is too great.
fn integer_of(digits: &str) -> Option<i64>
    requires some { 0 < length digits.now }
    requires digits { AllByRecursion (λ d. is_ascii_digit d ≡ true) digits.now }
    ensures { MatchOption result (2 ^ 63 ≤ decimal digits.now) (λ n.
        (decimal digits.now < 2 ^ 63) × (n ≡ pos (decimal digits.now))) }
{
    digits.parse::<i64>().ok()
}

fn name_at(rest: &str) -> Found<'_>
    requires { BeginsBy begins_name rest.now }
    ensures { IsFound result (front_of rest.now) }
{
    let len = name_len(rest.as_bytes());
    let (name, _) = rest.split_at(len);
    Found::Lexeme(word(name), len)
}

// A name, or one of the words for true and false.
fn word(name: &str) -> Token<'_>
    ensures { seen result ≡ name_token name.now }
{
    match name.as_bytes() {
        b"true" | b"True" => Token::Bool(true),
        b"false" | b"False" => Token::Bool(false),
        _ => Token::Ident(name),
    }
}

fn string_at(rest: &str) -> Found<'_>
    requires { BeginsBy is_quote rest.now }
    ensures { IsFound result (front_of rest.now) }
{
    let quote = rest.as_bytes()[0];
    let (_, following) = rest.split_at(1);
    let Some((len, escapes)) = string_end(following.as_bytes(), quote) else {
        return Found::Fault(Fault {
            message: unclosed(quote),
            len: 0,
        });
    };
    let (inside, _) = following.split_at(len);
    if !escapes {
        return Found::Text(inside, len + 2);
    }
    if has_unknown_escape(inside.as_bytes()) {
        return Found::Fault(Fault {
            message: "unexpected escape character",
            len: len + 2,
        });
    }
    Found::Escaped(inside, len + 2)
}

// Where the quote comes that closes a string, and whether a backslash is before it.
#[tactic(auto, using(crate::proofs::Closings::hidden_by_escape))]
fn string_end(bytes: &[u8], quote: u8) -> Option<(usize, bool)>
    requires { is_quote quote ≡ true }
    ensures { IsClosing (closing_at quote false bytes.now) bytes.now result }
{
    let len = string_len(bytes, quote);
    if len < bytes.len() && bytes[len] == quote {
        return Some((len, false));
    }
    let len = closing_at(bytes, quote)?;
    Some((len, true))
}

// How many bytes at the front go on a string without escapes. Most strings end within the lanes.
fn string_len(bytes: &[u8], quote: u8) -> usize
    ensures { result ≡ prefix_len (goes_on_string quote) bytes.now }
{
    if bytes.len() >= LANES {
        let len = string_lanes(bytes, quote);
        if len < LANES {
            return len;
        }
    }
    match memchr2(quote, b'\\', bytes) {
        Some(at) => at,
        None => bytes.len(),
    }
}

// The same of the first bytes.
#[inline(always)]
fn string_lanes(bytes: &[u8], quote: u8) -> usize
    requires { 16 ≤ length bytes.now }
    ensures { result ≡ prefix_len (goes_on_string quote) (take 16 bytes.now) }
{
    let lanes = u8x16::from_slice(bytes);
    let stops = lanes.simd_eq(u8x16::splat(quote)) | lanes.simd_eq(u8x16::splat(b'\\'));
    first_set(stops.to_bitmask(), LANES)
}

// Whether a backslash is before a byte that makes no escape with it.
fn has_unknown_escape(bytes: &[u8]) -> bool
    ensures { result ≡ unknown_in false bytes.now }
{
    let mut escape = false;
    for b in bytes {
        if escape {
            if !is_known_escape(*b) {
                return true;
            }
            escape = false;
        } else if *b == b'\\' {
            escape = true;
        }
    }
    false
}

fn is_known_escape(b: u8) -> bool
    ensures { result ≡ is_known b }
{
    matches!(b, b'"' | b'\'' | b'/' | b'\\' | b'n' | b't' | b'r')
}

/// The text that the inside of a string stands for.
pub(crate) fn unescape(alloc: Global, inside: &str) -> Result<String, AllocError>
    requires { unknown_in false inside.now ≡ false }
    ensures { IfOk result (λ text. string_bytes text ≡ unescaped inside.now) }
{
    let mut text = String::new(alloc);
    let mut rest = inside;
    loop {
        let (plain, escape) = rest.split_at(plain_len(rest.as_bytes()));
        text.push_str(plain)?;
        if escape.len() < 2 {
            text.push_str(escape)?;
            return Ok(text);
        }
        let (escape, following) = escape.split_at(2);
        text.push_str(escaped(escape))?;
        rest = following;
    }
}

// How many bytes are before the first backslash.
fn plain_len(bytes: &[u8]) -> usize
    ensures run { result ≡ prefix_len is_plain bytes.now }
    ensures within { result ≤ length bytes.now }
{
    bytes.iter().take_while(|b| **b != b'\\').count()
}

// What an escape of two bytes stands for.
fn escaped(escape: &str) -> &str
    requires len { length escape.now ≡ 2 }
    requires cut { IsCharBoundary escape.now 1 }
    ensures { result.now ≡ escaped (get_or escape.now 1 0) ∷ [] }
{
    match escape.as_bytes()[1] {
        b'n' => "\n",
        b't' => "\t",
        b'r' => "\r",
        _ => {
            let (_, itself) = escape.split_at(1);
            itself
        }
    }
}

// Where the quote comes that closes a string, which a backslash before it hides.
#[tactic(auto, using(crate::proofs::Closings::closing_escaped, crate::proofs::Closings::closing_escape, crate::proofs::Closings::closing_plain, crate::proofs::Closings::closing_here, crate::proofs::Closings::closing_nowhere, crate::proofs::Closings::further_none))]
fn closing_at(bytes: &[u8], quote: u8) -> Option<usize>
    ensures { result ≡ closing_at quote false bytes.now }
{
    let mut escaped = false;
    for (i, b) in bytes.iter().enumerate() {
        if escaped {
            escaped = false;
        } else if *b == b'\\' {
            escaped = true;
        } else if *b == quote {
            return Some(i);
        }
    }
    None
}

fn unclosed(quote: u8) -> &'static str
    requires { is_quote quote ≡ true }
    ensures { result.now ≡ unclosed quote }
{
    match quote {
        b'"' => "String opened with `\"` is missing its closing `\"`",
        b'\'' => "String opened with `'` is missing its closing `'`",
        _ => "String opened with ``` is missing its closing ```",
    }
}

// The operator that begins the bytes, with its length: the longest that does.
#[tactic(auto, using(crate::proofs::Operators::long_begins))]
fn operator_at(bytes: &[u8]) -> Option<(Token<'static>, usize)>
    requires { 0 < length bytes.now }
    ensures { IsOperatorOf result (operator_at bytes.now) }
{
    if begins_long_operator(bytes[0]) {
        if let Some(found) = long_operator_at(bytes) {
            return Some(found);
        }
    }
    let token = short_operator(bytes[0])?;
    Some((token, 1))
}

// Whether an operator of more than one byte begins with the byte.
fn begins_long_operator(b: u8) -> bool
    ensures { result ≡ begins_long_operator b }
{
    matches!(b, b'.' | b'/' | b'*' | b'=' | b'!' | b'>' | b'<' | b'?')
}

fn long_operator_at(bytes: &[u8]) -> Option<(Token<'static>, usize)>
    ensures { IsOperatorOf result (long_operator_at bytes.now) }
{
    match bytes {
        [b'.', b'.', b'.', ..] => Some((Token::Spread, 3)),
        [b'/', b'/', ..] => Some((Token::FloorDiv, 2)),
        [b'*', b'*', ..] => Some((Token::Power, 2)),
        [b'=', b'=', ..] => Some((Token::Equal, 2)),
        [b'!', b'=', ..] => Some((Token::NotEqual, 2)),
        [b'>', b'=', ..] => Some((Token::GreaterThanOrEqual, 2)),
        [b'<', b'=', ..] => Some((Token::LessThanOrEqual, 2)),
        [b'<', b'/', ..] => Some((Token::ClosingTagStart, 2)),
        [b'?', b'.', ..] => Some((Token::QuestionMarkDot, 2)),
        [b'?', b'[', ..] => Some((Token::QuestionMarkLeftBracket, 2)),
        _ => None,
    }
}

fn short_operator(b: u8) -> Option<Token<'static>>
    ensures { IsTokenOf result (short_operator b) }
{
    match b {
        b'+' => Some(Token::Plus),
        b'-' => Some(Token::Minus),
        b'*' => Some(Token::Mul),
        b'/' => Some(Token::Div),
        b'%' => Some(Token::Mod),
        b'!' => Some(Token::Bang),
        b'.' => Some(Token::Dot),
        b',' => Some(Token::Comma),
        b':' => Some(Token::Colon),
        b'~' => Some(Token::Tilde),
        b'|' => Some(Token::Pipe),
        b'=' => Some(Token::Assign),
        b'>' => Some(Token::GreaterThan),
        b'<' => Some(Token::LessThan),
        b'(' => Some(Token::LeftParen),
        b')' => Some(Token::RightParen),
        b'[' => Some(Token::LeftBracket),
        b']' => Some(Token::RightBracket),
        b'{' => Some(Token::LeftBrace),
        b'}' => Some(Token::RightBrace),
        b'@' => Some(Token::At),
        _ => None,
    }
}

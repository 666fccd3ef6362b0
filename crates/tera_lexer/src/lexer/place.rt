//! Places in a source.

ghost use Rattle.std.specs.Prelude.{◌≡◌, ◌+◌, ◌<◌, ◌≤◌, ◌^◌, List, ℕ, length, count_by};
ghost use Rattle.std.specs.Bool.{OnTrue};
ghost use Rattle.tera_lexer.specs.grammar.Place.{is_line_feed, begins_character};
ghost use Rattle.tera_lexer.specs.code.Counting.{ArePrintable};

use memchr::memrchr;
use tera_base::Span;

/// A place in a source.
#[derive(Clone, Copy, Debug, PartialEq, Eq)]
pub struct Place {
    /// From 1; only a line feed begins a line.
    pub line: usize,
    /// From 0, in characters.
    pub column: usize,
    /// From 0.
    pub byte: usize,
}

impl Place {
    ghost use Rattle.tera_lexer.specs.grammar.Place.{joined};
    ghost use Rattle.tera_lexer.specs.code.Counting.{moved};

    /// The place after this text, which is at this place.
    #[inline(always)]
    pub(crate) fn after(self, text: &str) -> Place
        requires line { self.line + length text.now < 2 ^ 64 }
        requires column { self.column + length text.now < 2 ^ 64 }
        requires byte { self.byte + length text.now < 2 ^ 64 }
        ensures { result ≡ moved self text.now }
    {
        let bytes = text.as_bytes();
        if bytes.len() < 32 && is_printable(bytes) {
            self.along(bytes.len())
        } else {
            self.counted(bytes)
        }
    }

    /// The same for so many printable bytes.
    #[inline(always)]
    pub(crate) fn along(self, len: usize) -> Place
        requires column { self.column + len < 2 ^ 64 }
        requires byte { self.byte + len < 2 ^ 64 }
        ensures { (text : List ℕ) → len ≡ length text → ArePrintable text → result ≡ moved self text }
    {
        Place {
            line: self.line,
            column: self.column + len,
            byte: self.byte + len,
        }
    }

    // The same. Lines and characters are counted many bytes at a time.
    #[inline(never)]
    fn counted(self, bytes: &[u8]) -> Place
        requires line { self.line + length bytes.now < 2 ^ 64 }
        requires column { self.column + length bytes.now < 2 ^ 64 }
        requires byte { self.byte + length bytes.now < 2 ^ 64 }
        ensures { result ≡ moved self bytes.now }
    {
        let byte = self.byte + bytes.len();
        let Some(last) = memrchr(b'\n', bytes) else {
            return Place {
                line: self.line,
                column: self.column + characters(bytes),
                byte,
            };
        };
        let (_, following) = bytes.split_at(last + 1);
        Place {
            line: self.line + line_feeds(bytes),
            column: characters(following),
            byte,
        }
    }

    /// The span from this place to another.
    pub(crate) fn to(self, end: Place) -> Span
        ensures { result ≡ joined self end }
    {
        Span {
            start_line: self.line,
            start_col: self.column,
            end_line: end.line,
            end_col: end.column,
            range: self.byte..end.byte,
        }
    }
}

// Whether the bytes are ASCII without control bytes, and so on one line and a character each.
#[inline(always)]
fn is_printable(bytes: &[u8]) -> bool
    ensures { OnTrue result (ArePrintable bytes.now) }
{
    for b in bytes {
        if *b < 0x20 || *b >= 0x80 {
            return false;
        }
    }
    true
}

// How many lines end in the bytes.
fn line_feeds(bytes: &[u8]) -> usize
    ensures count { result ≡ count_by is_line_feed bytes.now }
    ensures within { result ≤ length bytes.now }
{
    let mut count = 0;
    let mut rest = bytes;
    while !rest.is_empty() {
        let (chunk, following) = rest.split_at(rest.len().min(128));
        count += usize::from(few_line_feeds(chunk));
        rest = following;
    }
    count
}

// The same of so few bytes that a byte counts them.
fn few_line_feeds(bytes: &[u8]) -> u8
    requires { length bytes.now ≤ 128 }
    ensures { result ≡ count_by is_line_feed bytes.now }
{
    let mut count = 0;
    for b in bytes {
        count += u8::from(*b == b'\n');
    }
    count
}

// How many characters begin in the bytes.
fn characters(bytes: &[u8]) -> usize
    ensures count { result ≡ count_by begins_character bytes.now }
    ensures within { result ≤ length bytes.now }
{
    let mut count = 0;
    let mut rest = bytes;
    while !rest.is_empty() {
        let (chunk, following) = rest.split_at(rest.len().min(128));
        count += usize::from(few_characters(chunk));
        rest = following;
    }
    count
}

// The same of so few bytes that a byte counts them.
fn few_characters(bytes: &[u8]) -> u8
    requires { length bytes.now ≤ 128 }
    ensures { result ≡ count_by begins_character bytes.now }
{
    let mut count = 0;
    for b in bytes {
        count += u8::from(*b < 0x80 || *b >= 0xC0);
    }
    count
}

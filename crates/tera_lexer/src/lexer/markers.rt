//! Where markers are.

ghost use Rattle.std.specs.Prelude.{◌≡◌, ◌≤◌, ◌∷◌, ◌+◌, ◌||◌, true, false, List, ℕ, Some, IfSome, MatchOption, length, drop};
ghost use Rattle.std.specs.Bool.{OnTrue};
ghost use Rattle.std.specs.Str.{IsCharBoundary};
ghost use Rattle.memchr.specs.Find.{IsFirstByte, FindsNeedle, Nowhere, OccursAt, Passes, is_byte3};
ghost use Rattle.tera_lexer.specs.grammar.Marks.{Marks, marks_of, IsValid, begins, dash_bytes};
ghost use Rattle.tera_lexer.specs.grammar.Raw.{raw_word};
ghost use Rattle.tera_lexer.specs.grammar.Division.{is_at_start};
ghost use Rattle.tera_lexer.specs.reading.Front.{find_marker, gap_len, word_tag_at, raw_end};
ghost use Rattle.tera_lexer.specs.reading.Left.{starts_dashed};
ghost use Rattle.tera_lexer.specs.code.Markers.{ArePairs, IsPair, IsStart, IsStartOf, IsEndOf, IsTextLen, IsWordTagOf, IsRawEndOf, IsRawCut, IsAhead, further_end};

use crate::lexer::delimiters::Delimiters;
use crate::lexer::lexeme::{Class, run_len};
use memchr::{memchr3, memmem};

/// How many bytes a dash takes, or none.
pub(crate) fn dash_len(dash: bool) -> usize
    ensures { result ≡ length (dash_bytes dash) }
{
    usize::from(dash)
}

/// What begins a text: a start marker, with a dash after it or none, or no marker.
#[derive(Clone, Copy)]
pub(crate) enum Start {
    Variable(bool),
    Block(bool),
    Comment(bool),
    Text,
}

/// The two bytes of a marker.
#[derive(Clone, Copy)]
pub(crate) struct Pair {
    pub first: u8,
    pub second: u8,
}

impl Pair {
    // Those of this marker.
    fn of(marker: &str) -> Pair
        requires { length marker.now ≡ 2 }
        ensures { IsPair marker.now result }
    {
        let bytes = marker.as_bytes();
        Pair {
            first: bytes[0],
            second: bytes[1],
        }
    }

    // Whether the marker begins the bytes.
    fn begins(self, bytes: &[u8]) -> bool
        ensures { (marker : List ℕ) → IsPair marker self → result ≡ begins marker bytes.now }
    {
        bytes.len() >= 2 && bytes[0] == self.first && bytes[1] == self.second
    }
}

/// The start markers by their bytes.
#[derive(Clone, Copy)]
pub(crate) struct Pairs {
    pub variable: Pair,
    pub block: Pair,
    pub comment: Pair,
}

impl Pairs {
    /// Those of these markers.
    pub(crate) fn of(delimiters: &Delimiters) -> Pairs
        requires { IsValid (marks_of delimiters.now) }
        ensures { ArePairs (marks_of delimiters.now) result }
    {
        Pairs {
            variable: Pair::of(delimiters.variable_start.as_str()),
            block: Pair::of(delimiters.block_start.as_str()),
            comment: Pair::of(delimiters.comment_start.as_str()),
        }
    }

    /// What begins the text.
    #[inline(always)]
    pub(crate) fn start_of(&self, rest: &str) -> Start
        ensures { (m : Marks) → ArePairs m self.now → IsStart m rest.now result }
    {
        let bytes = rest.as_bytes();
        if bytes.len() < 2 {
            return Start::Text;
        }
        let (_, following) = bytes.split_at(2);
        let dash = following.starts_with(b"-");
        if self.variable.begins(bytes) {
            return Start::Variable(dash);
        }
        if self.block.begins(bytes) {
            return Start::Block(dash);
        }
        if self.comment.begins(bytes) {
            return Start::Comment(dash);
        }
        Start::Text
    }

    // Whether one of them begins the bytes.
    fn begin(&self, bytes: &[u8]) -> bool
        ensures { (m : Marks) → ArePairs m self.now → result ≡ is_at_start m bytes.now }
    {
        self.variable.begins(bytes) || self.block.begins(bytes) || self.comment.begins(bytes)
    }
}

/// What is known of the piece that comes next, where its end was looked for to see whether it is one.
#[derive(Clone, Copy)]
pub(crate) enum Ahead {
    /// Nothing.
    Nothing,
    /// It is a comment with a dash, whose end marker is so many bytes after that.
    Comment(usize),
    /// It is a raw piece with a dash: the tag that opens it, and where the block start is that closes it, with the tag
    /// after that.
    Raw(WordTag, (usize, WordTag)),
}

// Whether the marker begins the bytes.
fn begins(bytes: &[u8], marker: &[u8]) -> bool
    ensures { result ≡ begins marker.now bytes.now }
{
    if marker.len() == 2 && bytes.len() >= 2 {
        return bytes[0] == marker[0] && bytes[1] == marker[1];
    }
    bytes.starts_with(marker)
}

/// Whether the marker begins the text, which may then be cut after it.
pub(crate) fn at_marker(rest: &str, marker: &str) -> bool
    ensures test { result ≡ begins marker.now rest.now }
    ensures cut { OnTrue result (IsCharBoundary rest.now (length marker.now)) }
{
    begins(rest.as_bytes(), marker.as_bytes())
}

// Whether a dash and then the marker begin the text, which may then be cut after them.
fn at_dashed(rest: &str, marker: &str) -> bool
    ensures test { result ≡ begins (45 ∷ marker.now) rest.now }
    ensures cut { OnTrue result (IsCharBoundary rest.now (length marker.now + 1)) }
{
    let bytes = rest.as_bytes();
    bytes.starts_with(b"-") && begins(&bytes[1..], marker.as_bytes())
}

/// Whether a dash is before the end marker that begins the text, if it does.
#[tactic(auto, using(crate::proofs::Dashes::end_found_dashed, crate::proofs::Dashes::end_found_plain))]
pub(crate) fn end_at(rest: &str, marker: &str) -> Option<bool>
    ensures { IsEndOf marker.now rest.now result }
{
    if at_dashed(rest, marker) {
        Some(true)
    } else if at_marker(rest, marker) {
        Some(false)
    } else {
        None
    }
}

/// How many bytes are before the first start marker.
pub(crate) fn text_len(rest: &str, pairs: &Pairs) -> usize
    ensures { (m : Marks) → ArePairs m pairs.now → IsTextLen m rest.now result }
{
    let bytes = rest.as_bytes();
    let (variable, block, comment) = (pairs.variable.first, pairs.block.first, pairs.comment.first);
    let mut from = 0;
    while let Some(len) = next_of(variable, block, comment, &bytes[from..]) {
        let at = from + len;
        if pairs.begin(&bytes[at..]) {
            return at;
        }
        from = at + 1;
    }
    bytes.len()
}

// Where the first of three bytes is. It is looked for nearby first, where a search would cost more.
fn next_of(a: u8, b: u8, c: u8, bytes: &[u8]) -> Option<usize>
    ensures { IsFirstByte (is_byte3 a b c) bytes.now result }
{
    let near = bytes.len().min(4);
    for i in 0..near {
        if bytes[i] == a || bytes[i] == b || bytes[i] == c {
            return Some(i);
        }
    }
    further_of(a, b, c, bytes, near)
}

// The same, where none is before this place. A hit costs the least in a window of fewer than 64 bytes.
fn further_of(a: u8, b: u8, c: u8, bytes: &[u8], first: usize) -> Option<usize>
    requires within { first ≤ length bytes.now }
    requires passed { Nowhere (Passes (is_byte3 a b c) bytes.now) 0 first }
    ensures { IsFirstByte (is_byte3 a b c) bytes.now result }
{
    let mut from = first;
    while from < bytes.len() {
        let (_, rest) = bytes.split_at(from);
        let (window, _) = rest.split_at(rest.len().min(63));
        if let Some(at) = memchr3(a, b, c, window) {
            return Some(from + at);
        }
        from += window.len();
    }
    None
}

/// How many bytes are before the first such marker.
pub(crate) fn find_marker(bytes: &[u8], marker: &[u8]) -> Option<usize>
    requires { length marker.now ≡ 2 }
    ensures { result ≡ find_marker marker.now bytes.now }
{
    first_marker(bytes, marker)
}

// The same, where the marker is. It is looked for nearby first, where the search would cost more.
fn first_marker(bytes: &[u8], marker: &[u8]) -> Option<usize>
    requires { length marker.now ≡ 2 }
    ensures { FindsNeedle bytes.now marker.now 0 result }
{
    let near = bytes.len().min(16);
    if let Some(at) = near_marker(bytes, near, marker) {
        return Some(at);
    }
    let (_, far) = bytes.split_at(near);
    match memmem::find(far, marker) {
        Some(at) => Some(near + at),
        None => None,
    }
}

// Where the marker is among the first places.
fn near_marker(bytes: &[u8], near: usize, marker: &[u8]) -> Option<usize>
    requires two { length marker.now ≡ 2 }
    requires near { near ≤ length bytes.now }
    ensures { MatchOption result (Nowhere (OccursAt bytes.now marker.now) 0 near) (λ i.
        FindsNeedle bytes.now marker.now 0 (Some i)) }
{
    for i in 0..near {
        if begins(&bytes[i..], marker) {
            return Some(i);
        }
    }
    None
}

/// Whether the text before this one loses the white space at its end, by its own end or by the dash with which the
/// piece begins that begins this text; and what was found of that piece. A tag is one even where it never ends or a
/// fault is in it; a comment or a raw piece that never closes is none.
#[inline(always)]
pub(crate) fn look_ahead(
    trim: bool,
    rest: &str,
    pairs: &Pairs,
    delimiters: &Delimiters,
) -> (bool, Ahead)
    requires { ArePairs (marks_of delimiters.now) pairs.now }
    ensures trims { result.0 ≡ trim || starts_dashed (marks_of delimiters.now) rest.now }
    ensures ahead { IsAhead (marks_of delimiters.now) rest.now result.1 }
{
    if trim {
        return (true, Ahead::Nothing);
    }
    match pairs.start_of(rest) {
        Start::Variable(dash) => (dash, Ahead::Nothing),
        Start::Block(dash) if dash => block_ahead(rest, delimiters),
        Start::Comment(dash) if dash => comment_ahead(rest, delimiters),
        _ => (false, Ahead::Nothing),
    }
}

// The same, where a block start with a dash begins the text.
fn block_ahead(rest: &str, delimiters: &Delimiters) -> (bool, Ahead)
    requires valid { IsValid (marks_of delimiters.now) }
    requires starts { IsStartOf (marks_of delimiters.now).block_start rest.now (Some true) }
    ensures trims { result.0 ≡ starts_dashed (marks_of delimiters.now) rest.now }
    ensures ahead { IsAhead (marks_of delimiters.now) rest.now result.1 }
{
    let (_, following) = rest.split_at(delimiters.block_start.len() + 1);
    let end = delimiters.block_end.as_str().as_bytes();
    let Some(opening) = raw_tag_at(following.as_bytes(), end) else {
        return (true, Ahead::Nothing);
    };
    let (_, body) = following.split_at(opening.len);
    match raw_end(body, delimiters) {
        Some(closing) => (true, Ahead::Raw(opening, closing)),
        None => (false, Ahead::Nothing),
    }
}

// The same, where a comment start with a dash begins the text.
fn comment_ahead(rest: &str, delimiters: &Delimiters) -> (bool, Ahead)
    requires valid { IsValid (marks_of delimiters.now) }
    requires starts { IsStartOf (marks_of delimiters.now).comment_start rest.now (Some true) }
    ensures trims { result.0 ≡ starts_dashed (marks_of delimiters.now) rest.now }
    ensures ahead { IsAhead (marks_of delimiters.now) rest.now result.1 }
{
    let (_, following) = rest.as_bytes().split_at(delimiters.comment_start.len() + 1);
    match find_marker(following, delimiters.comment_end.as_str().as_bytes()) {
        Some(len) => (true, Ahead::Comment(len)),
        None => (false, Ahead::Nothing),
    }
}

/// A tag that opens or closes a raw piece, after its block start and the dash of that: whether it begins and ends with
/// a dash, and how many bytes it takes.
#[derive(Clone, Copy)]
pub struct WordTag {
    pub dash_in: bool,
    pub dash_out: bool,
    pub len: usize,
}

/// The tag that begins the bytes and opens a raw piece, if one does.
#[inline(never)]
pub(crate) fn raw_tag_at(bytes: &[u8], end: &[u8]) -> Option<WordTag>
    ensures { IsWordTagOf raw_word end.now result (word_tag_at raw_word end.now bytes.now) }
{
    word_tag_at(bytes, b"raw", end)
}

// The tag of this word that begins the bytes, if one does.
#[inline(always)]
fn word_tag_at(bytes: &[u8], word: &[u8], end: &[u8]) -> Option<WordTag>
    ensures { IsWordTagOf word.now end.now result (word_tag_at word.now end.now bytes.now) }
{
    let dash_in = bytes.starts_with(b"-");
    let (_, inner) = bytes.split_at(dash_len(dash_in));
    let (_, at) = inner.split_at(run_len(inner, Class::Space));
    if !at.starts_with(word) {
        return None;
    }
    let (_, after) = at.split_at(word.len());
    let (_, last) = after.split_at(run_len(after, Class::Space));
    let dash_out = last.starts_with(b"-");
    let (_, at) = last.split_at(dash_len(dash_out));
    if !begins(at, end) {
        return None;
    }
    let (_, rest) = at.split_at(end.len());
    Some(WordTag {
        dash_in,
        dash_out,
        len: bytes.len() - rest.len(),
    })
}

/// Where the block start is that closes a raw piece, and the tag after it.
pub(crate) fn raw_end(text: &str, delimiters: &Delimiters) -> Option<(usize, WordTag)>
    requires { IsValid (marks_of delimiters.now) }
    ensures end { IsRawEndOf (marks_of delimiters.now).block_end result
        (raw_end (marks_of delimiters.now).block_start
        (marks_of delimiters.now).block_end false text.now) }
    ensures cut { IfSome result (IsRawCut (marks_of delimiters.now) text.now) }
{
    let start = delimiters.block_start.as_str().as_bytes();
    let end = delimiters.block_end.as_str().as_bytes();
    end_between(text.as_bytes(), start, end)
}

// The same, by the two markers. In most bodies the first block start closes: the others have a search of their own.
fn end_between(bytes: &[u8], start: &[u8], end: &[u8]) -> Option<(usize, WordTag)>
    requires start { length start.now ≡ 2 }
    ensures { IsRawEndOf end.now result (raw_end start.now end.now false bytes.now) }
{
    let Some(at) = first_marker(bytes, start) else {
        return None;
    };
    let (_, following) = bytes.split_at(at + 2);
    match word_tag_at(following, b"endraw", end) {
        Some(tag) => Some((at, tag)),
        None => end_after(bytes, at + 2, start, end),
    }
}

// The same, where it is not before this place.
//
// Block starts may themselves be white space. Where a tag is missed after a run of it, none is at any place of the run:
// so no run is read again at each block start in it.
fn end_after(bytes: &[u8], first: usize, start: &[u8], end: &[u8]) -> Option<(usize, WordTag)>
    requires start { length start.now ≡ 2 }
    requires within { first ≤ length bytes.now }
    requires left { raw_end start.now end.now false bytes.now
        ≡ further_end first (raw_end start.now end.now false (drop first bytes.now)) }
    ensures { IsRawEndOf end.now result (raw_end start.now end.now false bytes.now) }
{
    let starts = memmem::Finder::new(start);
    let mut from = first;
    let mut missed = 0;
    while let Some(len) = next_start(&starts, &bytes[from..]) {
        let at = from + len;
        let (_, following) = bytes.split_at(at + 2);
        if missed < at + 2 || following.starts_with(b"-") {
            if let Some(tag) = word_tag_at(following, b"endraw", end) {
                return Some((at, tag));
            }
            missed = at + 2 + start_gap_len(following, start);
        }
        from = at + 2;
    }
    None
}

// Where the next block start is. It is looked for nearby first, where the search would cost more.
fn next_start(starts: &memmem::Finder<'_>, bytes: &[u8]) -> Option<usize>
    requires { length starts.now ≡ 2 }
    ensures { FindsNeedle bytes.now starts.now 0 result }
{
    let near = bytes.len().min(2);
    if let Some(at) = near_marker(bytes, near, starts.needle()) {
        return Some(at);
    }
    let (_, far) = bytes.split_at(near);
    match starts.find(far) {
        Some(at) => Some(near + at),
        None => None,
    }
}

// How many bytes of a gap may hold block starts: none where those begin with no white space.
fn start_gap_len(bytes: &[u8], start: &[u8]) -> usize
    requires { length start.now ≡ 2 }
    ensures len { result ≤ gap_len bytes.now }
    ensures within { result ≤ length bytes.now }
{
    if start[0].is_ascii_whitespace() {
        gap_len(bytes)
    } else {
        0
    }
}

// How many bytes a dash or none and then white space take.
fn gap_len(bytes: &[u8]) -> usize
    ensures len { result ≡ gap_len bytes.now }
    ensures within { result ≤ length bytes.now }
{
    let dash = dash_len(bytes.starts_with(b"-"));
    let (_, inner) = bytes.split_at(dash);
    dash + run_len(inner, Class::Space)
}

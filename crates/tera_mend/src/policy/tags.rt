//! The tags of a text, whether they are closed or not.

use crate::policy::words::{Body, Role, role_of, split_name};
use memchr::memmem;
use std::alloc::{AllocError, Global};

/// A tag: its parts one after the other are `opening`, `white`, `word`, `rest` and, where it is closed, an end
/// marker. One that is not closed ends at the next start of a tag, or with its line.
#[derive(Clone, Copy)]
pub(crate) struct Tag<'t> {
    /// How many tags are before it, and how many bytes.
    pub(crate) number: usize,
    pub(crate) start: usize,
    /// How many bytes are before it on its line, where these are white space.
    pub(crate) column: Option<usize>,
    pub(crate) whole: &'t [u8],
    pub(crate) closed: bool,
    pub(crate) role: Role,
    /// The start marker and a dash.
    pub(crate) opening: &'t [u8],
    pub(crate) white: &'t [u8],
    /// The word; of a call `<` or `</`.
    pub(crate) word: &'t [u8],
    pub(crate) rest: &'t [u8],
}

impl<'t> Tag<'t> {
    /// The number of bytes before its end.
    pub(crate) fn end(&self) -> usize {
        self.start.saturating_add(self.whole.len())
    }

    /// Whether it is closed and the lexer finds its end there.
    pub(crate) fn ends_as_lexed(&self) -> bool {
        let len = match self.role {
            Role::Variable => closed_len(self.whole, b'}', false),
            _ => closed_len(self.whole, b'%', false),
        };
        self.closed && len == Some(self.whole.len())
    }

    /// The name after the word, which may be empty.
    pub(crate) fn name(&self) -> &'t [u8] {
        split_name(self.rest.trim_ascii_start(), true).0
    }
}

/// The tags of a text with a fault.
#[derive(Drop)]
pub(crate) struct Tags<'t> {
    pub(crate) all: Vec<Tag<'t>>,
    /// The number of the tag that the lexer had begun and not ended where the fault is.
    pub(crate) opened: Option<usize>,
    /// Whether the lexer finds no end of that one at all.
    pub(crate) endless: bool,
}

// What is known of the rest of a text: where its fault is, whether the lexer ended all tags so far before that, and
// whether ends of comments and of raw pieces may be there.
#[derive(Drop)]
struct Ahead {
    fault: usize,
    lexes: bool,
    comments: bool,
    raws: bool,
}

// The length of a tag, whether it is closed, and whether the lexer ended it before the fault, or never.
#[derive(Drop)]
struct Extent {
    len: usize,
    closed: bool,
    lexed: bool,
    endless: bool,
}

// How many tags after the fault are listed.
const MOST_AFTER: usize = 50_000;

/// The tags of a text whose fault is at this byte. Those before it end where the lexer ended them.
pub(crate) fn tags_of<'t>(
    alloc: Global,
    text: &'t [u8],
    fault: usize,
) -> Result<Tags<'t>, AllocError> {
    let mut all = Vec::new(alloc);
    let (mut opened, mut endless) = (None, false);
    let mut ahead = Ahead {
        fault,
        lexes: true,
        comments: true,
        raws: true,
    };
    let mut next = 0usize;
    let mut column = Some(0usize);
    let mut after = 0usize;
    for (start, pair) in text.windows(2).enumerate() {
        if start >= next && is_start(pair) {
            let (mut tag, found) = tag_at(&mut ahead, text, start);
            tag.number = all.len();
            tag.column = column;
            next = tag.end();
            if ahead.lexes && !found.lexed {
                ahead.lexes = false;
                endless = found.endless;
                if start <= fault {
                    opened = Some(all.len());
                }
            }
            all.push(tag)?;
            after = after.saturating_add(usize::from(start > fault));
            if after >= MOST_AFTER {
                break;
            }
        }
        column = column_after(column, pair);
    }
    Ok(Tags {
        all,
        opened,
        endless,
    })
}

fn column_after(column: Option<usize>, pair: &[u8]) -> Option<usize> {
    match (column, pair) {
        (_, [b'\n', ..]) => Some(0),
        (Some(column), [b' ' | b'\t', ..]) => Some(column.saturating_add(1)),
        _ => None,
    }
}

fn is_start(pair: &[u8]) -> bool {
    matches!(pair, [b'{', b'{' | b'%' | b'#'])
}

// The tag that begins there.
fn tag_at<'t>(ahead: &mut Ahead, text: &'t [u8], start: usize) -> (Tag<'t>, Extent) {
    let (_, bytes) = text.split_at_checked(start).unwrap_or((text, b""));
    let (found, role) = match bytes {
        [_, b'#', ..] => (comment_extent(ahead, bytes), Role::Comment),
        [_, b'{', ..] => (tag_extent(ahead, bytes, start, b'}'), Role::Variable),
        _ => match word_tag_len(bytes, b"raw") {
            Some(len) => (raw_extent(ahead, bytes, len), Role::Raw),
            None => (tag_extent(ahead, bytes, start, b'%'), Role::Unknown),
        },
    };
    let (whole, _) = bytes.split_at_checked(found.len).unwrap_or((bytes, b""));
    let plain = Tag {
        number: 0,
        start,
        column: None,
        whole,
        closed: found.closed,
        role,
        opening: b"",
        white: b"",
        word: b"",
        rest: b"",
    };
    match role {
        Role::Unknown => (with_word(plain), found),
        _ => (plain, found),
    }
}

// The tag with its word.
fn with_word<'t>(plain: Tag<'t>) -> Tag<'t> {
    let body = plain.whole.strip_suffix(b"%}").unwrap_or(plain.whole);
    let inside = body.strip_prefix(b"{%").unwrap_or(body);
    let inside = inside.strip_prefix(b"-").unwrap_or(inside);
    let from_word = inside.trim_ascii_start();
    let (word, rest, role) = parts_of(from_word);
    Tag {
        role,
        opening: body.strip_suffix(inside).unwrap_or(body),
        white: inside.strip_suffix(from_word).unwrap_or(inside),
        word,
        rest,
        ..plain
    }
}

// The word of a tag, what is after it, and what the tag is for.
fn parts_of(from_word: &[u8]) -> (&[u8], &[u8], Role) {
    match from_word {
        [b'<', b'/', rest @ ..] => (b"</", rest, Role::End(Body::Call)),
        [b'<', rest @ ..] => (b"<", rest, call_role(rest)),
        _ => {
            let (word, rest) = split_name(from_word, false);
            (word, rest, role_of(word, rest))
        }
    }
}

fn call_role(rest: &[u8]) -> Role {
    let rest = rest.trim_ascii_end();
    let rest = rest.strip_suffix(b"-").unwrap_or(rest).trim_ascii_end();
    match rest {
        [.., b'/', b'>'] => Role::Alone,
        _ => Role::Head(Body::Call),
    }
}

fn comment_extent(ahead: &mut Ahead, bytes: &[u8]) -> Extent {
    if ahead.comments
        && let [_, _, inside @ ..] = bytes
    {
        if let Some(len) = memmem::find(inside, b"#}") {
            return extent_of(len.saturating_add(4), true);
        }
        ahead.comments = false;
    }
    extent_of(short_len(bytes, b'#').0, false)
}

// A raw piece whose first tag has this length.
fn raw_extent(ahead: &mut Ahead, bytes: &[u8], first: usize) -> Extent {
    if ahead.raws {
        if let Some(len) = raw_len(bytes) {
            return extent_of(len, true);
        }
        ahead.raws = false;
    }
    extent_of(first, false)
}

// The length of a tag that is closed, or whose end is not there.
fn extent_of(len: usize, closed: bool) -> Extent {
    Extent {
        len,
        closed,
        lexed: closed,
        endless: !closed,
    }
}

// A tag that ends with the byte `last` and `}`. From the tag of the fault on, its end is a guess.
fn tag_extent(ahead: &Ahead, bytes: &[u8], start: usize, last: u8) -> Extent {
    let lexes = ahead.lexes && start <= ahead.fault;
    let lexed = if lexes {
        closed_len(bytes, last, false)
    } else {
        None
    };
    if let Some(len) = lexed
        && start.saturating_add(len) <= ahead.fault
    {
        return extent_of(len, true);
    }
    let (len, closed) = match closed_len(bytes, last, true) {
        Some(len) => (len, true),
        None => short_len(bytes, last),
    };
    Extent {
        len,
        closed,
        lexed: false,
        endless: lexed.is_none(),
    }
}

// The quote of the string that is open after the byte, and whether a backslash came last in it.
fn string_after(quote: Option<u8>, escaped: bool, byte: u8) -> (Option<u8>, bool) {
    match (quote, byte) {
        (Some(_), _) if escaped => (quote, false),
        (Some(_), b'\\') => (quote, true),
        (Some(open), _) if open == byte => (None, false),
        (None, b'"' | b'\'' | b'`') => (Some(byte), false),
        _ => (quote, false),
    }
}

// Whether a tag begins at the second of these bytes, which are in a tag. An attribute may begin with `={{`.
fn begins_in_tag(three: &[u8]) -> bool {
    match three {
        [b'=', b'{', b'{'] => false,
        [_, pair @ ..] => is_start(pair),
        [] => false,
    }
}

// The length of a tag up to its end marker outside of strings. If `wary`, none where something before that says that
// the tag was to end earlier: a start of a tag, or an end marker in a string.
fn closed_len(bytes: &[u8], last: u8, wary: bool) -> Option<usize> {
    let (mut quote, mut escaped) = (None, false);
    for (at, three) in bytes.windows(3).enumerate() {
        let [_, byte, next] = three else {
            continue;
        };
        if at == 0 {
            continue;
        }
        let is_end = *byte == last && *next == b'}';
        if is_end && quote.is_none() {
            return Some(at.saturating_add(3));
        }
        if wary && (is_end || begins_in_tag(three)) {
            return None;
        }
        (quote, escaped) = string_after(quote, escaped, *byte);
    }
    None
}

// The length of a tag up to the first end marker, and true; where the next start of a tag is before that, up to this
// or to the end of the line, and false.
fn short_len(bytes: &[u8], last: u8) -> (usize, bool) {
    let mut line = None;
    for (at, three) in bytes.windows(3).enumerate() {
        if at == 0 {
            continue;
        }
        let here = at.saturating_add(1);
        if begins_in_tag(three) {
            return (line.unwrap_or(here), false);
        }
        if let [_, byte, b'}'] = three
            && *byte == last
        {
            return (here.saturating_add(2), true);
        }
        if let [_, b'\n', _] = three {
            line = line.or(Some(here));
        }
    }
    (line.unwrap_or(bytes.len()), false)
}

// The length of the tag that is this word alone, with dashes and white space.
fn word_tag_len(bytes: &[u8], word: &[u8]) -> Option<usize> {
    let inside = bytes.strip_prefix(b"{%")?;
    let inside = inside.strip_prefix(b"-").unwrap_or(inside);
    let rest = inside.trim_ascii_start().strip_prefix(word)?;
    let rest = rest.trim_ascii_start();
    let rest = rest.strip_prefix(b"-").unwrap_or(rest).strip_prefix(b"%}")?;
    Some(bytes.len().saturating_sub(rest.len()))
}

// The length of a raw piece, with its last tag.
fn raw_len(bytes: &[u8]) -> Option<usize> {
    for (at, pair) in bytes.windows(2).enumerate() {
        if let [b'{', b'%'] = pair
            && let Some((_, tag)) = bytes.split_at_checked(at)
            && let Some(len) = word_tag_len(tag, b"endraw")
        {
            return Some(at.saturating_add(len));
        }
    }
    None
}

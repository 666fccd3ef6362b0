//! What tags are for, and the words that say so.

use std::alloc::{AllocError, Global};
use std::str;
use strsim::osa_distance;
use tera_lexer::words::STATEMENTS;

/// What has a body, from its head to its end.
#[derive(Clone, Copy, PartialEq, Eq)]
pub(crate) enum Body {
    If,
    For,
    Block,
    Filter,
    Component,
    Set,
    /// A call of a component, `<name>` to `</name>`.
    Call,
}

/// What a tag is for.
#[derive(Clone, Copy, PartialEq, Eq)]
pub(crate) enum Role {
    Comment,
    /// A raw piece, up to its `endraw`.
    Raw,
    Variable,
    Head(Body),
    End(Body),
    Else,
    Elif,
    /// A tag without a body: `include`, `extends`, a `set` with a value, a call without a body, a jump.
    Alone,
    /// A tag whose word is none.
    Unknown,
}

/// What a tag of this word is for. `rest` is what is after the word: a `set` without a value has a body.
pub(crate) fn role_of(word: &[u8], rest: &[u8]) -> Role {
    match word {
        b"if" => Role::Head(Body::If),
        b"for" => Role::Head(Body::For),
        b"block" => Role::Head(Body::Block),
        b"filter" => Role::Head(Body::Filter),
        b"component" => Role::Head(Body::Component),
        b"set" | b"set_global" if has_value(rest) => Role::Alone,
        b"set" | b"set_global" => Role::Head(Body::Set),
        b"endif" => Role::End(Body::If),
        b"endfor" => Role::End(Body::For),
        b"endblock" => Role::End(Body::Block),
        b"endfilter" => Role::End(Body::Filter),
        b"endcomponent" => Role::End(Body::Component),
        b"endset" => Role::End(Body::Set),
        b"else" => Role::Else,
        b"elif" => Role::Elif,
        b"include" | b"extends" | b"break" | b"continue" => Role::Alone,
        _ => Role::Unknown,
    }
}

// Whether something but filters is after the name of a variable.
fn has_value(rest: &[u8]) -> bool {
    let (_, after) = split_name(rest.trim_ascii_start(), false);
    !matches!(after.trim_ascii_start(), [] | [b'|', ..] | [b'-'])
}

/// The tag at the end of a body. That of a call has its name.
pub(crate) fn end_tag(body: Body) -> &'static str {
    match body {
        Body::If => "{%endif%}",
        Body::For => "{%endfor%}",
        Body::Block => "{%endblock%}",
        Body::Filter => "{%endfilter%}",
        Body::Component => "{%endcomponent%}",
        Body::Set => "{%endset%}",
        Body::Call => "",
    }
}

/// The word of that tag.
pub(crate) fn end_word(body: Body) -> &'static [u8] {
    match end_tag(body).as_bytes() {
        [_, _, word @ .., _, _] => word,
        _ => b"",
    }
}

/// The words that may have been meant by this one, the nearest first: by letters that are missing, too many, others
/// or exchanged, one in a short word and two in a longer one; and words with which it begins.
pub(crate) fn near_words(alloc: Global, word: &[u8]) -> Result<Vec<&'static str>, AllocError> {
    let mut found = Vec::new(alloc);
    let mut farther = Vec::new(alloc);
    let Ok(text) = str::from_utf8(word) else {
        return Ok(found);
    };
    for other in &STATEMENTS {
        let other = *other;
        // A raw piece has a reading of its own.
        if other == "raw" {
            continue;
        }
        let mut far = usize::MAX;
        if text.len() <= other.len().saturating_add(2) {
            far = osa_distance(alloc, text, other)?;
        }
        if far <= 1 && !text.is_empty() {
            found.push(other)?;
        } else if text.starts_with(other) || (far == 2 && other.len() > 4) {
            farther.push(other)?;
        }
    }
    found.extend_from_slice(farther.as_slice())?;
    Ok(found)
}

/// A name, which may be empty, and what is after it; with `dots` a name of parts with dots between.
pub(crate) fn split_name(bytes: &[u8], dots: bool) -> (&[u8], &[u8]) {
    let mut len = 0usize;
    let mut in_part = false;
    for (at, byte) in bytes.iter().enumerate() {
        let begins_part = *byte == b'_' || byte.is_ascii_alphabetic();
        if begins_part || (in_part && byte.is_ascii_digit()) {
            in_part = true;
            len = at.saturating_add(1);
        } else if in_part && dots && *byte == b'.' {
            in_part = false;
        } else {
            break;
        }
    }
    bytes.split_at_checked(len).unwrap_or((bytes, b""))
}

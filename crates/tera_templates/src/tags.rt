//! The words with which tags begin.

use crate::lost::goes_on_name;
use std::alloc::{AllocError, Global};
use tera_parser::lexer::{Delimiters, Token, tokenize};
use tera_parser::value::{ErrorKind, Span};

/// What a tag is for.
#[derive(Clone, Copy, Debug, PartialEq, Eq)]
pub(crate) enum Role {
    /// It begins something that has an end.
    Head,
    End,
    /// `else` or `elif`.
    Middle,
    Other,
}

/// The role of a tag by its word alone: `Head` also for a `set` with a value and for a call without a body.
pub(crate) fn role_of(word: &str) -> Role {
    match word {
        "if" | "for" | "block" | "component" | "set" | "set_global" | "filter" | "raw" | "<" => {
            Role::Head
        }
        "endif"
        | "endfor"
        | "endblock"
        | "endcomponent"
        | "endset"
        | "endfilter"
        | "endraw"
        | "</" => Role::End,
        "else" | "elif" => Role::Middle,
        _ => Role::Other,
    }
}

/// The word of a tag: where it is in a text, and its role.
#[derive(Clone, Copy, Debug)]
pub(crate) struct Word {
    pub(crate) start: usize,
    pub(crate) end: usize,
    pub(crate) role: Role,
}

/// The word of the tag that begins at this byte. For a call it is `<` and the name; for a variable tag or a comment it
/// is the start marker.
pub(crate) fn word_at(text: &str, start: usize) -> Option<Word> {
    let tag = text.get(start..)?;
    let Some(inside) = tag.strip_prefix("{%") else {
        return marker_at(tag, start);
    };
    let inside = inside.strip_prefix('-').unwrap_or(inside).trim_start();
    let len = word_len(inside);
    let first = text.len().saturating_sub(inside.len());
    let role = match inside.as_bytes() {
        [b'<', b'/', ..] => Role::End,
        [b'<', ..] => Role::Head,
        _ => role_of(inside.get(..len)?),
    };
    Some(Word {
        start: first,
        end: first.saturating_add(len),
        role,
    })
}

fn marker_at(tag: &str, start: usize) -> Option<Word> {
    if tag.starts_with("{{") || tag.starts_with("{#") {
        return Some(Word {
            start,
            end: start.saturating_add(2),
            role: Role::Other,
        });
    }
    None
}

// The length of the word with which the text begins; for a call, of `<` or `</` and the name.
fn word_len(text: &str) -> usize {
    let name = text.trim_start_matches('<').trim_start_matches('/');
    let marks = text.len().saturating_sub(name.len());
    for (at, byte) in name.as_bytes().iter().enumerate() {
        let is_in_name = goes_on_name(*byte) || (*byte == b'.' && marks > 0);
        if !is_in_name {
            return marks.saturating_add(at);
        }
    }
    text.len()
}

/// An end tag in a text, and the word of the head to which it belongs.
#[derive(Clone, Copy, Debug)]
pub(crate) struct Closed {
    pub(crate) at: usize,
    pub(crate) head: Word,
}

/// The end tags of a template that begin at this byte or after it, up to the first lexical fault.
pub(crate) fn closed_from(
    alloc: Global,
    text: &str,
    from: usize,
) -> Result<Vec<Closed>, AllocError> {
    let mut closed = Vec::new(alloc);
    let mut open = Vec::new(alloc);
    let mut tag = None;
    let mut tokens = tokenize(alloc, text, Delimiters::default());
    while let Some(item) = tokens.next() {
        match item {
            Ok((Token::TagStart(_), span)) => tag = Some(Begun::at(&span)),
            Ok((Token::TagEnd(_), _)) => {
                if let Some(begun) = tag {
                    end_tag(&mut open, &mut closed, begun, from)?;
                }
                tag = None;
            }
            Ok((token, span)) => tag = tag.map(|begun: Begun| begun.with(&token, &span)),
            Err(error) => {
                return match error.kind {
                    ErrorKind::Memory => Err(AllocError),
                    _ => Ok(closed),
                };
            }
        }
    }
    Ok(closed)
}

// Takes a whole tag: a head is open then, and an end closes the last open one.
fn end_tag(
    open: &mut Vec<Word>,
    closed: &mut Vec<Closed>,
    tag: Begun,
    from: usize,
) -> Result<(), AllocError> {
    match tag.role() {
        Role::Head => open.push(tag.word)?,
        Role::End => {
            if let Some(head) = open.pop()
                && tag.start >= from
            {
                closed.push(Closed {
                    at: tag.start,
                    head,
                })?;
            }
        }
        Role::Middle | Role::Other => {}
    }
    Ok(())
}

// A tag, and what is known of it after some of its tokens.
#[derive(Clone, Copy)]
struct Begun {
    start: usize,
    tokens: usize,
    word: Word,
    is_set: bool,
    is_call: bool,
    // Whether it is a `set` with a value.
    has_value: bool,
    // Whether the last token was `/`, and whether one was before the last `>`.
    after_slash: bool,
    is_closed: bool,
}

impl Begun {
    fn at(span: &Span) -> Begun {
        let start = span.range.start;
        Begun {
            start,
            tokens: 0,
            word: Word {
                start,
                end: start,
                role: Role::Other,
            },
            is_set: false,
            is_call: false,
            has_value: false,
            after_slash: false,
            is_closed: false,
        }
    }

    fn with(self, token: &Token<'_>, span: &Span) -> Begun {
        let begun = Begun {
            tokens: self.tokens.saturating_add(1),
            after_slash: matches!(token, Token::Div),
            is_closed: self.after_slash && matches!(token, Token::GreaterThan),
            has_value: self.has_value || (self.tokens == 2 && matches!(token, Token::Assign)),
            ..self
        };
        if self.tokens == 0 {
            return begun.with_word(token, span);
        }
        let in_name = self.is_call && span.range.start == self.word.end;
        if in_name && matches!(token, Token::Ident(_) | Token::Dot) {
            let end = span.range.end;
            let word = Word { end, ..self.word };
            return Begun { word, ..begun };
        }
        begun
    }

    fn with_word(self, token: &Token<'_>, span: &Span) -> Begun {
        let word = match token {
            Token::Ident(word) => *word,
            Token::LessThan => "<",
            Token::ClosingTagStart => "</",
            _ => "",
        };
        Begun {
            word: Word {
                start: span.range.start,
                end: span.range.end,
                role: role_of(word),
            },
            is_set: word == "set" || word == "set_global",
            is_call: word == "<" || word == "</",
            ..self
        }
    }

    // The role of the tag, after all its tokens.
    fn role(&self) -> Role {
        if (self.is_set && self.has_value) || (self.is_call && self.is_closed) {
            return Role::Other;
        }
        self.word.role
    }
}

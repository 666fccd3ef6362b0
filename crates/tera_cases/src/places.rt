//! Where faults are reported: nothing that comes later matters, and nothing that comes earlier is one.

use crate::faults::{Detail, error_text};
use crate::settings::Setting;
use crate::trees::{Use, read};
use std::alloc::{AllocError, Global};
use tera_base::{Error, ErrorKind, Span};
use tera_lexer::{Token, Tokens, tokenize};
use tera_parser::ParserOutput;

// What may come in place of the rest of a source. Each begins with a blank, so that no token before it goes on.
const ENDINGS: [&str; 14] = [
    " ",
    " x",
    " 1",
    " 'x'",
    " in",
    " (",
    " ]",
    " =",
    " %}",
    " -%}",
    " }}",
    " {% if a %}",
    " 'open",
    " $",
];

/// What is wrong with the place of the source's fault, if something is.
pub(crate) fn wrong_place(
    alloc: Global,
    setting: &Setting<'_>,
    source: &str,
) -> Result<Option<&'static str>, AllocError> {
    let Some(fault) = fault_of(alloc, setting, source)? else {
        return Ok(None);
    };
    let lexemes = lexemes_of(alloc, setting, source)?;
    if !stays(alloc, setting, source, &fault, &lexemes)? {
        return Ok(Some("another answer if something else follows its fault and the next token"));
    }
    if !is_first(alloc, setting, source, &fault, &lexemes)? {
        return Ok(Some("a beginning before its fault that is refused before its end"));
    }
    Ok(None)
}

// A fault: its answer, and the bytes that it is about.
#[derive(Drop)]
struct Fault {
    answer: String,
    start: usize,
    end: usize,
}

// The fault of the source, if it has one.
fn fault_of(
    alloc: Global,
    setting: &Setting<'_>,
    source: &str,
) -> Result<Option<Fault>, AllocError> {
    read(alloc, setting, source, &Reporting { file: setting.file })
}

// The faults of a file.
#[derive(Drop)]
struct Reporting<'a> {
    file: &'a str,
}

impl Use for Reporting<'_> {
    type Made = Option<Fault>;

    fn of_tree(&self, _alloc: Global, _output: &ParserOutput) -> Result<Option<Fault>, AllocError> {
        Ok(None)
    }

    fn of_fault(&self, alloc: Global, error: &Error) -> Result<Option<Fault>, AllocError> {
        let ErrorKind::SyntaxError(report) = &error.kind else {
            return Err(AllocError);
        };
        let range = &report.span.range;
        Ok(Some(Fault {
            answer: error_text(alloc, self.file, Detail::Both, error)?,
            start: range.start,
            end: range.end,
        }))
    }
}

// A token: where it begins and ends, and whether it is a text, which goes on to the next start of a tag.
#[derive(Clone, Copy)]
struct Lexeme {
    start: usize,
    end: usize,
    is_text: bool,
}

// The tokens of the source up to its lexical fault.
fn lexemes_of(
    alloc: Global,
    setting: &Setting<'_>,
    source: &str,
) -> Result<Vec<Lexeme>, AllocError> {
    let delimiters = setting.delimiters.clone()?;
    if delimiters.validate(alloc).is_err() {
        return Ok(Vec::new(alloc));
    }
    let mut tokens = tokenize(alloc, source, delimiters);
    gathered(alloc, &mut tokens)
}

fn gathered(alloc: Global, tokens: &mut Tokens<'_>) -> Result<Vec<Lexeme>, AllocError> {
    let mut all = Vec::new(alloc);
    for item in tokens {
        let Ok((token, span)) = item else {
            return Ok(all);
        };
        all.push(lexeme_of(&token, &span))?;
    }
    Ok(all)
}

fn lexeme_of(token: &Token<'_>, span: &Span) -> Lexeme {
    Lexeme {
        start: span.range.start,
        end: span.range.end,
        is_text: matches!(token, Token::Content(_)),
    }
}

// Whether the same is reported whatever follows the fault and the next token. Where no token follows, or a text does,
// nothing else may follow.
fn stays(
    alloc: Global,
    setting: &Setting<'_>,
    source: &str,
    fault: &Fault,
    lexemes: &Vec<Lexeme>,
) -> Result<bool, AllocError> {
    let Some(kept) = kept(source, fault, lexemes) else {
        return Ok(true);
    };
    for ending in ENDINGS.iter() {
        let changed = format!(in alloc; "{kept}{ending}")?;
        match fault_of(alloc, setting, changed.as_str())? {
            Some(other) if other.answer.as_str() == fault.answer.as_str() => (),
            _ => return Ok(false),
        }
    }
    Ok(true)
}

// The source up to the end of the first token that begins where the fault ends, or later.
fn kept<'a>(source: &'a str, fault: &Fault, lexemes: &Vec<Lexeme>) -> Option<&'a str> {
    for lexeme in lexemes {
        if lexeme.start >= fault.end {
            if lexeme.is_text {
                return None;
            }
            return source.get(..lexeme.end);
        }
    }
    None
}

// Whether each beginning that ends with a token before the fault is a template, or is refused at its end.
fn is_first(
    alloc: Global,
    setting: &Setting<'_>,
    source: &str,
    fault: &Fault,
    lexemes: &Vec<Lexeme>,
) -> Result<bool, AllocError> {
    for lexeme in lexemes {
        if lexeme.end > fault.start {
            return Ok(true);
        }
        if !ends_last(alloc, setting, source, lexeme.end)? {
            return Ok(false);
        }
    }
    Ok(true)
}

// Whether so many bytes of the source are a template, or are refused at their end.
fn ends_last(
    alloc: Global,
    setting: &Setting<'_>,
    source: &str,
    length: usize,
) -> Result<bool, AllocError> {
    let Some(beginning) = source.get(..length) else {
        return Ok(true);
    };
    match fault_of(alloc, setting, beginning)? {
        Some(fault) => Ok(fault.end == length),
        None => Ok(true),
    }
}

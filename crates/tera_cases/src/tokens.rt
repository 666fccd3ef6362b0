//! The tokens of a source.

use crate::settings::Setting;
use case_files::Shown;
use std::alloc::{AllocError, Global};
use tera_base::{Error, ErrorKind, Span};
use tera_lexer::{Token, Tokens, tokenize};

/// The tokens of the source, and at last its fault.
pub(crate) fn listing(
    alloc: Global,
    setting: &Setting<'_>,
    source: &str,
) -> Result<String, AllocError> {
    let delimiters = setting.delimiters.clone()?;
    if delimiters.validate(alloc).is_err() {
        return Ok(String::new(alloc));
    }
    let mut tokens = tokenize(alloc, source, delimiters);
    items_text(alloc, setting.options.shown, &mut tokens)
}

fn items_text(alloc: Global, shown: Shown, tokens: &mut Tokens<'_>) -> Result<String, AllocError> {
    let mut all = String::new(alloc);
    for item in tokens {
        let text = item_text(alloc, shown, item)?;
        if !all.is_empty() {
            all.push_str("; ")?;
        }
        all.push_str(text.as_str())?;
    }
    Ok(all)
}

fn item_text(
    alloc: Global,
    shown: Shown,
    item: Result<(Token<'_>, Span), Error>,
) -> Result<String, AllocError> {
    match item {
        Ok((token, span)) => token_text(alloc, shown, &token, &span),
        Err(error) => fault_text(alloc, shown, &error),
    }
}

fn token_text(
    alloc: Global,
    shown: Shown,
    token: &Token<'_>,
    span: &Span,
) -> Result<String, AllocError> {
    let place = place_text(alloc, shown, span)?;
    match shown {
        Shown::TokenNames => format!(in alloc; "{place} {token}"),
        _ => format!(in alloc; "{place} {token:?}"),
    }
}

fn fault_text(alloc: Global, shown: Shown, error: &Error) -> Result<String, AllocError> {
    let ErrorKind::SyntaxError(report) = &error.kind else {
        return Err(AllocError);
    };
    let place = place_text(alloc, shown, &report.span)?;
    let message = report.message.as_str();
    format!(in alloc; "{place} {message}")
}

fn place_text(alloc: Global, shown: Shown, span: &Span) -> Result<String, AllocError> {
    let (line, column) = (span.start_line, span.start_col);
    let (last, end) = (span.end_line, span.end_col);
    let range = &span.range;
    match shown {
        Shown::TokenPlaces => format!(in alloc; "{line}:{column}-{last}:{end} ({range:?})"),
        _ => format!(in alloc; "{range:?}"),
    }
}

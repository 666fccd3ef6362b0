//! The words with which the tags of a template begin.

use crate::settings::Setting;
use std::alloc::{AllocError, Global};
use tera_lexer::words::STATEMENTS;
use tera_lexer::{Token, tokenize};

/// Whether each word with which a tag of the template begins is one that the language lists.
pub(crate) fn are_listed(
    alloc: Global,
    setting: &Setting<'_>,
    source: &str,
) -> Result<bool, AllocError> {
    let delimiters = setting.delimiters.clone()?;
    if delimiters.validate(alloc).is_err() {
        return Ok(true);
    }
    let mut begins = false;
    for item in tokenize(alloc, source, delimiters) {
        let Ok((token, _span)) = item else {
            return Ok(true);
        };
        if begins && !is_listed(&token) {
            return Ok(false);
        }
        begins = matches!(token, Token::TagStart(_));
    }
    Ok(true)
}

// Whether the token is a word of statements, or no word.
fn is_listed(token: &Token<'_>) -> bool {
    match token {
        Token::Ident(word) => STATEMENTS.iter().any(|listed| listed == word),
        _ => true,
    }
}

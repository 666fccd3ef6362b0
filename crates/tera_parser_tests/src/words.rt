//! The words with which tags begin.

use std::alloc::Global;
use std::test::Fail;
use tera_lexer::words::STATEMENTS;
use tera_parser::Parser;
use tera_parser::lexer::Delimiters;
use tera_parser::value::{Error, ErrorKind};

// What is open where a tag is tried.
const OPEN: [&str; 7] = [
    "",
    "{% if a %}",
    "{% for a in b %}",
    "{% block a %}",
    "{% filter a %}",
    "{% component a() %}",
    "{% set a %}",
];

// Whether a tag begins with the word somewhere.
fn is_known(alloc: Global, word: &str) -> Result<bool, Error> {
    for open in &OPEN {
        if !is_unknown(alloc, open, word)? {
            return Ok(true);
        }
    }
    Ok(false)
}

// Whether no tag begins with the word there.
fn is_unknown(alloc: Global, open: &str, word: &str) -> Result<bool, Error> {
    let source = format!(in alloc; "{open}{{% {word} %}}")?;
    match Parser::new(alloc, "page.html", source.as_str(), Delimiters::default()).parse() {
        Ok(_output) => Ok(false),
        Err(error) => Ok(says_unknown(&error)),
    }
}

fn says_unknown(error: &Error) -> bool {
    match &error.kind {
        ErrorKind::SyntaxError(report) => report.message.as_str() == "Unknown tag",
        _ => false,
    }
}

#[test]
fn each_word_of_statements_begins_a_tag(rt: HostRuntime) -> Result<(), Fail> {
    for word in &STATEMENTS {
        assert!(rt; is_known(rt.alloc(), word)?, "{word}");
    }
    assert!(rt; !is_known(rt.alloc(), "iff")?);
    Ok(())
}

//! Where components are defined, in sources that are put together of pieces.

use std::alloc::{AllocError, Global};
use std::test::Fail;
use tera_check::{Place, read_template};
use tera_parser::expr::component_name;
use tera_parser::lexer::{Cursor, Delimiters, Token, tokenize};
use tera_parser::value::{Error, Span};

// Definitions; what looks like one in a comment, a raw piece, a string or a text; other words; lines; and faults, by
// which nothing is defined.
const PIECES: [&str; 17] = [
    "",
    "é ü",
    "\r\n€\n ",
    "{% component a() %}x{% endcomponent %}",
    "{%- component\r\n ui . \nb(x=1) -%}\n{% endcomponent %}",
    "{%\tcomponent\x0C c.d.e(s = \"é\") {\"k\": 1} %}{% endcomponent c.d.e %}",
    "{%component f(s=\"{% component z()\")%}{%endcomponent%}",
    "{#- {% component g() %} #}",
    "{% raw %}{%- component h() %}{% endraw %}",
    "{{ '{% component i' }}",
    " component %component -component",
    "{% set component = 1 %}{{ component }}",
    "{% for component in x %}{% endfor %}",
    "{% if x %}{%-\ncomponent j() %}{% endcomponent %}{% endif %}",
    "{% component_k() %}",
    "{% component -l() %}{% endcomponent %}",
    "{{ ! }}",
];

#[test]
fn spans_are_those_of_the_tokens(rt: HostRuntime) -> Result<(), Fail> {
    for first in &PIECES {
        for second in &PIECES {
            for third in &PIECES {
                let source = format!(in rt.alloc(); "{first}{second}{third}")?;
                let same = has_spans_of_tokens(rt.alloc(), source.as_str())?;
                assert!(rt; same, "{source}");
            }
        }
    }
    Ok(())
}

// Whether the one definition is that of `c`, which is in the second line.
fn defines_c(alloc: Global, source: &str) -> Result<bool, AllocError> {
    let template = read_template(alloc, "t", source, 0)?;
    Ok(matches!(template.defined_at.as_slice(), [span] if is_c(source, span)))
}

fn is_c(source: &str, span: &Span) -> bool {
    let (start, place) = (span.range.start, Place::of(span));
    begins_with_c(source, start)
        && span.range.end == start.saturating_add(1)
        && place.line == 2
        && place.column == 19
}

fn begins_with_c(source: &str, byte: usize) -> bool {
    match source.split_at_checked(byte) {
        Some((_, following)) => following.starts_with("c"),
        None => false,
    }
}

#[test]
fn a_span_is_that_of_the_last_part_of_the_name(rt: HostRuntime) -> Result<(), Fail> {
    for source in &[
        "é\n€ {%- component b.c() %}{% endcomponent %}",
        "é{#{% component a#}\n€ {%- component b.c() %}{% endcomponent %}",
    ] {
        assert!(rt; defines_c(rt.alloc(), source)?, "{source}");
    }
    Ok(())
}

fn has_spans_of_tokens(alloc: Global, source: &str) -> Result<bool, AllocError> {
    let template = read_template(alloc, "t", source, 0)?;
    match &template.parsed {
        Ok(_) => Ok(template.defined_at == definition_spans(alloc, source)?),
        Err(_) => Ok(template.defined_at.is_empty()),
    }
}

// The model, for a source with a tree: the spans by all its tokens.
fn definition_spans(alloc: Global, source: &str) -> Result<Vec<Span>, AllocError> {
    let mut spans = Vec::new(alloc);
    let mut cursor = Cursor::new(tokenize(alloc, source, Delimiters::default()));
    for _tag in 0..u64::MAX {
        match next_definition(&mut cursor) {
            Ok(Some(span)) => spans.push(span)?,
            Ok(None) => return Ok(spans),
            Err(_) => return Err(AllocError),
        }
    }
    Ok(spans)
}

fn next_definition(cursor: &mut Cursor<'_>) -> Result<Option<Span>, Error> {
    for _token in 0..u64::MAX {
        if is_definition(cursor) {
            return Ok(Some(named_span(cursor)?));
        }
        if !cursor.skip() {
            return end(cursor);
        }
    }
    Ok(None)
}

fn is_definition(cursor: &Cursor<'_>) -> bool {
    match (cursor.first(), cursor.second()) {
        (Some(Token::TagStart(_)), Some(Token::Ident(word))) => *word == "component",
        _ => false,
    }
}

fn named_span(cursor: &mut Cursor<'_>) -> Result<Span, Error> {
    cursor.skip();
    cursor.skip();
    let _name = component_name(cursor)?;
    Ok(cursor.current_span().copied())
}

fn end(cursor: &mut Cursor<'_>) -> Result<Option<Span>, Error> {
    match cursor.next() {
        Ok(_none) => Ok(None),
        Err(error) => Err(error),
    }
}

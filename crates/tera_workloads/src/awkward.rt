//! Sources that are awkward to read: generated ones, foreign ones, and such with one thing over and over.

use crate::expressions::{put_condition, put_quoted, put_some_number};
use crate::pages::{Kind, fill, put_variable};
use crate::pen::Pen;
use std::alloc::{AllocError, Global};

/// What there is over and over.
#[derive(Clone, Copy)]
pub(crate) enum Awkward {
    /// An `elif` of one `if`.
    Chain,
    /// Bodies one in another.
    Deep,
    /// A brace that begins no tag.
    Braces,
    /// A short comment with dashes.
    Comments,
    /// An entry of one map.
    Map,
    /// An argument of one call.
    Call,
    /// A text without tags, in letters beyond ASCII.
    Foreign,
    /// A line that ends in a carriage return too.
    Lines,
    /// A page, up to a fault on the last line.
    Fault,
    /// A string with escapes.
    Escapes,
}

/// All of them.
pub(crate) static ALL: [Awkward; 10] = [
    Awkward::Chain,
    Awkward::Deep,
    Awkward::Braces,
    Awkward::Comments,
    Awkward::Map,
    Awkward::Call,
    Awkward::Foreign,
    Awkward::Lines,
    Awkward::Fault,
    Awkward::Escapes,
];

/// A source of about so many bytes.
pub(crate) fn awkward_source(
    alloc: Global,
    seed: u64,
    kind: Awkward,
    len: u64,
) -> Result<String, AllocError> {
    let mut pen = Pen::new(alloc, seed);
    pen.reserve(len)?;
    pen.put(beginning_of(kind))?;
    for number in 0..len {
        if pen.text.len() as u64 >= len {
            break;
        }
        put_part(&mut pen, kind, number)?;
    }
    pen.put(end_of(kind))?;
    Ok(pen.text)
}

fn beginning_of(kind: Awkward) -> &'static str {
    match kind {
        Awkward::Chain => "{% if a %}b",
        Awkward::Map => "{{ {\"first\": a",
        Awkward::Call => "{{ f(first=1",
        _ => "",
    }
}

fn end_of(kind: Awkward) -> &'static str {
    match kind {
        Awkward::Chain => "{% endif %}",
        Awkward::Map => "} }}",
        Awkward::Call => ") }}",
        Awkward::Fault => "\n{{ a.b | }}",
        _ => "",
    }
}

fn put_part(pen: &mut Pen, kind: Awkward, number: u64) -> Result<(), AllocError> {
    match kind {
        Awkward::Chain => put_elif(pen),
        Awkward::Deep => put_deep(pen),
        Awkward::Braces => put_brace(pen),
        Awkward::Comments => put_short_comment(pen),
        Awkward::Map => put_entry(pen, number),
        Awkward::Call => put_argument(pen, number),
        Awkward::Foreign => put_foreign(pen),
        Awkward::Lines => put_lines(pen),
        Awkward::Fault => put_page(pen),
        Awkward::Escapes => put_escapes(pen),
    }
}

fn put_elif(pen: &mut Pen) -> Result<(), AllocError> {
    pen.put("{% elif ")?;
    put_condition(pen)?;
    pen.put(" %}")?;
    pen.put_word()
}

fn put_deep(pen: &mut Pen) -> Result<(), AllocError> {
    for _ in 0..30 {
        pen.put("{% if ")?;
        put_condition(pen)?;
        pen.put(" %}\n  ")?;
    }
    put_variable(pen)?;
    for _ in 0..30 {
        pen.put("{% endif %}\n")?;
    }
    Ok(())
}

fn put_brace(pen: &mut Pen) -> Result<(), AllocError> {
    pen.put_word()?;
    pen.put(" { margin: ")?;
    put_some_number(pen)?;
    pen.put("px } ")?;
    if pen.draws.below(4) == 0 {
        put_variable(pen)?;
    }
    Ok(())
}

fn put_short_comment(pen: &mut Pen) -> Result<(), AllocError> {
    match pen.draws.below(3) {
        0 => pen.put("{# a #}"),
        1 => pen.put("a {#- x -#} "),
        _ => pen.put("\n  {#- note #}"),
    }
}

fn put_entry(pen: &mut Pen, number: u64) -> Result<(), AllocError> {
    pen.put(", \"")?;
    pen.put_word()?;
    pen.put_number(number)?;
    pen.put("\": ")?;
    put_plain(pen)
}

fn put_argument(pen: &mut Pen, number: u64) -> Result<(), AllocError> {
    pen.put(", ")?;
    pen.put_name()?;
    pen.put("_")?;
    pen.put_number(number)?;
    pen.put("=")?;
    put_plain(pen)
}

// A value without links, of which an expression may not hold many.
fn put_plain(pen: &mut Pen) -> Result<(), AllocError> {
    match pen.draws.below(3) {
        0 => pen.put_name(),
        1 => put_some_number(pen),
        _ => put_quoted(pen),
    }
}

static LETTERS: [&str; 12] = [
    "Съешь",
    "ещё",
    "этих",
    "мягких",
    "французских",
    "булок",
    "да",
    "выпей",
    "же",
    "чаю",
    "日本語の文章",
    "\n",
];

fn put_foreign(pen: &mut Pen) -> Result<(), AllocError> {
    pen.put_one(&LETTERS)?;
    pen.put(" ")
}

fn put_lines(pen: &mut Pen) -> Result<(), AllocError> {
    pen.put_lines(1)?;
    pen.put("\r\n")?;
    if pen.draws.below(3) == 0 {
        put_variable(pen)?;
        pen.put("\r\n")?;
    }
    Ok(())
}

fn put_page(pen: &mut Pen) -> Result<(), AllocError> {
    let len = (pen.text.len() as u64).saturating_add(4_000);
    fill(pen, Kind::Body, len)
}

fn put_escapes(pen: &mut Pen) -> Result<(), AllocError> {
    pen.put("{{ 'it\\'s ")?;
    pen.put_word()?;
    pen.put("\\n' ~ ")?;
    put_quoted(pen)?;
    pen.put(" }}\n")
}

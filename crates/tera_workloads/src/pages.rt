//! Templates of web pages and of configuration, in the sizes and with the tags that such templates have.

use crate::draws::Draws;
use crate::expressions::{put_condition, put_constant, put_expression};
use crate::pen::{Open, Pen};
use std::alloc::{AllocError, Global};

/// What a template is of.
#[derive(Clone, Copy, PartialEq, Eq)]
pub(crate) enum Kind {
    /// A web page.
    Page,
    /// A file of configuration, of whose statements half set a value.
    Configuration,
    /// The body of a component: it has no block.
    Body,
}

/// A template of a site.
pub(crate) fn site_source(alloc: Global, draws: &mut Draws) -> Result<String, AllocError> {
    let len = site_len(draws);
    let kind = if draws.below(5) == 0 {
        Kind::Configuration
    } else {
        Kind::Page
    };
    source(alloc, draws.next(), kind, len)
}

// Half of them have under 550 bytes, nineteen of twenty under 4,400.
fn site_len(draws: &mut Draws) -> u64 {
    match draws.below(20) {
        0 | 1 | 2 | 3 | 4 | 5 | 6 | 7 | 8 | 9 => 60 + draws.below(490),
        19 => 4_400 + draws.below(30_000),
        _ => 550 + draws.below(3_850),
    }
}

/// A template of about so many bytes.
pub(crate) fn source(alloc: Global, seed: u64, kind: Kind, len: u64) -> Result<String, AllocError> {
    let mut pen = Pen::new(alloc, seed);
    pen.reserve(len)?;
    if kind == Kind::Page && pen.draws.below(3) == 0 {
        put_child(&mut pen, len)?;
    } else {
        fill(&mut pen, kind, len)?;
    }
    Ok(pen.text)
}

// A child template: blocks alone.
fn put_child(pen: &mut Pen, len: u64) -> Result<(), AllocError> {
    pen.begin("{%")?;
    pen.put("extends \"base.html\"")?;
    pen.end("%}")?;
    for _ in 0..len {
        let written = pen.text.len() as u64;
        if written >= len {
            return Ok(());
        }
        let part = 40 + pen.draws.below(1_500);
        pen.put("\n")?;
        open_block(pen)?;
        pen.kept = 1;
        fill(pen, Kind::Page, written.saturating_add(part))?;
    }
    Ok(())
}

/// Fills the source up to about so many bytes, and closes all that is open.
pub(crate) fn fill(pen: &mut Pen, kind: Kind, len: u64) -> Result<(), AllocError> {
    for _ in 0..len {
        if pen.text.len() as u64 >= len {
            return close_all(pen);
        }
        put_text(pen, kind)?;
        put_tag(pen, kind)?;
    }
    close_all(pen)
}

fn close_all(pen: &mut Pen) -> Result<(), AllocError> {
    pen.kept = 0;
    for _ in 0..pen.open.len() {
        close(pen)?;
    }
    Ok(())
}

static SHORT: [&str; 10] = [
    "\n", " ", "\n    ", "</td>\n", "</li>", "\n  <li>", "\"", "</a>\n  ", ", ", "</h2>\n",
];

static MIDDLE: [&str; 6] = [
    "</div>\n<div class=\"row\">\n  ",
    "</a></li>\n      <li class=\"nav-item\"><a href=\"",
    "\n    <td class=\"text-right\">",
    "</p>\n  <input type=\"hidden\" name=\"token\" value=\"",
    "</span>\n</section>\n\n<section id=\"more\">\n  <h2>",
    "\n<!-- the end of the list -->\n",
];

// What is between two tags: most often a few bytes.
fn put_text(pen: &mut Pen, kind: Kind) -> Result<(), AllocError> {
    if kind == Kind::Configuration {
        return put_line(pen);
    }
    match pen.draws.below(20) {
        0 | 1 | 2 | 3 | 4 | 5 | 6 | 7 | 8 | 9 => pen.put_one(&SHORT),
        10 | 11 | 12 | 13 | 14 | 15 => pen.put_one(&MIDDLE),
        16 | 17 => pen.put_lines(2),
        _ => pen.put_lines(7),
    }
}

fn put_line(pen: &mut Pen) -> Result<(), AllocError> {
    match pen.draws.below(4) {
        0 => pen.put("\n"),
        1 => {
            pen.put("\n# ")?;
            pen.put_lines(1)
        }
        _ => {
            pen.put("\n")?;
            pen.put_word()?;
            pen.put("_")?;
            pen.put_word()?;
            pen.put(" = ")
        }
    }
}

fn put_tag(pen: &mut Pen, kind: Kind) -> Result<(), AllocError> {
    let number = pen.draws.below(100);
    if kind == Kind::Configuration && number < 35 {
        return put_set(pen);
    }
    if number < 27 {
        put_variable(pen)
    } else if number < 43 {
        open_if(pen)
    } else if number < 50 {
        open_for(pen)
    } else if number < 58 {
        put_include(pen)
    } else if number < 64 && kind == Kind::Page && may_open_block(pen) {
        open_block(pen)
    } else if number < 71 {
        put_else(pen)
    } else if number == 99 {
        put_comment(pen)
    } else {
        close(pen)
    }
}

pub(crate) fn put_variable(pen: &mut Pen) -> Result<(), AllocError> {
    pen.begin("{{")?;
    put_expression(pen)?;
    pen.end("}}")
}

fn put_set(pen: &mut Pen) -> Result<(), AllocError> {
    pen.begin("{%")?;
    pen.put("set ")?;
    pen.put_name()?;
    pen.put_either(" = ", "=")?;
    if pen.draws.below(2) == 0 {
        put_constant(pen)?;
    } else {
        put_expression(pen)?;
    }
    pen.end("%}")
}

fn put_include(pen: &mut Pen) -> Result<(), AllocError> {
    pen.begin("{%")?;
    pen.put("include \"parts/")?;
    pen.put_name()?;
    pen.put(".html\"")?;
    pen.end("%}")
}

fn put_comment(pen: &mut Pen) -> Result<(), AllocError> {
    pen.put("{# ")?;
    pen.put_lines(1)?;
    pen.put(" #}")
}

// Whether a block may be there: no loop is open.
fn may_open_block(pen: &Pen) -> bool {
    for open in &pen.open {
        if let Open::For = open {
            return false;
        }
    }
    pen.open.len() < 8
}

fn open_block(pen: &mut Pen) -> Result<(), AllocError> {
    let number = pen.blocks;
    pen.blocks = number.wrapping_add(1);
    pen.begin("{%")?;
    pen.put("block part_")?;
    pen.put_number(number)?;
    pen.end("%}")?;
    pen.push(Open::Block(number))
}

fn open_if(pen: &mut Pen) -> Result<(), AllocError> {
    if pen.open.len() >= 8 {
        return close(pen);
    }
    pen.begin("{%")?;
    pen.put("if ")?;
    put_condition(pen)?;
    pen.end("%}")?;
    pen.push(Open::If)
}

fn open_for(pen: &mut Pen) -> Result<(), AllocError> {
    if pen.open.len() >= 8 {
        return close(pen);
    }
    pen.begin("{%")?;
    pen.put("for ")?;
    pen.put_name()?;
    pen.put(" in ")?;
    pen.put_path()?;
    pen.end("%}")?;
    pen.push(Open::For)
}

// The other branch of what is open, where it has none yet.
fn put_else(pen: &mut Pen) -> Result<(), AllocError> {
    match pen.open.pop() {
        Some(Open::If) if pen.draws.below(3) == 0 => {
            pen.begin("{%")?;
            pen.put("elif ")?;
            put_condition(pen)?;
            pen.end("%}")?;
            pen.push(Open::If)
        }
        Some(Open::If) => {
            put_words_tag(pen, "else")?;
            pen.push(Open::Else)
        }
        Some(open) => {
            pen.push(open)?;
            put_variable(pen)
        }
        None => put_variable(pen),
    }
}

fn close(pen: &mut Pen) -> Result<(), AllocError> {
    if pen.open.len() <= pen.kept {
        return put_variable(pen);
    }
    match pen.open.pop() {
        Some(Open::If) => put_words_tag(pen, "endif"),
        Some(Open::Else) => put_words_tag(pen, "endif"),
        Some(Open::For) => put_words_tag(pen, "endfor"),
        Some(Open::Block(number)) => {
            pen.begin("{%")?;
            pen.put("endblock part_")?;
            pen.put_number(number)?;
            pen.end("%}")
        }
        None => put_variable(pen),
    }
}

fn put_words_tag(pen: &mut Pen, words: &str) -> Result<(), AllocError> {
    pen.begin("{%")?;
    pen.put(words)?;
    pen.end("%}")
}

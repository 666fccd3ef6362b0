//! Expressions, as they are in tags.

use crate::pen::Pen;
use std::alloc::AllocError;

/// What a variable tag shows: most often a name or a field.
pub(crate) fn put_expression(pen: &mut Pen) -> Result<(), AllocError> {
    match pen.draws.below(20) {
        0 | 1 | 2 | 3 | 4 | 5 | 6 | 7 | 8 => pen.put_name(),
        9 | 10 | 11 | 12 | 13 => pen.put_path(),
        14 => put_filtered(pen),
        15 => put_default(pen),
        16 => put_call(pen),
        17 => put_item(pen),
        18 => put_sum(pen),
        _ => put_choice(pen),
    }
}

/// What an `if` asks.
pub(crate) fn put_condition(pen: &mut Pen) -> Result<(), AllocError> {
    match pen.draws.below(10) {
        0 | 1 | 2 => pen.put_name(),
        3 | 4 => pen.put_path(),
        5 => put_negation(pen),
        6 | 7 => put_comparison(pen),
        8 => put_both(pen),
        _ => put_test(pen),
    }
}

/// A constant of some type, as a value that is set or a default.
pub(crate) fn put_constant(pen: &mut Pen) -> Result<(), AllocError> {
    match pen.draws.below(5) {
        0 => put_quoted(pen),
        1 => put_some_number(pen),
        2 => pen.put("true"),
        3 => put_numbers(pen),
        _ => put_quoted(pen),
    }
}

pub(crate) fn put_quoted(pen: &mut Pen) -> Result<(), AllocError> {
    pen.put("\"")?;
    pen.put_word()?;
    pen.put(" ")?;
    pen.put_word()?;
    pen.put("\"")
}

pub(crate) fn put_some_number(pen: &mut Pen) -> Result<(), AllocError> {
    let number = pen.draws.below(10_000);
    pen.put_number(number)
}

fn put_numbers(pen: &mut Pen) -> Result<(), AllocError> {
    pen.put("[")?;
    put_some_number(pen)?;
    pen.put_either(", ", ",")?;
    put_some_number(pen)?;
    pen.put("]")
}

fn put_filtered(pen: &mut Pen) -> Result<(), AllocError> {
    pen.put_path()?;
    pen.put_filter()?;
    pen.put_filter()
}

fn put_default(pen: &mut Pen) -> Result<(), AllocError> {
    pen.put_name()?;
    pen.put_either(" | default(value=", "|default( value = ")?;
    put_quoted(pen)?;
    pen.put_either(")", " )")
}

fn put_call(pen: &mut Pen) -> Result<(), AllocError> {
    pen.put("get_url(path=")?;
    pen.put_path()?;
    pen.put_either(", size=", ",size = ")?;
    put_some_number(pen)?;
    pen.put(")")
}

fn put_item(pen: &mut Pen) -> Result<(), AllocError> {
    pen.put_name()?;
    pen.put("[")?;
    put_some_number(pen)?;
    pen.put("].")?;
    pen.put_name()
}

fn put_sum(pen: &mut Pen) -> Result<(), AllocError> {
    pen.put_name()?;
    pen.put_either(" + ", "+")?;
    pen.put_path()?;
    pen.put_either(" * ", "  *  ")?;
    put_some_number(pen)
}

fn put_choice(pen: &mut Pen) -> Result<(), AllocError> {
    pen.put_name()?;
    pen.put(" if ")?;
    pen.put_path()?;
    pen.put(" else ")?;
    put_quoted(pen)
}

fn put_negation(pen: &mut Pen) -> Result<(), AllocError> {
    pen.put("not ")?;
    pen.put_path()
}

fn put_comparison(pen: &mut Pen) -> Result<(), AllocError> {
    pen.put_path()?;
    pen.put_either(" == ", "==")?;
    put_constant(pen)
}

fn put_both(pen: &mut Pen) -> Result<(), AllocError> {
    put_comparison(pen)?;
    pen.put(" and ")?;
    put_negation(pen)
}

fn put_test(pen: &mut Pen) -> Result<(), AllocError> {
    pen.put_name()?;
    pen.put(" is defined")
}

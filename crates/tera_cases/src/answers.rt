//! What is shown of a source, as text: what the parser answers to it, or what is asked of it as a text that is edited or as a
//! stream of messages.

use crate::beginnings::lengths;
use crate::contexts::context;
use crate::cursors::trace;
use crate::edits::edits;
use crate::faults::{Detail, error_text};
use crate::frames::frames;
use crate::fronts::front;
use crate::layouts::layout;
use crate::parameters::parameters;
use crate::settings::{Setting, limits_of, markers_of};
use crate::shown::{expected_lines, is_shown};
use crate::spans::spans;
use crate::tokens::listing;
use crate::trees::{Use, read};
use crate::written::written_back;
use case_files::{Options, Shown, words};
use std::alloc::{AllocError, Global};
use tera_base::Error;
use tera_parser::ParserOutput;
use tera_show::tree_text;
use text_edits::Encoding;

/// The answer to the source, without the line feed at its end.
pub(crate) fn answer(
    alloc: Global,
    setting: &Setting<'_>,
    source: &str,
) -> Result<String, AllocError> {
    match setting.options.shown {
        Shown::Beginnings => lengths(alloc, setting, source),
        Shown::Tokens | Shown::TokenPlaces | Shown::TokenNames => {
            listing(alloc, setting, source)
        }
        Shown::Cursor => trace(alloc, setting, source),
        Shown::Expression
        | Shown::Filter
        | Shown::Attributes
        | Shown::Arguments
        | Shown::Name
        | Shown::Array
        | Shown::Map => { front(alloc, setting, source) }
        Shown::Layout => layout(alloc, setting, source),
        Shown::Markers => are_markers(alloc, source),
        Shown::Limits => are_limits(alloc, setting.options, source),
        Shown::EditsInUtf8 => edits(alloc, Encoding::Utf8, source),
        Shown::EditsInUtf16 => edits(alloc, Encoding::Utf16, source),
        Shown::EditsInUtf32 => edits(alloc, Encoding::Utf32, source),
        Shown::Frames => frames(alloc, source),
        Shown::Tree if setting.options.markers.is_empty() => tree(alloc, setting, source),
        Shown::Tree
        | Shown::Ends
        | Shown::Spans
        | Shown::WrittenBack
        | Shown::Context
        | Shown::Parameters => of_template(alloc, setting, source),
    }
}

/// Whether what is shown of a source is shown of its tree.
pub(crate) fn is_template(shown: Shown) -> bool {
    matches!(
        shown,
        Shown::Tree
            | Shown::Ends
            | Shown::Spans
            | Shown::WrittenBack
            | Shown::Context
            | Shown::Parameters
    )
}

// The tree or the fault, where `show` writes it too.
fn tree(alloc: Global, setting: &Setting<'_>, source: &str) -> Result<String, AllocError> {
    let answer = of_template(alloc, setting, source)?;
    if is_shown(alloc, setting, source, answer.as_str())? {
        Ok(answer)
    } else {
        format!(in alloc; "{answer}, which is not shown")
    }
}

// What is shown of the template, or of its fault.
fn of_template(alloc: Global, setting: &Setting<'_>, source: &str) -> Result<String, AllocError> {
    read(alloc, setting, source, &Showing { setting })
}

#[derive(Drop)]
struct Showing<'a> {
    setting: &'a Setting<'a>,
}

impl Use for Showing<'_> {
    type Made = String;

    fn of_tree(&self, alloc: Global, output: &ParserOutput) -> Result<String, AllocError> {
        of_tree(alloc, self.setting, output)
    }

    fn of_fault(&self, alloc: Global, error: &Error) -> Result<String, AllocError> {
        let detail = detail_of(self.setting.options.shown);
        error_text(alloc, self.setting.file, detail, error)
    }
}

/// What is shown of the tree.
pub(crate) fn of_tree(
    alloc: Global,
    setting: &Setting<'_>,
    output: &ParserOutput,
) -> Result<String, AllocError> {
    match setting.options.shown {
        Shown::Spans => spans(alloc, output),
        Shown::WrittenBack => written_back(alloc, setting, output),
        Shown::Context => context(alloc, setting.file, output),
        Shown::Parameters => parameters(alloc, output),
        _ => lines(alloc, setting.options, output),
    }
}

fn detail_of(shown: Shown) -> Detail {
    match shown {
        Shown::Ends | Shown::Spans => Detail::Both,
        _ => Detail::Start,
    }
}

fn lines(alloc: Global, options: &Options, output: &ParserOutput) -> Result<String, AllocError> {
    let text = tree_text(alloc, output)?;
    String::from_str(alloc, expected_lines(options, text.as_str()))
}

// Whether six markers are valid, or the rule that they break.
fn are_markers(alloc: Global, source: &str) -> Result<String, AllocError> {
    let Some(six) = words(alloc, source)? else {
        return String::from_str(alloc, "an escape that is unknown");
    };
    if six.len() != 6 {
        return String::from_str(alloc, "not six markers");
    }
    match markers_of(six.as_slice())?.validate(alloc) {
        Ok(()) => String::from_str(alloc, "valid"),
        Err(error) => error_text(alloc, "", Detail::Start, &error),
    }
}

// Whether limits are valid.
fn are_limits(alloc: Global, options: &Options, source: &str) -> Result<String, AllocError> {
    let text = match options.limits.with(source) {
        None => "not limits",
        Some(numbers) if limits_of(numbers).valid() => "valid",
        Some(_) => "beyond what is allowed",
    };
    String::from_str(alloc, text)
}

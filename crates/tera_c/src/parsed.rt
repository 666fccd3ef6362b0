//! From what is asked to the tree, or to why there is none.

ghost use Rattle.std.specs.Prelude.{◌≡◌, IfOk, IfErr};
ghost use Rattle.tera_lexer.specs.grammar.Marks.{marks_of, IsValid};
ghost use Rattle.tera_grammar.specs.statements.Top.{Derives};
ghost use Rattle.tera_expr_parts.specs.Allowed.{AreValid, limits_of};
ghost use Rattle.tera_tree.specs.Outputs.{output_view};
ghost use Rattle.tera_c.specs.Asked.{limits_at};
ghost use Rattle.tera_c.specs.WithoutTree.{RefusesText, RefusesAsked};
ghost use Rattle.tera_c.specs.Results.{HasTree};

use crate::markers::markers_at;
use crate::shapes::AskedLimits;
use crate::status::Status;
use std::alloc::Global;
use tera_parser::lexer::Delimiters;
use tera_parser::value::{ErrorKind, ReportError};
use tera_parser::{Limits, Parser, ParserOutput};

/// Why there is no tree.
#[derive(Drop)]
pub(crate) enum Refusal {
    /// The source has this fault.
    Fault(Box<ReportError>),
    /// What is asked cannot be read, or an allocation failed.
    NoResult(Status),
}

/// The tree of the source between the markers that are in these bytes.
pub(crate) fn parsed(
    alloc: Global,
    source: &[u8],
    markers: &[u8],
    limits: &AskedLimits,
) -> Result<ParserOutput, Refusal>
    ensures ok { IfOk result (λ o.
        HasTree (limits_at limits.now) markers.now source.now (output_view o)) }
    ensures err { IfErr result (RefusesAsked (limits_at limits.now) markers.now source.now) }
{
    let Ok(text) = str::from_utf8(source) else {
        return Err(Refusal::NoResult(Status::NotUtf8));
    };
    let limits = limits_from(limits);
    if !limits.valid() {
        return Err(Refusal::NoResult(Status::BadLimits));
    }
    match markers_at(alloc, markers) {
        Ok(delimiters) => parsed_text(alloc, text, delimiters, limits),
        Err(status) => Err(Refusal::NoResult(status)),
    }
}

// The limits that are asked for.
fn limits_from(asked: &AskedLimits) -> Limits
    ensures { limits_of result ≡ limits_at asked.now }
{
    Limits {
        depth: asked.depth,
        links: asked.links,
        subscripts: asked.subscripts,
        arrays: asked.arrays,
        bodies: asked.bodies,
    }
}

// The tree of a text.
fn parsed_text(
    alloc: Global,
    source: &str,
    delimiters: Delimiters,
    limits: Limits,
) -> Result<ParserOutput, Refusal>
    requires marks { IsValid (marks_of delimiters) }
    requires limits { AreValid (limits_of limits) }
    ensures ok { IfOk result (λ o.
        Derives (limits_of limits) (marks_of delimiters) source.now (output_view o)) }
    ensures err { IfErr result (RefusesText (limits_of limits) (marks_of delimiters) source.now) }
{
    // No note that is reported names the file.
    let parser = Parser::with_limits(alloc, "", source, delimiters, limits);
    match parser.parse() {
        Ok(output) => Ok(output),
        Err(error) => match error.kind {
            ErrorKind::SyntaxError(report) => Err(Refusal::Fault(report)),
            _ => Err(Refusal::NoResult(Status::Memory)),
        },
    }
}

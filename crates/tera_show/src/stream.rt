//! From what is read to what is written.

ghost use Rattle.std.specs.Prelude.{◌≡◌, ◌≢◌, string_bytes, IfOk, IfErr, IfSome};
ghost use Rattle.tera_grammar.specs.Limits.{usual};
ghost use Rattle.tera_expr_parts.specs.Allowed.{AreValid, limits_of};
ghost use Rattle.tera_tree_text.specs.TreeText.{text_of};
ghost use Rattle.tera_show.specs.Shown.{IsShown, IsAnswer, fault_line, status_of};

use crate::writing::write_all;
use line_text::push_on_one_line;
use std::alloc::{AllocError, AllocFailed, Global};
use std::io::{Read, Write};
use tera_parser::Parser;
use tera_parser::expr::Limits;
use tera_parser::lexer::Delimiters;
use tera_parser::value::{Error, ErrorKind, Span};
use tera_tree_text::tree_text;

/// What was shown.
#[derive(Clone, Copy, Debug, PartialEq, Eq)]
pub enum Outcome {
    /// The tree of the template.
    Tree,
    /// The line of the template's syntax error.
    Syntax,
    /// The line that says that the input is not text.
    NotUtf8,
}

/// Why nothing, or not all, was shown.
#[derive(Clone, Copy, Debug, PartialEq, Eq)]
pub enum ShowFault {
    /// An allocation failed. Nothing was written.
    Memory,
    /// Reading failed, or did not end. Nothing was written.
    Read,
    /// Writing failed, or took no byte. A beginning was written.
    Write,
}

// A reader that has not ended after so many calls is given up.
const MOST_READS: u64 = 4294967296;

impl From<AllocError> for ShowFault {
    ghost use Rattle.tera_show.specs.declared.stream.ShowFault.TheVariants.{Memory};

    ghost from_gives = { λ _ e. e ≡ Memory };

    fn from(_error: AllocError) -> ShowFault {
        ShowFault::Memory
    }
}

/// Shows the tree of the template that the reader gives, to its end, with the default delimiters and limits.
///
/// Nothing is written before the whole text is ready. A reader that has not ended after 4294967296 calls
/// is answered `Read`. Any failed call is final, and so is a write that takes no byte.
pub fn show<R: Read, W: Write>(
    alloc: Global,
    reader: &mut R,
    writer: &mut W,
) -> Result<Outcome, ShowFault>
    ensures { IsShown usual (R.remaining reader.old) (W.contents writer.old)
        (W.contents writer.new) result }
{
    show_with(alloc, reader, writer, Limits::default())
}

/// The same with limits of the caller's, which [`Limits::valid`] accepts.
pub fn show_with<R: Read, W: Write>(
    alloc: Global,
    reader: &mut R,
    writer: &mut W,
    limits: Limits,
) -> Result<Outcome, ShowFault>
    requires { AreValid (limits_of limits) }
    ensures { IsShown (limits_of limits) (R.remaining reader.old)
        (W.contents writer.old) (W.contents writer.new) result }
{
    let input = read_all(alloc, reader)?;
    let (outcome, text) = answer(alloc, input.as_slice(), limits)?;
    match write_all(writer, text.as_bytes()) {
        Ok(()) => Ok(outcome),
        Err(_) => Err(ShowFault::Write),
    }
}

/// The status with which the program ends: 0 for a tree, 1 for a syntax error, 2 for an input that is not text, 3 for
/// an allocation failure, 4 for a failed read or write.
pub fn status(shown: &Result<Outcome, ShowFault>) -> u8
    ensures { result ≡ status_of shown.now }
{
    match shown {
        Ok(Outcome::Tree) => 0,
        Ok(Outcome::Syntax) => 1,
        Ok(Outcome::NotUtf8) => 2,
        Err(ShowFault::Memory) => 3,
        Err(ShowFault::Read) => 4,
        Err(ShowFault::Write) => 4,
    }
}

// All that the reader gives.
fn read_all<R: Read>(alloc: Global, reader: &mut R) -> Result<Vec<u8>, ShowFault>
    ensures ok { IfOk result (λ v. IfSome (R.remaining reader.old) (λ input. v.items ≡ input)) }
    ensures err { IfErr result (λ e. e ≢ ShowFault.Write) }
{
    let mut all = Vec::new(alloc);
    for _turn in 0..MOST_READS {
        let mut part = [0u8; 4096];
        let Ok(n) = reader.read(&mut part) else {
            return Err(ShowFault::Read);
        };
        if n == 0 {
            return Ok(all);
        }
        all.extend_from_slice(&part[..n])?;
    }
    Err(ShowFault::Read)
}

// The answer to the input, within the limits.
fn answer(alloc: Global, input: &[u8], limits: Limits) -> Result<(Outcome, String), ShowFault>
    requires { AreValid (limits_of limits) }
    ensures ok { IfOk result (λ p. IsAnswer (limits_of limits) input.now p.0 (string_bytes p.1)) }
    ensures err { IfErr result (λ e. e ≢ ShowFault.Write) }
{
    let Ok(source) = str::from_utf8(input) else {
        let line = String::from_str(alloc, "input is not UTF-8\n")?;
        return Ok((Outcome::NotUtf8, line));
    };
    let parser = Parser::with_limits(alloc, "input", source, Delimiters::default(), limits);
    match parser.parse() {
        Ok(output) => {
            let text = tree_text(alloc, &output)?;
            Ok((Outcome::Tree, text))
        }
        Err(error) => match error.kind {
            ErrorKind::SyntaxError(report) => {
                let line = fault_line(alloc, report.message.as_str(), &report.span)?;
                Ok((Outcome::Syntax, line))
            }
            _ => Err(ShowFault::Memory),
        },
    }
}

// The line of a syntax error. The message is on one line, as `push_on_one_line` has it.
fn fault_line(alloc: Global, message: &str, span: &Span) -> Result<String, AllocError>
    ensures { IfOk result (λ line. string_bytes line ≡ fault_line message.now span.now) }
{
    let line = span.start_line;
    let column = span.start_col;
    let start = span.range.start;
    let end = span.range.end;
    let mut text = String::new(alloc);
    push_on_one_line(&mut text, message)?;
    format!(in alloc; "syntax error at {line}:{column} ({start}..{end}): {text}\n")
}

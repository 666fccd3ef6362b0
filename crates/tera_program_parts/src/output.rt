//! Lines of errors, and other text for standard output and standard error.

ghost use Rattle.std.specs.Prelude.{◌≡◌, ◌++◌, ℕ, IfOk, OnOk, string_bytes};
ghost use Rattle.tera_files.specs.declared.reading.Unread.TheVariants.{NotUtf8};
ghost use Rattle.terminal_text.specs.Differences.{difference_text};
ghost use Rattle.tera_program_parts.specs.Lines.{error_line, name_for, name_line, lines_for};
ghost use Rattle.tera_program_parts.specs.Reasons.{not_utf8};

use line_text::{push_on_lines, push_on_one_line};
use std::alloc::{AllocError, Global};
use std::io;
use std::io::Write;
use tera_files::{Unread, Unwritten};
use terminal_text::{Style, difference};

/// The line about what went wrong with a file: `FILE: error: WHY`.
pub(crate) fn error_line(alloc: Global, file: &str, why: &str) -> Result<String, AllocError>
    ensures { IfOk result (λ line. string_bytes line ≡ error_line file.now why.now) }
{
    let mut line = String::new(alloc);
    push_on_one_line(&mut line, file)?;
    line.push_str(": error: ")?;
    push_on_one_line(&mut line, why)?;
    line.push('\n')?;
    Ok(line)
}

/// The line that names a file: as it is for another program, and on one line on a terminal.
pub fn name_line(alloc: Global, is_terminal: bool, name: &str) -> Result<String, AllocError>
    ensures { IfOk result (λ line. string_bytes line ≡ name_line is_terminal name.now) }
{
    let mut line = String::new(alloc);
    push_name(&mut line, is_terminal, name)?;
    line.push('\n')?;
    Ok(line)
}

fn push_name(to: &mut String, is_terminal: bool, name: &str) -> Result<(), AllocError>
    ensures { OnOk result (string_bytes to.new
        ≡ string_bytes to.old ++ name_for is_terminal name.now) }
{
    if is_terminal {
        push_on_one_line(to, name)
    } else {
        to.push_str(name)
    }
}

/// A text of several lines: as it is for another program, and without what a terminal would obey on a terminal.
pub fn lines_for(alloc: Global, is_terminal: bool, text: String) -> Result<String, AllocError>
    ensures { IfOk result (λ t. string_bytes t ≡ lines_for is_terminal (string_bytes text)) }
{
    if !is_terminal {
        return Ok(text);
    }
    let mut safe = String::new(alloc);
    push_on_lines(&mut safe, text.as_str())?;
    Ok(safe)
}

/// The difference of two texts of a file: exact for another program, and made from what `lines_for` shows of them on a
/// terminal.
pub fn difference_for(
    alloc: Global,
    style: Style,
    is_terminal: bool,
    name: &str,
    old: &str,
    new: &str,
) -> Result<String, AllocError>
    ensures { IfOk result (λ t. string_bytes t ≡ difference_text style (name_for is_terminal name.now)
        (lines_for is_terminal old.now) (lines_for is_terminal new.now)) }
{
    if !is_terminal {
        return difference(alloc, style, name, old, new);
    }
    let mut file = String::new(alloc);
    push_name(&mut file, true, name)?;
    let mut before = String::new(alloc);
    push_on_lines(&mut before, old)?;
    let mut after = String::new(alloc);
    push_on_lines(&mut after, new)?;
    difference(alloc, style, file.as_str(), before.as_str(), after.as_str())
}

/// Writes the text to standard error. The result is whether that went well.
pub fn put_error<R: Eprint>(rt: &R, text: &str) -> bool {
    eprint!(rt; "{text}").is_ok()
}

/// Says on standard error what went wrong with the file. If there is none, it is named `tera`. The status is 2 then,
/// even if standard error takes nothing.
pub fn print_error<R: Eprint + AllocGlobal>(rt: &R, file: &str, why: &str) {
    let _ = match error_line(rt.alloc(), file, why) {
        Ok(line) => put_error(rt, line.as_str()),
        Err(_) => put_error(rt, "tera: error: out of memory\n"),
    };
}

/// Says on standard error why the file was not read.
pub fn print_unread<R: Eprint + AllocGlobal>(rt: &R, file: &str, why: Unread) {
    match why_unread(rt.alloc(), why) {
        Ok(why) => print_error(rt, file, why.as_str()),
        Err(_) => print_error(rt, file, "out of memory"),
    }
}

/// Why a file was not read, in words.
pub fn why_unread(alloc: Global, why: Unread) -> Result<String, AllocError>
    ensures { (at : ℕ) → why ≡ NotUtf8 at → IfOk result (λ text. string_bytes text ≡ not_utf8 at) }
{
    match why {
        Unread::Memory => Err(AllocError),
        Unread::NotUtf8(at) => format!(in alloc; "it is not UTF-8 (at byte {at})"),
        Unread::Failed(error) => format!(in alloc; "{error}"),
    }
}

/// Says on standard error why the text of the file was not replaced.
pub fn print_unwritten<R: Eprint + AllocGlobal>(rt: &R, file: &str, why: Unwritten) {
    match why_unwritten(rt.alloc(), why) {
        Ok(why) => print_error(rt, file, why.as_str()),
        Err(_) => print_error(rt, file, "out of memory"),
    }
}

fn why_unwritten(alloc: Global, why: Unwritten) -> Result<String, AllocError> {
    match why {
        Unwritten::Changed => String::from_str(alloc, "changed since it was read; left unchanged"),
        Unwritten::Failed(error) => format!(in alloc; "writing failed: {error}"),
        Unwritten::Incomplete(error) => {
            format!(in alloc; "writing failed, and the file is incomplete: {error}")
        }
    }
}

/// Says on standard error why not all was written to standard output, unless the reader has closed it.
pub fn print_stopped<R: Eprint + AllocGlobal>(rt: &R, error: io::Error) {
    if error.kind() == io::ErrorKind::BrokenPipe {
        return;
    }
    match format!(in rt.alloc(); "standard output: {error}") {
        Ok(why) => print_error(rt, "tera", why.as_str()),
        Err(_) => print_error(rt, "tera", "out of memory"),
    }
}

/// Writes the text to standard output. The result is whether that went well; if not, standard error says so.
pub fn put<R: Print + Eprint + AllocGlobal>(rt: &R, text: &[u8]) -> bool {
    match io::writer(rt).write_all(text) {
        Ok(()) => true,
        Err(error) => {
            print_stopped(rt, error);
            false
        }
    }
}

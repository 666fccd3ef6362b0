//! Sources, and their lines.

ghost use Rattle.std.specs.Prelude.{◌≡◌, List, ℕ, Some, None, option_copied, option_map, IfOk, OnOk, bytes_eq, if◌then◌else◌};
ghost use Rattle.std.specs.Str.Lines.{strip_carriage_return};
ghost use Rattle.terminal_text.specs.Excerpt.{window_in};
ghost use Rattle.terminal_text.specs.Files.{source_of};
ghost use Rattle.terminal_text.specs.Lines.{lines_of, line_in, line_at};
ghost use Rattle.terminal_text.specs.Texts.{window_view};

use crate::excerpt::{Marked, Window};
use crate::lines::Line;
use std::alloc::{AllocError, Global};
use std::collections::BTreeMap;
use std::marker::Model;

/// Sources, by the names of their files.
#[derive(Drop)]
pub struct Sources<'a> {
    texts: BTreeMap<&'a str, Text<'a>>,
}

// A source, and its lines, once one of them was asked for.
#[derive(Drop)]
struct Text<'a> {
    source: &'a str,
    lines: Option<Vec<Line<'a>>>,
}

impl<'a> Model for Text<'a> {
    ghost use Rattle.std.specs.Prelude.{◌≡◌, List, ℕ, MatchOption, ⊤};
    ghost use Rattle.terminal_text.specs.Lines.{lines_of};

    ghost Value = { List ℕ };

    ghost view = { λ t. t.source.now };

    ghost invariant = { λ t. MatchOption t.lines ⊤ (λ v. v.items ≡ lines_of t.source.now) };
}

impl<'a> Sources<'a> {
    /// No sources.
    pub fn new(alloc: Global) -> Sources<'a>
        ensures { (file : List ℕ) → source_of result file ≡ None }
    {
        Sources {
            texts: BTreeMap::new(alloc),
        }
    }

    /// Adds the source of a file. Of one name the last counts.
    pub fn add(&mut self, file: &'a str, source: &'a str) -> Result<(), AllocError>
        ensures { OnOk result ((other : List ℕ) → source_of self.new other
            ≡ (if bytes_eq file.now other then Some source.now else source_of self.old other)) }
    {
        let text = Text {
            source,
            lines: None,
        };
        self.texts.insert(file, text)?;
        Ok(())
    }

    // What is shown of the line that is marked; none where there is no such file or line.
    pub(crate) fn window(
        &mut self,
        alloc: Global,
        file: &str,
        marked: Marked,
    ) -> Result<Option<Window<'a>>, AllocError>
        ensures window { IfOk result (λ w. option_map window_view w
            ≡ window_in (line_at (source_of self.old file.now) marked.line) marked) }
        ensures same { (other : List ℕ) → source_of self.new other ≡ source_of self.old other }
    {
        match self.texts.get_mut(file) {
            Some(text) => text.window(alloc, marked),
            None => Ok(None),
        }
    }
}

impl<'a> Text<'a> {
    fn window(&mut self, alloc: Global, marked: Marked) -> Result<Option<Window<'a>>, AllocError>
        ensures window { IfOk result (λ w. option_map window_view w
            ≡ window_in (line_at (Some self.old) marked.line) marked) }
        ensures same { self.new ≡ self.old }
    {
        if let Some(lines) = &self.lines {
            return Ok(window_in(lines.as_slice(), marked));
        }
        let lines = lines_of(alloc, self.source)?;
        let window = window_in(lines.as_slice(), marked);
        self.lines = Some(lines);
        Ok(window)
    }
}

// The lines of the source.
fn lines_of<'a>(alloc: Global, source: &'a str) -> Result<Vec<Line<'a>>, AllocError>
    ensures { IfOk result (λ lines. lines.items ≡ lines_of source.now) }
{
    let mut lines = Vec::new(alloc);
    for piece in source.split('\n') {
        lines.push(Line::of(alloc, without_return(piece))?)?;
    }
    Ok(lines)
}

// What is shown of the line that is marked.
fn window_in<'a>(lines: &[Line<'a>], marked: Marked) -> Option<Window<'a>>
    ensures { option_map window_view result ≡ window_in (line_in lines.now marked.line) marked }
{
    match line_in(lines, marked.line) {
        Some(line) => Some(Window::of(line, marked)),
        None => None,
    }
}

// The line of that number, from 1.
fn line_in<'b, 'a>(lines: &'b [Line<'a>], number: usize) -> Option<&'b Line<'a>>
    ensures { option_copied result ≡ line_in lines.now number }
{
    lines.get(number.checked_sub(1)?)
}

// The text without the carriage return that it ends with.
fn without_return(text: &str) -> &str
    ensures { result.now ≡ strip_carriage_return text.now }
{
    match text.strip_suffix('\r') {
        Some(front) => front,
        None => text,
    }
}

//! A line of a source, in which a character is found by its number.

ghost use Rattle.std.specs.Prelude.{◌≡◌, length, take, drop, chars, IsCharBoundary, IfOk};
ghost use Rattle.terminal_text.specs.Lines.{offset_at, AreMarks};

use std::alloc::{AllocError, Global};
use std::marker::Model;

// How many characters there are from one mark to the next.
const STEP: usize = 128;

/// A line, with the number of its characters and the places of some of them: so a character of a long line is found
/// without counting from the start of the line.
#[derive(Drop)]
pub(crate) struct Line<'a> {
    text: &'a str,
    characters: usize,
    // Where each `STEP`-th character begins, from the first on. A short line has no marks.
    marks: Vec<usize>,
}

impl<'a> Model for Line<'a> {
    ghost use Rattle.std.specs.Prelude.{◌≡◌, List, ℕ, length, chars, IsUtf8};
    ghost use Rattle.terminal_text.specs.Lines.{AreMarks};

    ghost Value = { List ℕ };

    ghost view = { λ l. l.text.now };

    ghost invariant = { λ l. IsUtf8 l.text.now × (l.characters ≡ length (chars l.text.now)) × AreMarks l.text.now l.marks.items };
}

impl<'a> Line<'a> {
    /// The line of this text.
    pub(crate) fn of(alloc: Global, text: &'a str) -> Result<Line<'a>, AllocError>
        ensures { IfOk result (λ line. line ≡ text.now) }
    {
        Ok(Line {
            text,
            characters: text.chars().count(),
            marks: marks_of(alloc, text)?,
        })
    }

    /// How many characters it has.
    pub(crate) fn characters(&self) -> usize
        ensures { result ≡ length (chars self.now) }
    {
        self.characters
    }

    /// The text before the character of this number, from 0, and from it on.
    pub(crate) fn split(&self, count: usize) -> (&'a str, &'a str)
        ensures before { chars result.0.now ≡ take count (chars self.now) }
        ensures after { chars result.1.now ≡ drop count (chars self.now) }
    {
        self.text.split_at(self.offset_of(count))
    }

    // The byte at which the character of this number begins, or the end of the text.
    fn offset_of(&self, count: usize) -> usize
        ensures value { result ≡ offset_at self.now count }
        ensures boundary { IsCharBoundary self.now result }
    {
        match self.marks.get(count / STEP) {
            Some(mark) => *mark + offset_of(&self.text[*mark..], count % STEP),
            None => offset_of(self.text, count),
        }
    }
}

// Where each `STEP`-th character of the text begins, from the first on; none of a short text.
fn marks_of(alloc: Global, text: &str) -> Result<Vec<usize>, AllocError>
    ensures { IfOk result (λ marks. AreMarks text.now marks.items) }
{
    let mut marks = Vec::new(alloc);
    if text.len() <= STEP {
        return Ok(marks);
    }
    let mut mark = 0;
    while mark < text.len() {
        marks.push(mark)?;
        mark += offset_of(&text[mark..], STEP);
    }
    Ok(marks)
}

/// The text before the character of this number, from 0, and from it on. It goes through so many characters.
pub(crate) fn split_characters(text: &str, count: usize) -> (&str, &str)
    ensures before { chars result.0.now ≡ take count (chars text.now) }
    ensures after { chars result.1.now ≡ drop count (chars text.now) }
{
    text.split_at(offset_of(text, count))
}

// The byte at which the character of this number begins, from 0, or the end of the text.
fn offset_of(text: &str, count: usize) -> usize
    ensures value { result ≡ offset_at text.now count }
    ensures boundary { IsCharBoundary text.now result }
{
    match text.char_indices().nth(count) {
        Some((offset, _)) => offset,
        None => text.len(),
    }
}

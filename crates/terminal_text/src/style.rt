//! Colours.

ghost use Rattle.std.specs.Prelude.{◌≡◌, ◌++◌, string_bytes, OnOk};
ghost use Rattle.terminal_text.specs.Styled.{colour, styled};

use std::alloc::AllocError;

/// Whether colours are written, as a terminal reads them.
#[derive(Clone, Copy, Debug, PartialEq, Eq)]
pub enum Style {
    Plain,
    Coloured,
}

/// What may have a colour.
#[derive(Clone, Copy, Debug, PartialEq, Eq)]
pub enum Part {
    /// What a message says first, if it is an error; and the mark of its place.
    Error,
    /// The same of a warning.
    Warning,
    /// The same of a note.
    Note,
    /// A file, with the line and the column.
    Place,
    /// What is written about a text and is not a part of it: numbers of lines, bars, heads of hunks.
    Frame,
    /// A line that is only in the old text.
    Gone,
    /// A line that is only in the new text.
    New,
}

impl Style {
    /// Adds the text, in the colour of its part.
    pub fn push(self, to: &mut String, part: Part, text: &str) -> Result<(), AllocError>
        ensures { OnOk result (string_bytes to.new ≡ string_bytes to.old ++ styled self part text.now) }
    {
        match self {
            Style::Plain => to.push_str(text),
            Style::Coloured => {
                to.push_str(start_of(part))?;
                to.push_str(text)?;
                to.push_str("\u{1b}[0m")
            }
        }
    }
}

// What sets the colour of a part.
fn start_of(part: Part) -> &'static str
    ensures { result.now ≡ colour part }
{
    match part {
        Part::Error => "\u{1b}[1;31m",
        Part::Warning => "\u{1b}[1;33m",
        Part::Note => "\u{1b}[1;36m",
        Part::Place => "\u{1b}[1m",
        Part::Frame => "\u{1b}[34m",
        Part::Gone => "\u{1b}[31m",
        Part::New => "\u{1b}[32m",
    }
}

//! Options of a section: how its sources are read, and what is shown of them.

use crate::case::{CaseError, wrong};
use crate::escapes::without_escapes;
use std::alloc::{AllocError, Global};

/// What is shown of a source.
#[derive(Clone, Copy, Debug, PartialEq, Eq)]
pub enum Shown {
    /// The tree, or the fault with its notes.
    Tree,
    /// The same, a fault and its notes with the places at which they end.
    Ends,
    /// Each expression of the tree with its place, and each other place of it.
    Spans,
    /// The lengths of those beginnings of the source that are templates.
    Beginnings,
    /// The source text of the one expression of the tree.
    WrittenBack,
    /// The tokens with their ranges.
    Tokens,
    /// The tokens with lines, columns and ranges.
    TokenPlaces,
    /// What faults call the tokens, with their ranges.
    TokenNames,
    /// The context of the component that the source defines and calls.
    Context,
    /// What is reported for the components that the source defines.
    Parameters,
    /// The source, laid out.
    Layout,
    /// What a cursor over the tokens shows ahead, place by place.
    Cursor,
    /// The expression after the first token.
    Expression,
    /// The filter after the first token.
    Filter,
    /// The attributes of a component after the first token.
    Attributes,
    /// The arguments with their parentheses after the first token.
    Arguments,
    /// The names joined by dots after the first token.
    Name,
    /// The array of constants after the first token.
    Array,
    /// The map of constants after the first token.
    Map,
    /// Whether the source names markers that a template can be read with.
    Markers,
    /// Whether the source names limits that a template can be read within.
    Limits,
    /// The lines, a place or a byte of a text, or the text after changes, with positions in UTF-8.
    EditsInUtf8,
    /// The same, in UTF-16.
    EditsInUtf16,
    /// The same, in UTF-32.
    EditsInUtf32,
    /// What is reported for a stream of messages in pieces.
    Frames,
}

impl Shown {
    /// Whether what is shown is a text that is written with the escapes of its source.
    pub(crate) fn is_text(self) -> bool {
        matches!(
            self,
            Shown::Layout | Shown::EditsInUtf8 | Shown::EditsInUtf16 | Shown::EditsInUtf32
        )
    }
}

/// Limits in place of the usual ones, where they are given.
#[derive(Clone, Copy, Debug, PartialEq, Eq)]
pub struct Numbers {
    pub depth: Option<usize>,
    pub links: Option<usize>,
    pub subscripts: Option<usize>,
    pub arrays: Option<usize>,
    pub bodies: Option<usize>,
}

/// A text that a name in a source, or in an answer, stands for.
#[derive(Drop)]
pub struct Repeat {
    pub name: String,
    pub text: String,
}

/// The options of a section.
#[derive(Drop)]
pub struct Options {
    /// Six markers, or none where they are the usual ones.
    pub markers: Vec<String>,
    pub limits: Numbers,
    pub repeats: Vec<Repeat>,
    pub shown: Shown,
    /// Each source is an expression, which is in a variable tag.
    pub expressions: bool,
    /// What is read after the first token is in a loop.
    pub in_loop: bool,
    /// The sources, and layouts and texts after edits, are written with escapes.
    pub escapes: bool,
    /// The sources are too long to try each of their beginnings.
    pub uncut: bool,
    /// Each answer is computed again while allocations fail.
    pub refused: bool,
}

impl Numbers {
    /// The usual limits.
    pub(crate) fn usual() -> Numbers {
        Numbers {
            depth: None,
            links: None,
            subscripts: None,
            arrays: None,
            bodies: None,
        }
    }

    /// These limits with others, as `depth=1 links=2`; none if one of them is unknown.
    pub fn with(self, text: &str) -> Option<Numbers> {
        let mut numbers = self;
        for word in text.split_whitespace() {
            let (name, digits) = word.split_once('=')?;
            let Ok(number) = digits.parse::<usize>() else {
                return None;
            };
            match name {
                "depth" => numbers.depth = Some(number),
                "links" => numbers.links = Some(number),
                "subscripts" => numbers.subscripts = Some(number),
                "arrays" => numbers.arrays = Some(number),
                "bodies" => numbers.bodies = Some(number),
                _ => return None,
            }
        }
        Some(numbers)
    }
}

impl Options {
    pub(crate) fn usual(alloc: Global) -> Options {
        Options {
            markers: Vec::new(alloc),
            limits: Numbers::usual(),
            repeats: Vec::new(alloc),
            shown: Shown::Tree,
            expressions: false,
            in_loop: false,
            escapes: false,
            uncut: false,
            refused: false,
        }
    }

    /// Takes the option of the line.
    pub(crate) fn take(&mut self, alloc: Global, line: usize, text: &str) -> Result<(), CaseError> {
        let (name, rest) = match text.split_once(' ') {
            Some(parts) => parts,
            None => (text, ""),
        };
        match name {
            "markers" => self.markers = six_words(alloc, line, rest)?,
            "limits" => self.limits = limits_with(self.limits, line, rest)?,
            "repeat" => self.repeats.push(repeated(alloc, line, rest)?)?,
            "show" => self.shown = what_is_shown(line, rest)?,
            _ => return self.switch(line, text),
        }
        Ok(())
    }

    // Takes an option that is there or not.
    fn switch(&mut self, line: usize, text: &str) -> Result<(), CaseError> {
        match text {
            "expressions" => self.expressions = true,
            "in a loop" => self.in_loop = true,
            "escapes" => self.escapes = true,
            "uncut" => self.uncut = true,
            "memory refused" => self.refused = true,
            _ => return wrong(line, "an option that is unknown"),
        }
        Ok(())
    }
}

fn what_is_shown(line: usize, text: &str) -> Result<Shown, CaseError> {
    Ok(match text {
        "tree" => Shown::Tree,
        "ends" => Shown::Ends,
        "spans" => Shown::Spans,
        "beginnings" => Shown::Beginnings,
        "written back" => Shown::WrittenBack,
        "tokens" => Shown::Tokens,
        "places of tokens" => Shown::TokenPlaces,
        "names of tokens" => Shown::TokenNames,
        "context" => Shown::Context,
        "parameters" => Shown::Parameters,
        "layout" => Shown::Layout,
        "cursor" => Shown::Cursor,
        "expression" => Shown::Expression,
        "filter" => Shown::Filter,
        "attributes" => Shown::Attributes,
        "arguments" => Shown::Arguments,
        "name" => Shown::Name,
        "array" => Shown::Array,
        "map" => Shown::Map,
        "markers" => Shown::Markers,
        "limits" => Shown::Limits,
        "edits in UTF-8" => Shown::EditsInUtf8,
        "edits in UTF-16" => Shown::EditsInUtf16,
        "edits in UTF-32" => Shown::EditsInUtf32,
        "frames" => Shown::Frames,
        _ => return wrong(line, "an option that shows what is unknown"),
    })
}

fn limits_with(before: Numbers, line: usize, text: &str) -> Result<Numbers, CaseError> {
    match before.with(text) {
        Some(numbers) => Ok(numbers),
        None => wrong(line, "a limit that is unknown, or no number"),
    }
}

/// The words of the text without their escapes; none if an escape is unknown.
pub fn words(alloc: Global, text: &str) -> Result<Option<Vec<String>>, AllocError> {
    let mut all = Vec::new(alloc);
    for word in text.split_whitespace() {
        let Some(plain) = without_escapes(alloc, word)? else {
            return Ok(None);
        };
        all.push(plain)?;
    }
    Ok(Some(all))
}

fn six_words(alloc: Global, line: usize, text: &str) -> Result<Vec<String>, CaseError> {
    match words(alloc, text)? {
        Some(six) if six.len() == 6 => Ok(six),
        _ => wrong(line, "an option that does not name six markers"),
    }
}

// NAME COUNT TEXT
fn repeated(alloc: Global, line: usize, text: &str) -> Result<Repeat, CaseError> {
    let Some((name, rest)) = text.split_once(' ') else {
        return wrong(line, "a repeated part without a number");
    };
    let Some((digits, part)) = rest.split_once(' ') else {
        return wrong(line, "a repeated part without a text");
    };
    let Ok(count) = digits.parse::<u32>() else {
        return wrong(line, "a repeated part without a number");
    };
    let Some(plain) = without_escapes(alloc, part)? else {
        return wrong(line, "an escape that is unknown");
    };
    Ok(Repeat {
        name: String::from_str(alloc, name)?,
        text: times(alloc, plain.as_str(), count)?,
    })
}

fn times(alloc: Global, part: &str, count: u32) -> Result<String, AllocError> {
    let mut all = String::new(alloc);
    for _ in 0..count {
        all.push_str(part)?;
    }
    Ok(all)
}

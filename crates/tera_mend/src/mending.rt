//! From a source to its faults, and a tree.

ghost use Rattle.std.specs.Prelude.{◌≡◌, ◌≤◌, ℕ, List, [], IfOk, IfSome, OnErr, false, true, length, map, string_bytes};
ghost use Rattle.std.specs.List.{AllByRecursion};
ghost use Rattle.tera_grammar.specs.Limits.{usual};
ghost use Rattle.tera_grammar.specs.statements.Top.{Derives};
ghost use Rattle.tera_lexer.specs.grammar.Marks.{default_marks};
ghost use Rattle.tera_mend.specs.Cuts.{IsCut, IsUncut};
ghost use Rattle.tera_mend.specs.Mending.{Edits, Ends, Fails, Mends};
ghost use Rattle.tera_mend.specs.Readings.{AreOf};
ghost use Rattle.tera_mend.specs.Views.{LeadsTo, edit_view, step_of};
ghost use Rattle.tera_parser.specs.Notes.{NotesName};
ghost use Rattle.tera_tree.specs.Outputs.{output_view};
ghost use Rattle.tera_tree.specs.Tree.{Output};

use crate::edits::{Edit, blanked, edited};
use crate::lone::add_lone_faults;
use crate::policy::{choice_of, lone_tags, rest_of};
use crate::reading::{Reading, read, read_nothing};
use std::alloc::{AllocError, Global};
use tera_parser::value::Error;
use tera_parser::{Names, ParserOutput};

/// A fault, and what was written for it.
#[derive(Drop)]
pub struct Fault {
    /// A syntax error.
    pub error: Error,
    /// Whether it is the fault of a tag that was read alone. Else it is one of the whole text.
    pub alone: bool,
    /// Each over as many bytes, or after the text.
    pub edits: Vec<Edit>,
}

/// A source that was read, whatever faults it has.
#[derive(Drop)]
pub struct Mended {
    /// In the order in which they were met, which need not be that of their places.
    pub faults: Vec<Fault>,
    /// The tree of the text below.
    pub output: ParserOutput,
    pub names: Names,
    /// The source with what was written for the faults, and then the rest.
    pub text: String,
    /// Whether there are more faults. Then the text has these edits too, or is empty.
    pub cut: bool,
    pub rest: Vec<Edit>,
}

/// How much work a source may take.
#[derive(Clone, Copy, Debug)]
pub struct Limit {
    /// How many faults are reported at the most.
    pub faults: usize,
    /// About how many bytes are parsed at the most, except the first parse, the last, and tags that are read alone.
    pub bytes: usize,
}

/// The faults of a source, and the tree of what is left of it, between the usual markers and within the usual limits.
pub fn mend(alloc: Global, file: &str, source: &str, limit: Limit) -> Result<Mended, AllocError>
    ensures mends { IfOk result (λ o. (reached : List ℕ)
        × Mends usual default_marks source.now (map step_of o.faults.items) reached
        × Ends usual default_marks o.cut (map edit_view o.rest.items) reached
        (string_bytes o.text)) }
    ensures tree { IfOk result (λ o. AreOf (string_bytes o.text) o.output o.names) }
    ensures clean { (output : Output) → Derives usual default_marks source.now output →
        IfOk result (λ o. (o.cut ≡ false) × (o.faults.items ≡ []) × (output_view o.output ≡ output)) }
    ensures faulty { IfOk result (λ o. o.cut ≡ false → o.faults.items ≡ [] →
        Derives usual default_marks source.now (output_view o.output)) }
    ensures notes { IfOk result (λ o.
        AllByRecursion (λ f. NotesName file.now f.error) o.faults.items) }
    ensures bound { IfOk result (λ o. length o.faults.items ≤ limit.faults) }
{
    let mut faults = Vec::new(alloc);
    let mut text = String::from_str(alloc, source)?;
    let turns = limit.faults.min(limit.bytes / source.len().max(1));
    for turn in 0..turns {
        match read(alloc, file, text.as_str())? {
            Reading::Tree(output, names) => {
                return Ok(uncut(alloc, faults, output, names, text));
            }
            Reading::Fault(error) => {
                let most = limit.faults;
                match step(alloc, file, text.as_str(), error, &mut faults, most)? {
                    Ok(next) => text = next,
                    Err(error) => {
                        return cut_short(alloc, file, text.as_str(), &error, faults);
                    }
                }
            }
        }
    }
    match read(alloc, file, text.as_str())? {
        Reading::Tree(output, names) => Ok(uncut(alloc, faults, output, names, text)),
        Reading::Fault(error) => cut_short(alloc, file, text.as_str(), &error, faults),
    }
}

// These are all faults, and this is the tree of the text that they led to.
fn uncut(
    alloc: Global,
    faults: Vec<Fault>,
    output: ParserOutput,
    names: Names,
    text: String,
) -> Mended
    ensures { IsUncut (string_bytes text) faults.items output names result }
{
    Mended {
        faults,
        output,
        names,
        text,
        cut: false,
        rest: Vec::new(alloc),
    }
}

// Adds a fault of the text to those that led to it, and after the first one those of tags that are read alone. The
// answer is the text with what is written for them; or the fault, where nothing can be written for it, or where there
// are as many as there may be.
fn step(
    alloc: Global,
    file: &str,
    text: &str,
    error: Error,
    faults: &mut Vec<Fault>,
    most: usize,
) -> Result<Result<String, Error>, AllocError>
    ensures leads { (source : List ℕ) → LeadsTo file.now source faults.old.items text.now →
        Fails usual default_marks text.now error → NotesName file.now error → IfOk result (λ o.
        IfOk o (λ new. LeadsTo file.now source faults.new.items (string_bytes new))) }
    ensures stays { IfOk result (λ o. OnErr o (faults.new.items ≡ faults.old.items)) }
    ensures bound { length faults.old.items ≤ most →
        IfOk result (λ _. length faults.new.items ≤ most) }
{
    if faults.len() >= most {
        return Ok(Err(error));
    }
    let Some((next, edits)) = next_of(alloc, text, &error)? else {
        return Ok(Err(error));
    };
    let tags = if faults.is_empty() {
        lone_tags(alloc, next.as_str(), &error)?
    } else {
        Vec::new(alloc)
    };
    faults.push(Fault {
        error,
        alone: false,
        edits,
    })?;
    let after = add_lone_faults(alloc, file, next.as_str(), tags.as_slice(), faults, most)?;
    Ok(Ok(after))
}

// Where no more faults are looked for, though the text has this one: those so far, and the tree of what is left of the
// text, or of nothing.
fn cut_short(
    alloc: Global,
    file: &str,
    text: &str,
    error: &Error,
    faults: Vec<Fault>,
) -> Result<Mended, AllocError>
    ensures { IfOk result (λ o. IsCut text.now faults.items o) }
{
    let rest = rest_of(alloc, text, error)?;
    match left_of(alloc, file, text, rest.as_slice())? {
        Some((left, output, names)) => Ok(Mended {
            faults,
            output,
            names,
            text: left,
            cut: true,
            rest,
        }),
        None => Ok(nothing(alloc, faults, rest)),
    }
}

// The text with these edits and its tree. None where they are not in their places, or leave a fault.
fn left_of(
    alloc: Global,
    file: &str,
    text: &str,
    rest: &[Edit],
) -> Result<Option<(String, ParserOutput, Names)>, AllocError>
    ensures { IfOk result (λ o. IfSome o (λ n.
        Edits (map edit_view rest.now) text.now (string_bytes n.0)
        × AreOf (string_bytes n.0) n.1 n.2)) }
{
    let Some(left) = edited(alloc, text, rest)? else {
        return Ok(None);
    };
    match read(alloc, file, left.as_str())? {
        Reading::Tree(output, names) => Ok(Some((left, output, names))),
        Reading::Fault(_) => Ok(None),
    }
}

// These faults, and the tree of nothing.
fn nothing(alloc: Global, faults: Vec<Fault>, rest: Vec<Edit>) -> Mended
    ensures faults { result.faults ≡ faults }
    ensures cut { result.cut ≡ true }
    ensures text { string_bytes result.text ≡ [] }
    ensures tree { AreOf (string_bytes result.text) result.output result.names }
{
    let (output, names) = read_nothing(alloc);
    Mended {
        faults,
        output,
        names,
        text: String::new(alloc),
        cut: true,
        rest,
    }
}

// The text with what is chosen for its fault, or, where that is not in its place or changes nothing, with blanks over
// all. None where these are not in their place either.
fn next_of(
    alloc: Global,
    text: &str,
    error: &Error,
) -> Result<Option<(String, Vec<Edit>)>, AllocError>
    ensures { IfOk result (λ o. IfSome o (λ n.
        Edits (map edit_view n.1.items) text.now (string_bytes n.0))) }
{
    let chosen = choice_of(alloc, text, error)?;
    if let Some(next) = edited(alloc, text, chosen.as_slice())? {
        if next.as_str() != text {
            return Ok(Some((next, chosen)));
        }
    }
    let blanks = blanked(alloc, text)?;
    match edited(alloc, text, blanks.as_slice())? {
        Some(next) => Ok(Some((next, blanks))),
        None => Ok(None),
    }
}

//! The markers with which files are read and formatted.

ghost use Rattle.std.specs.Prelude.{◌≡◌, IfOk, IfErr, IfSome, MatchResult, Some, true};
ghost use Rattle.std.specs.Cow.{cow_str_bytes};
ghost use Rattle.std.specs.Option.{option_map};
ghost use Rattle.tera_layout.specs.Steady.{is_steady};
ghost use Rattle.tera_lexer.specs.grammar.Marks.{marks_of, IsValid};
ghost use Rattle.tera_program_parts.specs.Markers.{AreGivenBy, AreOthersBy, AreWords, IsUnfit, IsUnfitForLayout, six};

use crate::output::print_error;
use std::alloc::{AllocError, Global};
use std::borrow::CowStr;
use tera_layout::are_steady;
use tera_parser::lexer::Delimiters;
use tera_parser::value::{Error, ErrorKind};

/// Why some markers cannot be used.
#[derive(Drop)]
pub enum Unfit {
    Memory,
    /// There are not six.
    Number,
    /// They break a rule, which the error reports.
    Rule(Error),
    /// A layout might put or take away the end of a tag.
    Unsteady,
}

impl From<AllocError> for Unfit {
    ghost use Rattle.std.specs.Prelude.{◌≡◌};
    ghost use Rattle.tera_program_parts.specs.declared.markers.Unfit.TheVariants.{Memory};

    ghost from_gives = { λ _ why. why ≡ Memory };

    fn from(_error: AllocError) -> Unfit {
        Unfit::Memory
    }
}

/// The six markers in these words, if files can be formatted with them; without words, the default ones.
pub fn steady_markers_of(alloc: Global, words: Option<&str>) -> Result<Delimiters, Unfit>
    ensures steady { IfOk result (λ d. IsValid (marks_of d) × (is_steady (marks_of d) ≡ true)) }
    ensures given { IfOk result (λ d. AreGivenBy (option_map (λ t. t.now) words.entry) (marks_of d)) }
    ensures unfit { IfErr result (IsUnfitForLayout (option_map (λ t. t.now) words.entry)) }
{
    let markers = markers_of(alloc, words)?;
    if are_steady(&markers) {
        Ok(markers)
    } else {
        Err(Unfit::Unsteady)
    }
}

/// The six markers in these words, if they are not the default ones.
pub fn other_markers_of(alloc: Global, words: Option<&str>) -> Result<Option<Delimiters>, Unfit>
    ensures valid { IfOk result (λ markers. IfSome markers (λ d. IsValid (marks_of d))) }
    ensures given { IfOk result (λ markers.
        AreOthersBy (option_map (λ t. t.now) words.entry) (option_map marks_of markers)) }
    ensures unfit { IfErr result (IsUnfit (option_map (λ t. t.now) words.entry)) }
{
    let markers = markers_of(alloc, words)?;
    if markers == Delimiters::default() {
        Ok(None)
    } else {
        Ok(Some(markers))
    }
}

// The six markers in these words; without words, the default ones.
fn markers_of(alloc: Global, words: Option<&str>) -> Result<Delimiters, Unfit>
    ensures valid { IfOk result (λ d. IsValid (marks_of d)) }
    ensures given { IfOk result (λ d. AreGivenBy (option_map (λ t. t.now) words.entry) (marks_of d)) }
    ensures unfit { IfErr result (IsUnfit (option_map (λ t. t.now) words.entry)) }
{
    let markers = match words {
        Some(words) => six_of(alloc, words)?,
        None => Delimiters::default(),
    };
    match markers.validate(alloc) {
        Ok(()) => Ok(markers),
        Err(error) => Err(Unfit::Rule(error)),
    }
}

// Six markers, in the order of the fields, with white space between them.
fn six_of(alloc: Global, text: &str) -> Result<Delimiters, Unfit>
    ensures { MatchResult result (λ d. AreWords text.now (six (marks_of d))) (IsUnfit (Some text.now)) }
{
    let words: Vec<&str> = text.split_whitespace().collect(alloc)?;
    let [
        block_start,
        block_end,
        variable_start,
        variable_end,
        comment_start,
        comment_end,
    ] = words.as_slice()
    else {
        return Err(Unfit::Number);
    };
    Ok(Delimiters {
        block_start: owned(alloc, block_start)?,
        block_end: owned(alloc, block_end)?,
        variable_start: owned(alloc, variable_start)?,
        variable_end: owned(alloc, variable_end)?,
        comment_start: owned(alloc, comment_start)?,
        comment_end: owned(alloc, comment_end)?,
    })
}

fn owned(alloc: Global, marker: &str) -> Result<CowStr<'static>, AllocError>
    ensures { IfOk result (λ copy. cow_str_bytes copy ≡ marker.now) }
{
    Ok(CowStr::Owned(String::from_str(alloc, marker)?))
}

/// Says on standard error why the markers cannot be used.
pub fn print_unfit<R: Eprint + AllocGlobal>(rt: &R, why: &Unfit) {
    match option_error(rt.alloc(), why) {
        Ok(why) => print_error(rt, "tera", why.as_str()),
        Err(_) => print_error(rt, "tera", "out of memory"),
    }
}

fn option_error(alloc: Global, why: &Unfit) -> Result<String, AllocError> {
    let why = why_unfit(alloc, why)?;
    format!(in alloc; "--markers: {why}")
}

/// Why the markers cannot be used, in words.
pub(crate) fn why_unfit(alloc: Global, why: &Unfit) -> Result<String, AllocError> {
    match why {
        Unfit::Memory => Err(AllocError),
        Unfit::Number => String::from_str(
            alloc,
            "expected six markers, with white space between them",
        ),
        Unfit::Rule(error) => rule_of(alloc, error),
        Unfit::Unsteady => String::from_str(
            alloc,
            "`block_start` and ends of tags must not begin with a dash, letter, digit or `_`",
        ),
    }
}

// The rule that markers break.
fn rule_of(alloc: Global, error: &Error) -> Result<String, AllocError> {
    match &error.kind {
        ErrorKind::Message(rule) => format!(in alloc; "{rule}"),
        _ => Err(AllocError),
    }
}

//! The markers of a template.

ghost use Rattle.tera_lexer.specs.grammar.Rules.{Checks, two_bytes, differ};

use std::alloc::{AllocError, Global};
use std::borrow::CowStr;
use tera_base::Error;

/// The six markers between which a template's tags are.
///
/// Each is two bytes long, and the three starts differ.
#[derive(Debug, PartialEq, Drop)]
pub struct Delimiters {
    /// Before a statement: `{%` by default.
    pub block_start: CowStr<'static>,
    /// After a statement: `%}` by default.
    pub block_end: CowStr<'static>,
    /// Before an expression: `{{` by default.
    pub variable_start: CowStr<'static>,
    /// After an expression: `}}` by default.
    pub variable_end: CowStr<'static>,
    /// Before a comment: `{#` by default.
    pub comment_start: CowStr<'static>,
    /// After a comment: `#}` by default.
    pub comment_end: CowStr<'static>,
}

impl Default for Delimiters {
    ghost use Rattle.std.specs.Prelude.{◌≡◌};
    ghost use Rattle.tera_lexer.specs.grammar.Marks.{marks_of, default_marks, IsValid};

    ghost is_default = { λ d. (marks_of d ≡ default_marks) × IsValid (marks_of d) };

    fn default() -> Delimiters {
        Delimiters {
            block_start: CowStr::Borrowed("{%"),
            block_end: CowStr::Borrowed("%}"),
            variable_start: CowStr::Borrowed("{{"),
            variable_end: CowStr::Borrowed("}}"),
            comment_start: CowStr::Borrowed("{#"),
            comment_end: CowStr::Borrowed("#}"),
        }
    }
}

impl Clone for Delimiters {
    ghost use Rattle.std.specs.Prelude.{◌≡◌};
    ghost use Rattle.tera_lexer.specs.grammar.Marks.{marks_of};

    ghost is_clone = { λ d copy. marks_of copy ≡ marks_of d };

    fn clone(&self) -> Result<Delimiters, AllocError> {
        Ok(Delimiters {
            block_start: self.block_start.clone()?,
            block_end: self.block_end.clone()?,
            variable_start: self.variable_start.clone()?,
            variable_end: self.variable_end.clone()?,
            comment_start: self.comment_start.clone()?,
            comment_end: self.comment_end.clone()?,
        })
    }
}

/// The kinds of tags: those of expressions and those of statements.
#[derive(Clone, Copy, Debug, PartialEq, Eq)]
pub(crate) enum Kind {
    Variable,
    Block,
}

impl Delimiters {
    ghost use Rattle.std.specs.Prelude.{◌≡◌, IsOk, IfOk};
    ghost use Rattle.tera_lexer.specs.grammar.Marks.{marks_of, end_marker, IsValid};
    ghost use Rattle.tera_lexer.specs.grammar.Rules.{ChecksAll, rules_of};

    /// Whether a template can be read with the markers: each is two bytes long, and the three starts differ.
    ///
    /// The first rule that they break is reported: the lengths in the order of the fields, and then the starts.
    pub fn validate(&self, alloc: Global) -> Result<(), Error>
        ensures rules { ChecksAll (rules_of (marks_of self.now)) result }
        ensures ok { IfOk result (λ _. IsValid (marks_of self.now)) }
        ensures valid { IsValid (marks_of self.now) → IsOk result }
    {
        check_two_bytes(alloc, "block_start", self.block_start.as_str())?;
        check_two_bytes(alloc, "block_end", self.block_end.as_str())?;
        check_two_bytes(alloc, "variable_start", self.variable_start.as_str())?;
        check_two_bytes(alloc, "variable_end", self.variable_end.as_str())?;
        check_two_bytes(alloc, "comment_start", self.comment_start.as_str())?;
        check_two_bytes(alloc, "comment_end", self.comment_end.as_str())?;
        let (block, variable) = (self.block_start.as_str(), self.variable_start.as_str());
        let comment = self.comment_start.as_str();
        check_differ(alloc, "block_start", block, "variable_start", variable)?;
        check_differ(alloc, "block_start", block, "comment_start", comment)?;
        check_differ(alloc, "variable_start", variable, "comment_start", comment)
    }

    // The marker at the end of a tag.
    pub(crate) fn end(&self, kind: Kind) -> &str
        ensures { result.now ≡ end_marker kind (marks_of self.now) }
    {
        match kind {
            Kind::Variable => self.variable_end.as_str(),
            Kind::Block => self.block_end.as_str(),
        }
    }
}

// Whether the marker of this name is two bytes long.
fn check_two_bytes(alloc: Global, name: &str, marker: &str) -> Result<(), Error>
    ensures { Checks (two_bytes name.now marker.now) result }
{
    if marker.len() == 2 {
        return Ok(());
    }
    let text = format!(in alloc; "`{name}` delimiter must be 2 bytes long")?;
    Err(Error::message(alloc, text.as_str()))
}

// Whether the markers of these names differ.
fn check_differ(
    alloc: Global,
    name: &str,
    marker: &str,
    other: &str,
    value: &str,
) -> Result<(), Error>
    ensures { Checks (differ name.now marker.now other.now value.now) result }
{
    if marker != value {
        return Ok(());
    }
    let text = format!(in alloc; "`{name}` and `{other}` cannot have the same value")?;
    Err(Error::message(alloc, text.as_str()))
}

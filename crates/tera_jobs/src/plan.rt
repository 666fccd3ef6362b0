//! What to do with a file that is formatted.

ghost use Rattle.std.specs.Prelude.{◌≡◌, ⊤, ℕ, List, IfOk, IfErr, OnOk, MatchResult, Some, true, false};
ghost use Rattle.tera_base.specs.Errors.{IsMemory};
ghost use Rattle.tera_grammar.specs.Limits.{usual};
ghost use Rattle.tera_grammar.specs.statements.Top.{Derives};
ghost use Rattle.tera_layout.specs.Steady.{is_steady};
ghost use Rattle.tera_lexer.specs.grammar.Marks.{marks_of, IsValid};
ghost use Rattle.tera_parser.specs.Notes.{NotesName};
ghost use Rattle.tera_parser.specs.Refusal.{LosesSource, Refuses};
ghost use Rattle.tera_tree.specs.Tree.{Output};
ghost use Rattle.tera_jobs.specs.Plans.{IsPlan, IsTemplate};
ghost use Rattle.tera_jobs.specs.Actions.{action_of, action_view, plan_text, Replaces};
ghost use Rattle.tera_options.specs.declared.job.Mode.TheVariants.{Write};

use std::alloc::Global;
use tera_layout::format_between;
use tera_options::job::Mode;
use tera_parser::Parser;
use tera_parser::lexer::Delimiters;
use tera_parser::value::Error;

/// What to do with a file.
#[derive(Debug, Drop)]
pub enum Plan {
    /// Nothing: it is formatted already.
    Same,
    /// This text is to replace the file's.
    Layout(String),
}

/// What to do with the file of this name and source, between these markers. If it is not a template, the error is the
/// one of [`Parser::parse`], and the file stays as it is.
pub fn plan_of(alloc: Global, file: &str, source: &str, markers: &Delimiters) -> Result<Plan, Error>
    requires valid { IsValid (marks_of markers.now) }
    requires steady { is_steady (marks_of markers.now) ≡ true }
    ensures sound { IfOk result (IsPlan (marks_of markers.now) source.now) }
    ensures complete { (tree : Output) → Derives usual (marks_of markers.now) source.now tree →
        MatchResult result (IsPlan (marks_of markers.now) source.now) IsMemory }
    ensures refusal { IfErr result (Refuses (marks_of markers.now) source.now) }
    ensures lost { IfErr result (LosesSource usual (marks_of markers.now) source.now) }
    ensures notes { IfErr result (NotesName file.now) }
{
    read(alloc, file, source, markers)?;
    let layout = format_between(alloc, source, markers)?;
    if layout.as_str() == source {
        Ok(Plan::Same)
    } else {
        Ok(Plan::Layout(layout))
    }
}

// Parses the source, only to see whether it is a template.
fn read(alloc: Global, file: &str, source: &str, markers: &Delimiters) -> Result<(), Error>
    requires valid { IsValid (marks_of markers.now) }
    ensures sound { OnOk result (IsTemplate (marks_of markers.now) source.now) }
    ensures complete { (tree : Output) → Derives usual (marks_of markers.now) source.now tree →
        MatchResult result (λ _. ⊤) IsMemory }
    ensures refusal { IfErr result (Refuses (marks_of markers.now) source.now) }
    ensures lost { IfErr result (LosesSource usual (marks_of markers.now) source.now) }
    ensures notes { IfErr result (NotesName file.now) }
{
    let parser = Parser::new(alloc, file, source, markers.clone()?);
    parser.parse()?;
    Ok(())
}

/// What is done with a file in the mode that is asked for.
#[derive(Clone, Copy, Debug)]
pub(crate) enum Action<'a> {
    Nothing,
    /// This text goes to standard output.
    Show(&'a str),
    /// The name of the file goes to standard output.
    Name,
    /// The difference of its text from this one goes to standard output.
    Difference(&'a str),
    /// This text replaces the file's, and then the name of the file goes to standard output.
    Replace(&'a str),
}

/// What is done with a file, or with standard input, which is shown instead of replaced.
pub(crate) fn action_of<'a>(
    mode: Mode,
    is_input: bool,
    source: &'a str,
    plan: &'a Plan,
) -> Action<'a>
    ensures table { action_view result ≡ action_of mode is_input source.now plan.now }
    ensures replaced { (text : List ℕ) → action_view result ≡ Replaces text →
        (mode ≡ Write) × (is_input ≡ false) × (plan_text plan.now ≡ Some text) }
{
    match (mode, plan) {
        (Mode::Write, Plan::Same) if is_input => Action::Show(source),
        (_, Plan::Same) => Action::Nothing,
        (Mode::Write, Plan::Layout(layout)) if is_input => Action::Show(layout.as_str()),
        (Mode::Write, Plan::Layout(layout)) => Action::Replace(layout.as_str()),
        (Mode::Check, Plan::Layout(_)) => Action::Name,
        (Mode::Diff, Plan::Layout(layout)) => Action::Difference(layout.as_str()),
    }
}

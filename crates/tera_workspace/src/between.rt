//! The first syntax error of a document that is read between other markers.

ghost use Rattle.std.specs.Prelude.{◌≡◌, IfOk, MatchOption, map};
ghost use Rattle.tera_lexer.specs.grammar.Marks.{IsValid, marks_of};
ghost use Rattle.tera_workspace.specs.Between.{IsFaultIn, IsFaultOfName};
ghost use Rattle.tera_workspace.specs.Diagnostics.{diagnostic_view};
ghost use Rattle.tera_workspace.specs.Kept.{source_of, sources_of};
ghost use Rattle.tera_workspace.specs.Sources.{AreAscending};

use crate::diagnostics::{Diagnostic, diagnostics_of};
use crate::judged::{Judged, place_of};
use crate::workspace::Workspace;
use std::alloc::{AllocError, Global};
use std::marker::Model;
use tera_check::{faults_of, read_template_between};
use tera_lexer::Delimiters;
use text_edits::Encoding;

/// Six markers between which templates can be read.
#[derive(Debug)]
pub struct Markers {
    delimiters: Delimiters,
}

impl Model for Markers {
    ghost use Rattle.tera_lexer.specs.grammar.Marks.{IsValid, Marks, marks_of};

    ghost Value = { Marks };

    ghost view = { λ m. marks_of m.delimiters };

    ghost invariant = { λ m. IsValid (marks_of m.delimiters) };
}

// A crate that owns markers has no drops of their six texts to prove.
impl Drop for Markers {
    fn drop(self) {
        let Markers { delimiters } = self;
        drop(delimiters);
    }
}

impl Markers {
    /// These markers, if [`Delimiters::validate`] accepts them.
    pub fn of(alloc: Global, delimiters: Delimiters) -> Option<Markers>
        ensures { MatchOption result (¬ (IsValid (marks_of delimiters))) (λ m. m ≡ marks_of delimiters) }
    {
        match delimiters.validate(alloc) {
            Ok(()) => Some(Markers { delimiters }),
            Err(_) => None,
        }
    }

    /// The markers, with which a template can be read.
    pub fn delimiters(&self) -> &Delimiters
        ensures same { marks_of result.now ≡ self.now }
        ensures valid { IsValid (marks_of result.now) }
    {
        &self.delimiters
    }
}

impl Workspace {
    /// The first syntax error of the document of this name, if it is read between these markers, in the text that was
    /// read last.
    pub fn fault_between(
        &self,
        alloc: Global,
        name: &str,
        markers: &Markers,
    ) -> Result<Vec<Diagnostic>, AllocError>
        ensures { IfOk result (λ v. IsFaultOfName self.now markers.now name.now (map diagnostic_view v.items)) }
    {
        match place_of(&self.judged, name) {
            Ok(number) => fault_in(
                alloc,
                self.encoding,
                &self.judged,
                &self.judged[number],
                markers,
            ),
            Err(_) => Ok(Vec::new(alloc)),
        }
    }
}

fn fault_in(
    alloc: Global,
    encoding: Encoding,
    all: &Vec<Judged>,
    judged: &Judged,
    markers: &Markers,
) -> Result<Vec<Diagnostic>, AllocError>
    requires { AreAscending (sources_of all.now.items) }
    ensures { IfOk result (λ v. IsFaultIn encoding (sources_of all.now.items) markers.now
        (source_of judged.now) (map diagnostic_view v.items)) }
{
    let file = judged.template.file.as_str();
    let text = judged.text.as_str();
    let template = read_template_between(alloc, file, text, markers.delimiters().clone()?)?;
    let found = faults_of(alloc, &template)?;
    let diagnostics = diagnostics_of(alloc, encoding, all, judged, found)?;
    Ok(diagnostics)
}

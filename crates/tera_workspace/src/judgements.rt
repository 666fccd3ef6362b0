//! What is found in a document, by all documents that were read.

ghost use Rattle.std.specs.Prelude.{◌<◌, length, IfOk};
ghost use Rattle.tera_workspace.specs.Judgements.{IsJudgementAt, IsJudgementOf};
ghost use Rattle.tera_workspace.specs.Kept.{templates_of};

use crate::catalogue::catalogue_of;
use crate::judged::{Judged, are_open, place_of};
use crate::workspace::Workspace;
use std::alloc::{AllocError, Global};
use tera_check::{Catalogue, Finding, Template, findings_of};

/// What is found in a document, and what that depends on.
#[derive(Drop)]
pub struct Judgement<'w> {
    /// The components that documents define; if several have one name, the first.
    pub catalogue: Catalogue<'w>,
    pub template: &'w Template,
    /// In the order of their places.
    pub findings: Vec<Finding>,
}

impl Workspace {
    /// What is found in the document of this name, by the documents that were read, if it is one of them. Nothing that
    /// was reported is used.
    pub fn judgement_of(
        &self,
        alloc: Global,
        name: &str,
    ) -> Result<Option<Judgement<'_>>, AllocError>
        ensures { IfOk result (IsJudgementOf self.now name.now) }
    {
        match place_of(&self.judged, name) {
            Ok(number) => Ok(Some(judge(alloc, &self.judged, number)?)),
            Err(_) => Ok(None),
        }
    }
}

// What is found in the document of this number.
fn judge(alloc: Global, all: &Vec<Judged>, number: usize) -> Result<Judgement<'_>, AllocError>
    requires { number < length all.now.items }
    ensures { IfOk result (IsJudgementAt (templates_of all.now.items) number) }
{
    let catalogue = catalogue_of(alloc, all)?;
    let is_open = are_open(all);
    let template = &all[number].template;
    let findings = findings_of(alloc, &catalogue, is_open, number, template)?;
    Ok(Judgement {
        catalogue,
        template,
        findings,
    })
}

//! What is found of the names of templates in a document, by what is kept of its site.

ghost use Rattle.std.specs.Prelude.{◌≡◌, IfOk, map};
ghost use Rattle.tera_site.specs.Kept.{kept_around};
ghost use Rattle.tera_workspace.specs.Diagnostics.{diagnostic_view};
ghost use Rattle.tera_workspace.specs.Kept.{sources_of};
ghost use Rattle.tera_workspace.specs.Sites.{named_in, named_of_name};
ghost use Rattle.tera_workspace.specs.Sources.{AreAscending};

use crate::diagnostics::{Diagnostic, diagnostics_of};
use crate::judged::{Judged, place_of};
use crate::sites::KeptSite;
use crate::workspace::Workspace;
use std::alloc::{AllocError, Global};
use tera_site::{Around, Surroundings, names_due};
use text_edits::Encoding;

impl Workspace {
    /// What is found of names in this document, as it was read last, by what the site keeps of it. Nothing is found if
    /// it keeps nothing of it.
    pub fn named_of(
        &self,
        alloc: Global,
        name: &str,
        site: &KeptSite,
    ) -> Result<Vec<Diagnostic>, AllocError>
        ensures { IfOk result (λ v. map diagnostic_view v.items
            ≡ named_of_name self.now site.now name.now) }
    {
        let Some(around) = site.around(name) else {
            return Ok(Vec::new(alloc));
        };
        match place_of(&self.judged, name) {
            Ok(number) => named_in(
                alloc,
                self.encoding,
                &self.judged,
                &self.judged[number],
                around,
            ),
            Err(_) => Ok(Vec::new(alloc)),
        }
    }
}

fn named_in(
    alloc: Global,
    encoding: Encoding,
    all: &Vec<Judged>,
    judged: &Judged,
    around: &Surroundings,
) -> Result<Vec<Diagnostic>, AllocError>
    requires { AreAscending (sources_of all.now.items) }
    ensures { IfOk result (λ v. map diagnostic_view v.items ≡ named_in encoding
        (sources_of all.now.items) (kept_around around.now) judged.now.text judged.now.template) }
{
    let found = names_due(alloc, Around::Kept(around), &judged.template)?;
    diagnostics_of(alloc, encoding, all, judged, found)
}

//! The filters, tests and functions in a document that the program does not have.

ghost use Rattle.std.specs.Prelude.{◌≡◌, IfOk, map};
ghost use Rattle.tera_rules.specs.Registered.{registered_view};
ghost use Rattle.tera_workspace.specs.Diagnostics.{diagnostic_view};
ghost use Rattle.tera_workspace.specs.Kept.{sources_of};
ghost use Rattle.tera_workspace.specs.Sources.{AreAscending};
ghost use Rattle.tera_workspace.specs.Unregistered.{unknown_in, unknown_of_name};

use crate::diagnostics::{Diagnostic, diagnostics_of};
use crate::judged::{Judged, place_of};
use crate::workspace::Workspace;
use std::alloc::{AllocError, Global};
use tera_check::{Registered, unknown_found};
use text_edits::Encoding;

impl Workspace {
    /// What is found in the document of this name by what the program registers, in the text that was read last.
    pub fn unknown_of(
        &self,
        alloc: Global,
        name: &str,
        registered: &Registered<'_>,
    ) -> Result<Vec<Diagnostic>, AllocError>
        ensures { IfOk result (λ v. map diagnostic_view v.items
            ≡ unknown_of_name self.now (registered_view registered.now) name.now) }
    {
        match place_of(&self.judged, name) {
            Ok(number) => unknown_in(
                alloc,
                self.encoding,
                &self.judged,
                &self.judged[number],
                registered,
            ),
            Err(_) => Ok(Vec::new(alloc)),
        }
    }
}

fn unknown_in(
    alloc: Global,
    encoding: Encoding,
    all: &Vec<Judged>,
    judged: &Judged,
    registered: &Registered<'_>,
) -> Result<Vec<Diagnostic>, AllocError>
    requires { AreAscending (sources_of all.now.items) }
    ensures { IfOk result (λ v. map diagnostic_view v.items ≡ unknown_in encoding
        (sources_of all.now.items) (registered_view registered.now) judged.now.text judged.now.template) }
{
    let found = unknown_found(alloc, registered, &judged.template)?;
    diagnostics_of(alloc, encoding, all, judged, found)
}

//! The components that files define, as JSON.

ghost use Rattle.std.specs.Prelude.{IfOk, IfErr};
ghost use Rattle.tera_c.specs.Files.{IsUnread};
ghost use Rattle.tera_c.specs.FilesTogether.{HasComponents, AreComponents};

use crate::files::templates_of;
use crate::shapes::AskedFile;
use crate::status::Status;
use std::alloc::{AllocError, Global};
use tera_catalogue::{components_of, json_of};
use tera_check::Template;

/// The components that the files define, as an array of JSON.
#[tactic(auto, using(crate::proofs::FileLemmas::memory_unread))]
pub(crate) fn components_in(alloc: Global, files: &[AskedFile<'_>]) -> Result<Vec<u8>, Status>
    ensures ok { IfOk result (λ text. HasComponents files.now text.items) }
    ensures err { IfErr result (IsUnread files.now) }
{
    let templates = templates_of(alloc, files, 0)?;
    Ok(listed(alloc, &templates)?)
}

fn listed(alloc: Global, templates: &Vec<Template>) -> Result<Vec<u8>, AllocError>
    ensures { IfOk result (λ text. AreComponents templates.now.items text.items) }
{
    let components = components_of(alloc, templates)?;
    json_of(alloc, components.as_slice())
}

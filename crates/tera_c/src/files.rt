//! The templates that are read of files.

ghost use Rattle.std.specs.Prelude.{◌≡◌, ◌++◌, ◌∷◌, [], IfOk, IfErr, OnOk};
ghost use Rattle.tera_c.specs.Files.{AreReadFrom, IsReadFrom, IsUnread, IsUnreadFile};

use crate::shapes::AskedFile;
use crate::status::Status;
use std::alloc::{AllocError, Global};
use tera_check::{Template, read_template};

/// The templates of the files, in the same order. At most so many faults of each are known.
#[tactic(auto, using(crate::proofs::FileLemmas::memory_unread))]
pub(crate) fn templates_of(
    alloc: Global,
    files: &[AskedFile<'_>],
    faults: usize,
) -> Result<Vec<Template>, Status>
    ensures ok { IfOk result (λ templates. AreReadFrom faults files.now templates.items) }
    ensures err { IfErr result (IsUnread files.now) }
{
    let mut templates = Vec::new(alloc);
    for file in files {
        let template = template_of(alloc, file, faults)?;
        push_template(&mut templates, template)?;
    }
    Ok(templates)
}

fn push_template(templates: &mut Vec<Template>, template: Template) -> Result<(), AllocError>
    ensures { OnOk result (templates.new.items ≡ templates.old.items ++ template ∷ []) }
{
    templates.push(template)?;
    Ok(())
}

/// The template of a file. At most so many faults of it are known.
#[tactic(auto, using(crate::proofs::FileLemmas::memory_unread))]
pub(crate) fn template_of(
    alloc: Global,
    file: &AskedFile<'_>,
    faults: usize,
) -> Result<Template, Status>
    ensures ok { IfOk result (IsReadFrom faults file.now) }
    ensures err { IfErr result (IsUnreadFile file.now) }
{
    let Ok(name) = str::from_utf8(file.name) else {
        return Err(Status::NotUtf8);
    };
    let Ok(source) = str::from_utf8(file.source) else {
        return Err(Status::NotUtf8);
    };
    Ok(read_template(alloc, name, source, faults)?)
}

//! What is found in files, as JSON.

ghost use Rattle.std.specs.Prelude.{◌≡◌, ◌++◌, map, IfOk, IfErr, OnOk};
ghost use Rattle.std.specs.List.{flat_map};
ghost use Rattle.tera_findings.specs.Findings.{finding_view};
ghost use Rattle.tera_c.specs.Files.{IsUnread};
ghost use Rattle.tera_c.specs.FilesTogether.{HasFindings, AreFindings, finding_line};

use crate::files::templates_of;
use crate::shapes::AskedFile;
use crate::status::Status;
use std::alloc::{AllocError, Global};
use tera_check::{Finding, Template, all_found, object_of};

/// What is found in the files, an object of JSON a line: at most so many faults of each. Of the files after the first
/// `checked`, which are the library, their faults alone are found.
#[tactic(auto, using(crate::proofs::FileLemmas::memory_unread))]
pub(crate) fn findings_in(
    alloc: Global,
    files: &[AskedFile<'_>],
    checked: usize,
    faults: usize,
) -> Result<Vec<u8>, Status>
    ensures ok { IfOk result (λ text. HasFindings checked faults files.now text.items) }
    ensures err { IfErr result (IsUnread files.now) }
{
    let templates = templates_of(alloc, files, faults)?;
    Ok(all_lines(alloc, &templates, checked)?)
}

fn all_lines(
    alloc: Global,
    templates: &Vec<Template>,
    checked: usize,
) -> Result<Vec<u8>, AllocError>
    ensures { IfOk result (λ text. AreFindings checked templates.now.items text.items) }
{
    let all = all_found(alloc, templates, checked)?;
    let mut text = Vec::new(alloc);
    for found in &all {
        push_lines(alloc, &mut text, found.file, &found.findings)?;
    }
    Ok(text)
}

fn push_lines(
    alloc: Global,
    text: &mut Vec<u8>,
    file: &str,
    findings: &Vec<Finding>,
) -> Result<(), AllocError>
    ensures { OnOk result (text.new.items ≡ text.old.items
        ++ flat_map (finding_line file.now) (map finding_view findings.now.items)) }
{
    for finding in findings {
        let line = object_of(alloc, file, finding)?;
        text.extend_from_slice(line.as_slice())?;
    }
    Ok(())
}

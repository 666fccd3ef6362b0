//! Whether a template is better than it was.

ghost use Rattle.std.specs.Prelude.{◌≡◌, ℕ, List, IfOk};
ghost use Rattle.std.specs.BTreeSet.{contains_text};
ghost use Rattle.std.specs.List.{list_all};
ghost use Rattle.tera_check.specs.Named.{known_in};
ghost use Rattle.tera_fixes.specs.Better.{IsBetter, are_better, has_message, was_found};

use std::alloc::{AllocError, Global};
use std::collections::BTreeSet;
use tera_check::{Catalogue, Finding, Template, findings_of};

/// How many findings fewer the template of this number has than `before`, which were found in another text of it.
/// `None` if it has no tree, has as many findings, or has one with a message that none of `before` has.
///
/// The catalogue is that of the other text. It is right for this one if both define the same components.
pub fn fewer_in(
    alloc: Global,
    catalogue: &Catalogue<'_>,
    is_open: bool,
    number: usize,
    template: &Template,
    before: &[Finding],
) -> Result<Option<usize>, AllocError>
    ensures { IfOk result (IsBetter (known_in catalogue.now) is_open number template.now before.now) }
{
    if template.parsed.is_err() {
        return Ok(None);
    }
    let after = findings_of(alloc, catalogue, is_open, number, template)?;
    if are_better(alloc, before, after.as_slice())? {
        Ok(Some(before.len().saturating_sub(after.len())))
    } else {
        Ok(None)
    }
}

// Whether there are fewer than before, and each has the message of one before.
fn are_better(alloc: Global, before: &[Finding], after: &[Finding]) -> Result<bool, AllocError>
    ensures { IfOk result (λ better. better ≡ are_better before.now after.now) }
{
    if before.len() <= after.len() {
        return Ok(false);
    }
    were_found(alloc, before, after)
}

// Whether each has the message of one that was found before.
fn were_found(alloc: Global, before: &[Finding], after: &[Finding]) -> Result<bool, AllocError>
    ensures { IfOk result (λ were. were ≡ list_all (was_found before.now) after.now) }
{
    let messages = messages_of(alloc, before)?;
    for finding in after {
        if !messages.contains(finding.message.as_str()) {
            return Ok(false);
        }
    }
    Ok(true)
}

fn messages_of(alloc: Global, findings: &[Finding]) -> Result<BTreeSet<String>, AllocError>
    ensures { IfOk result (λ messages. (text : List ℕ) →
        contains_text messages text ≡ has_message findings.now text) }
{
    let mut messages = BTreeSet::new(alloc);
    for finding in findings {
        messages.insert(finding.message.clone()?)?;
    }
    Ok(messages)
}

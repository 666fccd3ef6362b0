//! How many findings there are in templates, and whether there is an error.

ghost use Rattle.std.specs.Prelude.{◌≡◌};
ghost use Rattle.std.specs.List.{list_any};
ghost use Rattle.tera_jobs.specs.Found.{is_error, is_of_error, is_wrong, count_in, faulty_in};

use tera_check::{Finding, Found, Severity};

/// Whether an error is found.
pub(crate) fn has_error(all: &[Found<'_>]) -> bool
    ensures { result ≡ list_any is_wrong all.now }
{
    for found in all {
        if is_wrong(&found.findings) {
            return true;
        }
    }
    false
}

fn is_wrong(findings: &Vec<Finding>) -> bool
    ensures { result ≡ list_any is_of_error findings.now.items }
{
    for finding in findings {
        if is_error(finding.severity) {
            return true;
        }
    }
    false
}

fn is_error(severity: Severity) -> bool
    ensures { result ≡ is_error severity }
{
    match severity {
        Severity::Error => true,
        Severity::Warning => false,
    }
}

/// How many findings there are, or the greatest `usize` if there are more.
pub(crate) fn count_of(all: &[Found<'_>]) -> usize
    ensures { result ≡ count_in all.now }
{
    let mut count = 0usize;
    for found in all {
        count = count.saturating_add(found.findings.len());
    }
    count
}

/// How many templates have a finding.
pub(crate) fn faulty_of(all: &[Found<'_>]) -> usize
    ensures { result ≡ faulty_in all.now }
{
    let mut count = 0usize;
    for found in all {
        count = count.saturating_add(usize::from(!found.findings.is_empty()));
    }
    count
}

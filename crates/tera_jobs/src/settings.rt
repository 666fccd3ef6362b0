//! The file of settings that counts for a job.

use crate::reading::name_of;
use settings_files::{Configured, Unfit, settings_above, settings_at};
use std::rt::Files;
use tera_options::job::{Common, Job};
use tera_program_parts::explanations::OPTIONAL_RULES;
use tera_program_parts::settings::{Site, site_in};

/// What the file of settings for the job says.
pub fn site_of<R: Files + Input + AllocGlobal>(rt: &R, job: &Job<'_, '_>) -> Result<Site, Unfit> {
    let found = match job {
        Job::Check(job) => found_for(rt, job.common, first_of(job.files))?,
        Job::Tree(job) => found_for(rt, job.common, job.file)?,
        Job::Components(job) => found_for(rt, job.common, first_of(job.files))?,
        Job::Format(job) => found_for(rt, job.common, first_of(job.files))?,
        Job::Explain(_) | Job::Server(_) => None,
    };
    match found {
        Some(file) => site_in(rt, matches!(job, Job::Format(_)), file),
        None => Ok(Site::none(rt.alloc())),
    }
}

fn first_of<'a>(paths: Option<&[&'a str]>) -> &'a str {
    match paths {
        Some([first, ..]) => first,
        _ => ".",
    }
}

// The file that is named, or the nearest one above the path.
fn found_for<R: Files + Input + AllocGlobal>(
    rt: &R,
    common: Common<'_, '_>,
    path: &str,
) -> Result<Option<Configured>, Unfit> {
    if common.no_config {
        return Ok(None);
    }
    match common.config {
        Some(file) => Ok(Some(settings_at(rt, OPTIONAL_RULES.as_slice(), file)?)),
        None => settings_above(rt, OPTIONAL_RULES.as_slice(), name_of(path, common.stdin)),
    }
}

//! What is suggested for a text, as text.

use std::alloc::{AllocError, Global};
use tera_check::{Template, all_found, catalogue_of, read_template};
use tera_fixes::{Suggestion, edited, suggestions_in};

/// What is suggested in the source, beside the library: of each finding with a suggestion its title, and after that
/// the text that results.
pub(crate) fn suggested(alloc: Global, library: &str, source: &str) -> Result<String, AllocError> {
    let mut templates = Vec::new(alloc);
    templates.push(read_template(alloc, "page", source, 100)?)?;
    templates.push(read_template(alloc, "library", library, 100)?)?;
    let suggestions = suggestions_for(alloc, &templates, source)?;
    let mut text = String::new(alloc);
    for suggestion in &suggestions {
        if let Some(suggestion) = suggestion {
            text.push_str(suggestion.title.as_str())?;
            text.push_str("; ")?;
        }
    }
    text.push_str(edited(alloc, source, suggestions.as_slice())?.as_str())?;
    Ok(text)
}

fn suggestions_for(
    alloc: Global,
    templates: &Vec<Template>,
    source: &str,
) -> Result<Vec<Option<Suggestion>>, AllocError> {
    let catalogue = catalogue_of(alloc, templates)?;
    let found = all_found(alloc, templates, 1)?;
    let (Some(page), Some(of_page)) = (templates.first(), found.first()) else {
        return Ok(Vec::new(alloc));
    };
    let mut findings = Vec::new(alloc);
    for finding in &of_page.findings {
        findings.push(finding)?;
    }
    suggestions_in(alloc, &catalogue, page, source, findings.as_slice())
}

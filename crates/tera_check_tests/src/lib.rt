//! Tests of mending, findings, sites, fixes, catalogues, reports and documents that are changed.
//!
//! Of `tera_mend`: the modules `mend_..`. Of `tera_check`: `definitions`, `findings`, `levels`, `refusals`. Of
//! `tera_site`, `tera_fixes`, `tera_catalogue` and `tera_report`: those with their names in front. Of `tera_workspace`:
//! `workspaces`, `sites`. Tests in which each allocation fails in turn take all memory that the process can get, so they
//! are run as they are proved, by `rt test` or `rt ci`, and not by `rt try`.
#![tactic(auto)]

#[cfg(test)]
mod catalogue_pages;
#[cfg(test)]
mod catalogue_values;
#[cfg(test)]
mod definitions;
#[cfg(test)]
mod findings;
#[cfg(test)]
mod fixes_memory;
#[cfg(test)]
mod fixes_shown;
#[cfg(test)]
mod fixes_suggested;
#[cfg(test)]
mod levels;
#[cfg(test)]
mod mend_choices;
#[cfg(test)]
mod mend_faults;
#[cfg(test)]
mod mend_refusals;
#[cfg(test)]
mod mend_reported;
#[cfg(test)]
mod refusals;
#[cfg(test)]
mod report_text;
#[cfg(test)]
mod site_large;
#[cfg(test)]
mod site_names;
#[cfg(test)]
mod sites;
#[cfg(test)]
mod workspaces;

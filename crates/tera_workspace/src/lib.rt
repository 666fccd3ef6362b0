//! The findings in templates that an editor has open or that are on disk, kept up to date while they change.
//!
//! It takes documents as `text_edits` keeps them, and reports what `tera_check` finds in each, with positions of
//! `text_edits` in place of spans. After an edit the document is read again, unless it has the text that was checked.
//! Checked again are the document, the documents that name a component that may have changed, and those that have a
//! finding with a place in it. It also has the names of the components and of the files, the parameters of a component,
//! where it is defined, the texts that were read, and what is found in one document, also by what a program registers,
//! or between other markers. Of a site it keeps what is around each of its templates, and finds what is wrong with their names.
//!
//! In the order of reading: specs `Sources`, `Diagnostics`, `Fresh`, `Workspaces`; `lined_text` and `diagnostics`;
//! `name_list`; `judged`, a document as it was checked; `reading`, and `touched`, what a new text changes for others;
//! `catalogue`; `news`; specs `Components`, `Judgements`, `Unregistered` and `Definitions`; `workspace`; `queries`;
//! `judgements`; `unknown`; specs `SiteValues`, `Sites` and `sites`; `near`, for one document that changed; then
//! `named`; specs `Between` and `between`.
#![tactic(auto)]

mod between;
mod catalogue;
mod diagnostics;
mod judged;
mod judgements;
pub mod laws;
mod lined_text;
mod name_list;
mod named;
mod near;
mod news;
mod queries;
mod reading;
mod sites;
mod touched;
mod unknown;
mod workspace;

pub use between::Markers;
pub use diagnostics::{Diagnostic, Related};
pub use judgements::Judgement;
pub use queries::{Definition, FileText};
pub use sites::{KeptSite, name_below};
pub use workspace::Workspace;

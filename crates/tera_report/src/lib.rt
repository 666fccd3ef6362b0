//! Findings as text: for people, for workflows of GitHub and for services that read SARIF.
//!
//! It takes findings of `tera_check`, and adds them to the end of a text (`full_text`, `github`) or to a log (`sarif`).
//! Files that could not be read have entries too (`unread`). A tree is written with the faults of its template
//! (`trees`). It depends on `tera_check`, `tera_tree_json`, `json_members`, `terminal_text`, `line_text` and
//! `file_uris`; of the kit it uses `json`.
//!
//! In the order of reading: spec `FullTexts`, `role` and `full_text`; specs `Annotations` and `github`; `Logs` and
//! `sarif`; `Unread` and `unread`; `Trees` and `trees`; `laws`.
#![tactic(auto)]

mod full_text;
mod github;
pub mod laws;
mod role;
mod sarif;
mod trees;
mod unread;

pub use full_text::{push_full, push_help, push_lines};
pub use github::push_annotation;
pub use sarif::{begin_log, end_log, put_result};
pub use trees::tree_line_of;
pub use unread::{push_unread_annotation, put_unread};

//! What the jobs of the program `tera` and its exchange with an editor have in common.
//!
//! It takes a runtime with files and streams. It depends on `settings_files` for files of settings, on `tera_files` for
//! the files of paths, on `tera_site` for the names of templates, on `tera_layout` for markers, and on `terminal_text`
//! and `line_text` for what is written.
//!
//! In the order of reading: `status`, how a job ends; `output`, what is written beside the result; `explanations`, the
//! rules and what is printed of each; `extensions` and `excluded`, which files are templates and which are left out;
//! `markers`; `site`, the names of templates; spec `Settings` and `settings`, what a file of settings says.
#![tactic(auto)]

pub mod excluded;
pub mod explanations;
pub mod extensions;
pub mod markers;
pub mod output;
pub mod settings;
pub mod site;
pub mod status;

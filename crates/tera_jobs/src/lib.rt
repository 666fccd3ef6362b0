//! What each subcommand of the program `tera` does, except the exchange with an editor.
//!
//! It takes a job of `tera_options` and a runtime, and returns how the job ended. It depends on `tera_files` for files,
//! on `tera_program_parts` for settings, markers and what is written beside a result, and on `tera_report` and
//! `terminal_text` for results.
//!
//! In the order of reading: `settings`, which file of settings counts; `reading`, the templates; `found`, `helps`, `forms`
//! and `reporting`, what is found in them, counted and as text; `counting`, the summary line; `fixing`, what is put right
//! in files; `plan`, what a file becomes; then a module for each subcommand.
#![tactic(auto)]

pub mod check;
pub mod components;
mod counting;
pub mod explain;
mod fixing;
pub mod format;
mod forms;
mod found;
mod helps;
pub mod plan;
mod reading;
mod reporting;
pub mod settings;
pub mod tree;

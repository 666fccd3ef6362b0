//! Texts on one line that are safe to show on a terminal.
//!
//! It takes any text, as a part of a template or the name of a file, and adds it to the end of another text. It writes
//! an escape for each character that would end the line, turn its direction or control the terminal. It depends on the
//! standard library alone.
//!
//! In the order of reading: spec `Line`; `lines`; `laws`.
#![tactic(auto)]

pub mod laws;
mod lines;

pub use lines::{is_printable, is_unsafe, push_on_lines, push_on_one_line};

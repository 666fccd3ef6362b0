//! Files of cases: what a program is to answer to some sources, as text that is written by hand.
//!
//! `docs/CASES.md` says what is in a file.
#![tactic(auto)]

mod case;
mod escapes;
mod file;
mod options;
mod rows;

pub use case::{Case, CaseError, Section};
pub use file::read_cases;
pub use options::{Numbers, Options, Repeat, Shown, words};

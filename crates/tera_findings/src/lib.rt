//! What a finding is: its kind, how grave it is, the span that it is about, its text and its notes.
//!
//! It gives the finding of a fault of the parser (`IsOfError`), and writes findings as objects of JSON (`object_of`);
//! `tera_report` writes them as text. It depends on `tera_parser`, and its code names nothing below it; of the kit it
//! uses `json`.
//!
//! In the order of reading: specs `Findings`, `Faults`, `Objects`; `finding`, `spans`, `faults`, `objects`.
#![tactic(auto)]

mod faults;
mod finding;
mod objects;
mod spans;

pub use faults::{finding_of_fault, is_memory, push_text, push_text_if_any};
pub use finding::{Finding, KINDS, Kind, Note, Place, Severity, push_finding};
pub use objects::{object_of, put_object, unread_object_of};
pub use spans::first_span;

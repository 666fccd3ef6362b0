//! Templates that are read, each by itself: its tree, or its faults and what they come of.
//!
//! It takes sources. It reads each within the usual limits, a source with faults as `tera_mend` mends it, and gives the
//! findings of the faults (`AreOfFaults`) and the comments that silence findings (`AreIgnoresIn`). It depends on
//! `tera_parser` and `tera_mend`, and its code names nothing below these.
//!
//! In the order of reading: specs `Templates`; `templates`, which reads, `spans`, and `parents` (specs `Parents`);
//! `mended`, what a source with faults is read as (specs `Mended`), and `lost`, its words (specs `Lost`); `boundaries`
//! (specs `Boundaries`); `ignores`, the comments that silence findings (specs `Ignores`); `fault_findings`, with
//! `causes`, `tags`, `hints` and `walk` (specs `FaultFindings`, `Hints`); `messages`, texts.
#![tactic(auto)]

mod boundaries;
mod causes;
mod fault_findings;
mod hints;
mod ignores;
mod lost;
mod mended;
mod messages;
mod parents;
mod spans;
mod tags;
mod templates;
mod walk;

pub use boundaries::{is_same_part, text_at};
pub use fault_findings::findings_of_mended;
pub use ignores::Ignore;
pub use lost::put_place;
pub use mended::Mended;
pub use templates::{
    Template, definitions_of, is_open, read_template, read_template_between, tree_of,
};

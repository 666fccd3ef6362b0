//! All faults of a template, and the tree of what is right in it.
//!
//! A source with a fault is mended: some of its bytes are overwritten by as many others. These keep its line feeds and
//! the beginnings of its characters, so every other byte keeps its place. The result is parsed again, until there is no
//! fault. Each fault is one of the parser: of the text at that time, or of one of its tags that is read alone. The tree
//! is the parser's, of the last text. No clause is about the choice of the bytes; each choice is tested when it is
//! made.
//!
//! In the order of reading: specs `Places`, `Moved` and `Mending`; `mending`, which goes from fault to fault; `lone`,
//! the faults of tags that are read alone; `policy`, what is written for a fault; `edits`, which tests that and writes
//! it; `moved`, an error at another place. Then `laws`.
#![tactic(auto)]

mod edits;
pub mod laws;
mod lone;
mod mending;
mod moved;
mod policy;
mod reading;

pub use edits::{Edit, is_in_place};
pub use mending::{Fault, Limit, Mended, mend};

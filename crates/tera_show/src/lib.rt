//! Shows the tree of a template as text, from a reader to a writer.
//!
//! It takes a reader and a writer. What it writes is the text of the tree, or the line of the fault (`IsShown`). It
//! depends on `tera_parser`, `tera_tree_text` and `line_text`.
//!
//! In the order of reading: specs `Shown`; `stream`, from what is read to what is written, with `writing`.
#![tactic(auto)]

mod stream;
mod writing;

pub use stream::{Outcome, ShowFault, show, show_with, status};
pub use tera_tree_text::tree_text;
pub use writing::write_all;

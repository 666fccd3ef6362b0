//! Texts for people who read a terminal: lines of a source with marks below them, and the difference of two texts, with
//! colours or without.
//!
//! It takes texts and places, and adds what is to be shown to the end of a text. It knows nothing of templates, and
//! depends on `line_text` alone.
//!
//! In the order of reading: specs `Styled` and `style`, the colours; `Shown` and `shown`, characters and their columns;
//! `Lines`, `Files`, `lines` and `source`, the lines of sources; `Excerpt` and `excerpt`, a line with its mark;
//! `counts`; `Edits` and `edits`, the lines of two texts side by side, `Hunks` and `hunks`, which of them are shown,
//! and `Differences` and `differences`; `laws`.
#![tactic(auto)]

mod counts;
mod differences;
mod edits;
mod excerpt;
mod hunks;
pub mod laws;
mod lines;
mod shown;
mod source;
mod style;

pub use counts::counted;
pub use differences::difference;
pub use excerpt::{Marked, push_excerpt};
pub use source::Sources;
pub use style::{Part, Style};

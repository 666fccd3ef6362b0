//! Lines, positions and edits of a text, as an editor sends them, and the texts that the editor has open.
//!
//! It takes texts in UTF-8, and positions: a line from 0, and in it a number of units of UTF-8, UTF-16 or UTF-32 from
//! 0. It finds the byte of a position (`byte_of`) and the position of a byte (`position_of`), and applies changes that
//! are given by positions (`edited`). A line ends with a line feed, a carriage return, or both in that order. It keeps
//! texts by the names of their files ([`Documents`]): the text that counts is the editor's, or else the one on disk
//! (`text_of`). It knows nothing of what the texts are, and depends on the standard library alone.
//!
//! In the order of reading: specs `Lines`, `Positions` and `Edits`; `lines`, where they begin, and spec `Places`;
//! `positions`; `walk`, from one byte to a later one; spec `Runs`; `runs`, changes from the end of a text to its start;
//! `edits`; `laws`; specs `Documents` and `Stored`; `documents`.
#![tactic(auto)]

mod documents;
mod edits;
pub mod laws;
mod lines;
mod positions;
mod runs;
mod walk;

pub use documents::Documents;
pub use edits::{Change, edited};
pub use lines::Lines;
pub use positions::{Encoding, Position, byte_at, position_at};
pub use walk::Walk;

//! Messages in a stream of bytes, each after a header with its length, as language servers have them.
//!
//! A header has lines of a name, a colon and a value, and then an empty line. Each line ends with a carriage return and
//! a line feed. Exactly one line has the name `Content-Length`, in any case. Its value is a number of 64 bits in
//! decimal digits, with or without spaces and tabs on both sides.
//!
//! [`Frames`] takes the stream in pieces of any size and returns its messages; [`write_frame`] puts a header before a
//! message. What ends with an empty line and is not a header is reported and skipped, and so is a message that is too
//! long. [`frames_of`] has the promise on a whole stream.
//!
//! In the order of reading: specs `Header`, `Stream` and `Shown`; `pieces`, `writing` and `laws`; specs `Held` and
//! `Representing`; `framing`, with `Steps`; `lines` and `field`, with `Lines` and `Reading`.
#![tactic(auto)]

mod field;
mod framing;
pub mod laws;
mod lines;
mod pieces;
mod writing;

pub use framing::{Frame, Frames};
pub use pieces::frames_of;
pub use writing::write_frame;

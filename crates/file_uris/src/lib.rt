//! Paths of files as URIs: the URI and the relative reference of a path, and the path that a URI stands for.
//!
//! It takes and gives text, and depends on the standard library alone.
//!
//! In the order of reading: specs `Encoding`, `Decoding` and `Names`; `encoding`, `decoding`, `names` and `laws`.
#![tactic(auto)]

mod decoding;
mod encoding;
pub mod laws;
mod names;

pub use encoding::{push_path, reference_of};
pub use names::{name_of, uri_of};

//! Tokens and members of objects, as they are written to JSON.
//!
//! It writes to a `json::Writer` of the kit, and depends on nothing else.
//!
//! In the order of reading: specs `Written` and `Members`; `writing`.
#![tactic(auto)]

mod writing;

pub use writing::{put_number, put_text, put_tokens};

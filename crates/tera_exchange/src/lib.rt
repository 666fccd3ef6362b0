//! The exchange of the program `tera` with an editor: `tera server`.
//!
//! It takes a runtime with files and streams, and returns how the exchange ended. It depends on `tera_server` for what
//! each message does, on `message_frames` for messages in a stream, on `tera_files` for files, and on
//! `tera_program_parts` for settings and what they leave out.
//!
//! In the order of reading: specs `Sent` and `sending`, the messages to an editor; `aside`, which files are read; `disk`,
//! what is there; `settings`, what counts for a folder; spec `Serving` and `server`.
#![tactic(auto)]

mod aside;
mod disk;
mod sending;
pub mod server;
mod settings;

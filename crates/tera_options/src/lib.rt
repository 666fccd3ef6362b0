//! The command line of the program `tera`, and the job that its words ask for.
//!
//! It depends on `clap` for the words, and on `tera_program_parts` for the names of the rules and for what a file of
//! settings says.
//!
//! In the order of reading: `options`, the words; `colours`, when messages have colours; spec `Jobs` and `job`, what the
//! words ask.
#![tactic(auto)]

pub mod colours;
pub mod job;
pub mod options;

//! Calls whose allocations fail. All the memory that the process can get is taken, so a program that uses this is run
//! as it is proved, and not by `rt try`.
//!
//! In the order of reading: `scarce`, the memory that is taken; `attempts`, calls that are tried with more each time.
#![tactic(auto)]

mod attempts;
mod scarce;

pub use attempts::{Attempt, Seen, Verdict, refuse};
pub use scarce::Scarce;

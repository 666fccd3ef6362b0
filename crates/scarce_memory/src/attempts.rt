//! Calls that are tried again and again, with a little more memory each time.

use crate::scarce::Scarce;
use std::alloc::{AllocError, Global};

/// How a call answered.
#[derive(Clone, Copy, Debug, PartialEq, Eq)]
pub enum Seen {
    /// That it failed to allocate, and nothing changed.
    Memory,
    /// As with ample memory.
    Usual,
    /// In another way.
    Other,
}

impl Seen {
    /// How a call answered that found memory.
    pub fn answer(is_usual: bool) -> Seen {
        if is_usual { Seen::Usual } else { Seen::Other }
    }
}

/// A call that needs memory.
pub trait Attempt {
    /// Calls, and compares the answer with that of ample memory.
    fn attempt(&self, alloc: Global) -> Seen;
}

/// How a call answered in all runs.
#[derive(Clone, Copy, Debug, PartialEq, Eq)]
pub enum Verdict {
    /// As usual in the last ones, and that it failed to allocate in so many before.
    Refused(u16),
    /// In another way in the run of this number.
    Other(u16),
    /// Not as usual in the last ones, however much memory there was.
    NeverUsual,
}

// More runs than a room has pieces of 32 bytes.
const RUNS: u16 = 1040;

// In so many runs in turn no allocation fails before the last one.
const USUAL: u16 = 16;

/// Calls with no free memory, and then with a piece of 32 bytes more each time, until no allocation fails in some
/// runs.
///
/// Each growth takes 32 bytes at least, so each that takes new memory fails in some run.
pub fn refuse<A: Attempt>(alloc: Global, call: &A) -> Result<Verdict, AllocError> {
    let mut scarce = Scarce::new(alloc, RUNS)?;
    let mut refused = 0u16;
    let mut usual = 0u16;
    for run in 0..RUNS {
        scarce.leave(32 * usize::from(run));
        match call.attempt(alloc) {
            Seen::Memory => {
                refused = refused.saturating_add(1);
                usual = 0;
            }
            Seen::Usual => usual = usual.saturating_add(1),
            Seen::Other => return Ok(Verdict::Other(run)),
        }
        if usual == USUAL {
            return Ok(Verdict::Refused(refused));
        }
    }
    Ok(Verdict::NeverUsual)
}

//! How the program ends.

ghost use Rattle.std.specs.Prelude.{◌≡◌, ◌||◌, not, true, false};
ghost use Rattle.tera_program_parts.specs.Ends.{status_at};

use tera_check::status;

/// What happened while the job was done.
#[derive(Clone, Copy, Debug, PartialEq, Eq)]
pub struct Ended {
    /// Whether something was found that is not a warning.
    pub found: bool,
    /// Whether not all could be done or reported.
    pub failed: bool,
}

impl Ended {
    /// Nothing could be done.
    pub fn failed() -> Ended
        ensures { result ≡ record { found = false; failed = true } }
    {
        Ended {
            found: false,
            failed: true,
        }
    }

    /// The same, and a failure if standard error did not take what was written to it.
    pub fn unless_said(self, is_said: bool) -> Ended
        ensures { result ≡ record self { failed = self.failed || not is_said } }
    {
        Ended {
            found: self.found,
            failed: self.failed || !is_said,
        }
    }
}

/// The status of the program: 2 if not all could be done or reported, else 1 if something was found that is not a
/// warning, else 0.
pub fn status_of(ended: Ended) -> u8
    ensures { result ≡ status_at ended }
{
    status(ended.found, ended.failed)
}

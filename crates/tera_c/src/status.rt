//! What a call comes to.

ghost use Rattle.std.specs.Prelude.{◌≡◌};
ghost use Rattle.tera_c.specs.Statuses.{number_of};
ghost use Rattle.tera_c.specs.declared.status.Status.TheVariants.{Memory};

use std::alloc::AllocError;

/// What a call comes to.
#[derive(Clone, Copy, Debug, PartialEq, Eq)]
pub enum Status {
    /// What was asked for is in the buffer.
    Written,
    /// The buffer is too short for it. Nothing was written.
    Short,
    /// The source has a fault, so it has no tree.
    Faulty,
    /// The source has a tree, so it has no fault; or its fault has no such note.
    Nothing,
    /// The source is not UTF-8.
    NotUtf8,
    /// The markers are not the markers of a template.
    BadMarkers,
    /// The limits are not among those that templates are read within.
    BadLimits,
    /// An allocation failed.
    Memory,
}

impl From<AllocError> for Status {
    ghost from_gives = { λ _ status. status ≡ Memory };

    fn from(_error: AllocError) -> Status {
        Status::Memory
    }
}

impl Status {
    /// The number by which other languages know it.
    pub fn number(self) -> u32
        ensures { result ≡ number_of self }
    {
        match self {
            Status::Written => 0,
            Status::Short => 1,
            Status::Faulty => 2,
            Status::Nothing => 3,
            Status::NotUtf8 => 4,
            Status::BadMarkers => 5,
            Status::BadLimits => 6,
            Status::Memory => 7,
        }
    }
}

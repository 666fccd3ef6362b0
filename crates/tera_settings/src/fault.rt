//! What is wrong in a file of settings.

use std::alloc::{AllocError, AllocFailed};

/// Why a text has no settings.
#[derive(Debug, Drop)]
pub enum Fault {
    /// An allocation failed, which says nothing of the text.
    Memory,
    /// The text is not TOML.
    Text(toml::de::Error),
    /// A member of a table is wrong.
    Member(Wrong),
}

/// What is wrong with the member at a key.
#[derive(Debug, Drop)]
pub struct Wrong {
    /// The table that it is in, unless that is the whole file.
    pub table: Option<&'static str>,
    pub key: String,
    pub why: Why,
}

/// Why a member is wrong.
#[derive(Clone, Copy, Debug, PartialEq, Eq)]
pub enum Why {
    /// No setting has this key.
    UnknownKey,
    /// No rule has this name.
    UnknownRule,
    /// It is not a string.
    NotText,
    /// It is not an array of strings.
    NotTexts,
    /// It is not the word of a level: `off`, `warning` or `error`.
    NotLevel,
    /// It is not a table.
    NotTable,
}

impl From<AllocError> for Fault {
    ghost use Rattle.tera_settings.specs.Faults.{IsMemory};

    ghost from_gives = { λ _ fault. IsMemory fault };

    fn from(_error: AllocError) -> Fault {
        Fault::Memory
    }
}

impl<T: Drop> From<AllocFailed<T>> for Fault {
    ghost use Rattle.tera_settings.specs.Faults.{IsMemory};

    ghost from_gives = { λ _ fault. IsMemory fault };

    fn from(_error: AllocFailed<T>) -> Fault {
        Fault::Memory
    }
}

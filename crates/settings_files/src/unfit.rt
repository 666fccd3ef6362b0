//! Why a file has no settings.

use std::alloc::{AllocError, AllocFailed};
use tera_files::Unread;

/// Why there are no settings.
#[derive(Debug, Drop)]
pub enum Unfit {
    /// An allocation failed.
    Memory,
    /// The file of this path could not be read.
    Unread(String, Unread),
    /// The file means no settings.
    Wrong(WrongFile),
}

/// What is wrong in a file.
#[derive(Debug, Drop)]
pub struct WrongFile {
    pub file: String,
    /// From 1, as the column is, which counts characters.
    pub line: usize,
    pub column: usize,
    pub message: String,
}

impl From<AllocError> for Unfit {
    ghost use Rattle.settings_files.specs.Configured.{IsMemory};

    ghost from_gives = { λ _ unfit. IsMemory unfit };

    fn from(_error: AllocError) -> Unfit {
        Unfit::Memory
    }
}

impl<T: Drop> From<AllocFailed<T>> for Unfit {
    ghost use Rattle.settings_files.specs.Configured.{IsMemory};

    ghost from_gives = { λ _ unfit. IsMemory unfit };

    fn from(_error: AllocFailed<T>) -> Unfit {
        Unfit::Memory
    }
}

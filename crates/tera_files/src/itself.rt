//! The paths by which the system knows files.

use crate::names::base_of;
use std::alloc::AllocError;
use std::rt::Files;
use std::{fs, io};

/// The path by which the system knows a file, or where it knows none the one that is given, without the `.` of the folder in
/// which it begins, as paths below that have none.
pub(crate) fn itself_of<R: Files + AllocGlobal>(rt: &R, path: &str) -> Result<String, AllocError> {
    match fs::canonicalize(rt, path) {
        Ok(itself) => Ok(itself.into_string()),
        Err(error) => {
            fault(error)?;
            String::from_str(rt.alloc(), base_of(path))
        }
    }
}

/// The error, unless it is an allocation failure.
pub(crate) fn fault(error: io::Error) -> Result<io::Error, AllocError> {
    if error.kind() == io::ErrorKind::OutOfMemory {
        Err(AllocError)
    } else {
        Ok(error)
    }
}

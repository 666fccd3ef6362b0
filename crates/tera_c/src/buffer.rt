//! What is written into a buffer of the caller's.

ghost use Rattle.tera_c.specs.Statuses.{IsPut};

use crate::status::Status;

/// Puts a text at the start of a buffer, unless it is too short, and says what the text needs.
pub(crate) fn put(text: &str, buffer: &mut [u8], needed: &mut usize) -> Status
    ensures { IsPut text.now result buffer.old buffer.new needed.new }
{
    put_bytes(text.as_bytes(), buffer, needed)
}

/// Puts the bytes of a text there, in the same way.
pub(crate) fn put_bytes(bytes: &[u8], buffer: &mut [u8], needed: &mut usize) -> Status
    ensures { IsPut bytes.now result buffer.old buffer.new needed.new }
{
    *needed = bytes.len();
    if bytes.len() > buffer.len() {
        return Status::Short;
    }
    buffer[..bytes.len()].copy_from_slice(bytes);
    Status::Written
}

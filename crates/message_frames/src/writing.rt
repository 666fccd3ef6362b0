//! A message after its header.

ghost use Rattle.std.specs.Prelude.{◌≡◌, IfOk};
ghost use Rattle.message_frames.specs.Writing.{frame};

use std::alloc::{AllocError, Global};

/// The bytes of a message as they are on the stream.
pub fn write_frame(alloc: Global, message: &[u8]) -> Result<Vec<u8>, AllocError>
    ensures { IfOk result (λ bytes. bytes.items ≡ frame message.now) }
{
    let header = format!(in alloc; "Content-Length: {}\r\n\r\n", message.len())?;
    let mut bytes = header.into_bytes();
    bytes.extend_from_slice(message)?;
    Ok(bytes)
}

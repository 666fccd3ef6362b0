//! A text that is written, to any writer.

ghost use Rattle.std.specs.Prelude.{◌<◌, ℕ, length, take, OnOk, OnErr};
ghost use Rattle.std.specs.Io.KnownBytes.{Appends};

use std::io;
use std::io::Write;

/// Writes all of the text, or a beginning of it. A write that takes no byte is an error.
pub fn write_all<W: Write>(writer: &mut W, text: &[u8]) -> io::Result<()>
    ensures ok { OnOk result (Appends (W.contents writer.old) (W.contents writer.new) text.now) }
    ensures err { OnErr result ((n : ℕ) × (n < length text.now)
        × Appends (W.contents writer.old) (W.contents writer.new) (take n text.now)) }
{
    let mut done = 0;
    while done < text.len() {
        match writer.write(&text[done..]) {
            Ok(0) => return Err(io::Error::from(io::ErrorKind::WriteZero)),
            Ok(n) => done += n,
            Err(error) => return Err(error),
        }
    }
    Ok(())
}

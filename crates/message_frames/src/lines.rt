//! Lines of a header, as they come.

ghost use Rattle.std.specs.Prelude.{◌≡◌, ◌<◌, ◌≤◌, ◌-◌, length, drop, MatchOption};
ghost use Rattle.message_frames.specs.Header.{EndsAt, NoneEndsBefore};
ghost use Rattle.message_frames.specs.Lines.{IsEndFrom, AreRead};

use crate::field::{Stated, read_field};
use memchr::memmem;

/// What was read of a header.
pub(crate) enum Lines {
    /// Up to after the empty line: how many bytes, and what all lines say.
    Ended {
        len: usize,
        stated: Stated,
    },
    /// Up to a line that has not come whole: how many bytes, what the lines say, and before how many of its bytes no
    /// line end is.
    Open {
        len: usize,
        stated: Stated,
        searched: usize,
    },
}

// The first line end, where none is before this place.
fn find_end(bytes: &[u8], searched: usize) -> Option<usize>
    requires within { searched ≤ length bytes.now }
    requires none { NoneEndsBefore bytes.now searched }
    ensures { IsEndFrom bytes.now result }
{
    let (_, rest) = bytes.split_at(searched);
    let len = memmem::find(rest, b"\r\n")?;
    Some(searched + len)
}

/// Reads the lines that have come whole, up to an empty one.
pub(crate) fn read_lines(bytes: &[u8], mut stated: Stated, mut searched: usize) -> Lines
    requires within { searched ≤ length bytes.now }
    requires none { NoneEndsBefore bytes.now searched }
    ensures { AreRead bytes.now stated result }
{
    let mut rest = bytes;
    'lines: while let Some(len) = find_end(rest, searched) {
        let (line, following) = rest.split_at(len);
        let (_, following) = following.split_at(2);
        rest = following;
        searched = 0;
        if line.is_empty() {
            return Lines::Ended {
                len: bytes.len() - rest.len(),
                stated,
            };
        }
        stated = stated.with(read_field(line));
    }
    Lines::Open {
        len: bytes.len() - rest.len(),
        stated,
        searched: rest.len().saturating_sub(1),
    }
}

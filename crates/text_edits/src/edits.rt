//! Changes of a text.

ghost use Rattle.std.specs.Prelude.{◌≡◌, ◌≤◌, ◌∷◌, length, drop, map, string_bytes, IfOk};
ghost use Rattle.text_edits.specs.Edits.{change_view, edited as edited_text};
ghost use Rattle.text_edits.specs.Places.{AreLinesOf};

use crate::lines::Lines;
use crate::positions::{Encoding, Position};
use crate::runs::Run;
use std::alloc::{AllocError, Global};

/// A change of a text.
#[derive(Clone, Copy, Debug)]
pub enum Change<'a> {
    /// This text in place of all.
    Whole(&'a str),
    /// This text in place of what is between two positions, or at the first where the second is before it.
    Part(Position, Position, &'a str),
}

/// The text after these changes, each of which speaks of the text that those before it left. Parts take the time of the
/// text together, if each ends before the one made last begins, however long its lines are. Any other change takes the
/// time of the text by itself.
pub fn edited(
    alloc: Global,
    text: &str,
    encoding: Encoding,
    changes: &[Change<'_>],
) -> Result<String, AllocError>
    ensures { IfOk result (λ t.
        string_bytes t ≡ edited_text encoding text.now (map change_view changes.now)) }
{
    let mut now = String::from_str(alloc, text)?;
    let mut made = 0;
    'changes: while made < changes.len() {
        let (next, more) = after_some(
            alloc,
            now.as_str(),
            encoding,
            changes[made],
            &changes[made + 1..],
        )?;
        now = next;
        made += 1 + more;
    }
    now.shrink_to_fit();
    Ok(now)
}

// The text after the change and some of those that follow it, and how many these are: after a part those of which each
// is before the one made last.
fn after_some<'n>(
    alloc: Global,
    text: &str,
    encoding: Encoding,
    change: Change<'n>,
    following: &[Change<'n>],
) -> Result<(String, usize), AllocError>
    ensures some { IfOk result (λ r. r.1 ≤ length following.now) }
    ensures edited { IfOk result (λ r.
        edited_text encoding (string_bytes r.0) (map change_view (drop r.1 following.now))
        ≡ edited_text encoding text.now
        (change_view change.entry ∷ map change_view following.now)) }
{
    match change {
        Change::Whole(new) => Ok((String::from_str(alloc, new)?, 0)),
        Change::Part(start, end, new) => {
            let lines = lines_for(alloc, text, !following.is_empty())?;
            let mut run = Run::begin(alloc, text, lines, encoding, start, end, new)?;
            let mut made = 0;
            'others: for other in following {
                if !run.goes_on(*other)? {
                    break;
                }
                made += 1;
            }
            Ok((run.into_text(alloc)?, made))
        }
    }
}

// The lines of a text, of which one position is looked for or many.
fn lines_for(alloc: Global, text: &str, are_many: bool) -> Result<Lines, AllocError>
    ensures { IfOk result (AreLinesOf text.now) }
{
    if are_many {
        Lines::for_many(alloc, text)
    } else {
        Lines::of(alloc, text)
    }
}

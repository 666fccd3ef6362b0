//! The frames of a whole stream.

ghost use Rattle.std.specs.Prelude.{◌≡◌, ℕ, List, map, IfOk, OnOk};
ghost use Rattle.std.specs.List.{flat_map};
ghost use Rattle.message_frames.specs.Stream.{Item, Splits};
ghost use Rattle.message_frames.specs.Shown.{shown, frame_of};
ghost use Rattle.message_frames.specs.Representing.{Represents};
ghost use Rattle.message_frames.specs.Pieces.{AllTaken};

use crate::framing::{Frame, Frames};
use std::alloc::{AllocError, Global};

/// The frames of a stream that comes in these pieces, except [`Frame::Wait`].
pub fn frames_of(alloc: Global, limit: usize, pieces: &[Vec<u8>]) -> Result<Vec<Frame>, AllocError>
    // Up to a rest that is not a whole item, the stream is these messages and what is in the place of headers.
    ensures split { IfOk result (λ frames. (items : List Item) × (rest : List ℕ) ×
        Splits (flat_map (λ piece. piece.items) pieces.now) items rest ×
        (map shown frames.items ≡ map (frame_of limit) items)) }
    // It is nothing else, so it does not matter how the stream was cut into pieces.
    ensures only { IfOk result (λ frames. (items : List Item) (rest : List ℕ) →
        Splits (flat_map (λ piece. piece.items) pieces.now) items rest →
        map shown frames.items ≡ map (frame_of limit) items) }
{
    let mut stream = Frames::new(alloc, limit);
    let mut frames = Vec::new(alloc);
    'pieces: for piece in pieces {
        stream.push(piece.as_slice())?;
        take_all(alloc, &mut stream, &mut frames)?;
    }
    Ok(frames)
}

// Takes frames until the next message has not come whole.
fn take_all(alloc: Global, stream: &mut Frames, frames: &mut Vec<Frame>) -> Result<(), AllocError>
    ensures limit { stream.new.limit ≡ stream.old.limit }
    ensures taken { OnOk result ((pending : List ℕ) → Represents stream.old pending →
        AllTaken stream.old.limit pending frames.old.items frames.new.items stream.new) }
{
    'frames: loop {
        match stream.next(alloc)? {
            Frame::Wait => return Ok(()),
            frame => frames.push(frame)?,
        }
    }
}

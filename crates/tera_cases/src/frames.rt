//! What is reported for a stream of messages that comes in pieces.

use message_frames::frames_of;
use std::alloc::{AllocError, Global};

/// What is reported for the stream after ` in `, whose pieces have bars between them; before it is how many bytes a
/// message may have.
pub(crate) fn frames(alloc: Global, source: &str) -> Result<String, AllocError> {
    let Some((limit, stream)) = source.split_once(" in ") else {
        return String::from_str(alloc, "no stream");
    };
    let Ok(limit) = limit.parse::<usize>() else {
        return String::from_str(alloc, "no limit");
    };
    let pieces = pieces_of(alloc, stream)?;
    let frames = frames_of(alloc, limit, pieces.as_slice())?;
    format!(in alloc; "{frames:?}")
}

fn pieces_of(alloc: Global, stream: &str) -> Result<Vec<Vec<u8>>, AllocError> {
    let mut pieces = Vec::new(alloc);
    for piece in stream.split("|") {
        pieces.push(Vec::from_slice(alloc, piece.as_bytes())?)?;
    }
    Ok(pieces)
}

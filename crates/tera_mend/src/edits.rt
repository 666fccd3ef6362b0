//! Bytes that are written into a text.

ghost use Rattle.std.specs.Prelude.{◌≡◌, ◌↔◌, IsTrue, IfOk, IfSome, map, string_bytes};
ghost use Rattle.tera_lexer.specs.grammar.Place.{begins_character};
ghost use Rattle.tera_mend.specs.Mending.{Edits, Puts};
ghost use Rattle.tera_mend.specs.Places.{AreInPlace, IsInPlace};
ghost use Rattle.tera_mend.specs.Views.{edit_view};

use std::alloc::{AllocError, Global};

/// Bytes that are written over as many bytes of a text, or after its end.
#[derive(Drop)]
pub struct Edit {
    /// How many bytes are before them.
    pub at: usize,
    pub bytes: Vec<u8>,
}

/// Whether the new bytes may be written over the old ones: they are as many, a line feed is in the place of a line feed,
/// and the first byte of a character in the place of the first byte of one.
pub fn is_in_place(old: &[u8], new: &[u8]) -> bool
    ensures { IsTrue result ↔ AreInPlace old.now new.now }
{
    if old.len() != new.len() {
        return false;
    }
    for (i, byte) in old.iter().enumerate() {
        if !is_like(*byte, new[i]) {
            return false;
        }
    }
    true
}

fn is_like(old: u8, new: u8) -> bool
    ensures { IsTrue result ↔ IsInPlace old new }
{
    (old == b'\n') == (new == b'\n') && is_first_of_character(old) == is_first_of_character(new)
}

/// Whether the byte is the first of a character.
pub(crate) fn is_first_of_character(byte: u8) -> bool
    ensures { result ≡ begins_character byte }
{
    byte < 0x80 || 0xC0 <= byte
}

/// The text with these edits, one after another. None where one of them is not in its place, or where the result is not
/// text.
pub(crate) fn edited(
    alloc: Global,
    text: &str,
    edits: &[Edit],
) -> Result<Option<String>, AllocError>
    ensures { IfOk result (λ o. IfSome o (λ new.
        Edits (map edit_view edits.now) text.now (string_bytes new))) }
{
    let mut bytes = Vec::from_slice(alloc, text.as_bytes())?;
    for edit in edits {
        if !put(&mut bytes, edit)? {
            return Ok(None);
        }
    }
    match String::from_utf8(bytes) {
        Ok(new) => Ok(Some(new)),
        Err(_) => Ok(None),
    }
}

// Puts the edit into the bytes. The answer is whether it is in its place; where it is not, the bytes stay.
fn put(bytes: &mut Vec<u8>, edit: &Edit) -> Result<bool, AllocError>
    ensures { IfOk result (λ is_put. IsTrue is_put →
        Puts (edit_view edit.now) bytes.old.items bytes.new.items) }
{
    let new = edit.bytes.as_slice();
    if edit.at == bytes.len() {
        bytes.extend_from_slice(new)?;
        return Ok(true);
    }
    Ok(write(bytes.as_mut_slice(), edit.at, new))
}

// Writes these over as many bytes from there on, if they are in their place.
fn write(bytes: &mut [u8], at: usize, new: &[u8]) -> bool
    ensures { IsTrue result →
        Puts (record { at = at; bytes = new.now }) bytes.old bytes.new }
{
    let all = bytes.len();
    if at > all || new.len() > all - at {
        return false;
    }
    let (_, rest) = bytes.split_at_mut(at);
    let (taken, _) = rest.split_at_mut(new.len());
    if !is_in_place(taken, new) {
        return false;
    }
    taken.copy_from_slice(new);
    true
}

/// Blanks over all of a text. Line feeds and bytes that are not ASCII stay.
pub(crate) fn blanked(alloc: Global, text: &str) -> Result<Vec<Edit>, AllocError> {
    let mut bytes = Vec::new(alloc);
    push_blanks(&mut bytes, text.as_bytes())?;
    Ok(vec![in alloc; Edit { at: 0, bytes }]?)
}

/// Adds as many bytes: a blank for each, except line feeds and bytes that are not ASCII.
pub(crate) fn push_blanks(to: &mut Vec<u8>, old: &[u8]) -> Result<(), AllocError> {
    for byte in old {
        to.push(if is_fixed(*byte) { *byte } else { b' ' })?;
    }
    Ok(())
}

/// Whether the byte stays where blanks are written.
pub(crate) fn is_fixed(byte: u8) -> bool {
    byte == b'\n' || !byte.is_ascii()
}

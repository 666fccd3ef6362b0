//! The name that a word was meant to be.

ghost use Rattle.std.specs.Prelude.{◌≡◌, filter, IfOk};
ghost use Rattle.std.specs.Option.{option_map};
ghost use Rattle.tera_settings.specs.Values.{texts};
ghost use Rattle.tera_fixes.specs.Meant.{has_at_most, has_rival, is_close, is_rival, meant, meant_among};

use std::alloc::{AllocError, Global};
use strsim::osa_distance;
use tera_settings::nearest;

// The longest word and the longest name that are compared, in characters: a comparison takes as many steps as the
// product of both.
const LONGEST_WORD: usize = 100;

const LONGEST_NAME: usize = 200;

/// The name that is meant by the word, if there is one: at most a third of its characters differ, and those of every
/// other name differ more. A word of more than 100 characters means no name, and no word means a name of more than 200.
pub(crate) fn meant<'n>(
    alloc: Global,
    word: &str,
    names: &[&'n str],
) -> Result<Option<&'n str>, AllocError>
    ensures { IfOk result (λ name. option_map (λ n. n.now) name ≡ meant word.now (texts names.now)) }
{
    if !has_at_most(LONGEST_WORD, word) {
        return Ok(None);
    }
    let short = short_of(alloc, names)?;
    meant_among(alloc, word, short.as_slice())
}

// The names that are not too long.
fn short_of<'n>(alloc: Global, names: &[&'n str]) -> Result<Vec<&'n str>, AllocError>
    ensures { IfOk result (λ short. texts short.items ≡ filter (has_at_most 200) (texts names.now)) }
{
    let mut short = Vec::new(alloc);
    for name in names {
        if has_at_most(LONGEST_NAME, name) {
            short.push(*name)?;
        }
    }
    Ok(short)
}

// Whether the text has at most so many characters.
fn has_at_most(most: usize, text: &str) -> bool
    ensures { result ≡ has_at_most most text.now }
{
    text.chars().count() <= most
}

// The name that is meant, whatever the lengths.
fn meant_among<'n>(
    alloc: Global,
    word: &str,
    names: &[&'n str],
) -> Result<Option<&'n str>, AllocError>
    ensures { IfOk result (λ name. option_map (λ n. n.now) name
        ≡ meant_among word.now (texts names.now)) }
{
    let Some(name) = nearest(alloc, word, names)? else {
        return Ok(None);
    };
    let far = osa_distance(alloc, word, name)?;
    if !is_close(name, far) {
        return Ok(None);
    }
    if has_rival(alloc, word, names, name, far)? {
        return Ok(None);
    }
    Ok(Some(name))
}

// Whether `far` edits change at most a third of the characters of the name.
fn is_close(name: &str, far: usize) -> bool
    ensures { result ≡ is_close name.now far }
{
    far <= name.chars().count() / 3
}

// Whether another name is as near to the word as this one, which is `far` edits away.
fn has_rival(
    alloc: Global,
    word: &str,
    names: &[&str],
    name: &str,
    far: usize,
) -> Result<bool, AllocError>
    ensures { IfOk result (λ has. has ≡ has_rival word.now (texts names.now) name.now far) }
{
    for other in names {
        if is_rival(alloc, word, name, far, other)? {
            return Ok(true);
        }
    }
    Ok(false)
}

fn is_rival(
    alloc: Global,
    word: &str,
    name: &str,
    far: usize,
    other: &str,
) -> Result<bool, AllocError>
    ensures { IfOk result (λ is. is ≡ is_rival word.now name.now far other.now) }
{
    if other == name {
        return Ok(false);
    }
    Ok(osa_distance(alloc, word, other)? <= far)
}

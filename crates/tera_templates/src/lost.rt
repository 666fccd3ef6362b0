//! The words of a source that a text does not have in their place.

ghost use Rattle.std.specs.Prelude.{◌≡◌, ◌↔◌, ◌⊎◌, ◌<◌, ◌+◌, ◌^◌, ◌++◌, ◌∷◌, [], ℕ, List, nat_eq, nat_lt, if◌then◌else◌, IfOk, OnOk};
ghost use Rattle.std.specs.BTreeSet.{keys};
ghost use Rattle.std.specs.Bool.{Decides};
ghost use Rattle.std.specs.List.{Contains};
ghost use Rattle.tera_lexer.specs.grammar.Lexeme.{goes_on_name};
ghost use Rattle.tera_templates.specs.Lost.{AreWordsOf, HasBetween, IsBetween, IsLostAt, IsLostBetween, IsWordAt, places_under};

use std::alloc::{AllocError, Global};
use std::collections::{BTreeMap, BTreeSet};

/// The words of the source, and its `<`, where the text has something else in their place: for each word the bytes with
/// which it begins.
pub(crate) fn lost_words(
    alloc: Global,
    source: &str,
    text: &str,
) -> Result<BTreeMap<String, BTreeSet<usize>>, AllocError>
    ensures { IfOk result (λ lost. (n : List ℕ) (at : ℕ) →
        Contains (places_under lost n) at ↔ IsLostAt source.now text.now n at) }
{
    let mut lost = BTreeMap::new(alloc);
    let words = words_of(alloc, source)?;
    for (start, end) in &words {
        put_if_lost(alloc, &mut lost, source, text, *start, *end)?;
    }
    Ok(lost)
}

// Adds the word of the source between these bytes, if the text has something else there.
fn put_if_lost(
    alloc: Global,
    lost: &mut BTreeMap<String, BTreeSet<usize>>,
    source: &str,
    text: &str,
    start: usize,
    end: usize,
) -> Result<(), AllocError>
    ensures { IsBetween source.now start end → OnOk result ((n : List ℕ) (at : ℕ) →
        Contains (places_under lost.new n) at ↔ (Contains (places_under lost.old n) at
        ⊎ ((at ≡ start) × IsLostBetween source.now text.now n start end))) }
{
    match source.get(start..end) {
        Some(word) => {
            if is_between(text, word, start, end) {
                return Ok(());
            }
            put_place(alloc, lost, word, start)
        }
        None => Ok(()),
    }
}

// Whether the text has this word between these bytes.
fn is_between(text: &str, word: &str, start: usize, end: usize) -> bool
    ensures { Decides result (HasBetween text.now word.now start end) }
{
    match text.as_bytes().get(start..end) {
        Some(there) => there == word.as_bytes(),
        None => false,
    }
}

/// Adds the place under the word.
pub fn put_place(
    alloc: Global,
    places: &mut BTreeMap<String, BTreeSet<usize>>,
    word: &str,
    place: usize,
) -> Result<(), AllocError>
    ensures { OnOk result ((n : List ℕ) (at : ℕ) → Contains (places_under places.new n) at
        ↔ (Contains (places_under places.old n) at ⊎ ((n ≡ word.now) × (at ≡ place)))) }
{
    let mut known = match places.remove(word) {
        Some(known) => known,
        None => BTreeSet::new(alloc),
    };
    known.insert(place)?;
    places.insert(String::from_str(alloc, word)?, known)?;
    Ok(())
}

/// The bytes with which a text has this word.
pub(crate) fn places_of(
    alloc: Global,
    text: &str,
    word: &str,
) -> Result<BTreeSet<usize>, AllocError>
    ensures { IfOk result (λ s. (at : ℕ) →
        Contains (keys s) at ↔ IsWordAt text.now word.now at) }
{
    let mut places = BTreeSet::new(alloc);
    let words = words_of(alloc, text)?;
    for (start, end) in &words {
        if is_between(text, word, *start, *end) {
            places.insert(*start)?;
        }
    }
    Ok(places)
}

// Where the words of a text begin and end, and each `<`.
fn words_of(alloc: Global, text: &str) -> Result<Vec<(usize, usize)>, AllocError>
    ensures { IfOk result (λ words. AreWordsOf text.now words.items) }
{
    let mut words = Vec::new(alloc);
    let mut start = 0usize;
    for (at, byte) in text.as_bytes().iter().enumerate() {
        if goes_on_name(*byte) {
            continue;
        }
        push_word(&mut words, start, at)?;
        push_mark(&mut words, *byte, at)?;
        start = at.saturating_add(1);
    }
    push_word(&mut words, start, text.len())?;
    Ok(words)
}

// Adds the word between these bytes, unless there is nothing between them.
fn push_word(words: &mut Vec<(usize, usize)>, start: usize, end: usize) -> Result<(), AllocError>
    ensures { OnOk result (words.new.items
        ≡ words.old.items ++ (if nat_lt start end then (start, end) ∷ [] else [])) }
{
    if start < end {
        words.push((start, end))?;
    }
    Ok(())
}

// Adds this place, if the byte there is `<`.
fn push_mark(words: &mut Vec<(usize, usize)>, byte: u8, at: usize) -> Result<(), AllocError>
    ensures { at + 1 < 2 ^ 64 → OnOk result (words.new.items
        ≡ words.old.items ++ (if nat_eq byte 60 then (at, at + 1) ∷ [] else [])) }
{
    if byte == b'<' {
        words.push((at, at.saturating_add(1)))?;
    }
    Ok(())
}

/// Whether the byte may be in a word.
pub(crate) fn goes_on_name(byte: u8) -> bool
    ensures { result ≡ goes_on_name byte }
{
    byte.is_ascii_alphanumeric() || byte == b'_'
}

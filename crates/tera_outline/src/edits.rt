//! A layout as edits of white space.

ghost use Rattle.std.specs.Prelude.{◌≡◌, ◌≢◌, ◌||◌, ◌+◌, ◌-◌, ◌<◌, ◌≤◌, ℕ, length, min, drop, false, slice_index, string_bytes, All, IfOk, OnOk};
ghost use Rattle.std.specs.Char.{is_ascii_whitespace};
ghost use Rattle.std.specs.List.{prefix_len};
ghost use Rattle.tera_layout.specs.Respaced.{without_white};
ghost use Rattle.tera_outline.specs.Edits.{applied, AreApart, ReplacesWhite};
ghost use Rattle.tera_outline.specs.Runs.{is_black, AreEditsTo, AreAfterRuns};

use std::alloc::{AllocError, Global};

/// What is to be in the place of a part of a text.
#[derive(Clone, Copy, Debug, PartialEq, Eq)]
pub struct Edit<'a> {
    /// The byte with which the part begins.
    pub start: usize,
    /// The byte after it.
    pub end: usize,
    pub text: &'a str,
}

/// The edits that make the one text the other, from which it differs in white space alone, as a text does from its
/// layout: one for each run of white space that differs, also where there is none in one of them. They are in order and
/// apart, and their places are those of the one text before any is made. It takes the time of both texts.
pub fn edits_of<'a>(alloc: Global, old: &str, new: &'a str) -> Result<Vec<Edit<'a>>, AllocError>
    requires { without_white old.now ≡ without_white new.now }
    ensures applied { IfOk result (λ edits. applied edits.items old.now ≡ new.now) }
    ensures apart { IfOk result (λ edits. AreApart edits.items) }
    ensures white { IfOk result (λ edits. All (ReplacesWhite old.now) edits.items) }
{
    let mut edits = Vec::new(alloc);
    let mut at = push_run(&mut edits, old, new, Places { old: 0, new: 0 })?;
    'words: while at.old < old.len() {
        let word = word_len(old, new, at);
        let following = Places {
            old: at.old + word,
            new: at.new + word,
        };
        at = push_run(&mut edits, old, new, following)?;
    }
    Ok(edits)
}

// A byte of each of two texts.
#[derive(Clone, Copy)]
struct Places {
    old: usize,
    new: usize,
}

// Passes over the white space at both places, and keeps an edit where it differs.
fn push_run<'a>(
    edits: &mut Vec<Edit<'a>>,
    old: &str,
    new: &'a str,
    at: Places,
) -> Result<Places, AllocError>
    requires edits { AreEditsTo old.now new.now edits.old.items at.old at }
    requires before { at.old ≢ 0 → is_ascii_whitespace (slice_index old.now (at.old - 1)) ≡ false }
    ensures edits { IfOk result (λ p.
        AreEditsTo old.now new.now edits.new.items (p.old + 1) p) }
    ensures following { IfOk result (λ p. AreAfterRuns old.now new.now p) }
    ensures onward { IfOk result (λ p. at.old ≤ p.old) }
{
    let following = Places {
        old: at.old + white_len(old, at.old),
        new: at.new + white_len(new, at.new),
    };
    if old.as_bytes()[at.old..following.old] != new.as_bytes()[at.new..following.new] {
        edits.push(Edit {
            start: at.old,
            end: following.old,
            text: &new[at.new..following.new],
        })?;
    }
    Ok(following)
}

// How many bytes of white space are from the byte on.
fn white_len(text: &str, at: usize) -> usize
    requires { at ≤ length text.now }
    ensures count { result ≡ prefix_len is_ascii_whitespace (drop at text.now) }
    ensures within { at + result ≤ length text.now }
{
    let (_, rest) = text.as_bytes().split_at(at);
    rest.iter()
        .take_while(|byte| byte.is_ascii_whitespace())
        .count()
}

// How many bytes are from both places on before white space does in one of the texts.
fn word_len(old: &str, new: &str, at: Places) -> usize
    requires old { at.old ≤ length old.now }
    requires new { at.new ≤ length new.now }
    ensures count { result ≡ min (prefix_len is_black (drop at.old old.now)) (prefix_len is_black (drop at.new new.now)) }
    ensures old { at.old + result ≤ length old.now }
    ensures new { at.new + result ≤ length new.now }
{
    let (_, old) = old.as_bytes().split_at(at.old);
    let (_, new) = new.as_bytes().split_at(at.new);
    common_word_len(old, new)
}

// It takes the time of the word that is shorter.
fn common_word_len(old: &[u8], new: &[u8]) -> usize
    ensures count { result ≡ min (prefix_len is_black old.now) (prefix_len is_black new.now) }
    ensures old { result ≤ length old.now }
    ensures new { result ≤ length new.now }
{
    let most = old.len().min(new.len());
    for count in 0..most {
        if is_space(old[count], new[count]) {
            return count;
        }
    }
    most
}

// Whether one of the bytes is white space.
fn is_space(old: u8, new: u8) -> bool
    ensures { result ≡ (is_ascii_whitespace old || is_ascii_whitespace new) }
{
    old.is_ascii_whitespace() || new.is_ascii_whitespace()
}

//! Writes a source in its layout.

ghost use Rattle.std.specs.Prelude.{◌≡◌, ◌++◌, ◌||◌, ◌&&◌, ◌≤◌, if◌then◌else◌, IfOk, IfErr, OnOk, MatchResult, ℕ, List, [], ◌∷◌, length, Some, true, slice_range, string_bytes};
ghost use Rattle.std.specs.Str.{bytes_eq, IsCharBoundary};
ghost use Rattle.tera_base.specs.Errors.{IsMemory};
ghost use Rattle.tera_lexer.specs.grammar.Bytes.{dash_byte, space as space_byte};
ghost use Rattle.tera_lexer.specs.grammar.Marks.{marks_of, default_marks, IsValid};
ghost use Rattle.tera_lexer.specs.code.Seen.{seen};
ghost use Rattle.tera_lexer.specs.grammar.Tiling.{in_tag_after};
ghost use Rattle.tera_layout.specs.Apart.{has_pair, first_from, last_from, meet_in_end};
ghost use Rattle.tera_layout.specs.Layout.{laid_gap, laid_out, unless_end};
ghost use Rattle.tera_layout.specs.Refusal.{Refuses};
ghost use Rattle.tera_layout.specs.Steady.{is_steady};
ghost use Rattle.tera_layout.specs.WrittenLayout.{gap_text, has_bytes, is_one_space, nothing, reached as after_token, put, written, Follow, IsCut, RefusesTokens};

use crate::sides::{Join, Left};
use std::alloc::{AllocError, Global};
use tera_base::{Error, ReportError, Span};
use tera_lexer::{Delimiters, Token, Tokens, tokenize};

/// The source in its layout, between the default markers: in each tag one space after the start and before the end,
/// nothing between what touches, as `a.b` and `f(x=1)`, one space between what is apart, as `a | b`, and one space in
/// the place of other white space. White space with a line feed stays as it is, and so does all that is outside of
/// tags.
///
/// A source with a lexical fault, or with a tag that never ends, is refused, and its fault reported; whether it is a
/// template is not asked. The only other refusal is `Memory`.
pub fn format(alloc: Global, source: &str) -> Result<String, Error>
    ensures sound { IfOk result (λ text.
        laid_out default_marks source.now ≡ Some (string_bytes text)) }
    ensures complete { (layout : List ℕ) → laid_out default_marks source.now ≡ Some layout →
        MatchResult result (λ text. string_bytes text ≡ layout) IsMemory }
    ensures refusal { IfErr result (Refuses default_marks source.now) }
{
    format_between(alloc, source, &Delimiters::default())
}

/// The same between other markers, which `Delimiters::validate` and [`are_steady`](crate::are_steady)
/// accept. White space stays where its loss would end a tag, as in `[[ a[b[0] ] ]]`.
pub fn format_between(alloc: Global, source: &str, delimiters: &Delimiters) -> Result<String, Error>
    requires valid { IsValid (marks_of delimiters.now) }
    requires steady { is_steady (marks_of delimiters.now) ≡ true }
    ensures sound { IfOk result (λ text.
        laid_out (marks_of delimiters.now) source.now ≡ Some (string_bytes text)) }
    ensures complete { (layout : List ℕ) →
        laid_out (marks_of delimiters.now) source.now ≡ Some layout →
        MatchResult result (λ text. string_bytes text ≡ layout) IsMemory }
    ensures refusal { IfErr result (Refuses (marks_of delimiters.now) source.now) }
{
    let mut tokens = tokenize(alloc, source, delimiters.clone()?);
    let mut out = String::new(alloc);
    match push_tokens(alloc, &mut out, source, delimiters, &mut tokens) {
        Ok(()) => Ok(out),
        Err(error) => {
            drop(out);
            Err(error)
        }
    }
}

// Writes the tokens, each after what is in the place of the gap before it. A run of the source in which each gap stays
// as it is, is pushed as one.
fn push_tokens(
    alloc: Global,
    out: &mut String,
    source: &str,
    delimiters: &Delimiters,
    tokens: &mut Tokens<'_>,
) -> Result<(), Error>
    requires valid { IsValid (marks_of delimiters.now) }
    requires source { tokens.old.source ≡ source.now }
    requires follow { Follow 0 tokens.old.left }
    ensures text { OnOk result (
        put (string_bytes out.old)
        (written (marks_of delimiters.now) source.now nothing tokens.old.left)
        ≡ Some (string_bytes out.new)) }
    ensures refusal { IfErr result (
        RefusesTokens (marks_of delimiters.now) source.now tokens.old.left) }
{
    let mut reached = before_all();
    let mut run = 0;
    let mut last = Span::default();
    'tokens: while let Some(item) = tokens.next() {
        let (token, span) = item?;
        let next = following(reached, &token, span.range.end);
        let join = reached.left.join(&token, next.left);
        let cut = Cut {
            run,
            gap: reached.end,
            token: span.range.start,
            end: span.range.end,
        };
        run = push_gap(out, source, delimiters, cut, join)?;
        reached = next;
        last = span;
    }
    if reached.in_tag {
        return Err(ReportError::unexpected_end_of_input(alloc, &last));
    }
    Ok(out.push_str(&source[run..reached.end])?)
}

// How far a source is written.
#[derive(Clone, Copy)]
struct Reached {
    // Where the token before ends.
    end: usize,
    // Whether a tag is open there.
    in_tag: bool,
    // What the token before is to those beside it.
    left: Left,
}

// Before the first token.
fn before_all() -> Reached
    ensures { result ≡ nothing }
{
    Reached {
        end: 0,
        in_tag: false,
        left: Left::outside(),
    }
}

// After a token that ends there.
fn following(reached: Reached, token: &Token<'_>, end: usize) -> Reached
    ensures { result ≡ after_token reached (seen token.now) end }
{
    Reached {
        end,
        in_tag: goes_on_inside(reached.in_tag, token),
        left: reached.left.following(token),
    }
}

// Whether a tag is open after the token.
fn goes_on_inside(in_tag: bool, token: &Token<'_>) -> bool
    ensures { result ≡ in_tag_after in_tag (seen token.now) }
{
    match token {
        Token::VariableStart(_) | Token::TagStart(_) => true,
        Token::VariableEnd(_) | Token::TagEnd(_) => false,
        _ => in_tag,
    }
}

// Where a source is cut at a token.
#[derive(Clone, Copy)]
struct Cut {
    // Where the run before the gap begins, which is not pushed yet.
    run: usize,
    // Where the gap before the token begins.
    gap: usize,
    // Where the token begins.
    token: usize,
    // Where the token ends.
    end: usize,
}

// Writes what is in the place of the gap, and answers where the run before the token begins: a gap that stays as it is
// belongs to the run, and after another a new run begins.
fn push_gap(
    out: &mut String,
    source: &str,
    delimiters: &Delimiters,
    cut: Cut,
    join: Join,
) -> Result<usize, AllocError>
    requires valid { IsValid (marks_of delimiters.now) }
    requires cut { IsCut source.now cut }
    ensures cut { IfOk result (λ run. IsCharBoundary source.now run × (run ≤ cut.token)) }
    ensures text { IfOk result (λ run.
        string_bytes out.new ++ slice_range source.now run cut.token
        ≡ (string_bytes out.old ++ slice_range source.now cut.run cut.gap)
        ++ gap_text (marks_of delimiters.now) source.now cut join) }
{
    let gap = &source[cut.gap..cut.token];
    let text = &source[cut.token..cut.end];
    let join = unless_end(join, delimiters, &source[0..cut.gap], gap, text);
    if stays(join, gap) {
        Ok(cut.run)
    } else {
        push_changed(out, &source[cut.run..cut.gap], is_space(join, gap))?;
        Ok(cut.token)
    }
}

// Writes a run and the space after it, if one is there.
fn push_changed(out: &mut String, run: &str, space: bool) -> Result<(), AllocError>
    ensures { OnOk result (string_bytes out.new
        ≡ (string_bytes out.old ++ run.now) ++ (if space then space_byte ∷ [] else [])) }
{
    out.push_str(run)?;
    if space { out.push(' ') } else { Ok(()) }
}

// What joins the texts on both sides of a gap: what was there, where nothing in its place would let them end a tag.
fn unless_end(join: Join, delimiters: &Delimiters, before: &str, gap: &str, text: &str) -> Join
    requires { IsValid (marks_of delimiters.now) }
    ensures { result ≡ unless_end join (has_bytes gap.now
        && meet_in_end (marks_of delimiters.now) before.now text.now) }
{
    match join {
        Join::Nothing if !gap.is_empty() && meet_in_end(delimiters, before, text) => Join::Kept,
        join => join,
    }
}

// Whether the last byte of the one text and the first of the other are side by side in an end.
fn meet_in_end(delimiters: &Delimiters, before: &str, text: &str) -> bool
    requires { IsValid (marks_of delimiters.now) }
    ensures { result ≡ meet_in_end (marks_of delimiters.now) before.now text.now }
{
    let last = last_of(before.as_bytes());
    let first = first_of(text.as_bytes());
    has_pair(delimiters.variable_end.as_str(), last, first)
        || has_pair(delimiters.block_end.as_str(), last, first)
}

// Whether the bytes are side by side in the marker after a dash.
fn has_pair(marker: &str, before: u8, following: u8) -> bool
    requires { length marker.now ≡ 2 }
    ensures { result ≡ has_pair before following (dash_byte ∷ marker.now) }
{
    let bytes = marker.as_bytes();
    (b'-' == before && bytes[0] == following) || (bytes[0] == before && bytes[1] == following)
}

// The last byte, and 0 where there is none.
fn last_of(bytes: &[u8]) -> u8
    ensures { result ≡ last_from 0 bytes.now }
{
    match bytes.last() {
        Some(byte) => *byte,
        None => 0,
    }
}

// The first byte, and 0 where there is none.
fn first_of(bytes: &[u8]) -> u8
    ensures { result ≡ first_from bytes.now }
{
    match bytes.first() {
        Some(byte) => *byte,
        None => 0,
    }
}

// Whether the gap itself is in its place.
fn stays(join: Join, gap: &str) -> bool
    ensures { result ≡ bytes_eq (laid_gap join gap.now) gap.now }
{
    match gap.as_bytes() {
        [] => !matches!(join, Join::Space),
        [b' '] => !matches!(join, Join::Nothing),
        bytes => bytes.contains(&b'\n'),
    }
}

// Whether one space is in the place of a gap without a line feed.
fn is_space(join: Join, gap: &str) -> bool
    ensures { result ≡ is_one_space join gap.now }
{
    match join {
        Join::Space => true,
        Join::Nothing => false,
        Join::Kept => !gap.is_empty(),
    }
}

//! The comments of a template that silence findings.

ghost use Rattle.std.specs.Prelude.{◌≡◌, ◌∷◌, [], ◌++◌, drop, reverse, take, IfOk, OnOk};
ghost use Rattle.std.specs.Option.{option_map};
ghost use Rattle.tera_lexer.specs.grammar.Marks.{IsValid, marks_of};
ghost use Rattle.tera_templates.specs.Ignores.{AreIgnoresOf, ignore_of, ignores_at, ignores_in, ignores_of_rules, ignores_view, inside_of, is_alone, is_blank, is_blank_line, rules_at, without_dashes, without_mark};

use crate::boundaries::text_at;
use std::alloc::{AllocError, Global};
use tera_parser::lexer::{Delimiters, Tokens, tokenize};
use tera_parser::value::{ErrorKind, Span};

/// A rule that a comment silences.
#[derive(Debug, Drop)]
pub struct Ignore {
    /// The name of the rule, as the comment has it.
    pub rule: String,
    /// Where the comment is.
    pub span: Span,
    /// Whether nothing else is on its lines. Then it covers the next line too.
    pub alone: bool,
}

// The word with which a comment begins that silences findings.
const WORD: &str = "tera-ignore:";

/// The rules that the comments of the text silence, between these markers, up to the first lexical fault. If the text
/// does not have the word, its tokens are not read.
pub(crate) fn ignores_of(
    alloc: Global,
    text: &str,
    markers: &Delimiters,
) -> Result<Vec<Ignore>, AllocError>
    requires { IsValid (marks_of markers.now) }
    ensures { IfOk result (λ v. AreIgnoresOf (marks_of markers.now) text.now (ignores_view v.items)) }
{
    let mut tokens = tokenize(alloc, text, markers.clone()?);
    if !text.contains(WORD) {
        return Ok(Vec::new(alloc));
    }
    let marks = Comments {
        start: markers.comment_start.as_str(),
        end: markers.comment_end.as_str(),
    };
    ignores_in(alloc, marks, text, &mut tokens)
}

// The markers of comments.
#[derive(Clone, Copy)]
struct Comments<'m> {
    start: &'m str,
    end: &'m str,
}

fn ignores_in(
    alloc: Global,
    marks: Comments<'_>,
    text: &str,
    tokens: &mut Tokens<'_>,
) -> Result<Vec<Ignore>, AllocError>
    ensures { IfOk result (λ v. ignores_view v.items
        ≡ ignores_in marks.entry.start.now marks.entry.end.now text.now tokens.old.left) }
{
    let mut ignores = Vec::new(alloc);
    'tokens: while let Some(item) = tokens.next() {
        match item {
            Ok((token, span)) => {
                drop(token);
                push_ignores(alloc, &mut ignores, marks, text, &span)?;
            }
            Err(error) => {
                return match &error.kind {
                    ErrorKind::SyntaxError(_) => Ok(ignores),
                    _ => Err(AllocError),
                };
            }
        }
    }
    Ok(ignores)
}

// Adds the ignores of the token at this span, which may be a comment.
fn push_ignores(
    alloc: Global,
    ignores: &mut Vec<Ignore>,
    marks: Comments<'_>,
    text: &str,
    span: &Span,
) -> Result<(), AllocError>
    ensures { OnOk result (ignores_view ignores.new.items ≡ ignores_view ignores.old.items
        ++ ignores_at marks.entry.start.now marks.entry.end.now text.now span.now) }
{
    match rules_at(marks, text, span) {
        Some(rules) => push_rules(alloc, ignores, text, span, rules),
        None => Ok(()),
    }
}

// The text after `tera-ignore:` in the comment at the span, if the token there is such a comment.
fn rules_at<'t>(marks: Comments<'_>, text: &'t str, span: &Span) -> Option<&'t str>
    ensures { option_map (λ r. r.now) result
        ≡ rules_at marks.entry.start.now marks.entry.end.now text.now span.now }
{
    let comment = text_at(text, span.range.start, span.range.end)?;
    let inside = inside_of(marks, comment)?;
    inside.trim_ascii_start().strip_prefix(WORD)
}

// What is between the markers, without a dash beside them.
fn inside_of<'t>(marks: Comments<'_>, comment: &'t str) -> Option<&'t str>
    ensures { option_map (λ r. r.now) result
        ≡ inside_of marks.entry.start.now marks.entry.end.now comment.now }
{
    let following = comment.strip_prefix(marks.start)?;
    let inside = following.strip_suffix(marks.end)?;
    Some(without_dashes(inside))
}

fn without_dashes(inside: &str) -> &str
    ensures { result.now ≡ without_dashes inside.now }
{
    let begun = inside.strip_prefix("-").unwrap_or(inside);
    begun.strip_suffix("-").unwrap_or(begun)
}

// Adds these rules, which commas separate.
fn push_rules(
    alloc: Global,
    ignores: &mut Vec<Ignore>,
    text: &str,
    span: &Span,
    rules: &str,
) -> Result<(), AllocError>
    ensures { OnOk result (ignores_view ignores.new.items ≡ ignores_view ignores.old.items
        ++ ignores_of_rules text.now span.now rules.now) }
{
    let alone = is_alone(text, span);
    for rule in rules.split(',') {
        push_rule(alloc, ignores, span, alone, rule)?;
    }
    Ok(())
}

fn push_rule(
    alloc: Global,
    ignores: &mut Vec<Ignore>,
    span: &Span,
    alone: bool,
    rule: &str,
) -> Result<(), AllocError>
    ensures { OnOk result (ignores_view ignores.new.items
        ≡ ignores_view ignores.old.items ++ (ignore_of span.now alone rule.now ∷ [])) }
{
    ignores.push(Ignore {
        rule: String::from_str(alloc, rule.trim_ascii())?,
        span: span.copied(),
        alone,
    })?;
    Ok(())
}

// Whether nothing but white space is beside the comment on its lines, after the byte order mark with which a text may
// begin.
fn is_alone(text: &str, span: &Span) -> bool
    ensures { result ≡ is_alone text.now span.now }
{
    let bytes = text.as_bytes();
    let before = without_mark(before(bytes, span.range.start));
    ends_line(before) && begins_line(after(bytes, span.range.end))
}

#[tactic(auto, using(std::proofs::lemmas::List::take_min))]
fn before(bytes: &[u8], end: usize) -> &[u8]
    ensures { result.now ≡ take end bytes.now }
{
    let (before, _) = bytes.split_at(end.min(bytes.len()));
    before
}

#[tactic(auto, using(std::proofs::lemmas::List::drop_min))]
fn after(bytes: &[u8], start: usize) -> &[u8]
    ensures { result.now ≡ drop start bytes.now }
{
    let (_, after) = bytes.split_at(start.min(bytes.len()));
    after
}

fn without_mark(bytes: &[u8]) -> &[u8]
    ensures { result.now ≡ without_mark bytes.now }
{
    match bytes.strip_prefix(&[0xEF, 0xBB, 0xBF]) {
        Some(after) => after,
        None => bytes,
    }
}

// Whether nothing but white space is at the end of the bytes, up to a line feed.
#[tactic(auto, using(crate::proofs::IgnoreLemmas::last_byte))]
fn ends_line(bytes: &[u8]) -> bool
    ensures { result ≡ is_blank_line (reverse bytes.now) }
{
    let mut left = bytes;
    'bytes: while let Some((byte, before)) = left.split_last() {
        if *byte == b'\n' {
            return true;
        }
        if !is_blank(*byte) {
            return false;
        }
        left = before;
    }
    true
}

// The same at their beginning.
fn begins_line(bytes: &[u8]) -> bool
    ensures { result ≡ is_blank_line bytes.now }
{
    let mut left = bytes;
    'bytes: while let Some((byte, after)) = left.split_first() {
        if *byte == b'\n' {
            return true;
        }
        if !is_blank(*byte) {
            return false;
        }
        left = after;
    }
    true
}

fn is_blank(byte: u8) -> bool
    ensures { result ≡ is_blank byte }
{
    byte == b' ' || byte == b'\t' || byte == b'\r'
}

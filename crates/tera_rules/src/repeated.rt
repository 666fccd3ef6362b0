//! Values that do not count, as their key comes again: in the arguments of a call, and in a map.

ghost use Rattle.std.specs.Prelude.{◌≡◌, ◌∷◌, [], ◌++◌, ℕ, ℤ, List, None, Some, cond, bytes_eq, map, string_bytes, IfOk, OnOk};
ghost use Rattle.std.specs.Option.{option_map};
ghost use Rattle.std.specs.Ordering.{int_eq};
ghost use Rattle.tera_base.specs.Same.{key_eq};
ghost use Rattle.tera_base.specs.Text.{key_text};
ghost use Rattle.tera_base.specs.Values.{KeyVal};
ghost use Rattle.tera_base.specs.ValueView.{key_view};
ghost use Rattle.tera_ast.specs.View.{entry_view, entries_view};
ghost use Rattle.tera_findings.specs.Findings.{finding_view, note_view, NoteOf};
ghost use Rattle.tera_rules.specs.Repeated.{span_under, span_at_key, span_numbered, next_by_one, next_text, repeated, repeated_kind, repeated_text, repeated_if, repeated_by_one, repeated_findings};

use crate::messages;
use std::alloc::{AllocError, Global};
use std::collections::BTreeMap;
use tera_findings::{Finding, Kind, Note, push_finding};
use tera_parser::ast::MapEntry;
use tera_parser::value::{Key, Span};

/// What has values under keys.
#[derive(Clone, Copy, Debug, PartialEq, Eq)]
pub(crate) enum Holder {
    /// A call, which has arguments.
    Call,
    /// A map.
    Map,
}

/// Spans under names: for each name the one that was put there last.
pub type Spans<'n, 'a> = BTreeMap<&'n str, &'a Span>;

/// Adds a finding for each value whose key is written again after it, at its place, from the last to the first.
pub(crate) fn push_repeated(
    alloc: Global,
    findings: &mut Vec<Finding>,
    file: &str,
    holder: Holder,
    entries: &Vec<MapEntry>,
) -> Result<(), AllocError>
    ensures { OnOk result (map finding_view findings.new.items ≡ map finding_view findings.old.items
        ++ repeated_findings holder file.now (entries_view entries.now.items)) }
{
    let mut following = Following::none(alloc);
    let mut left = entries.as_slice();
    'entries: while let Some((entry, before)) = left.split_last() {
        push_if_repeated(alloc, findings, file, holder, &mut following, entry)?;
        left = before;
    }
    Ok(())
}

fn push_if_repeated<'a>(
    alloc: Global,
    findings: &mut Vec<Finding>,
    file: &str,
    holder: Holder,
    following: &mut Following<'a>,
    entry: &'a MapEntry,
) -> Result<(), AllocError>
    ensures findings { OnOk result (map finding_view findings.new.items
        ≡ map finding_view findings.old.items
        ++ repeated_by_one holder file.now (entry_view entry.now) (span_at_key following.old)) }
    ensures following { OnOk result ((key : KeyVal) → span_at_key following.new key
        ≡ next_by_one key (entry_view entry.now) (span_at_key following.old key)) }
{
    match entry {
        MapEntry::KeyValue { key, value } => {
            let span = value.span();
            let next = following.put(key, span)?;
            push_one_repeated(alloc, findings, file, holder, key, span, next)
        }
        MapEntry::Spread(_) => Ok(()),
    }
}

fn push_one_repeated(
    alloc: Global,
    findings: &mut Vec<Finding>,
    file: &str,
    holder: Holder,
    key: &Key,
    span: &Span,
    next: Option<&Span>,
) -> Result<(), AllocError>
    ensures { OnOk result (map finding_view findings.new.items ≡ map finding_view findings.old.items
        ++ repeated_if holder file.now (key_view key.now) span.now (option_map (λ s. s.now) next.entry)) }
{
    match next {
        Some(next) => {
            let finding = repeated(alloc, file, holder, key, span, next)?;
            push_finding(findings, finding)
        }
        None => Ok(()),
    }
}

// The value under the key does not count, and the next is at this span.
fn repeated(
    alloc: Global,
    file: &str,
    holder: Holder,
    key: &Key,
    span: &Span,
    next: &Span,
) -> Result<Finding, AllocError>
    ensures { IfOk result (λ f. finding_view f
        ≡ repeated holder file.now (key_view key.now) span.now next.now) }
{
    let note = next_given(alloc, file, next)?;
    let message = holder.message(alloc, key)?;
    Finding::with_note(alloc, holder.kind(), span, message, note)
}

fn next_given(alloc: Global, file: &str, next: &Span) -> Result<Note, AllocError>
    ensures { IfOk result (λ n. note_view n ≡ NoteOf file.now next.now next_text) }
{
    Ok(Note {
        file: String::from_str(alloc, file)?,
        span: next.copied(),
        message: messages::given_again(alloc)?,
    })
}

impl Holder {
    ghost use Rattle.std.specs.Prelude.{◌≡◌, IfOk, string_bytes};
    ghost use Rattle.tera_base.specs.Text.{key_text};
    ghost use Rattle.tera_base.specs.ValueView.{key_view};
    ghost use Rattle.tera_rules.specs.Repeated.{repeated_kind, repeated_text};

    fn kind(self) -> Kind
        ensures { result ≡ repeated_kind self }
    {
        match self {
            Holder::Call => Kind::RepeatedArgument,
            Holder::Map => Kind::RepeatedKey,
        }
    }

    fn message(self, alloc: Global, key: &Key) -> Result<String, AllocError>
        ensures { IfOk result (λ m. string_bytes m ≡ repeated_text self (key_text (key_view key.now))) }
    {
        match self {
            Holder::Call => messages::repeated_argument(alloc, key),
            Holder::Map => messages::repeated_key(alloc, key),
        }
    }
}

/// Where the values are, by their keys: for each key the one that was put there last.
#[derive(Drop)]
struct Following<'a> {
    texts: Spans<'a, 'a>,
    numbers: BTreeMap<i64, &'a Span>,
    on_true: Option<&'a Span>,
    on_false: Option<&'a Span>,
}

impl<'a> Following<'a> {
    ghost use Rattle.std.specs.Prelude.{◌≡◌, None, Some, cond, IfOk, OnOk};
    ghost use Rattle.std.specs.Option.{option_map};
    ghost use Rattle.tera_base.specs.Same.{key_eq};
    ghost use Rattle.tera_base.specs.Values.{KeyVal};
    ghost use Rattle.tera_base.specs.ValueView.{key_view};
    ghost use Rattle.tera_rules.specs.Repeated.{span_at_key};

    fn none(alloc: Global) -> Following<'a>
        ensures { (key : KeyVal) → span_at_key result key ≡ None }
    {
        Following {
            texts: BTreeMap::new(alloc),
            numbers: BTreeMap::new(alloc),
            on_true: None,
            on_false: None,
        }
    }

    // Puts the span under the key, and returns the one that was there.
    fn put(&mut self, key: &'a Key, span: &'a Span) -> Result<Option<&'a Span>, AllocError>
        ensures next { IfOk result (λ s. option_map (λ s. s.now) s
            ≡ span_at_key self.old (key_view key.now)) }
        ensures following { OnOk result ((other : KeyVal) → span_at_key self.new other
            ≡ cond (key_eq (key_view key.now) other) (Some span.now) (span_at_key self.old other)) }
    {
        match key {
            Key::String(name) => put_span(&mut self.texts, name.as_str(), span),
            Key::I64(number) => put_number(&mut self.numbers, *number, span),
            Key::Bool(true) => Ok(self.on_true.replace(span)),
            Key::Bool(false) => Ok(self.on_false.replace(span)),
        }
    }
}

/// Puts the span under the name, and returns the one that was there.
pub fn put_span<'n, 'a>(
    following: &mut Spans<'n, 'a>,
    name: &'n str,
    span: &'a Span,
) -> Result<Option<&'a Span>, AllocError>
    ensures next { IfOk result (λ s. option_map (λ s. s.now) s ≡ span_under following.old name.now) }
    ensures following { OnOk result ((n : List ℕ) → span_under following.new n
        ≡ cond (bytes_eq name.now n) (Some span.now) (span_under following.old n)) }
{
    Ok(following.insert(name, span)?)
}

// The same under a number.
fn put_number<'a>(
    following: &mut BTreeMap<i64, &'a Span>,
    number: i64,
    span: &'a Span,
) -> Result<Option<&'a Span>, AllocError>
    ensures next { IfOk result (λ s. option_map (λ s. s.now) s
        ≡ span_numbered following.old number) }
    ensures following { OnOk result ((n : ℤ) → span_numbered following.new n
        ≡ cond (int_eq number n) (Some span.now) (span_numbered following.old n)) }
{
    Ok(following.insert(number, span)?)
}

//! What is said of a fault.

ghost use Rattle.std.specs.Prelude.{◌≡◌, IfOk, Some, string_bytes};
ghost use Rattle.std.specs.Option.{option_map};
ghost use Rattle.tera_settings.specs.Messages.{IsMessageOf, IsMessageOfMember, IsUnknownKeyText, IsUnknownRuleText, IsUnfixedRuleText, IsUnknownText, expected_text, fixed_text, is_misplaced, misplaced_text, unknown_text, where_of};
ghost use Rattle.tera_settings.specs.Values.{texts};

use crate::fault::{Fault, Why, Wrong};
use crate::near::nearest;
use crate::reading::keys_of;
use crate::section::is_among;
use std::alloc::{AllocError, Global};

impl Fault {
    /// What is wrong, and what may have been meant, where the rules have these names.
    pub fn message(&self, alloc: Global, rules: &[&str]) -> Result<String, AllocError>
        ensures { IfOk result (λ text. IsMessageOf (texts rules.now) self.now (string_bytes text)) }
    {
        match self {
            Fault::Memory => String::from_str(alloc, "out of memory"),
            Fault::Text(error) => String::from_str(alloc, error.message()),
            Fault::Member(wrong) => message_of(alloc, rules, wrong),
        }
    }
}

fn message_of(alloc: Global, rules: &[&str], wrong: &Wrong) -> Result<String, AllocError>
    ensures { IfOk result (λ text. IsMessageOfMember (texts rules.now) wrong.now (string_bytes text)) }
{
    let key = wrong.key.as_str();
    match wrong.why {
        Why::UnknownKey => unknown_key(alloc, wrong.table, key),
        Why::UnknownRule => unknown_rule(alloc, rules, key),
        Why::NotText => expected(alloc, key, "a string"),
        Why::NotTexts => expected(alloc, key, "an array of strings"),
        Why::NotLevel => expected(alloc, key, "\"off\", \"warning\" or \"error\""),
        Why::NotTable => expected(alloc, key, "a table"),
    }
}

fn unknown_key(alloc: Global, table: Option<&str>, key: &str) -> Result<String, AllocError>
    ensures { IfOk result (λ text. IsUnknownKeyText (option_map (λ t. t.now) table.entry) key.now
        (string_bytes text)) }
{
    if is_misplaced(table, key) {
        misplaced(alloc, "key", key, where_of(table))
    } else {
        unknown(alloc, "key", key, keys_of(table))
    }
}

// Whether the key is at the top of the file, but is one of the table `known`, or is in a table, but is one of the top.
fn is_misplaced(table: Option<&str>, key: &str) -> bool
    ensures { result ≡ is_misplaced (option_map (λ t. t.now) table.entry) key.now }
{
    match table {
        None => is_among(keys_of(Some("known")), key),
        Some(_) => is_among(keys_of(None), key),
    }
}

// Where a key belongs that is misplaced in the table.
fn where_of(table: Option<&str>) -> &'static str
    ensures { result.now ≡ where_of (option_map (λ t. t.now) table.entry) }
{
    match table {
        None => "it is a key of the table `known`",
        Some(_) => "it belongs at the top of the file, before the first table",
    }
}

fn misplaced(alloc: Global, what: &str, key: &str, place: &str) -> Result<String, AllocError>
    ensures { IfOk result (λ text. string_bytes text ≡ misplaced_text what.now key.now place.now) }
{
    format!(in alloc; "unknown {what} `{key}`: {place}")
}

fn unknown_rule(alloc: Global, rules: &[&str], key: &str) -> Result<String, AllocError>
    ensures { IfOk result (λ text. IsUnknownRuleText (texts rules.now) key.now (string_bytes text)) }
{
    match fixed_text(key) {
        Some(text) => String::from_str(alloc, text),
        None => unfixed_rule(alloc, rules, key),
    }
}

fn unfixed_rule(alloc: Global, rules: &[&str], key: &str) -> Result<String, AllocError>
    ensures { IfOk result (λ text. IsUnfixedRuleText (texts rules.now) key.now (string_bytes text)) }
{
    let table = Some("rules");
    if is_misplaced(table, key) {
        misplaced(alloc, "rule", key, where_of(table))
    } else {
        unknown(alloc, "rule", key, rules)
    }
}

// What is said of a word for findings that are always errors.
fn fixed_text(word: &str) -> Option<&'static str>
    ensures { option_map (λ text. text.now) result ≡ fixed_text word.now }
{
    if word == "fault" {
        Some("`fault` cannot be set: a syntax error is always an error")
    } else if word == "unread" {
        Some("`unread` cannot be set: a file that cannot be read is always an error")
    } else {
        None
    }
}

fn unknown(alloc: Global, what: &str, key: &str, names: &[&str]) -> Result<String, AllocError>
    ensures { IfOk result (λ text. IsUnknownText what.now key.now (texts names.now) (string_bytes text)) }
{
    match nearest(alloc, key, names)? {
        Some(name) => format!(in alloc; "unknown {what} `{key}`: did you mean `{name}`?"),
        None => format!(in alloc; "unknown {what} `{key}`"),
    }
}

fn expected(alloc: Global, key: &str, what: &str) -> Result<String, AllocError>
    ensures { IfOk result (λ text. string_bytes text ≡ expected_text key.now what.now) }
{
    format!(in alloc; "`{key}`: expected {what}")
}

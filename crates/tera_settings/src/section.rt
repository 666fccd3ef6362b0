//! A table of the file, and the settings in it.

ghost use Rattle.std.specs.Prelude.{◌≡◌, Some, None, map, IfOk, IfErr, string_bytes};
ghost use Rattle.std.specs.Option.{option_map};
ghost use Rattle.toml.specs.Data.{as_str, as_table, get_member};
ghost use Rattle.toml.specs.View.{array_view, table_view, view};
ghost use Rattle.tera_settings.specs.Faults.{IsMemory};
ghost use Rattle.tera_settings.specs.Values.{is_among, texts, texts_in, unknown_key, setting_at, as_texts, text_view, texts_view};
ghost use Rattle.tera_settings.specs.Sections.{members_of};

use crate::fault::{Fault, Why, Wrong};
use std::alloc::{AllocError, Global};
use toml::{Table, Value};

/// A table of the file.
#[derive(Clone, Copy)]
pub(crate) struct Section<'t> {
    pub(crate) alloc: Global,
    /// Its key, unless it is the whole file.
    pub(crate) name: Option<&'static str>,
    pub(crate) table: &'t Table,
}

impl<'t> Section<'t> {
    /// Refuses keys other than these.
    pub(crate) fn only(self, names: &[&str]) -> Result<(), Fault>
        ensures ok { IfOk result (λ _. unknown_key (texts names.now) (members_of self.entry) ≡ None) }
        ensures refused { IfErr result (λ e. ¬ IsMemory e
            → ¬ (unknown_key (texts names.now) (members_of self.entry) ≡ None)) }
    {
        match unknown_key(self.table, names) {
            Some(key) => Err(self.wrong(key, Why::UnknownKey)),
            None => Ok(()),
        }
    }

    /// The text at a key.
    pub(crate) fn text(self, key: &str) -> Result<Option<String>, Fault>
        ensures ok { IfOk result (λ text. setting_at as_str key.now (members_of self.entry)
            ≡ Some (text_view text)) }
        ensures refused { IfErr result (λ e. ¬ IsMemory e
            → setting_at as_str key.now (members_of self.entry) ≡ None) }
    {
        let Some(value) = value_at(self.table, key) else {
            return Ok(None);
        };
        match value.as_str() {
            Some(text) => Ok(Some(String::from_str(self.alloc, text)?)),
            None => Err(self.wrong(key, Why::NotText)),
        }
    }

    /// The texts at a key.
    #[tactic(auto, using(crate::proofs::ValueLemmas::at_key))]
    pub(crate) fn texts(self, key: &str) -> Result<Option<Vec<String>>, Fault>
        ensures ok { IfOk result (λ texts. setting_at as_texts key.now (members_of self.entry)
            ≡ Some (texts_view texts)) }
        ensures refused { IfErr result (λ e. ¬ IsMemory e
            → setting_at as_texts key.now (members_of self.entry) ≡ None) }
    {
        let Some(value) = value_at(self.table, key) else {
            return Ok(None);
        };
        match texts_in(self.alloc, value)? {
            Some(texts) => Ok(Some(texts)),
            None => Err(self.wrong(key, Why::NotTexts)),
        }
    }

    /// The table at a key.
    pub(crate) fn section(self, key: &'static str) -> Result<Option<Section<'t>>, Fault>
        ensures ok { IfOk result (λ section. setting_at as_table key.now (members_of self.entry)
            ≡ Some (option_map members_of section)) }
        ensures refused { IfErr result (λ e. ¬ IsMemory e
            → setting_at as_table key.now (members_of self.entry) ≡ None) }
    {
        let Some(value) = value_at(self.table, key) else {
            return Ok(None);
        };
        match value.as_table() {
            Some(table) => Ok(Some(Section {
                alloc: self.alloc,
                name: Some(key),
                table,
            })),
            None => Err(self.wrong(key, Why::NotTable)),
        }
    }

    /// What is wrong with the member at the key.
    pub(crate) fn wrong(self, key: &str, why: Why) -> Fault {
        match String::from_str(self.alloc, key) {
            Ok(key) => Fault::Member(Wrong {
                table: self.name,
                key,
                why,
            }),
            Err(_) => Fault::Memory,
        }
    }
}

// The value at the key.
fn value_at<'t>(table: &'t Table, key: &str) -> Option<&'t Value>
    ensures { option_map (λ v. view v.now) result ≡ get_member key.now (table_view table.now) }
{
    table.get(key)
}

// The first key that is not among the names.
fn unknown_key<'t>(table: &'t Table, names: &[&str]) -> Option<&'t str>
    ensures { option_map (λ key. key.now) result
        ≡ unknown_key (texts names.now) (table_view table.now) }
{
    for key in table.keys() {
        let name = key.as_str();
        if !is_among(names, name) {
            return Some(name);
        }
    }
    None
}

/// Whether the key is one of the names.
pub(crate) fn is_among(names: &[&str], key: &str) -> bool
    ensures { result ≡ is_among (texts names.now) key.now }
{
    for name in names {
        if *name == key {
            return true;
        }
    }
    false
}

// The texts that an array has, unless the value is none or something else is in it.
fn texts_in(alloc: Global, value: &Value) -> Result<Option<Vec<String>>, AllocError>
    ensures { IfOk result (λ texts. texts_view texts ≡ as_texts (view value.now)) }
{
    match value.as_array() {
        Some(items) => texts_of(alloc, items),
        None => Ok(None),
    }
}

fn texts_of(alloc: Global, items: &Vec<Value>) -> Result<Option<Vec<String>>, AllocError>
    ensures { IfOk result (λ texts. texts_view texts ≡ texts_in (array_view items.now)) }
{
    let mut texts = Vec::new(alloc);
    for item in items {
        let Some(text) = item.as_str() else {
            return Ok(None);
        };
        texts.push(String::from_str(alloc, text)?)?;
    }
    Ok(Some(texts))
}

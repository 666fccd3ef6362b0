//! From the text of a file to its settings.

ghost use Rattle.std.specs.Prelude.{◌≡◌, Some, None, map, codes, IfOk, IfErr, IsSomeAnd, Vec};
ghost use Rattle.std.specs.Option.{option_map};
ghost use Rattle.toml.specs.View.{table_view, view};
ghost use Rattle.std.specs.declared.alloc.Global.{Global};
ghost use Rattle.tera_settings.specs.declared.settings.Known.{Known};
ghost use Rattle.tera_settings.specs.declared.settings.RuleLevel.{RuleLevel};
ghost use Rattle.tera_settings.specs.declared.settings.Settings.{Settings};
ghost use Rattle.tera_settings.specs.Faults.{IsMemory};
ghost use Rattle.tera_settings.specs.Values.{texts, table_at};
ghost use Rattle.tera_settings.specs.Sections.{members_of};
ghost use Rattle.tera_settings.specs.Levels.{level_of, level_named, rule_levels, rule_of, rule_view};
ghost use Rattle.tera_settings.specs.Meaning.{IsMeantBy, Means, KnownMeans, keys_of};

use crate::fault::{Fault, Why};
use crate::section::{Section, is_among};
use crate::settings::{Known, Level, RuleLevel, Settings};
use std::alloc::Global;
use toml::{Table, Value};

const TOP: [&str; 7] = [
    "exclude",
    "extensions",
    "known",
    "libraries",
    "markers",
    "root",
    "rules",
];

const KNOWN: [&str; 3] = ["filters", "functions", "tests"];

/// The keys that a table has: the file, or its table `known`.
pub(crate) fn keys_of(table: Option<&str>) -> &'static [&'static str]
    ensures { texts result.now ≡ keys_of (option_map (λ t. t.now) table.entry) }
{
    match table {
        None => &TOP,
        Some(_) => &KNOWN,
    }
}

/// The settings that the text means, where the rules have these names.
pub fn settings_of(alloc: Global, rules: &[&str], text: &str) -> Result<Settings, Fault>
    ensures ok { IfOk result (IsMeantBy (texts rules.now) text.now) }
    ensures refused { IfErr result (λ e. ¬ IsMemory e
        → (s : Settings) → ¬ IsMeantBy (texts rules.now) text.now s) }
{
    let table = match toml::table_from_str(alloc, text) {
        Ok(table) => table,
        Err(error) if error.is_memory() => return Err(Fault::Memory),
        Err(error) => return Err(Fault::Text(error)),
    };
    let settings = settings_in(alloc, rules, &table);
    drop(table);
    settings
}

fn settings_in(alloc: Global, rules: &[&str], table: &Table) -> Result<Settings, Fault>
    ensures ok { IfOk result (Means (texts rules.now) (table_view table.now)) }
    ensures refused { IfErr result (λ e. ¬ IsMemory e
        → (s : Settings) → ¬ Means (texts rules.now) (table_view table.now) s) }
{
    let top = Section {
        alloc,
        name: None,
        table,
    };
    top.only(&TOP)?;
    Ok(Settings {
        root: top.text("root")?,
        extensions: top.texts("extensions")?,
        exclude: top.texts("exclude")?,
        libraries: top.texts("libraries")?,
        markers: top.text("markers")?,
        rules: rules_in(top, rules)?,
        known: known_in(top)?,
    })
}

// The names in the table `known`.
fn known_in(top: Section<'_>) -> Result<Known, Fault>
    ensures ok { IfOk result (λ known. IsSomeAnd (table_at (codes "known") (members_of top.entry))
        (λ members. KnownMeans members known)) }
    ensures refused { IfErr result (λ e. ¬ IsMemory e → (known : Known)
        → ¬ IsSomeAnd (table_at (codes "known") (members_of top.entry))
        (λ members. KnownMeans members known)) }
{
    match top.section("known")? {
        Some(section) => known_of(section),
        None => Ok(Known {
            filters: None,
            tests: None,
            functions: None,
        }),
    }
}

fn known_of(section: Section<'_>) -> Result<Known, Fault>
    ensures ok { IfOk result (KnownMeans (members_of section.entry)) }
    ensures refused { IfErr result (λ e. ¬ IsMemory e
        → (known : Known) → ¬ KnownMeans (members_of section.entry) known) }
{
    section.only(&KNOWN)?;
    Ok(Known {
        filters: section.texts("filters")?,
        tests: section.texts("tests")?,
        functions: section.texts("functions")?,
    })
}

// The levels in the table `rules`.
fn rules_in(top: Section<'_>, names: &[&str]) -> Result<Vec<RuleLevel>, Fault>
    ensures ok { IfOk result (λ rules. IsSomeAnd (table_at (codes "rules") (members_of top.entry))
        (λ members. rule_levels (texts names.now) members ≡ Some (map rule_view rules.items))) }
    ensures refused { IfErr result (λ e. ¬ IsMemory e → (rules : Vec RuleLevel Global)
        → ¬ IsSomeAnd (table_at (codes "rules") (members_of top.entry))
        (λ members. rule_levels (texts names.now) members ≡ Some (map rule_view rules.items))) }
{
    match top.section("rules")? {
        Some(section) => rules_of(section, names),
        None => Ok(Vec::new(top.alloc)),
    }
}

fn rules_of(section: Section<'_>, names: &[&str]) -> Result<Vec<RuleLevel>, Fault>
    ensures ok { IfOk result (λ rules. rule_levels (texts names.now) (members_of section.entry)
        ≡ Some (map rule_view rules.items)) }
    ensures refused { IfErr result (λ e. ¬ IsMemory e
        → rule_levels (texts names.now) (members_of section.entry) ≡ None) }
{
    let mut rules = Vec::new(section.alloc);
    for (key, value) in section.table.iter() {
        let name = key.as_str();
        let level = match level_at(names, name, value) {
            Ok(level) => level,
            Err(why) => return Err(section.wrong(name, why)),
        };
        let rule = String::from_str(section.alloc, name)?;
        rules.push(RuleLevel { rule, level })?;
    }
    Ok(rules)
}

// What the member says of the rule of this name.
fn level_at(names: &[&str], name: &str, value: &Value) -> Result<Level, Why>
    ensures ok { IfOk result (λ level. rule_of (texts names.now) (name.now, view value.now)
        ≡ Some (name.now, level)) }
    ensures refused { IfErr result (λ _. rule_of (texts names.now) (name.now, view value.now) ≡ None) }
{
    if !is_among(names, name) {
        return Err(Why::UnknownRule);
    }
    match level_of(value) {
        Some(level) => Ok(level),
        None => Err(Why::NotLevel),
    }
}

fn level_of(value: &Value) -> Option<Level>
    ensures { result ≡ level_of (view value.now) }
{
    match value.as_str() {
        Some(word) => level_named(word),
        None => None,
    }
}

fn level_named(word: &str) -> Option<Level>
    ensures { result ≡ level_named word.now }
{
    if word == "off" {
        Some(Level::Off)
    } else if word == "warning" {
        Some(Level::Warning)
    } else if word == "error" {
        Some(Level::Error)
    } else {
        None
    }
}

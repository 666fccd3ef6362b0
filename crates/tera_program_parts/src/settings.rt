//! What a file of settings says.

ghost use Rattle.std.specs.Prelude.{◌≡◌, map, option_map, IfOk, string_bytes};
ghost use Rattle.tera_files.specs.Names.{texts};
ghost use Rattle.tera_settings.specs.Values.{text_view, texts_view};
ghost use Rattle.tera_rules.specs.Registered.{AreListed, list_view, registered_if_any, registered_view};
ghost use Rattle.settings_files.specs.Paths.{all_led_from, led_from};
ghost use Rattle.tera_program_parts.specs.Views.{lists_view, set_view};
ghost use Rattle.tera_program_parts.specs.Settings.{AreRegistered, defaults_val, or_none, place_text, set_of, severity_at, site_val, words_val, words_view};

use crate::markers;
use crate::markers::{other_markers_of, steady_markers_of, why_unfit};
use crate::output::{print_error, print_unread};
use settings_files::{Configured, Places, Unfit, WrongFile, places_of};
use std::alloc::{AllocError, Global};
use std::rt::Files;
use tera_check::{Registered, RuleLevel, Severity};
use tera_settings::{Known, Level, Settings};

/// What a file of settings says. Everything is absent if there is no file.
#[derive(Drop)]
pub struct Site {
    pub root: Option<String>,
    pub extensions: Option<Vec<String>>,
    pub exclude: Option<Vec<String>>,
    pub library: Option<Vec<String>>,
    pub markers: Option<String>,
    pub rules: Vec<tera_settings::RuleLevel>,
    pub known: Known,
}

/// The same, in the form of the options of a job.
#[derive(Drop)]
pub struct Words<'s> {
    root: Option<&'s str>,
    extensions: Option<Vec<&'s str>>,
    exclude: Option<Vec<&'s str>>,
    library: Option<Vec<&'s str>>,
    markers: Option<&'s str>,
    set: Vec<RuleLevel<'s>>,
    registered: Option<Registered<'s>>,
}

/// What a file of settings says, for all that no option sets.
#[derive(Clone, Copy, Debug)]
pub struct Defaults<'b, 'a> {
    pub root: Option<&'a str>,
    pub extensions: Option<&'b [&'a str]>,
    pub exclude: Option<&'b [&'a str]>,
    pub library: Option<&'b [&'a str]>,
    pub markers: Option<&'a str>,
    /// What rules are set to.
    pub set: &'b [RuleLevel<'a>],
}

impl Site {
    /// What it is where no file counts. Nothing is promised of it: each of its fields is absent or empty.
    pub fn none(alloc: Global) -> Site {
        Site {
            root: None,
            extensions: None,
            exclude: None,
            library: None,
            markers: None,
            rules: Vec::new(alloc),
            known: Known {
                filters: None,
                tests: None,
                functions: None,
            },
        }
    }

    /// The same, as the options of a job have it.
    pub fn words(&self, alloc: Global) -> Result<Words<'_>, AllocError>
        ensures words { IfOk result (λ words. words_val words ≡ site_val self.now) }
        ensures registered { IfOk result (λ words.
            AreRegistered self.now.known (option_map registered_view words.registered)) }
    {
        Ok(Words {
            root: word_of(&self.root),
            extensions: words_of(alloc, &self.extensions)?,
            exclude: words_of(alloc, &self.exclude)?,
            library: words_of(alloc, &self.library)?,
            markers: word_of(&self.markers),
            set: set_of(alloc, &self.rules)?,
            registered: registered_of(alloc, &self.known)?,
        })
    }
}

impl<'s> Words<'s> {
    /// What counts where no option says otherwise.
    pub fn defaults(&self) -> Defaults<'_, 's>
        ensures { defaults_val result ≡ words_val self.now }
    {
        Defaults {
            root: self.root,
            extensions: slice_of(&self.extensions),
            exclude: slice_of(&self.exclude),
            library: slice_of(&self.library),
            markers: self.markers,
            set: self.set.as_slice(),
        }
    }

    /// The names that the program registers, if they are known. They are not a part of the defaults, as a set has one
    /// lifetime, and a job and its settings have two.
    pub fn registered(&self) -> Option<&Registered<'s>>
        ensures { registered_if_any result ≡ option_map registered_view self.now.registered }
    {
        match &self.registered {
            Some(registered) => Some(registered),
            None => None,
        }
    }
}

fn word_of(text: &Option<String>) -> Option<&str>
    ensures { option_map (λ t. t.now) result ≡ text_view text.now }
{
    match text {
        Some(text) => Some(text.as_str()),
        None => None,
    }
}

fn words_of<'s>(
    alloc: Global,
    texts: &'s Option<Vec<String>>,
) -> Result<Option<Vec<&'s str>>, AllocError>
    ensures { IfOk result (λ words. words_view words ≡ texts_view texts.now) }
{
    match texts {
        Some(texts) => Ok(Some(references(alloc, texts)?)),
        None => Ok(None),
    }
}

/// The texts of the strings.
pub fn references<'s>(alloc: Global, strings: &'s Vec<String>) -> Result<Vec<&'s str>, AllocError>
    ensures { IfOk result (λ words. texts words.items ≡ map string_bytes strings.now.items) }
{
    let mut words = Vec::new(alloc);
    for text in strings {
        words.push(text.as_str())?;
    }
    Ok(words)
}

fn slice_of<'b, 's>(words: &'b Option<Vec<&'s str>>) -> Option<&'b [&'s str]>
    ensures { lists_view result ≡ words_view words.now }
{
    match words {
        Some(words) => Some(words.as_slice()),
        None => None,
    }
}

// What the rules are set to.
fn set_of<'s>(
    alloc: Global,
    rules: &'s Vec<tera_settings::RuleLevel>,
) -> Result<Vec<RuleLevel<'s>>, AllocError>
    ensures { IfOk result (λ set. map set_view set.items ≡ map set_of rules.now.items) }
{
    let mut set = Vec::new(alloc);
    for rule in rules {
        set.push(RuleLevel {
            rule: rule.rule.as_str(),
            level: severity_at(rule.level),
        })?;
    }
    Ok(set)
}

/// What a rule is set to: nothing if it is off.
pub fn severity_at(level: Level) -> Option<Severity>
    ensures { result ≡ severity_at level }
{
    match level {
        Level::Off => None,
        Level::Warning => Some(Severity::Warning),
        Level::Error => Some(Severity::Error),
    }
}

// The names of the lists, if there is one.
fn registered_of(alloc: Global, known: &Known) -> Result<Option<Registered<'_>>, AllocError>
    ensures { IfOk result (λ r. AreRegistered known.now (option_map registered_view r)) }
{
    match (&known.filters, &known.tests, &known.functions) {
        (None, None, None) => Ok(None),
        _ => Ok(Some(listed(alloc, known)?)),
    }
}

fn listed(alloc: Global, known: &Known) -> Result<Registered<'_>, AllocError>
    ensures { let k = known.now in IfOk result (λ r.
        AreListed (texts_view k.filters) (texts_view k.tests) (texts_view k.functions)
        (registered_view r)) }
{
    Registered::of(
        alloc,
        list_of(&known.filters),
        list_of(&known.tests),
        list_of(&known.functions),
    )
}

fn list_of(list: &Option<Vec<String>>) -> Option<&[String]>
    ensures { list_view result ≡ texts_view list.now }
{
    match list {
        Some(list) => Some(list.as_slice()),
        None => None,
    }
}

/// What the file says, if this program can do all of it. Where `exclude` leads, and which error there is, is not promised.
pub fn site_in<R: Files + AllocGlobal>(
    rt: &R,
    is_laid_out: bool,
    file: Configured,
) -> Result<Site, Unfit>
    ensures rules { IfOk result (λ site. site.rules ≡ file.settings.rules) }
    ensures known { IfOk result (λ site. site.known ≡ file.settings.known) }
    ensures extensions { IfOk result (λ site. site.extensions ≡ file.settings.extensions) }
    ensures markers { IfOk result (λ site. site.markers ≡ file.settings.markers) }
    ensures root { IfOk result (λ site. text_view site.root
        ≡ option_map (led_from (string_bytes file.source.file)) (text_view file.settings.root)) }
    ensures library { IfOk result (λ site. or_none (texts_view site.library)
        ≡ all_led_from (string_bytes file.source.file) (or_none (texts_view file.settings.libraries))) }
{
    check_markers(rt.alloc(), is_laid_out, &file)?;
    let places = places_of(rt, &file)?;
    let Places {
        root,
        libraries,
        exclude,
    } = places;
    let Configured {
        source: _,
        settings,
    } = file;
    let Settings {
        extensions,
        markers,
        rules,
        known,
        ..
    } = settings;
    Ok(Site {
        root,
        extensions,
        exclude: if_any(exclude),
        library: if_any(libraries),
        markers,
        rules,
        known,
    })
}

fn if_any(texts: Vec<String>) -> Option<Vec<String>>
    ensures { or_none (texts_view result) ≡ map string_bytes texts.items }
{
    if texts.is_empty() { None } else { Some(texts) }
}

// Checks the markers as for `--markers`.
fn check_markers(alloc: Global, is_laid_out: bool, file: &Configured) -> Result<(), Unfit> {
    let Some(markers) = &file.settings.markers else {
        return Ok(());
    };
    let why = match why_not_markers(alloc, is_laid_out, markers.as_str()) {
        Some(why) => why_unfit(alloc, &why)?,
        None => return Ok(()),
    };
    let message = format!(in alloc; "`markers`: {why}")?;
    Err(file.wrong(alloc, None, "markers", message))
}

fn why_not_markers(alloc: Global, is_laid_out: bool, markers: &str) -> Option<markers::Unfit> {
    if is_laid_out {
        steady_markers_of(alloc, Some(markers)).err()
    } else {
        other_markers_of(alloc, Some(markers)).err()
    }
}

/// Says on standard error why there are no settings.
pub fn print_unset<R: Eprint + AllocGlobal>(rt: &R, why: &Unfit) {
    match why {
        Unfit::Memory => print_error(rt, "tera", "out of memory"),
        Unfit::Unread(file, why) => print_unread(rt, file.as_str(), *why),
        Unfit::Wrong(wrong) => print_wrong(rt, wrong),
    }
}

fn print_wrong<R: Eprint + AllocGlobal>(rt: &R, wrong: &WrongFile) {
    match place_text(rt.alloc(), wrong) {
        Ok(place) => print_error(rt, place.as_str(), wrong.message.as_str()),
        Err(_) => print_error(rt, "tera", "out of memory"),
    }
}

fn place_text(alloc: Global, wrong: &WrongFile) -> Result<String, AllocError>
    ensures { IfOk result (λ text. string_bytes text ≡ place_text wrong.now) }
{
    let (file, line, column) = (wrong.file.as_str(), wrong.line, wrong.column);
    format!(in alloc; "{file}:{line}:{column}")
}

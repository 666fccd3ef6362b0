//! What settings say of the templates below folders.

ghost use Rattle.std.specs.Prelude.{◌≡◌, ℕ, List, None, Some, true, map, string_bytes, IfOk, IfSome, OnOk, OnErr};
ghost use Rattle.std.specs.Option.{is_some, option_map};
ghost use Rattle.tera_rules.specs.Registered.{AreListed, list_view, registered_view as all_registered};
ghost use Rattle.tera_editor.specs.Settings as specs;
ghost use Rattle.tera_editor.specs.Settings.{ByRules, IsFileAt, IsSetAt, file_in, registered_view, reported_view, rule_view, settings_in, settings_view};

use crate::templates::is_inside;
use std::alloc::{AllocError, Global};
use std::collections::{BTreeMap, BTreeSet};
use tera_check::{Kind, Registered, Severity};
use tera_workspace::Markers;

/// What settings say of the templates below a folder.
#[derive(Debug, Drop)]
pub struct FolderSettings {
    /// How the names of templates end, without the point, if not as usual.
    pub extensions: Option<Vec<String>>,
    /// Files and folders that are left out, each by the components of the path by which the system knows it.
    pub exclude: BTreeSet<Vec<String>>,
    /// Files and folders with components that may be called, by the paths by which the system knows them.
    pub libraries: Vec<String>,
    /// The markers of the templates in the folder, if they are not the usual ones. Only the first syntax error of these
    /// templates is reported.
    pub markers: Option<Markers>,
    /// What rules are set to. All others have the level [`Kind::default_level`].
    pub rules: Vec<RuleSetting>,
    /// The folder below which templates have their names, by the path by which its files are given. Without one nothing is
    /// found of names.
    pub root: Option<String>,
    /// The names of the filters that the program registers, if they are known.
    pub filters: Option<Vec<String>>,
    /// The names of the tests that it registers.
    pub tests: Option<Vec<String>>,
    /// The names of the functions that it registers.
    pub functions: Option<Vec<String>>,
}

impl FolderSettings {
    /// What is reported of the templates in the folder, between the usual markers.
    pub fn reported(&self) -> Reported<'_>
        ensures { reported_view result ≡ ByRules (settings_view self.now).rules }
    {
        Reported::By(self.rules.as_slice())
    }

    /// Whether they list names that the program registers.
    pub(crate) fn has_list(&self) -> bool
        ensures { result ≡ specs.has_list (settings_view self.now) }
    {
        is_list(&self.filters) || is_list(&self.tests) || is_list(&self.functions)
    }

    /// Whether something else is found by them than is reported without: they list something, names are known, or
    /// templates have other markers.
    pub fn finds_more(&self) -> bool
        ensures { result ≡ specs.finds_more (settings_view self.now) }
    {
        self.has_list() || self.root.is_some() || self.markers.is_some()
    }

    /// What the program registers, by their lists.
    pub fn registered(&self, alloc: Global) -> Result<Registered<'_>, AllocError>
        ensures { let s = settings_view self.now in IfOk result (λ r.
            AreListed s.filters s.tests s.functions (all_registered r)) }
    {
        Registered::of(
            alloc,
            list_of(&self.filters),
            list_of(&self.tests),
            list_of(&self.functions),
        )
    }
}

/// What a rule is set to. Without a level its findings are off.
#[derive(Debug, Drop, PartialEq, Eq)]
pub struct RuleSetting {
    pub rule: String,
    pub level: Option<Severity>,
}

/// The names that a program registers, as far as they are known.
#[derive(Clone, Copy)]
pub struct RegisteredNames<'s> {
    pub filters: &'s [String],
    pub tests: &'s [String],
    pub functions: &'s [String],
}

/// What is reported of a file.
#[derive(Clone, Copy)]
pub enum Reported<'s> {
    /// All findings that are on, if these rules are set.
    By(&'s [RuleSetting]),
    /// Only faults, as the file is in a library.
    Faults,
    /// Nothing of what is found between the usual markers, as the file has others.
    Nothing,
}

/// The settings of folders, by their paths.
#[derive(Drop)]
pub struct Settings {
    of_folders: BTreeMap<String, FolderSettings>,
    // The files of settings that count for the folders, even if they are wrong.
    files: BTreeMap<String, String>,
    // The markers of all files, if these are given, whatever the settings of folders say. The inner `None` stands for
    // the usual ones.
    markers: Option<Option<Markers>>,
}

impl Settings {
    pub fn new(alloc: Global) -> Settings
        ensures none { (f : List ℕ) → settings_in result f ≡ None }
        ensures unnamed { (f : List ℕ) → file_in result f ≡ None }
        ensures ungiven { result.markers ≡ None }
    {
        Settings {
            of_folders: BTreeMap::new(alloc),
            files: BTreeMap::new(alloc),
            markers: None,
        }
    }

    /// The settings for a file or a folder: those of the first of these folders that it is, or is in.
    pub fn of(&self, folders: &[String], path: &str) -> Option<&FolderSettings>
        ensures { option_map (λ s. settings_view s.now) result
            ≡ specs.settings_for self.now (map string_bytes folders.now) path.now }
    {
        match folder_of(folders, path) {
            Some(folder) => self.of_folders.get(folder),
            None => None,
        }
    }

    /// The markers of a file, if they are not the usual ones.
    pub fn markers_for(&self, folders: &[String], file: &str) -> Option<&Markers>
        ensures { option_map (λ m. m.now) result
            ≡ specs.markers_for self.now (map string_bytes folders.now) file.now }
    {
        match &self.markers {
            Some(given) => given.as_ref(),
            None => self.markers_set_for(folders, file),
        }
    }

    // Those that the settings for the file say.
    fn markers_set_for(&self, folders: &[String], file: &str) -> Option<&Markers>
        ensures { option_map (λ m. m.now) result
            ≡ specs.markers_in (specs.settings_for self.now (map string_bytes folders.now) file.now) }
    {
        match self.of(folders, file) {
            Some(settings) => settings.markers.as_ref(),
            None => None,
        }
    }

    /// The names that the program registers for the templates of a file.
    pub fn registered(&self, folders: &[String], file: &str) -> RegisteredNames<'_>
        ensures { registered_view result ≡ specs.registered_for self.now (map string_bytes folders.now) file.now }
    {
        match self.of(folders, file) {
            Some(settings) => RegisteredNames {
                filters: names_in(&settings.filters),
                tests: names_in(&settings.tests),
                functions: names_in(&settings.functions),
            },
            None => RegisteredNames {
                filters: &[],
                tests: &[],
                functions: &[],
            },
        }
    }

    /// What is reported of a file of what is found between the usual markers: nothing, if it has others. If it is in a
    /// folder, by the folder's settings; else, in a library, only faults.
    pub fn reported(&self, folders: &[String], file: &str) -> Reported<'_>
        ensures { reported_view result ≡ specs.reported_for self.now (map string_bytes folders.now) file.now }
    {
        if self.markers_for(folders, file).is_some() {
            return Reported::Nothing;
        }
        match folder_of(folders, file) {
            Some(folder) => self.reported_in(folder),
            None if self.is_in_library(file) => Reported::Faults,
            None => Reported::By(&[]),
        }
    }

    /// Whether the file is in a library.
    pub fn is_in_library(&self, file: &str) -> bool
        ensures { result ≡ specs.is_in_library self.now file.now }
    {
        for (_folder, settings) in self.of_folders.iter() {
            if folder_of(settings.libraries.as_slice(), file).is_some() {
                return true;
            }
        }
        false
    }

    /// The settings for a file, if they list names that the program registers.
    pub fn listing(&self, folders: &[String], file: &str) -> Option<&FolderSettings>
        ensures { option_map (λ s. settings_view s.now) result
            ≡ specs.listing_for self.now (map string_bytes folders.now) file.now }
    {
        match self.of(folders, file) {
            Some(settings) => if_listing(settings),
            None => None,
        }
    }

    /// Whether something else is found in a file than is reported without settings.
    pub fn finds_more_for(&self, folders: &[String], file: &str) -> bool
        ensures { result ≡ specs.finds_more_in_file self.now (map string_bytes folders.now) file.now }
    {
        if self.markers_for(folders, file).is_some() {
            return true;
        }
        match self.of(folders, file) {
            Some(settings) => settings.finds_more(),
            None => false,
        }
    }

    /// Whether more is found by the settings of a folder than without settings.
    pub fn finds_more_in(&self, folder: &str) -> bool
        ensures { result ≡ specs.finds_more_if_any (settings_in self.now folder.now) }
    {
        match self.of_folders.get(folder) {
            Some(settings) => settings.finds_more(),
            None => false,
        }
    }

    /// Whether other findings are reported in a folder by its settings than without settings: more is found, or rules
    /// are set.
    pub fn reports_others_in(&self, folder: &str) -> bool
        ensures { result ≡ specs.reports_others (settings_in self.now folder.now) }
    {
        match self.of_folders.get(folder) {
            Some(settings) => settings.finds_more() || !settings.rules.is_empty(),
            None => false,
        }
    }

    /// What is reported of the files in a folder, by its settings.
    pub fn reported_in(&self, folder: &str) -> Reported<'_>
        ensures { reported_view result ≡ specs.reported_in (settings_in self.now folder.now) }
    {
        match self.of_folders.get(folder) {
            Some(settings) => settings.reported(),
            None => Reported::By(&[]),
        }
    }

    /// The libraries of a folder, by its settings.
    pub fn libraries_in(&self, folder: &str) -> &[String]
        ensures { map string_bytes result.now ≡ specs.libraries_in (settings_in self.now folder.now) }
    {
        match self.of_folders.get(folder) {
            Some(settings) => settings.libraries.as_slice(),
            None => &[],
        }
    }

    /// The file of settings that counts for the folder, even if it is wrong.
    pub fn file_of(&self, folder: &str) -> Option<&str>
        ensures { option_map (λ f. f.now) result ≡ file_in self.now folder.now }
    {
        let file = self.files.get(folder)?;
        Some(file.as_str())
    }

    /// The file of settings of the folder, if it counts for no other folder.
    pub fn own_file(&self, folder: &str) -> Option<&str>
        ensures { IfSome result (λ f. file_in self.now folder.now ≡ Some f.now) }
    {
        let file = self.files.get(folder)?;
        for (other, others) in self.files.iter() {
            if other.as_str() != folder && others == file {
                return None;
            }
        }
        Some(file.as_str())
    }

    /// This file counts for the folder from now on, and has these settings. After an allocation failure the settings
    /// are what they were.
    pub fn set(
        &mut self,
        alloc: Global,
        folder: &str,
        file: String,
        settings: FolderSettings,
    ) -> Result<(), AllocError>
        ensures set { OnOk result (IsSetAt folder.now (Some (settings_view settings)) self.old self.new) }
        ensures named { OnOk result (IsFileAt folder.now (Some (string_bytes file)) self.old self.new) }
        ensures markers { self.new.markers ≡ self.old.markers }
        ensures err { OnErr result ((f : List ℕ) → settings_in self.new f ≡ settings_in self.old f) }
    {
        self.set_file(alloc, folder, file)?;
        self.of_folders
            .insert(String::from_str(alloc, folder)?, settings)?;
        Ok(())
    }

    /// This file counts for the folder from now on, and has no settings: those that were there stay.
    pub fn set_file(&mut self, alloc: Global, folder: &str, file: String) -> Result<(), AllocError>
        ensures settings { (f : List ℕ) → settings_in self.new f ≡ settings_in self.old f }
        ensures markers { self.new.markers ≡ self.old.markers }
        ensures named { OnOk result (IsFileAt folder.now (Some (string_bytes file)) self.old self.new) }
    {
        self.files.insert(String::from_str(alloc, folder)?, file)?;
        Ok(())
    }

    /// No settings count for the folder any more.
    pub fn remove(&mut self, folder: &str)
        ensures set { IsSetAt folder.now None self.old self.new }
        ensures named { IsFileAt folder.now None self.old self.new }
        ensures markers { self.new.markers ≡ self.old.markers }
    {
        self.of_folders.remove(folder);
        self.files.remove(folder);
    }

    /// All files have these markers from now on, or the usual ones, whatever the settings of folders say.
    pub fn set_markers(&mut self, markers: Option<Markers>)
        ensures { self.new ≡ record self.old { markers = Some markers } }
    {
        self.markers = Some(markers);
    }
}

fn if_listing(settings: &FolderSettings) -> Option<&FolderSettings>
    ensures { option_map (λ s. settings_view s.now) result ≡ specs.if_listing (settings_view settings.now) }
{
    if settings.has_list() {
        Some(settings)
    } else {
        None
    }
}

fn is_list(list: &Option<Vec<String>>) -> bool
    ensures { result ≡ is_some (specs.list_in list.now) }
{
    list.is_some()
}

fn list_of(list: &Option<Vec<String>>) -> Option<&[String]>
    ensures { list_view result ≡ specs.list_in list.now }
{
    match list {
        Some(names) => Some(names.as_slice()),
        None => None,
    }
}

// The names of a list; none, if there is none.
fn names_in(list: &Option<Vec<String>>) -> &[String]
    ensures { map string_bytes result.now ≡ specs.names_in list.now }
{
    match list {
        Some(names) => names.as_slice(),
        None => &[],
    }
}

/// The first of the folders that is the path, or contains it at any depth.
pub fn folder_of<'f>(folders: &'f [String], path: &str) -> Option<&'f str>
    ensures { option_map (λ f. f.now) result ≡ specs.folder_of (map string_bytes folders.now) path.now }
{
    for folder in folders {
        if holds(folder.as_str(), path) {
            return Some(folder.as_str());
        }
    }
    None
}

fn holds(folder: &str, path: &str) -> bool
    ensures { result ≡ specs.holds folder.now path.now }
{
    folder == path || is_inside(folder, path)
}

impl Reported<'_> {
    /// The severity of findings of the kind, or none if they are off. Faults are always errors, if anything is
    /// reported.
    pub fn level(self, kind: Kind) -> Option<Severity>
        ensures { result ≡ specs.level_by (reported_view self.entry) kind }
    {
        if matches!(kind, Kind::Fault) {
            return self.fault_level(kind);
        }
        self.set_level(kind)
    }

    /// Whether findings of the kind are reported.
    pub fn has(self, kind: Kind) -> bool
        ensures { result ≡ specs.is_on (reported_view self.entry) kind }
    {
        self.level(kind).is_some()
    }

    fn fault_level(self, kind: Kind) -> Option<Severity>
        ensures { result ≡ specs.fault_level (reported_view self.entry) kind }
    {
        match self {
            Reported::By(_) => Some(kind.severity()),
            Reported::Faults => Some(kind.severity()),
            Reported::Nothing => None,
        }
    }

    fn set_level(self, kind: Kind) -> Option<Severity>
        ensures { result ≡ specs.set_level (reported_view self.entry) kind }
    {
        match self {
            Reported::By(rules) => level_in(rules, kind),
            Reported::Faults => None,
            Reported::Nothing => None,
        }
    }

    /// Whether this is the same as another.
    pub fn is_same(self, other: Reported<'_>) -> bool
        ensures { result ≡ true → reported_view self.entry ≡ reported_view other.entry }
    {
        match self {
            Reported::By(rules) => other.is_by(rules),
            Reported::Faults => matches!(other, Reported::Faults),
            Reported::Nothing => matches!(other, Reported::Nothing),
        }
    }

    /// Whether it is [`Reported::By`] with these rules.
    pub fn is_by(self, rules: &[RuleSetting]) -> bool
        ensures { result ≡ true → ByRules (map rule_view rules.now) ≡ reported_view self.entry }
    {
        match self {
            Reported::By(own) => rules == own,
            Reported::Faults => false,
            Reported::Nothing => false,
        }
    }
}

// The level of findings of the kind, if these rules are set.
fn level_in(rules: &[RuleSetting], kind: Kind) -> Option<Severity>
    ensures { result ≡ specs.level_in (map rule_view rules.now) kind }
{
    for rule in rules {
        if rule.rule.as_str() == kind.name() {
            return rule.level;
        }
    }
    kind.default_level()
}

//! The settings of a folder, which are given to a server.

ghost use Rattle.std.specs.Prelude.{◌≡◌, ◌++◌, false, true, map, string_bytes, IfOk, OnOk, OnErr};
ghost use Rattle.std.specs.List.{filter, flat_map};
ghost use Rattle.tera_workspace.specs.Definitions.{texts_read};
ghost use Rattle.tera_server.specs.Configuring.{AreDueInside, AreFoundSet, ArePublishedAgain, IsConfiguredBy, IsUnconfigured, are_all_due, changes_library, finds_more_by, has_wrong_settings, is_due_by_library, is_due_inside, is_left_to_others, is_wrong_in, reports_others_near, settings_by, site_below, site_by};
ghost use Rattle.tera_server.specs.Sending.{unpublished_of};
ghost use Rattle.tera_editor.specs.Settings.{is_in_library, libraries_in, reported_in, settings_for, settings_in, settings_view};
ghost use Rattle.tera_editor.specs.Sites.{AreGiven, IsSiteAt, sited_in};
ghost use Rattle.tera_server.specs.States.{Grows, edited_of, needed_of, needs};
ghost use Rattle.tera_editor.specs.UnreadFiles.{reason_view, why_of};
ghost use Rattle.tera_server.specs.declared.configuring.FoundSettings.TheVariants as found_as;
ghost use Rattle.tera_server.specs.declared.notes.NeededKind.TheVariants.{Folder};

use crate::notes::{NeededKind, has_name, need_all};
use crate::server::Server;
use std::alloc::{AllocError, Global};
use tera_editor::settings::{FolderSettings, folder_of};
use tera_editor::templates::is_inside;
use tera_editor::unread::Reason;
use tera_workspace::Workspace;

/// What was found of the settings for a folder.
#[derive(Debug, Drop)]
pub enum FoundSettings {
    /// There is no file of settings.
    Nothing,
    /// The file of this path has these settings.
    Set(String, FolderSettings),
    /// The file of this path has no settings, for this reason. The folder keeps the settings that it has.
    Wrong(String, Reason),
}

impl Server {
    ghost use Rattle.std.specs.Option.{option_map};

    /// The settings that count for a file, or a folder, by the folders that are open.
    pub fn settings_for(&self, path: &str) -> Option<&FolderSettings>
        ensures { option_map (λ s. settings_view s.now) result
            ≡ settings_for self.now.settings (map string_bytes self.now.folders.items) path.now }
    {
        self.settings.of(self.folders.as_slice(), path)
    }

    /// Sets what was found for the folder. If other findings are reported in it by that, because of other rules, its
    /// documents that have findings are published again; if something else is found by the settings than without, or
    /// was, all its documents are; also if the folder is closed, and other findings are reported by the settings of an
    /// open folder in it or around it. Documents that have findings and come into its libraries, or leave them, are
    /// published again too, and those in it that are in a library.
    /// After an allocation failure a part of this may be done.
    pub fn configure(
        &mut self,
        alloc: Global,
        folder: &str,
        found: FoundSettings,
    ) -> Result<(), AllocError>
        ensures configured { OnOk result (IsConfiguredBy folder.now found self.old self.new) }
        ensures err { OnErr result (IsUnconfigured self.old self.new) }
    {
        self.publish_if_others(alloc, folder, &found)?;
        self.set_site(alloc, folder, &found)?;
        self.forget_file(alloc, folder)?;
        self.set_found(alloc, folder, found)
    }

    /// Whether the file is one of a library.
    pub fn is_in_library(&self, path: &str) -> bool
        ensures { result ≡ is_in_library self.now.settings path.now }
    {
        self.settings.is_in_library(path)
    }

    /// Whether the file of settings of an open folder is wrong, or cannot be read.
    pub fn has_wrong_settings(&self) -> bool
        ensures { result ≡ has_wrong_settings self.now }
    {
        for folder in &self.folders {
            if self.is_wrong_in(folder.as_str()) {
                return true;
            }
        }
        false
    }

    fn is_wrong_in(&self, folder: &str) -> bool
        ensures { result ≡ is_wrong_in self.now folder.now }
    {
        match self.settings.file_of(folder) {
            Some(file) => self.unread.of(file).is_some(),
            None => false,
        }
    }

    /// Asks for the open folders again, as their settings may have changed.
    pub fn ask_for_folders(&mut self, alloc: Global) -> Result<(), AllocError>
        ensures same { self.new ≡ record self.old { needed = self.new.needed } }
        ensures asked { OnOk result (needed_of self.new ≡ needed_of self.old
            ++ flat_map (needs Folder) (map string_bytes self.old.folders.items)) }
        ensures grows { Grows (needed_of self.old) (needed_of self.new) }
    {
        need_all(
            alloc,
            NeededKind::Folder,
            self.folders.as_slice(),
            &mut self.needed,
        )
    }

    // Whether the same is reported in the folder as before, with what was found.
    fn keeps_report(&self, folder: &str, found: &FoundSettings) -> bool
        ensures { let old = settings_in self.now.settings folder.now in
            result ≡ true → reported_in (settings_by found.now old) ≡ reported_in old }
    {
        let before = self.settings.reported_in(folder);
        match found {
            FoundSettings::Nothing => before.is_by(&[]),
            FoundSettings::Set(_, settings) => settings.reported().is_same(before),
            FoundSettings::Wrong(_, _) => true,
        }
    }

    // Whether something else is found by these settings than without settings, or was before.
    fn finds_more(&self, folder: &str, found: &FoundSettings) -> bool
        ensures { result ≡ finds_more_by found.now (settings_in self.now.settings folder.now) }
    {
        match found {
            FoundSettings::Nothing => self.settings.finds_more_in(folder),
            FoundSettings::Set(_, settings) => {
                settings.finds_more() || self.settings.finds_more_in(folder)
            }
            FoundSettings::Wrong(_, _) => false,
        }
    }

    // Whether the folder is closed, and other findings are reported by the settings of an open folder in it or around it.
    // These may count now in files for which its own did.
    fn is_left_to_others(&self, folder: &str) -> bool
        ensures { result ≡ is_left_to_others self.now folder.now }
    {
        if has_name(self.folders.as_slice(), folder) {
            return false;
        }
        for other in &self.folders {
            if self.reports_others_near(folder, other.as_str()) {
                return true;
            }
        }
        false
    }

    fn reports_others_near(&self, folder: &str, other: &str) -> bool
        ensures { result ≡ reports_others_near self.now folder.now other.now }
    {
        (is_inside(folder, other) || is_inside(other, folder))
            && self.settings.reports_others_in(other)
    }

    // Whether all documents in the folder are to be published again, with what was found.
    fn are_all_due(&self, folder: &str, found: &FoundSettings) -> bool
        ensures { result ≡ are_all_due self.now folder.now found.now }
    {
        self.finds_more(folder, found) || self.is_left_to_others(folder)
    }

    // Whether nothing has to be published again, with what was found. `all` says that all documents have to be.
    fn keeps_published(&self, folder: &str, found: &FoundSettings, all: bool) -> bool
        ensures { let old = settings_in self.now.settings folder.now in
            result ≡ true → (all ≡ false) × (reported_in (settings_by found.now old) ≡ reported_in old) }
    {
        if all {
            return false;
        }
        self.keeps_report(folder, found)
    }

    // The libraries of the folder, with what was found.
    fn libraries_by<'f>(&'f self, folder: &str, found: &'f FoundSettings) -> &'f [String]
        ensures { map string_bytes result.now
            ≡ libraries_in (settings_by found.now (settings_in self.now.settings folder.now)) }
    {
        match found {
            FoundSettings::Nothing => &[],
            FoundSettings::Set(_, settings) => settings.libraries.as_slice(),
            FoundSettings::Wrong(_, _) => self.settings.libraries_in(folder),
        }
    }

    // Whether the editor has the document open, or had it, and it comes into the libraries of the folder with what was
    // found, or leaves them.
    fn changes_library(&self, folder: &str, found: &FoundSettings, name: &str) -> bool
        ensures { result ≡ changes_library self.now folder.now found.now name.now }
    {
        if self.editor.of(name).is_none() {
            return false;
        }
        let before = folder_of(self.settings.libraries_in(folder), name);
        let then = folder_of(self.libraries_by(folder, found), name);
        before.is_some() != then.is_some()
    }

    // Whether the document has findings that may be reported as those of a library now, or not be any more: the editor
    // has it open, and it comes into the libraries of the folder, or leaves them; or it is in a library, and in the
    // folder, which may be opened or closed.
    #[tactic(auto, unfolding(crate::specs::Configuring::is_due_by_library))]
    fn is_due_by_library(&self, folder: &str, found: &FoundSettings, name: &str) -> bool
        ensures { result ≡ is_due_by_library self.now folder.now found.now name.now }
    {
        !self.workspace.reported(name).is_empty()
            && (self.changes_library(folder, found, name)
                || is_inside(folder, name) && self.is_in_library(name))
    }

    fn due_by_library(
        &self,
        alloc: Global,
        folder: &str,
        found: &FoundSettings,
    ) -> Result<Vec<String>, AllocError>
        ensures { IfOk result (λ v. map string_bytes v.items
            ≡ filter (is_due_by_library self.now folder.now found.now)
            (map (λ s. s.name) (texts_read self.now.workspace))) }
    {
        let texts = self.workspace.texts(alloc)?;
        let mut names = Vec::new(alloc);
        for text in &texts {
            if self.is_due_by_library(folder, found, text.file) {
                names.push(String::from_str(alloc, text.file)?)?;
            }
        }
        Ok(names)
    }

    // What has to be published again, with what was found: documents in the folder, and those of libraries.
    fn publish_if_others(
        &mut self,
        alloc: Global,
        folder: &str,
        found: &FoundSettings,
    ) -> Result<(), AllocError>
        ensures same { self.new ≡ record self.old { unpublished = self.new.unpublished } }
        ensures published { OnOk result (ArePublishedAgain folder.now found.now self.old self.new) }
        ensures grows { Grows (unpublished_of self.old) (unpublished_of self.new) }
    {
        self.publish_inside(alloc, folder, found)?;
        self.publish_by_library(alloc, folder, found)
    }

    fn publish_by_library(
        &mut self,
        alloc: Global,
        folder: &str,
        found: &FoundSettings,
    ) -> Result<(), AllocError>
        ensures same { self.new ≡ record self.old { unpublished = self.new.unpublished } }
        ensures published { OnOk result (unpublished_of self.new ≡ unpublished_of self.old
            ++ filter (is_due_by_library self.old folder.now found.now)
            (map (λ s. s.name) (texts_read self.old.workspace))) }
        ensures err { OnErr result (unpublished_of self.new ≡ unpublished_of self.old) }
    {
        let mut names = self.due_by_library(alloc, folder, found)?;
        self.unpublished.append(&mut names)?;
        Ok(())
    }

    // If something else is reported than before, the files in the folder that have findings are to be published; if
    // more is found by the settings, or may be by those of another folder, all its files are.
    fn publish_inside(
        &mut self,
        alloc: Global,
        folder: &str,
        found: &FoundSettings,
    ) -> Result<(), AllocError>
        ensures same { self.new ≡ record self.old { unpublished = self.new.unpublished } }
        ensures published { OnOk result
            (AreDueInside folder.now found.now self.old (unpublished_of self.new)) }
        ensures grows { Grows (unpublished_of self.old) (unpublished_of self.new) }
    {
        let all = self.are_all_due(folder, found);
        if self.keeps_published(folder, found, all) {
            Ok(())
        } else {
            self.publish_again(alloc, folder, all)
        }
    }

    fn publish_again(&mut self, alloc: Global, folder: &str, all: bool) -> Result<(), AllocError>
        ensures same { self.new ≡ record self.old { unpublished = self.new.unpublished } }
        ensures published { OnOk result (unpublished_of self.new ≡ unpublished_of self.old
            ++ filter (is_due_inside self.old.workspace folder.now all)
            (map (λ s. s.name) (texts_read self.old.workspace))) }
        ensures err { OnErr result (unpublished_of self.new ≡ unpublished_of self.old) }
    {
        let mut names = due_inside(alloc, &self.workspace, folder, all)?;
        self.unpublished.append(&mut names)?;
        Ok(())
    }

    // Sets the site of the folder: the one below the root that was found, if there is one.
    fn set_site(
        &mut self,
        alloc: Global,
        folder: &str,
        found: &FoundSettings,
    ) -> Result<(), AllocError>
        ensures same { self.new ≡ record self.old { sites = self.new.sites } }
        ensures set { OnOk result (IsSiteAt folder.now
            (site_by found.now (sited_in self.old.sites folder.now)) self.old.sites self.new.sites) }
        ensures given { AreGiven self.old.sites → AreGiven self.new.sites }
        ensures renewed { self.new.sites.renewed ≡ self.old.sites.renewed }
    {
        match found {
            FoundSettings::Nothing => {
                self.sites.remove(folder);
                Ok(())
            }
            FoundSettings::Set(_, settings) => self.set_root(alloc, folder, settings),
            FoundSettings::Wrong(_, _) => Ok(()),
        }
    }

    fn set_root(
        &mut self,
        alloc: Global,
        folder: &str,
        settings: &FolderSettings,
    ) -> Result<(), AllocError>
        ensures same { self.new ≡ record self.old { sites = self.new.sites } }
        ensures set { OnOk result (IsSiteAt folder.now
            (site_below (settings_view settings.now).root) self.old.sites self.new.sites) }
        ensures given { AreGiven self.old.sites → AreGiven self.new.sites }
        ensures renewed { self.new.sites.renewed ≡ self.old.sites.renewed }
    {
        match &settings.root {
            Some(root) => self.sites.set(alloc, folder, root.as_str()),
            None => {
                self.sites.remove(folder);
                Ok(())
            }
        }
    }

    // Forgets what is wrong in the file of settings of the folder, unless it counts for another folder too.
    fn forget_file(&mut self, alloc: Global, folder: &str) -> Result<(), AllocError>
        ensures same { self.new ≡ record self.old { unread = self.new.unread; edited = self.new.edited } }
        ensures grows { Grows (edited_of self.old) (edited_of self.new) }
    {
        match self.settings.own_file(folder) {
            Some(file) => {
                let file = String::from_str(alloc, file)?;
                self.report_why(alloc, file.as_str(), None)
            }
            None => Ok(()),
        }
    }

    fn set_found(
        &mut self,
        alloc: Global,
        folder: &str,
        found: FoundSettings,
    ) -> Result<(), AllocError>
        ensures same { self.new ≡ record self.old
            { settings = self.new.settings; unread = self.new.unread; edited = self.new.edited } }
        ensures set { OnOk result (AreFoundSet folder.now found self.old self.new) }
        ensures markers { self.new.settings.markers ≡ self.old.settings.markers }
        ensures grows { Grows (edited_of self.old) (edited_of self.new) }
    {
        match found {
            FoundSettings::Nothing => {
                self.settings.remove(folder);
                Ok(())
            }
            FoundSettings::Set(file, settings) => self.set_settings(alloc, folder, file, settings),
            FoundSettings::Wrong(file, why) => self.set_wrong(alloc, folder, file, why),
        }
    }

    fn set_settings(
        &mut self,
        alloc: Global,
        folder: &str,
        file: String,
        settings: FolderSettings,
    ) -> Result<(), AllocError>
        ensures same { self.new ≡ record self.old
            { settings = self.new.settings; unread = self.new.unread; edited = self.new.edited } }
        ensures set { OnOk result (AreFoundSet folder.now (found_as.Set file settings) self.old self.new) }
        ensures markers { self.new.settings.markers ≡ self.old.settings.markers }
        ensures grows { Grows (edited_of self.old) (edited_of self.new) }
    {
        self.report_why(alloc, file.as_str(), None)?;
        self.settings.set(alloc, folder, file, settings)
    }

    fn set_wrong(
        &mut self,
        alloc: Global,
        folder: &str,
        file: String,
        why: Reason,
    ) -> Result<(), AllocError>
        ensures same { self.new ≡ record self.old
            { settings = self.new.settings; unread = self.new.unread; edited = self.new.edited } }
        ensures set { OnOk result (AreFoundSet folder.now (found_as.Wrong file why) self.old self.new) }
        ensures markers { self.new.settings.markers ≡ self.old.settings.markers }
        ensures grows { Grows (edited_of self.old) (edited_of self.new) }
    {
        self.report_why(alloc, file.as_str(), Some(why))?;
        self.settings.set_file(alloc, folder, file)
    }

    // Sets what is wrong in a file of settings; `None` if nothing is. If that changes, it is published.
    fn report_why(
        &mut self,
        alloc: Global,
        file: &str,
        why: Option<Reason>,
    ) -> Result<(), AllocError>
        ensures same { self.new ≡ record self.old { unread = self.new.unread; edited = self.new.edited } }
        ensures set { OnOk result (why_of self.new.unread file.now ≡ option_map reason_view why) }
        ensures grows { Grows (edited_of self.old) (edited_of self.new) }
    {
        self.set_why(alloc, file, why)
    }
}

// The names of the documents in the folder that have findings, or of all in it.
fn due_inside(
    alloc: Global,
    workspace: &Workspace,
    folder: &str,
    all: bool,
) -> Result<Vec<String>, AllocError>
    ensures { IfOk result (λ v. map string_bytes v.items ≡ filter (is_due_inside workspace.now folder.now all)
        (map (λ s. s.name) (texts_read workspace.now))) }
{
    let texts = workspace.texts(alloc)?;
    let mut names = Vec::new(alloc);
    for text in &texts {
        if is_due_inside(workspace, folder, all, text.file) {
            names.push(String::from_str(alloc, text.file)?)?;
        }
    }
    Ok(names)
}

fn is_due_inside(workspace: &Workspace, folder: &str, all: bool, name: &str) -> bool
    ensures { result ≡ is_due_inside workspace.now folder.now all name.now }
{
    is_inside(folder, name) && (all || !workspace.reported(name).is_empty())
}

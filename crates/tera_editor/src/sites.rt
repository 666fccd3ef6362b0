//! The sites below the roots of folders, and what is known of the files whose names templates use.

ghost use Rattle.std.specs.Prelude.{◌≡◌, ◌⊎◌, ◌++◌, ◌<◌, ℕ, List, [], None, Some, true, false, cond, length, map, string_bytes, option_map, IfOk, MatchOption, OnOk, OnErr};
ghost use Rattle.std.specs.BTreeMap.{get_by_text};
ghost use Rattle.std.specs.Str.{bytes_eq};
ghost use Rattle.tera_site.specs.Kept.{is_one_of, names_in};
ghost use Rattle.tera_workspace.specs.Definitions.{AreRead};
ghost use Rattle.tera_workspace.specs.Names.{is_among};
ghost use Rattle.tera_workspace.specs.SiteValues.{no_site};
ghost use Rattle.tera_workspace.specs.Sites.{AreRenewed, FitsWorkspace};
ghost use Rattle.tera_workspace.specs.Workspaces.{IsKept};
ghost use Rattle.tera_editor.specs.Sites as specs;
ghost use Rattle.tera_editor.specs.Sites.{AddsRenewed, AreAbsent, AreAround, AreFitting, AreGiven, AreSaid, AreStillKnown, HasOthers, HaveOthers, IsGiven, IsNumbered, IsPresenceAt, IsPresenceOf, IsSaid, IsSiteAt, KeepsKnown, NoneBefore, due_in, due_of_sites, may_be, presence_in, renewed_of, used_view, with_nothing_known};

use crate::settings::folder_of;
use std::alloc::{AllocError, Global};
use std::collections::{BTreeMap, BTreeSet};
use tera_workspace::{KeptSite, Workspace};

/// A name that templates below a root use and that none of them has.
#[derive(Debug, Drop, PartialEq, Eq)]
pub struct UsedName {
    pub root: String,
    pub name: String,
}

/// What is known of the file of a name.
#[derive(Clone, Copy)]
pub(crate) struct Presence {
    /// Whether there may be one: until the caller says that there is none.
    pub(crate) is_there: bool,
    /// Whether the caller has to look for it.
    pub(crate) is_due: bool,
}

/// The site below the root of a folder.
#[derive(Drop)]
pub(crate) struct FolderSite {
    folder: String,
    site: KeptSite,
    // Of names that templates use and that no template has. A name that is not used any more stays until `look_again`, and
    // as long as there may be a file of it.
    presences: BTreeMap<String, Presence>,
    // Whether the site may have been given others than those that may be there.
    has_news: bool,
}

/// The sites of folders.
#[derive(Drop)]
pub struct Sites {
    all: Vec<FolderSite>,
    // The names of documents around which something else is than was published, and which are not yet among those that
    // are to be published.
    renewed: Vec<String>,
}

impl Sites {
    pub fn new(alloc: Global) -> Sites
        ensures none { (f : List ℕ) → specs.site_in result f ≡ None }
        ensures given { AreGiven result }
        ensures renewed { renewed_of result ≡ [] }
    {
        Sites {
            all: Vec::new(alloc),
            renewed: Vec::new(alloc),
        }
    }

    /// That by which names are judged in a file: the one of the first of these folders that it is, or is in.
    pub fn of(&self, folders: &[String], file: &str) -> Option<&KeptSite>
        ensures { option_map (λ s. s.now) result ≡ specs.site_for self.now (map string_bytes folders.now) file.now }
    {
        match folder_of(folders, file) {
            Some(folder) => self.of_folder(folder),
            None => None,
        }
    }

    fn of_folder(&self, folder: &str) -> Option<&KeptSite>
        ensures { option_map (λ s. s.now) result ≡ specs.site_in self.now folder.now }
    {
        for one in &self.all {
            if one.folder.as_str() == folder {
                return Some(&one.site);
            }
        }
        None
    }

    /// The folder has a site below this root from now on, of which nothing is known. After an allocation failure the
    /// sites are what they were.
    pub fn set(&mut self, alloc: Global, folder: &str, root: &str) -> Result<(), AllocError>
        ensures set { OnOk result (IsSiteAt folder.now
            (Some (with_nothing_known (no_site root.now []))) self.old self.new) }
        ensures err { OnErr result (self.new.all.items ≡ self.old.all.items) }
        ensures given { AreGiven self.old → AreGiven self.new }
        ensures renewed { self.new.renewed ≡ self.old.renewed }
    {
        let new = FolderSite::new(alloc, folder, root)?;
        match self.number_of(folder) {
            Some(number) => {
                self.all[number] = new;
                Ok(())
            }
            None => Ok(self.all.push(new)?),
        }
    }

    // Which of the sites is that of the folder.
    fn number_of(&self, folder: &str) -> Option<usize>
        ensures { MatchOption result (NoneBefore folder.now self.now.all.items (length self.now.all.items))
            (IsNumbered folder.now self.now.all.items) }
    {
        for (number, one) in self.all.iter().enumerate() {
            if one.folder.as_str() == folder {
                return Some(number);
            }
        }
        None
    }

    /// The folder has no site any more.
    pub fn remove(&mut self, folder: &str)
        ensures set { IsSiteAt folder.now None self.old self.new }
        ensures given { AreGiven self.old → AreGiven self.new }
        ensures renewed { self.new.renewed ≡ self.old.renewed }
    {
        self.all.retain(|one| one.folder.as_str() != folder);
    }

    /// Finds again what is around the templates of each site, where documents changed. Adds to `names` those of the
    /// documents around which something else is. After that, each name that is missing is known to have no file.
    pub fn renew(
        &mut self,
        alloc: Global,
        workspace: &Workspace,
        names: &mut Vec<String>,
    ) -> Result<(), AllocError>
        ensures fits { IsKept workspace.now → AreRead workspace.now →
            OnOk result (AreFitting workspace.now self.new) }
        ensures said { OnOk result (AreSaid self.new) }
        ensures others { AreGiven self.old → OnOk result (HaveOthers self.new) }
        ensures given { AreGiven self.old → AreGiven self.new }
        ensures renewed { OnOk result (renewed_of self.new ≡ []) }
        ensures names { AddsRenewed (map string_bytes names.old.items) (map string_bytes names.new.items)
            self.old self.new }
    {
        'rounds: for _ in 0..u64::MAX {
            self.renew_each(alloc, workspace, names)?;
            if !self.assume(alloc)? {
                return Ok(());
            }
        }
        // More names than memory can hold.
        Err(AllocError)
    }

    fn renew_each(
        &mut self,
        alloc: Global,
        workspace: &Workspace,
        names: &mut Vec<String>,
    ) -> Result<(), AllocError>
        ensures fits { IsKept workspace.now → AreRead workspace.now →
            OnOk result (AreFitting workspace.now self.new) }
        ensures others { AreGiven self.old → OnOk result (HaveOthers self.new) }
        ensures given { AreGiven self.old → AreGiven self.new }
        ensures renewed { OnOk result (renewed_of self.new ≡ []) }
        ensures names { AddsRenewed (map string_bytes names.old.items) (map string_bytes names.new.items)
            self.old self.new }
    {
        names.append(&mut self.renewed)?;
        for number in 0..self.all.len() {
            self.renewed = self.all[number].renew(alloc, workspace)?;
            names.append(&mut self.renewed)?;
        }
        Ok(())
    }

    // Assumes a file of each lacking name, unless it is known that there is none. The answer is whether there is such a
    // name.
    fn assume(&mut self, alloc: Global) -> Result<bool, AllocError>
        ensures said { IfOk result (λ some. some ≡ false → AreSaid self.new) }
        ensures same { IfOk result (λ some. some ≡ false → self.new.all.items ≡ self.old.all.items) }
        ensures given { AreGiven self.old → AreGiven self.new }
        ensures sites { AreAround [] self.old self.new }
        ensures known { KeepsKnown self.old self.new }
        ensures renewed { self.new.renewed ≡ self.old.renewed }
    {
        let mut some = false;
        for number in 0..self.all.len() {
            if self.all[number].assume(alloc)? {
                some = true;
            }
        }
        Ok(some)
    }

    /// The names whose files the caller has to look for.
    pub fn due(&self, alloc: Global) -> Result<Vec<UsedName>, AllocError>
        ensures { IfOk result (λ v. map used_view v.items ≡ due_of_sites self.now) }
    {
        let mut due = Vec::new(alloc);
        for one in &self.all {
            one.push_due(alloc, &mut due)?;
        }
        Ok(due)
    }

    /// There may be a file of the name below the root, or there is none.
    pub fn set_presence(
        &mut self,
        alloc: Global,
        used: &UsedName,
        is_there: bool,
    ) -> Result<(), AllocError>
        ensures set { OnOk result (IsPresenceOf (used_view used.now) is_there self.old self.new) }
        ensures given { AreGiven self.old → AreGiven self.new }
        ensures sites { AreAround [] self.old self.new }
        ensures renewed { self.new.renewed ≡ self.old.renewed }
    {
        for number in 0..self.all.len() {
            let one = &mut self.all[number];
            if one.site.root() == used.root.as_str() {
                one.set_presence(alloc, used.name.as_str(), is_there)?;
            }
        }
        Ok(())
    }

    /// Files may have come or gone, so the caller has to look again for each name that templates use and none has, and
    /// for each name that may have a file. The other names are forgotten.
    pub fn look_again(&mut self)
        ensures given { AreGiven self.old → AreGiven self.new }
        ensures sites { AreAround [] self.old self.new }
        ensures due { specs.AreDueAgain self.old self.new }
        ensures renewed { self.new.renewed ≡ self.old.renewed }
    {
        for number in 0..self.all.len() {
            self.all[number].look_again();
        }
    }
}

impl FolderSite {
    fn new(alloc: Global, folder: &str, root: &str) -> Result<FolderSite, AllocError>
        ensures site { IfOk result (λ s. s.site ≡ no_site root.now []) }
        ensures folder { IfOk result (λ s. string_bytes s.folder ≡ folder.now) }
        ensures none { IfOk result (λ s. s.presences.entries ≡ []) }
    {
        Ok(FolderSite {
            folder: String::from_str(alloc, folder)?,
            site: KeptSite::new(alloc, root, BTreeSet::new(alloc))?,
            presences: BTreeMap::new(alloc),
            has_news: false,
        })
    }

    // Finds again what is around its templates, and names the documents around which something else is.
    fn renew(&mut self, alloc: Global, workspace: &Workspace) -> Result<Vec<String>, AllocError>
        ensures fits { IsKept workspace.now → AreRead workspace.now →
            OnOk result (FitsWorkspace self.new.site workspace.now) }
        ensures renewed { IfOk result (λ v.
            AreRenewed (map string_bytes v.items) self.old.site.documents self.new.site.documents) }
        ensures err { OnErr result (self.new.site.documents ≡ self.old.site.documents) }
        ensures others { IsGiven self.old → OnOk result (HasOthers self.new) }
        ensures given { IsGiven self.old → IsGiven self.new }
        ensures root { self.new.site.root ≡ self.old.site.root }
        ensures same { self.new ≡ record self.old { site = self.new.site; has_news = self.new.has_news } }
    {
        self.give_others(alloc)?;
        self.site.renew(alloc, workspace)
    }

    // If there is news, the names of which there may be files are given to the site.
    fn give_others(&mut self, alloc: Global) -> Result<(), AllocError>
        ensures others { IsGiven self.old → OnOk result (HasOthers self.new) }
        ensures given { IsGiven self.old → IsGiven self.new }
        ensures documents { self.new.site.documents ≡ self.old.site.documents }
        ensures root { self.new.site.root ≡ self.old.site.root }
        ensures same { self.new ≡ record self.old { site = self.new.site; has_news = self.new.has_news } }
    {
        if !self.has_news {
            return Ok(());
        }
        let others = self.others(alloc)?;
        self.site.set_others(others);
        self.has_news = false;
        Ok(())
    }

    // The names of which there may be a file.
    fn others(&self, alloc: Global) -> Result<BTreeSet<String>, AllocError>
        ensures { IfOk result (λ others. (n : List ℕ) → is_one_of (names_in others) n ≡ may_be self.now n) }
    {
        let mut others = BTreeSet::new(alloc);
        for (name, presence) in self.presences.iter() {
            if presence.is_there {
                others.insert(name.clone()?)?;
            }
        }
        Ok(others)
    }

    // Assumes a file of each lacking name, unless it is known that there is none. The answer is whether there is such a
    // name.
    fn assume(&mut self, alloc: Global) -> Result<bool, AllocError>
        ensures said { IfOk result (λ some. some ≡ false → IsSaid self.new) }
        ensures none { IfOk result (λ some. some ≡ false → self.new ≡ self.old) }
        ensures known { AreStillKnown self.old.presences self.new.presences }
        ensures given { IsGiven self.old → IsGiven self.new }
        ensures same { self.new ≡ record self.old { presences = self.new.presences; has_news = self.new.has_news } }
    {
        assume_each(
            alloc,
            self.site.lacking(),
            &mut self.presences,
            &mut self.has_news,
        )
    }

    // Adds the names whose files the caller has to look for.
    fn push_due(&self, alloc: Global, due: &mut Vec<UsedName>) -> Result<(), AllocError>
        ensures { OnOk result (map used_view due.new.items ≡ map used_view due.old.items ++ due_in self.now) }
    {
        for (name, presence) in self.presences.iter() {
            if presence.is_due {
                due.push(UsedName {
                    root: String::from_str(alloc, self.site.root())?,
                    name: name.clone()?,
                })?;
            }
        }
        Ok(())
    }

    // There may be a file of the name, or there is none.
    fn set_presence(&mut self, alloc: Global, name: &str, is_there: bool) -> Result<(), AllocError>
        ensures set { OnOk result (IsPresenceAt name.now
            (Some (record { is_there = is_there; is_due = false })) self.old self.new) }
        ensures given { IsGiven self.old → IsGiven self.new }
        ensures same { self.new ≡ record self.old { presences = self.new.presences; has_news = self.new.has_news } }
    {
        self.has_news = self.is_news(name, is_there);
        self.presences.insert(
            String::from_str(alloc, name)?,
            Presence {
                is_there,
                is_due: false,
            },
        )?;
        Ok(())
    }

    // Whether there is news, or will be once this is known of the name.
    fn is_news(&self, name: &str, is_there: bool) -> bool
        ensures { result ≡ false →
            (self.now.has_news ≡ false) × (specs.is_there_in (presence_in self.now name.now) ≡ is_there) }
    {
        if self.has_news {
            return true;
        }
        match self.presences.get(name) {
            Some(presence) => presence.is_there != is_there,
            None => is_there,
        }
    }

    // The caller has to look again for each lacking name, and for each that may have a file. The others, which no template
    // uses any more or which a template has, are forgotten.
    fn look_again(&mut self)
        ensures due { (n : List ℕ) → presence_in self.new n ≡ specs.asked_again_in self.old n }
        ensures given { IsGiven self.old → IsGiven self.new }
        ensures same { self.new ≡ record self.old { presences = self.new.presences } }
    {
        self.presences.retain(|_, presence| {
            presence.is_due = presence.is_there;
            true
        });
        ask_each(self.site.lacking(), &mut self.presences);
        self.presences.retain(|_, presence| presence.is_due);
    }
}

// The caller has to look again for these names, as far as something is known of them.
fn ask_each(names: &[String], presences: &mut BTreeMap<String, Presence>)
    ensures { (n : List ℕ) → get_by_text presences.new n
        ≡ option_map (specs.asked_if (is_among n (map string_bytes names.now))) (get_by_text presences.old n) }
{
    for name in names {
        ask(presences, name.as_str());
    }
}

fn ask(presences: &mut BTreeMap<String, Presence>, name: &str)
    ensures { (n : List ℕ) → get_by_text presences.new n ≡ cond (bytes_eq name.now n)
        (option_map specs.asked_again (get_by_text presences.old n)) (get_by_text presences.old n) }
{
    if let Some(presence) = presences.get_mut(name) {
        presence.is_due = true;
    }
}

// Whether it is known that there is no file of the name.
fn is_absent(presences: &BTreeMap<String, Presence>, name: &str) -> bool
    ensures { result ≡ specs.is_absent_in presences.now name.now }
{
    match presences.get(name) {
        Some(presence) => !presence.is_there,
        None => false,
    }
}

// Assumes a file of each of these names, unless it is known that there is none. The answer is whether there may be one
// of any of them. Then there is news, also after an allocation failure.
fn assume_each(
    alloc: Global,
    names: &[String],
    presences: &mut BTreeMap<String, Presence>,
    has_news: &mut bool,
) -> Result<bool, AllocError>
    ensures said { IfOk result (λ some. some ≡ false →
        AreAbsent (map string_bytes names.now) presences.new) }
    ensures none { IfOk result (λ some. some ≡ false →
        (presences.new ≡ presences.old) × (has_news.new ≡ has_news.old)) }
    ensures known { AreStillKnown presences.old presences.new }
    ensures news { (has_news.new ≡ true)
        ⊎ ((presences.new ≡ presences.old) × (has_news.new ≡ has_news.old)) }
{
    let mut some = false;
    for name in names {
        if !is_absent(presences, name.as_str()) {
            *has_news = true;
            some = true;
            add_new(alloc, presences, name.as_str())?;
        }
    }
    Ok(some)
}

// There may be a file of the name, if nothing is known of that.
fn add_new(
    alloc: Global,
    presences: &mut BTreeMap<String, Presence>,
    name: &str,
) -> Result<(), AllocError>
    ensures kept { (n : List ℕ) → bytes_eq name.now n ≡ false →
        get_by_text presences.new n ≡ get_by_text presences.old n }
    ensures added { OnOk result (specs.is_absent_in presences.new name.now
        ≡ specs.is_absent_in presences.old name.now) }
    ensures known { AreStillKnown presences.old presences.new }
{
    if presences.contains_key(name) {
        return Ok(());
    }
    let new = Presence {
        is_there: true,
        is_due: true,
    };
    presences.insert(String::from_str(alloc, name)?, new)?;
    Ok(())
}

//! Files that exist on disk.

ghost use Rattle.std.specs.Prelude.{◌≡◌, ℕ, List, true, false, filter, map, string_bytes, IfOk, OnOk, OnErr};
ghost use Rattle.tera_editor.specs.KnownFiles.{is_known, known_names, IsKnownAs};
ghost use Rattle.tera_editor.specs.Templates.{is_inside};

use crate::templates::is_inside;
use std::alloc::{AllocError, Global};
use std::collections::BTreeSet;

/// The names of the files that were given.
#[derive(Drop)]
pub struct KnownFiles {
    names: BTreeSet<String>,
}

impl KnownFiles {
    pub fn new(alloc: Global) -> KnownFiles
        ensures { (n : List ℕ) → is_known result n ≡ false }
    {
        KnownFiles {
            names: BTreeSet::new(alloc),
        }
    }

    pub fn has(&self, name: &str) -> bool
        ensures { result ≡ is_known self.now name.now }
    {
        self.names.contains(name)
    }

    /// Adds the file of this name. After an allocation failure nothing changes.
    pub fn add(&mut self, alloc: Global, name: &str) -> Result<(), AllocError>
        ensures added { OnOk result (IsKnownAs name.now true self.old self.new) }
        ensures err { OnErr result ((n : List ℕ) → is_known self.new n ≡ is_known self.old n) }
    {
        self.names.insert(String::from_str(alloc, name)?)?;
        Ok(())
    }

    /// Removes it.
    pub fn remove(&mut self, name: &str)
        ensures { IsKnownAs name.now false self.old self.new }
    {
        self.names.remove(name);
    }

    /// The names of all files.
    pub fn all(&self, alloc: Global) -> Result<Vec<String>, AllocError>
        ensures { IfOk result (λ v. map string_bytes v.items ≡ known_names self.now) }
    {
        let mut names = Vec::new(alloc);
        for name in &self.names {
            names.push(name.clone()?)?;
        }
        Ok(names)
    }

    /// The names of the files in the folder, at any depth.
    pub fn inside(&self, alloc: Global, folder: &str) -> Result<Vec<String>, AllocError>
        ensures { IfOk result (λ v. map string_bytes v.items ≡ filter (is_inside folder.now) (known_names self.now)) }
    {
        let mut names = Vec::new(alloc);
        for name in &self.names {
            if is_inside(folder, name.as_str()) {
                names.push(name.clone()?)?;
            }
        }
        Ok(names)
    }
}

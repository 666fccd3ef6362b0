//! Files that were met, each once.

ghost use Rattle.std.specs.Prelude.{◌≡◌, ◌≢◌, ◌<◌, [], AllPairs, IfOk, OnOk, length, map, string_bytes};
ghost use Rattle.std.specs.Str.{bytes_eq};
ghost use Rattle.indexmap.specs.IndexSet.{insert_key};

use indexmap::IndexSet;
use std::alloc::{AllocError, Global};
use std::collections::BTreeSet;

/// The paths of files, each file once, in the order in which they were met.
#[derive(Drop)]
pub(crate) struct Listing {
    files: IndexSet<String>,
    // The paths by which the system knows them, and of what is left out.
    known: BTreeSet<String>,
}

impl Listing {
    ghost use Rattle.tera_files.specs.Listing.{files_in, AddsFile, IsAdded, IsStarted};

    pub(crate) fn new(alloc: Global) -> Listing
        ensures none { files_in result ≡ [] }
        ensures started { IsStarted result }
    {
        Listing {
            files: IndexSet::new(alloc),
            known: BTreeSet::new(alloc),
        }
    }

    // Leaves out the file that the system knows by this path.
    pub(crate) fn leave_out(&mut self, itself: String) -> Result<(), AllocError>
        ensures { files_in self.new ≡ files_in self.old }
    {
        self.known.insert(itself)?;
        Ok(())
    }

    // Adds a file, unless it was met or is left out.
    pub(crate) fn add(&mut self, path: String, itself: String) -> Result<(), AllocError>
        ensures added { OnOk result (IsAdded (string_bytes path) (files_in self.old) (files_in self.new)) }
        ensures file { OnOk result (AddsFile (string_bytes path) (string_bytes itself) self.old self.new) }
        ensures started { OnOk result (IsStarted self.old → 0 < length (files_in self.new)) }
    {
        if self.known.insert(itself)? {
            self.add_path(path)?;
        }
        Ok(())
    }

    // Adds a path, unless it is there.
    pub(crate) fn add_path(&mut self, path: String) -> Result<(), AllocError>
        ensures files { OnOk result (files_in self.new
            ≡ insert_key bytes_eq (files_in self.old) (string_bytes path)) }
        ensures known { self.new.known ≡ self.old.known }
    {
        self.files.insert(path)?;
        Ok(())
    }

    pub(crate) fn into_files(self, alloc: Global) -> Result<Vec<String>, AllocError>
        ensures files { IfOk result (λ files. map string_bytes files.items ≡ files_in self) }
        ensures apart { AllPairs (λ one other. one ≢ other) (files_in self) }
    {
        self.files.into_iter().collect(alloc)
    }
}

//! The first syntax errors of documents that have other markers.

ghost use Rattle.std.specs.Prelude.{◌≡◌, ◌++◌, ◌∷◌, [], ℕ, List, IfOk, OnOk, map, string_bytes};
ghost use Rattle.tera_workspace.specs.Diagnostics.{diagnostic_view};
ghost use Rattle.tera_server.specs.Between.{AreFaultsFor, faults_in};

use std::alloc::{AllocError, Global};
use std::collections::BTreeMap;
use tera_editor::settings::Settings;
use tera_workspace::{Diagnostic, Workspace};

/// The first syntax errors of documents that have other markers, by the names of the documents.
#[derive(Drop)]
pub(crate) struct FaultsBetween {
    found: BTreeMap<String, Vec<Diagnostic>>,
}

/// Finds those of the documents of these names and of the others, in the texts that were read last.
pub(crate) fn faults_between(
    alloc: Global,
    settings: &Settings,
    folders: &[String],
    workspace: &Workspace,
    names: &[String],
    others: &[String],
) -> Result<FaultsBetween, AllocError>
    ensures { IfOk result (λ faults. AreFaultsFor settings.now (map string_bytes folders.now) workspace.now
        (map string_bytes names.now ++ map string_bytes others.now) (faults_in faults)) }
{
    let mut faults = FaultsBetween::new(alloc);
    faults.add_each(alloc, settings, folders, workspace, names)?;
    faults.add_each(alloc, settings, folders, workspace, others)?;
    Ok(faults)
}

impl FaultsBetween {
    fn new(alloc: Global) -> FaultsBetween
        ensures { (n : List ℕ) → faults_in result n ≡ [] }
    {
        FaultsBetween {
            found: BTreeMap::new(alloc),
        }
    }

    /// What was found in the document of this name.
    pub(crate) fn of(&self, name: &str) -> &[Diagnostic]
        ensures { map diagnostic_view result.now ≡ faults_in self.now name.now }
    {
        match self.found.get(name) {
            Some(found) => found.as_slice(),
            None => &[],
        }
    }

    fn add_each(
        &mut self,
        alloc: Global,
        settings: &Settings,
        folders: &[String],
        workspace: &Workspace,
        names: &[String],
    ) -> Result<(), AllocError>
        ensures { OnOk result ((before : List (List ℕ)) →
            AreFaultsFor settings.now (map string_bytes folders.now) workspace.now before (faults_in self.old) →
            AreFaultsFor settings.now (map string_bytes folders.now) workspace.now
            (before ++ map string_bytes names.now) (faults_in self.new)) }
    {
        for name in names {
            self.add(alloc, settings, folders, workspace, name.as_str())?;
        }
        Ok(())
    }

    // Adds what is found in the document of this name, if it has other markers.
    fn add(
        &mut self,
        alloc: Global,
        settings: &Settings,
        folders: &[String],
        workspace: &Workspace,
        name: &str,
    ) -> Result<(), AllocError>
        ensures { OnOk result ((before : List (List ℕ)) →
            AreFaultsFor settings.now (map string_bytes folders.now) workspace.now before (faults_in self.old) →
            AreFaultsFor settings.now (map string_bytes folders.now) workspace.now
            (before ++ name.now ∷ []) (faults_in self.new)) }
    {
        let Some(markers) = settings.markers_for(folders, name) else {
            return Ok(());
        };
        let found = workspace.fault_between(alloc, name, markers)?;
        self.found.insert(String::from_str(alloc, name)?, found)?;
        Ok(())
    }
}

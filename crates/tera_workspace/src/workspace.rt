//! The documents, and what was reported for them.

ghost use Rattle.tera_workspace.specs.Kept.{sources_of};
ghost use Rattle.tera_workspace.specs.Sources.{AreAscending, AreAscending-prop};

use crate::diagnostics::Diagnostic;
use crate::judged::{Judged, place_of};
use crate::news::{names_of, news_of, report};
use crate::reading::read_changed;
use std::alloc::{AllocError, Global};
use text_edits::{Change, Documents, Encoding};

/// Templates by the names of their files, and what was reported for each.
///
/// If two files define one component, the first in the order of the names of the files counts.
#[derive(Drop)]
pub struct Workspace {
    pub(crate) encoding: Encoding,
    pub(crate) documents: Documents,
    // The names of at least the documents whose text may differ from the one that was read.
    changed: Vec<String>,
    // In the order of the names.
    pub(crate) judged: Vec<Judged>,
    ghost ordered: { AreAscending (sources_of judged.items) } by { AreAscending-prop (sources_of judged.items) },
}

impl Workspace {
    ghost use Rattle.std.specs.Prelude.{◌≡◌, ℕ, List, [], IfOk, OnOk, OnErr, map, string_bytes};
    ghost use Rattle.std.specs.Option.{option_map, is_some};
    ghost use Rattle.text_edits.specs.Documents.{no_document, text_of, opened, changed, closed, written, removed};
    ghost use Rattle.text_edits.specs.Edits.{change_view};
    ghost use Rattle.text_edits.specs.Stored.{document_of, IsChangedAt, AreSame};
    ghost use Rattle.tera_workspace.specs.Definitions.{AreRead, texts_read};
    ghost use Rattle.tera_workspace.specs.Diagnostics.{diagnostic_view};
    ghost use Rattle.tera_workspace.specs.Fresh.{AreFresh};
    ghost use Rattle.tera_workspace.specs.Kept.{templates_of};
    ghost use Rattle.tera_workspace.specs.Workspaces.{reported_of_name, IsKept, IsSettled, AreOthers};

    /// No documents. Positions are counted in units of the encoding.
    pub fn new(alloc: Global, encoding: Encoding) -> Workspace
        ensures encoding { result.encoding ≡ encoding }
        ensures documents { (n : List ℕ) → document_of result.documents n ≡ no_document }
        ensures reported { (n : List ℕ) → reported_of_name result n ≡ [] }
        ensures kept { IsKept result }
    {
        Workspace {
            encoding,
            documents: Documents::new(alloc),
            changed: Vec::new(alloc),
            judged: Vec::new(alloc),
        }
    }

    /// The editor has opened the file with this text. After an allocation failure nothing changes.
    pub fn open(&mut self, alloc: Global, name: &str, text: &str) -> Result<(), AllocError>
        ensures opened { OnOk result (IsChangedAt name.now (opened text.now) self.old.documents self.new.documents) }
        ensures err { OnErr result (AreSame self.old.documents self.new.documents) }
        ensures encoding { self.new.encoding ≡ self.old.encoding }
        ensures kept { IsKept self.old → IsKept self.new }
        ensures reported { (n : List ℕ) → reported_of_name self.new n ≡ reported_of_name self.old n }
    {
        self.changed.push(String::from_str(alloc, name)?)?;
        self.documents.open(alloc, name, text)
    }

    /// The editor has made these changes, in order; the result says whether it has the file open. After an allocation
    /// failure nothing changes, so that the editor has another text from then on.
    pub fn change(
        &mut self,
        alloc: Global,
        name: &str,
        changes: &[Change<'_>],
    ) -> Result<bool, AllocError>
        ensures changed { OnOk result (IsChangedAt name.now
            (changed self.old.encoding (map change_view changes.now)) self.old.documents self.new.documents) }
        ensures was_open { IfOk result (λ b. b ≡ is_some (document_of self.old.documents name.now).opened) }
        ensures err { OnErr result (AreSame self.old.documents self.new.documents) }
        ensures encoding { self.new.encoding ≡ self.old.encoding }
        ensures kept { IsKept self.old → IsKept self.new }
        ensures reported { (n : List ℕ) → reported_of_name self.new n ≡ reported_of_name self.old n }
    {
        self.changed.push(String::from_str(alloc, name)?)?;
        self.documents.change(alloc, self.encoding, name, changes)
    }

    /// The editor has closed the file: what is on disk counts again, if anything is. After an allocation failure
    /// nothing changes.
    pub fn close(&mut self, alloc: Global, name: &str) -> Result<(), AllocError>
        ensures closed { OnOk result (IsChangedAt name.now closed self.old.documents self.new.documents) }
        ensures err { OnErr result (AreSame self.old.documents self.new.documents) }
        ensures encoding { self.new.encoding ≡ self.old.encoding }
        ensures kept { IsKept self.old → IsKept self.new }
        ensures reported { (n : List ℕ) → reported_of_name self.new n ≡ reported_of_name self.old n }
    {
        self.changed.push(String::from_str(alloc, name)?)?;
        self.documents.close(name);
        Ok(())
    }

    /// This text is on disk now. It counts if the file is not open. After an allocation failure nothing changes.
    pub fn set_file(&mut self, alloc: Global, name: &str, text: &str) -> Result<(), AllocError>
        ensures written { OnOk result (IsChangedAt name.now (written text.now) self.old.documents self.new.documents) }
        ensures err { OnErr result (AreSame self.old.documents self.new.documents) }
        ensures encoding { self.new.encoding ≡ self.old.encoding }
        ensures kept { IsKept self.old → IsKept self.new }
        ensures reported { (n : List ℕ) → reported_of_name self.new n ≡ reported_of_name self.old n }
    {
        self.changed.push(String::from_str(alloc, name)?)?;
        self.documents.set_file(alloc, name, text)
    }

    /// Nothing is on disk any more. After an allocation failure nothing changes.
    pub fn remove_file(&mut self, alloc: Global, name: &str) -> Result<(), AllocError>
        ensures removed { OnOk result (IsChangedAt name.now removed self.old.documents self.new.documents) }
        ensures err { OnErr result (AreSame self.old.documents self.new.documents) }
        ensures encoding { self.new.encoding ≡ self.old.encoding }
        ensures kept { IsKept self.old → IsKept self.new }
        ensures reported { (n : List ℕ) → reported_of_name self.new n ≡ reported_of_name self.old n }
    {
        self.changed.push(String::from_str(alloc, name)?)?;
        self.documents.remove_file(name);
        Ok(())
    }

    /// The text of the file: the editor's text if it is open, or else the text on disk.
    pub fn text(&self, name: &str) -> Option<&str>
        ensures { option_map (λ t. t.now) result ≡ text_of (document_of self.now.documents name.now) }
    {
        self.documents.text(name)
    }

    /// What was reported for the file last.
    pub fn reported(&self, name: &str) -> &[Diagnostic]
        ensures { map diagnostic_view result.now ≡ reported_of_name self.now name.now }
    {
        match place_of(&self.judged, name) {
            Ok(number) => self.judged[number].reported.as_slice(),
            Err(_) => &[],
        }
    }

    /// Reads the documents that changed, so that queries are answered by their texts. What was reported stays. After an
    /// allocation failure some may be read.
    pub fn read(&mut self, alloc: Global) -> Result<(), AllocError>
        ensures encoding { self.new.encoding ≡ self.old.encoding }
        ensures documents { AreSame self.old.documents self.new.documents }
        ensures read { IsKept self.old → OnOk result (AreRead self.new) }
        ensures kept { IsKept self.old → IsKept self.new }
        ensures reported { (n : List ℕ) → reported_of_name self.new n ≡ reported_of_name self.old n }
    {
        read_changed(alloc, &self.documents, &self.changed, &mut self.judged)?;
        self.changed.clear();
        Ok(())
    }

    /// Checks again the documents that changed, and those whose findings may change by that. The result has the names
    /// of the documents whose findings differ from those that were reported before, in the order of the names; from now
    /// on `reported` has them. After an allocation failure what was reported stays.
    pub fn settle(&mut self, alloc: Global) -> Result<Vec<String>, AllocError>
        ensures encoding { self.new.encoding ≡ self.old.encoding }
        ensures documents { AreSame self.old.documents self.new.documents }
        ensures settled { IsKept self.old → OnOk result (IsSettled self.new) }
        ensures read { IsKept self.old → OnOk result (AreRead self.new) }
        ensures names { IsKept self.old → IfOk result (λ v.
            AreOthers (map string_bytes v.items) (reported_of_name self.old) (reported_of_name self.new)) }
        ensures kept { IsKept self.old → IsKept self.new }
        ensures err { OnErr result ((n : List ℕ) → reported_of_name self.new n ≡ reported_of_name self.old n) }
    {
        self.read(alloc)?;
        self.settle_read(alloc)
    }

    /// Does the same by the texts that were read last: no document is read. After an allocation failure nothing changes.
    pub fn settle_read(&mut self, alloc: Global) -> Result<Vec<String>, AllocError>
        ensures encoding { self.new.encoding ≡ self.old.encoding }
        ensures documents { self.new.documents ≡ self.old.documents }
        ensures templates { templates_of self.new.judged.items ≡ templates_of self.old.judged.items }
        ensures texts { texts_read self.new ≡ texts_read self.old }
        ensures fresh { IsKept self.old →
            OnOk result (AreFresh self.new.encoding (texts_read self.old) (reported_of_name self.new)) }
        ensures settled { IsKept self.old → AreRead self.old → OnOk result (IsSettled self.new) }
        ensures read { IsKept self.old → AreRead self.old → OnOk result (AreRead self.new) }
        ensures names { IsKept self.old → IfOk result (λ v.
            AreOthers (map string_bytes v.items) (reported_of_name self.old) (reported_of_name self.new)) }
        ensures kept { IsKept self.old → IsKept self.new }
        ensures err { OnErr result (self.new ≡ self.old) }
    {
        let news = news_of(alloc, self.encoding, &self.judged)?;
        let names = names_of(alloc, &self.judged, &news)?;
        report(&mut self.judged, news);
        Ok(names)
    }
}

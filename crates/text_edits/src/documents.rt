//! Documents by the names of their files.

ghost use Rattle.std.specs.Prelude.{◌≡◌, ℕ, List, IfOk, OnOk, OnErr, map};
ghost use Rattle.std.specs.Option.{option_map, is_some};
ghost use Rattle.text_edits.specs.Documents.{no_document, text_of, opened, changed, closed, written, removed};
ghost use Rattle.text_edits.specs.Edits.{change_view};
ghost use Rattle.text_edits.specs.Stored.{document_of, IsChangedAt, AreSame};

use crate::edits::{Change, edited};
use crate::positions::Encoding;
use std::alloc::{AllocError, Global};
use std::collections::BTreeMap;

/// Documents by the names of their files.
#[derive(Drop)]
pub struct Documents {
    opened: BTreeMap<String, String>,
    stored: BTreeMap<String, String>,
}

impl Documents {
    /// No documents.
    pub fn new(alloc: Global) -> Documents
        ensures { (n : List ℕ) → document_of result n ≡ no_document }
    {
        Documents {
            opened: BTreeMap::new(alloc),
            stored: BTreeMap::new(alloc),
        }
    }

    /// An editor has opened the file with this text. After an allocation failure nothing changes.
    pub fn open(&mut self, alloc: Global, name: &str, text: &str) -> Result<(), AllocError>
        ensures opened { OnOk result (IsChangedAt name.now (opened text.now) self.old self.new) }
        ensures err { OnErr result (AreSame self.old self.new) }
    {
        let text = String::from_str(alloc, text)?;
        self.opened.insert(String::from_str(alloc, name)?, text)?;
        Ok(())
    }

    /// The editor has made these changes, in order; the answer says whether it has the file open. After an allocation
    /// failure nothing changes, so that the editor has another text from then on.
    pub fn change(
        &mut self,
        alloc: Global,
        encoding: Encoding,
        name: &str,
        changes: &[Change<'_>],
    ) -> Result<bool, AllocError>
        ensures changed { OnOk result (IsChangedAt name.now
            (changed encoding (map change_view changes.now)) self.old self.new) }
        ensures was_open { IfOk result (λ b. b ≡ is_some (document_of self.old name.now).opened) }
        ensures err { OnErr result (AreSame self.old self.new) }
    {
        let Some(text) = self.opened.get_mut(name) else {
            return Ok(false);
        };
        *text = edited(alloc, text.as_str(), encoding, changes)?;
        Ok(true)
    }

    /// The editor has closed the file: what is on disk counts again, if anything is.
    pub fn close(&mut self, name: &str)
        ensures { IsChangedAt name.now closed self.old self.new }
    {
        self.opened.remove(name);
    }

    /// This text is on disk now, which counts where the file is not open. After an allocation failure nothing changes.
    pub fn set_file(&mut self, alloc: Global, name: &str, text: &str) -> Result<(), AllocError>
        ensures written { OnOk result (IsChangedAt name.now (written text.now) self.old self.new) }
        ensures err { OnErr result (AreSame self.old self.new) }
    {
        let text = String::from_str(alloc, text)?;
        self.stored.insert(String::from_str(alloc, name)?, text)?;
        Ok(())
    }

    /// Nothing is on disk any more. The editor may have the file open still.
    pub fn remove_file(&mut self, name: &str)
        ensures { IsChangedAt name.now removed self.old self.new }
    {
        self.stored.remove(name);
    }

    /// The text of the file: what the editor has where it is open, or else what is on disk.
    pub fn text(&self, name: &str) -> Option<&str>
        ensures { option_map (λ t. t.now) result ≡ text_of (document_of self.now name.now) }
    {
        let text = match self.opened.get(name) {
            Some(opened) => opened,
            None => self.stored.get(name)?,
        };
        Some(text.as_str())
    }
}

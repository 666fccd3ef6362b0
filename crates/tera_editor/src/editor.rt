//! The documents that an editor has or had open.

ghost use Rattle.std.specs.Prelude.{◌≡◌, ℕ, List, Some, None, OnOk, OnErr, option_map, string_bytes, IfOk};
ghost use Rattle.tera_editor.specs.Editors.{seen_view, seen_of, state_of, with_state, lost, seen_lost, IsSeenAt, AreSeenAlike, uri_in};
ghost use Rattle.tera_editor.specs.declared.editor.DocumentState.TheVariants.{Lost};

use file_uris::uri_of;
use std::alloc::{AllocError, Global};
use std::collections::BTreeMap;

/// Whether an editor has a document open.
#[derive(Clone, Copy)]
pub enum DocumentState {
    Open,
    /// It has it open, but its text is not known, since a change failed to allocate or was malformed.
    Lost,
    Closed,
}

/// A document, by what the editor reported about it.
#[derive(Drop)]
pub struct Seen {
    /// Its URI as the editor writes it.
    pub(crate) uri: String,
    pub version: Option<u64>,
    pub(crate) state: DocumentState,
}

/// The documents that an editor has or had open, by their names.
#[derive(Drop)]
pub struct Editor {
    seen: BTreeMap<String, Seen>,
}

impl Editor {
    pub fn new(alloc: Global) -> Editor
        ensures { (n : List ℕ) → seen_of result n ≡ None }
    {
        Editor {
            seen: BTreeMap::new(alloc),
        }
    }

    /// What the editor reported about the document of this name.
    pub fn of(&self, name: &str) -> Option<&Seen>
        ensures { option_map (λ s. seen_view s.now) result ≡ seen_of self.now name.now }
    {
        self.seen.get(name)
    }

    /// Whether the editor has it open, and with which text.
    pub fn state(&self, name: &str) -> DocumentState
        ensures { result ≡ state_of self.now name.now }
    {
        match self.seen.get(name) {
            Some(seen) => seen.state,
            None => DocumentState::Closed,
        }
    }

    /// The editor has the document open from now on, with a text that is not known. After an allocation failure nothing
    /// changes.
    pub fn open(&mut self, alloc: Global, name: &str, uri: &str) -> Result<(), AllocError>
        ensures opened { OnOk result (IsSeenAt name.now
            (λ _. Some (record { uri = uri.now; version = None; state = Lost })) self.old self.new) }
        ensures err { OnErr result (AreSeenAlike self.old self.new) }
    {
        let seen = Seen {
            uri: String::from_str(alloc, uri)?,
            version: None,
            state: DocumentState::Lost,
        };
        self.seen.insert(String::from_str(alloc, name)?, seen)?;
        Ok(())
    }

    /// The document has this version and this state from now on, if the editor reported about it.
    pub fn update(&mut self, name: &str, version: Option<u64>, state: DocumentState)
        ensures { IsSeenAt name.now (option_map (with_state version state)) self.old self.new }
    {
        if let Some(seen) = self.seen.get_mut(name) {
            seen.version = version;
            seen.state = state;
        }
    }

    /// The text of the document is not known any more, if it is open.
    pub fn lose(&mut self, name: &str)
        ensures { IsSeenAt name.now (option_map lost) self.old self.new }
    {
        if let Some(seen) = self.seen.get_mut(name) {
            seen.lose();
        }
    }

    /// The same for all documents.
    pub fn lose_all(&mut self)
        ensures { (n : List ℕ) → seen_of self.new n ≡ option_map lost (seen_of self.old n) }
    {
        self.seen.retain(|_, seen| {
            seen.lose();
            true
        });
    }
}

impl Seen {
    fn lose(&mut self)
        ensures { self.new ≡ seen_lost self.old }
    {
        self.state = match self.state {
            DocumentState::Open | DocumentState::Lost => DocumentState::Lost,
            DocumentState::Closed => DocumentState::Closed,
        };
    }
}

/// The URI of the document of this name: as the editor writes it, if the editor reported about it.
pub fn uri_by(alloc: Global, editor: &Editor, name: &str) -> Result<String, AllocError>
    ensures { IfOk result (λ uri. string_bytes uri ≡ uri_in name.now (seen_of editor.now name.now)) }
{
    match editor.of(name) {
        Some(seen) => seen.uri.clone(),
        None => uri_of(alloc, name),
    }
}

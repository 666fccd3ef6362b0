//! Notifications.

ghost use Rattle.std.specs.Prelude.{◌≡◌, ◌++◌, List, ℕ, codes, IfOk, OnOk, OnErr, map, string_bytes};
ghost use Rattle.std.specs.List.{flat_map, list_any};
ghost use Rattle.std.specs.Option.{option_map};
ghost use Rattle.std.specs.Str.{bytes_eq};
ghost use Rattle.json.specs.Value.{value_view};
ghost use Rattle.json_rpc.specs.Ids.{TextId};
ghost use Rattle.json_rpc.specs.Outgoing.{more};
ghost use Rattle.json_rpc.specs.Writing.{body, request};
ghost use Rattle.text_edits.specs.Edits.{change_view};
ghost use Rattle.protocol_values.specs.Members.{seen, member_of, text_in, items_in};
ghost use Rattle.protocol_values.specs.Reading.{changes_in};
ghost use Rattle.tera_answers.specs.Abilities.{registrations_json};
ghost use Rattle.tera_workspace.specs.Workspaces.{IsKept};
ghost use Rattle.tera_server.specs.Notes.{noted_of, document_in, uri_given, item_uri, version_of, AreNames, AddsName, IsBare, IsOpened, IsChanged, IsClosed, IsNotedBy, IsNoted, AreFoldersChanged, IsHeldAside, IsHeldBut, watch_requests, sent_by, Texts};
ghost use Rattle.tera_server.specs.Sending.{with_all};
ghost use Rattle.tera_server.specs.States.{takes, is_whole, needed_view, needs, with_name, names_without, Grows, KeepsDue, StaysBut};
ghost use Rattle.tera_server.specs.Steps.{EditsIn, Follows};
ghost use Rattle.tera_server.specs.declared.notes.Noted.TheVariants.{OfDocument};
ghost use Rattle.tera_server.specs.declared.notes.NeededKind.TheVariants.{Folder, File, Changed};

use crate::server::{Needed, Phase, Server};
use file_uris::name_of;
use json::Value;
use json_rpc::{Id, Outbox, begin_request, end_message};
use protocol_values::{changes_of, items_of, member, number_of, text_of};
use std::alloc::{AllocError, Global};
use tera_answers::abilities::put_registrations;
use tera_editor::client::Client;
use tera_editor::editor::DocumentState;
use text_edits::Change;

/// What a notification says.
#[derive(Clone, Copy)]
pub(crate) enum Noted {
    Initialized,
    OfDocument(DocumentNote),
    FilesChanged,
    FoldersChanged,
    Exit,
    Other,
}

/// What a notification says about a document.
#[derive(Clone, Copy)]
pub(crate) enum DocumentNote {
    Opened,
    Changed,
    Closed,
}

/// What is asked of the files on disk: the texts below a folder, the text of a file, or what is under a path that
/// changed.
#[derive(Clone, Copy)]
pub(crate) enum NeededKind {
    Folder,
    File,
    Changed,
}

impl Noted {
    /// What the notification of this method says.
    pub(crate) fn of(method: &str) -> Noted
        ensures { result ≡ noted_of method.now }
    {
        match method {
            "initialized" => Noted::Initialized,
            "textDocument/didOpen" => Noted::OfDocument(DocumentNote::Opened),
            "textDocument/didChange" => Noted::OfDocument(DocumentNote::Changed),
            "textDocument/didClose" => Noted::OfDocument(DocumentNote::Closed),
            "workspace/didChangeWatchedFiles" => Noted::FilesChanged,
            "workspace/didChangeWorkspaceFolders" => Noted::FoldersChanged,
            "exit" => Noted::Exit,
            _ => Noted::Other,
        }
    }
}

impl Server {
    /// Takes a notification, if the exchange has begun and not ended.
    pub(crate) fn note(
        &mut self,
        alloc: Global,
        noted: Noted,
        params: Option<&Value<'_>>,
        out: &mut Outbox,
    ) -> Result<(), AllocError>
        ensures stays { OnErr result (StaysBut self.old self.new) }
        ensures due { KeepsDue self.old self.new }
        ensures phase { self.new.phase ≡ self.old.phase }
        ensures kept { IsKept self.old.workspace → IsKept self.new.workspace }
        ensures noted { OnOk result (IsNoted noted self.old (seen params.entry) self.new) }
        ensures sent { OnOk result (out.new ≡ with_all out.old (sent_by noted self.old)) }
        ensures unsent { OnErr result (out.new ≡ out.old) }
        ensures in_step { (texts now : Texts) → EditsIn self.old.phase self.old noted (seen params.entry) texts now →
            Follows texts self.old → Follows now self.new }
    {
        let Phase::Running = self.phase else {
            return Ok(());
        };
        match noted {
            Noted::Initialized => begin(
                alloc,
                self.client,
                self.folders.as_slice(),
                &mut self.needed,
                out,
            ),
            Noted::OfDocument(note) => self.note_document(alloc, note, params),
            Noted::FilesChanged => files_changed(alloc, params, &mut self.needed),
            Noted::FoldersChanged => {
                folders_changed(alloc, params, &mut self.folders, &mut self.needed)
            }
            Noted::Exit | Noted::Other => Ok(()),
        }
    }

    // Takes what a notification says about a document. If it has no name, or an allocation fails for the name, the text
    // of any document may have changed.
    fn note_document(
        &mut self,
        alloc: Global,
        note: DocumentNote,
        params: Option<&Value<'_>>,
    ) -> Result<(), AllocError>
        ensures stays { StaysBut self.old self.new }
        ensures due { KeepsDue self.old self.new }
        ensures noted { OnOk result (IsNotedBy (OfDocument note) self.old (seen params.entry) self.new) }
        ensures err { OnErr result (IsHeldBut (uri_given (document_in (seen params.entry))) self.old self.new) }
    {
        let document = member(params, "textDocument");
        let Some(uri) = text_of(member(document, "uri")) else {
            self.editor.lose_all();
            return Ok(());
        };
        let Ok(name) = name_of(alloc, uri) else {
            self.editor.lose_all();
            return Err(AllocError);
        };
        match note {
            DocumentNote::Opened => self.open(alloc, name.as_str(), uri, document),
            DocumentNote::Changed => {
                let changes = member(params, "contentChanges");
                self.change(alloc, name.as_str(), document, changes)
            }
            DocumentNote::Closed => self.close(alloc, name.as_str()),
        }
    }

    // The text of the document counts as lost until all is done: after an allocation failure it stays lost.
    fn open(
        &mut self,
        alloc: Global,
        name: &str,
        uri: &str,
        document: Option<&Value<'_>>,
    ) -> Result<(), AllocError>
        ensures stays { StaysBut self.old self.new }
        ensures due { KeepsDue self.old self.new }
        ensures opened { OnOk result (IsOpened name.now uri.now (text_in (member_of (codes "text") (seen document.entry)))
            (version_of (seen document.entry)) self.old self.new) }
        ensures err { OnErr result (IsHeldAside name.now self.old self.new) }
    {
        self.editor.lose(name);
        let Some(text) = text_of(member(document, "text")) else {
            return Ok(());
        };
        let version = number_of(member(document, "version"));
        self.editor.open(alloc, name, uri)?;
        add_name(alloc, name, &mut self.edited)?;
        self.workspace.open(alloc, name, text)?;
        self.editor.update(name, version, DocumentState::Open);
        Ok(())
    }

    // The text also stays lost if the changes do not lead to the editor's text.
    fn change(
        &mut self,
        alloc: Global,
        name: &str,
        document: Option<&Value<'_>>,
        changes: Option<&Value<'_>>,
    ) -> Result<(), AllocError>
        ensures stays { StaysBut self.old self.new }
        ensures due { KeepsDue self.old self.new }
        ensures changed { OnOk result (IsChanged name.now (version_of (seen document.entry)) (changes_in (seen changes.entry))
            self.old self.new) }
        ensures err { OnErr result (IsHeldAside name.now self.old self.new) }
    {
        let state = self.editor.state(name);
        self.editor.lose(name);
        let Some(changes) = changes_of(alloc, changes)? else {
            return Ok(());
        };
        if !takes(state, changes.as_slice()) {
            return Ok(());
        }
        add_name(alloc, name, &mut self.edited)?;
        if !self.workspace.change(alloc, name, changes.as_slice())? {
            return Ok(());
        }
        self.editor.update(
            name,
            number_of(member(document, "version")),
            DocumentState::Open,
        );
        Ok(())
    }

    // The text is lost until all is done. Then the text on disk counts again, and is asked for. Its findings are
    // published, since they may not have been while the text was lost.
    fn close(&mut self, alloc: Global, name: &str) -> Result<(), AllocError>
        ensures stays { StaysBut self.old self.new }
        ensures due { KeepsDue self.old self.new }
        ensures closed { OnOk result (IsClosed name.now self.old self.new) }
        ensures err { OnErr result (IsHeldAside name.now self.old self.new) }
    {
        self.editor.lose(name);
        need(alloc, NeededKind::File, name, &mut self.needed)?;
        add_name(alloc, name, &mut self.edited)?;
        self.workspace.close(alloc, name)?;
        self.editor.update(name, None, DocumentState::Closed);
        Ok(())
    }
}

// Whether a document has the editor's text after these changes.
fn takes(state: DocumentState, changes: &[Change<'_>]) -> bool
    ensures { result ≡ takes state (map change_view changes.now) }
{
    match state {
        DocumentState::Open => true,
        DocumentState::Lost => is_any_whole(changes),
        DocumentState::Closed => false,
    }
}

// Whether one of the changes has the whole text.
fn is_any_whole(changes: &[Change<'_>]) -> bool
    ensures { result ≡ list_any is_whole (map change_view changes.now) }
{
    for change in changes {
        if let Change::Whole(_) = change {
            return true;
        }
    }
    false
}

/// Adds the name, if it is not one of these.
pub(crate) fn add_name(alloc: Global, name: &str, names: &mut Vec<String>) -> Result<(), AllocError>
    ensures added { OnOk result (map string_bytes names.new.items
        ≡ with_name name.now (map string_bytes names.old.items)) }
    ensures err { OnErr result (names.new.items ≡ names.old.items) }
{
    if has_name(names.as_slice(), name) {
        return Ok(());
    }
    names.push(String::from_str(alloc, name)?)?;
    Ok(())
}

/// Whether the name is one of these.
pub(crate) fn has_name(names: &[String], name: &str) -> bool
    ensures { result ≡ list_any (λ m. bytes_eq m name.now) (map string_bytes names.now) }
{
    names.iter().any(|one| one.as_str() == name)
}

// Asks for the files below the folders, and the client to watch them, if it can.
fn begin(
    alloc: Global,
    client: Client,
    folders: &[String],
    needed: &mut Vec<Needed>,
    out: &mut Outbox,
) -> Result<(), AllocError>
    ensures needed { OnOk result (map needed_view needed.new.items ≡ map needed_view needed.old.items
        ++ flat_map (needs Folder) (map string_bytes folders.now)) }
    ensures grows { Grows (map needed_view needed.old.items) (map needed_view needed.new.items) }
    ensures sent { OnOk result (out.new ≡ with_all out.old (watch_requests client)) }
    ensures unsent { OnErr result (out.new ≡ out.old) }
{
    need_all(alloc, NeededKind::Folder, folders, needed)?;
    if client.watches {
        ask_to_watch(alloc, out)
    } else {
        Ok(())
    }
}

// Asks for what is under the paths that changed.
fn files_changed(
    alloc: Global,
    params: Option<&Value<'_>>,
    needed: &mut Vec<Needed>,
) -> Result<(), AllocError>
    ensures needed { OnOk result ((names : List (List ℕ))
        × AreNames (map item_uri (items_in (member_of (codes "changes") (seen params.entry)))) names
        × (map needed_view needed.new.items ≡ map needed_view needed.old.items ++ flat_map (needs Changed) names)) }
    ensures grows { Grows (map needed_view needed.old.items) (map needed_view needed.new.items) }
{
    let Some(changes) = items_of(member(params, "changes")) else {
        return Ok(());
    };
    let names = names_in(alloc, changes)?;
    need_all(alloc, NeededKind::Changed, names.as_slice(), needed)
}

// Takes the folders that were opened and closed. Both are asked for. After an allocation failure the open folders are
// what they were.
fn folders_changed(
    alloc: Global,
    params: Option<&Value<'_>>,
    folders: &mut Vec<String>,
    needed: &mut Vec<Needed>,
) -> Result<(), AllocError>
    ensures changed { OnOk result (AreFoldersChanged (member_of (codes "event") (seen params.entry))
        (map string_bytes folders.old.items) (map needed_view needed.old.items)
        (map string_bytes folders.new.items) (map needed_view needed.new.items)) }
    ensures grows { Grows (map needed_view needed.old.items) (map needed_view needed.new.items) }
    ensures err { OnErr result (folders.new ≡ folders.old) }
{
    let event = member(params, "event");
    let removed = names_among(alloc, member(event, "removed"))?;
    let mut added = names_among(alloc, member(event, "added"))?;
    need_all(alloc, NeededKind::Folder, removed.as_slice(), needed)?;
    need_all(alloc, NeededKind::Folder, added.as_slice(), needed)?;
    let mut open = without(alloc, folders.as_slice(), removed.as_slice())?;
    open.append(&mut added)?;
    *folders = open;
    Ok(())
}

// The names of the items of a list; empty, if there is no list.
fn names_among(alloc: Global, items: Option<&Value<'_>>) -> Result<Vec<String>, AllocError>
    ensures { IfOk result (λ v. AreNames (map item_uri (items_in (seen items.entry))) (map string_bytes v.items)) }
{
    match items_of(items) {
        Some(items) => names_in(alloc, items),
        None => Ok(Vec::new(alloc)),
    }
}

// The names that are not among the others.
fn without(alloc: Global, names: &[String], others: &[String]) -> Result<Vec<String>, AllocError>
    ensures { IfOk result (λ v. map string_bytes v.items
        ≡ names_without (map string_bytes others.now) (map string_bytes names.now)) }
{
    let mut kept = Vec::new(alloc);
    for name in names {
        if !has_name(others, name.as_str()) {
            kept.push(String::from_str(alloc, name.as_str())?)?;
        }
    }
    Ok(kept)
}

/// The names of the items that have a URI, in order.
pub(crate) fn names_in(alloc: Global, items: &[Value<'_>]) -> Result<Vec<String>, AllocError>
    ensures { IfOk result (λ v. AreNames (map item_uri (map value_view items.now)) (map string_bytes v.items)) }
{
    let mut names = Vec::new(alloc);
    for item in items {
        push_name(alloc, text_of(member(Some(item), "uri")), &mut names)?;
    }
    Ok(names)
}

/// Adds the name of what has this URI, if it has one. A slash at its end does not count.
pub(crate) fn push_name(
    alloc: Global,
    uri: Option<&str>,
    names: &mut Vec<String>,
) -> Result<(), AllocError>
    ensures { OnOk result (AddsName (option_map (λ t. t.now) uri.entry)
        (map string_bytes names.old.items) (map string_bytes names.new.items)) }
{
    if let Some(uri) = uri {
        let name = name_of(alloc, uri)?;
        names.push(String::from_str(alloc, bare(name.as_str()))?)?;
    }
    Ok(())
}

// The path without the slash at its end. That of the root stays.
fn bare(path: &str) -> &str
    ensures { IsBare path.now result.now }
{
    match path.strip_suffix('/') {
        Some(bare) if !bare.is_empty() => bare,
        _ => path,
    }
}

/// Asks for what has these names.
pub(crate) fn need_all(
    alloc: Global,
    kind: NeededKind,
    names: &[String],
    needed: &mut Vec<Needed>,
) -> Result<(), AllocError>
    ensures needed { OnOk result (map needed_view needed.new.items ≡ map needed_view needed.old.items
        ++ flat_map (needs kind) (map string_bytes names.now)) }
    ensures grows { Grows (map needed_view needed.old.items) (map needed_view needed.new.items) }
{
    for name in names {
        need(alloc, kind, name.as_str(), needed)?;
    }
    Ok(())
}

// Asks for what has this name, if that is a path. If a URI has another scheme, its name is not a path.
fn need(
    alloc: Global,
    kind: NeededKind,
    name: &str,
    needed: &mut Vec<Needed>,
) -> Result<(), AllocError>
    ensures needed { OnOk result
        (map needed_view needed.new.items ≡ map needed_view needed.old.items ++ needs kind name.now) }
    ensures err { OnErr result (needed.new.items ≡ needed.old.items) }
{
    if !name.starts_with('/') {
        return Ok(());
    }
    let path = String::from_str(alloc, name)?;
    match kind {
        NeededKind::Folder => Ok(needed.push(Needed::Folder(path))?),
        NeededKind::File => Ok(needed.push(Needed::File(path))?),
        NeededKind::Changed => Ok(needed.push(Needed::Changed(path))?),
    }
}

// Asks the client to watch files and folders.
fn ask_to_watch(alloc: Global, out: &mut Outbox) -> Result<(), AllocError>
    ensures sent { OnOk result (out.new ≡ more out.old
        (body (request (TextId (codes "watch")) (codes "client/registerCapability") registrations_json))) }
    ensures err { OnErr result (out.new ≡ out.old) }
{
    let mut writer = begin_request(alloc, &Id::text("watch"), "client/registerCapability")?;
    put_registrations(&mut writer)?;
    let message = end_message(writer)?;
    out.push(message)
}

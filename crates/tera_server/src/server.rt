//! The server.

ghost use Rattle.std.specs.Prelude.{◌≡◌, ◌≢◌, ◌⊎◌, ◌++◌, ◌∷◌, [], ℕ, List, IsTrue, None, false, IfOk, OnOk, OnErr, filter, map, string_bytes};
ghost use Rattle.std.specs.Option.{option_map, option_to_list};
ghost use Rattle.json_rpc.specs.Ids.{NullId};
ghost use Rattle.json_rpc.specs.Messages.{message_of};
ghost use Rattle.json_rpc.specs.Outgoing.{IsAnswered};
ghost use Rattle.json_rpc.specs.Outline.{answered_id};
ghost use Rattle.json_rpc.specs.Shown.{message_view};
ghost use Rattle.json_rpc.specs.Writing.{body, refusal};
ghost use Rattle.json_rpc.specs.declared.code.Code.TheVariants.{InternalError, ParseError};
ghost use Rattle.tera_workspace.specs.Workspaces.{reported_of_name, IsKept};
ghost use Rattle.text_edits.specs.Documents.{no_document};
ghost use Rattle.tera_server.specs.Sending.{unpublished_of};
ghost use Rattle.tera_server.specs.Naming.{AreNamesDue};
ghost use Rattle.tera_server.specs.Settling.{IsSettling, ArePublishedAsRead, ArePublishedInPart, OnlyReports};
ghost use Rattle.tera_server.specs.States.{IsMissed, IsLoadedAs, IsNotLoaded, known_of, text_on, why_on, is_there, needed_of, needed_view, edited_of, edited_by, edited_more, edited_with, finds_more_for, with_name, KeepsReported, StaysBut};
ghost use Rattle.tera_server.specs.Steps.{ended_at, Step, IsRefused, IsUntaken, IsUntakenBy, KeepsUp};
ghost use Rattle.tera_editor.specs.KnownFiles.{is_known, known_names, IsKnownAs};
ghost use Rattle.tera_editor.specs.Templates.{is_inside};
ghost use Rattle.tera_editor.specs.Settings.{settings_in};
ghost use Rattle.tera_editor.specs.Sites.{AreGiven, KeepsKnown, due_of_sites, renewed_of, site_in, used_view};
ghost use Rattle.tera_editor.specs.UnreadFiles.{reason_view, why_of, IsWhyAt};
ghost use Rattle.tera_server.specs.declared.server.Phase.TheVariants.{New, Running};

use crate::between::faults_between;
use crate::findings::{Publishing, publish_each};
use crate::notes::{Noted, add_name};
use crate::requests::Asked;
use json::Scratch;
use json_rpc::{Code, Id, Incoming, Message, Outbox, id_to_answer};
use std::alloc::{AllocError, Global};
use tera_editor::client::Client;
use tera_editor::editor::Editor;
use tera_editor::known::KnownFiles;
use tera_editor::settings::Settings;
use tera_editor::sites::{Sites, UsedName};
use tera_editor::unread::{Reason, UnreadFiles};
use tera_workspace::{Markers, Workspace};

/// How far the exchange with a client has come.
#[derive(Clone, Copy, PartialEq, Eq)]
pub(crate) enum Phase {
    New,
    Running,
    ShutDown,
}

/// How the exchange ended.
#[derive(Clone, Copy, Debug, PartialEq, Eq)]
pub enum Ended {
    /// After a `shutdown`.
    Orderly,
    /// Without one.
    Early,
}

/// What the server asks of the files on disk. [`Server::load`] takes the texts.
#[derive(Debug, Drop, PartialEq, Eq)]
pub enum Needed {
    /// The texts of the templates below this folder.
    Folder(String),
    /// The text of this file, if there is one.
    File(String),
    /// What is under this path: the text of a file, the texts of the templates below a folder, or nothing any more.
    Changed(String),
}

/// What is on disk under a path.
#[derive(Debug, Drop)]
pub enum OnDisk {
    /// A file with this text.
    Text(String),
    /// A file that cannot be read, and why.
    Unread(String),
    /// No file, or one that is left out.
    Nothing,
}

/// The state of a server.
#[derive(Drop)]
pub struct Server {
    pub(crate) phase: Phase,
    pub(crate) client: Client,
    pub(crate) workspace: Workspace,
    pub(crate) editor: Editor,
    pub(crate) folders: Vec<String>,
    // The files that were given, and those of them that cannot be read.
    known: KnownFiles,
    pub(crate) unread: UnreadFiles,
    // The settings of the folders.
    pub(crate) settings: Settings,
    // The templates below the roots that these name.
    pub(crate) sites: Sites,
    pub(crate) needed: Vec<Needed>,
    // The names of the documents whose findings are to be published, even if they are the same as before: the editor
    // opened, changed or closed the document, its file cannot be read or can be read again, or it was not published in
    // time.
    pub(crate) edited: Vec<String>,
    // The names of the documents whose findings differ from the published ones, or may differ with other settings.
    pub(crate) unpublished: Vec<String>,
}

impl Server {
    /// A server to which nothing was sent.
    pub fn new(alloc: Global) -> Server
        ensures phase { result.phase ≡ New }
        ensures known { (n : List ℕ) → known_of result n ≡ record { seen = None; texts = no_document } }
        ensures reported { (n : List ℕ) → reported_of_name result.workspace n ≡ [] }
        ensures kept { IsKept result.workspace }
        ensures none { (needed_of result ≡ []) × (edited_of result ≡ []) × (unpublished_of result ≡ [])
            × ((n : List ℕ) → why_of result.unread n ≡ None) × ((n : List ℕ) → is_known result.known n ≡ false) }
        ensures settings { ((f : List ℕ) → settings_in result.settings f ≡ None) × (result.settings.markers ≡ None) }
        ensures sites { ((f : List ℕ) → site_in result.sites f ≡ None) × (renewed_of result.sites ≡ [])
            × AreGiven result.sites }
    {
        Server {
            phase: Phase::New,
            client: Client::UNKNOWN,
            workspace: Workspace::new(alloc, Client::UNKNOWN.encoding),
            editor: Editor::new(alloc),
            folders: Vec::new(alloc),
            known: KnownFiles::new(alloc),
            unread: UnreadFiles::new(alloc),
            settings: Settings::new(alloc),
            sites: Sites::new(alloc),
            needed: Vec::new(alloc),
            edited: Vec::new(alloc),
            unpublished: Vec::new(alloc),
        }
    }

    /// Takes a message and adds what is sent at once. The result is how the exchange ends, if it ends with this
    /// message. The error says that an allocation failed: a request has its answer all the same, and what a
    /// notification says about a document is lost.
    pub fn handle(
        &mut self,
        alloc: Global,
        message: Vec<u8>,
        out: &mut Outbox,
    ) -> Result<Option<Ended>, AllocError>
        requires { IsTrue out.old.reserved }
        ensures step { IfOk result (λ ended. Step self.old (message_of message.items) out.old ended self.new out.new) }
        ensures untaken { OnErr result (IsUntaken self.old (message_of message.items) out.old self.new out.new) }
        ensures in_step { KeepsUp (message_of message.items) self.old self.new }
        ensures kept { IsKept self.old.workspace → IsKept self.new.workspace }
    {
        let mut scratch = Scratch::new(alloc);
        if scratch.reserve(message.len()).is_err() {
            self.miss(alloc, out);
            return Err(AllocError);
        }
        if let Ok(incoming) = Incoming::read(alloc, message.as_slice(), &mut scratch) {
            return self.take(alloc, incoming.message(), out);
        }
        self.refuse_unread(alloc, message.as_slice(), &mut scratch, out);
        Err(AllocError)
    }

    // An allocation failed while a message was read: a request gets an error as its answer, and anything else may have
    // been a change.
    fn refuse_unread<'a>(
        &mut self,
        alloc: Global,
        bytes: &'a [u8],
        scratch: &'a mut Scratch,
        out: &mut Outbox,
    )
        requires { IsTrue out.old.reserved }
        ensures untaken { IsUntaken self.old (message_of bytes.now) out.old self.new out.new }
        ensures in_step { KeepsUp (message_of bytes.now) self.old self.new }
        ensures kept { IsKept self.old.workspace → IsKept self.new.workspace }
    {
        match id_to_answer(bytes, scratch) {
            Ok(Some(id)) => self.refuse_under(alloc, &id, Code::InternalError, out),
            Ok(None) => self.editor.lose_all(),
            Err(AllocError) => self.miss(alloc, out),
        }
    }

    /// A message could not be read: it was too long, or an allocation failed for its bytes. It may have been a change
    /// of any document, or a request, whose id is not known.
    pub fn miss(&mut self, alloc: Global, out: &mut Outbox)
        requires { IsTrue out.old.reserved }
        ensures missed { IsMissed self.old self.new }
        ensures answered { IsAnswered out.old out.new NullId (body (refusal NullId InternalError)) }
    {
        self.refuse_under(alloc, &Id::null(), Code::InternalError, out);
    }

    /// What came is not a message: its header cannot be read. It may have been a change of any document.
    pub fn refuse(&mut self, alloc: Global, out: &mut Outbox)
        requires { IsTrue out.old.reserved }
        ensures { IsRefused NullId ParseError self.old out.old self.new out.new }
    {
        self.refuse_under(alloc, &Id::null(), Code::ParseError, out);
    }

    // Answers with an error. A message with an id is not a notification; one without may have been a change of any
    // document.
    fn refuse_under(&mut self, alloc: Global, id: &Id<'_>, code: Code, out: &mut Outbox)
        requires { IsTrue out.old.reserved }
        ensures { IsRefused id.now code self.old out.old self.new out.new }
    {
        if id.is_null() {
            self.editor.lose_all();
        }
        out.answer(alloc, id, Err(code));
    }

    fn take(
        &mut self,
        alloc: Global,
        message: Message<'_, '_>,
        out: &mut Outbox,
    ) -> Result<Option<Ended>, AllocError>
        requires { IsTrue out.old.reserved }
        ensures step { IfOk result (λ ended. Step self.old (message_view message.entry) out.old ended self.new out.new) }
        ensures untaken { OnErr result
            (IsUntakenBy (answered_id (message_view message.entry)) self.old out.old self.new out.new) }
        ensures in_step { KeepsUp (message_view message.entry) self.old self.new }
        ensures kept { IsKept self.old.workspace → IsKept self.new.workspace }
    {
        match message {
            Message::Request { id, method, params } => {
                let result = self.result_of(alloc, &id, Asked::of(method), params);
                out.answer(alloc, &id, result);
                Ok(None)
            }
            Message::Notification { method, params } => {
                let noted = Noted::of(method);
                self.note(alloc, noted, params, out)?;
                match noted {
                    Noted::Exit => Ok(Some(self.ended())),
                    _ => Ok(None),
                }
            }
            Message::Response => Ok(None),
            Message::Invalid(id) => {
                self.refuse_under(alloc, &id, Code::InvalidRequest, out);
                Ok(None)
            }
            Message::NotJson => {
                self.refuse(alloc, out);
                Ok(None)
            }
        }
    }

    /// How the exchange ends, if it does now.
    pub fn ended(&self) -> Ended
        ensures { result ≡ ended_at self.now.phase }
    {
        match self.phase {
            Phase::ShutDown => Ended::Orderly,
            Phase::New | Phase::Running => Ended::Early,
        }
    }

    /// The paths of the folders that are open.
    pub fn folders(&self) -> &[String]
        ensures { result.now ≡ self.now.folders.items }
    {
        self.folders.as_slice()
    }

    /// What to read from disk next.
    pub fn take_needed(&mut self) -> Option<Needed>
        ensures needed { needed_of self.old ≡ needed_of self.new ++ option_to_list (option_map needed_view result) }
        ensures none { result ≡ None → needed_of self.old ≡ [] }
        ensures stays { StaysBut self.old self.new }
        ensures same { self.new ≡ record self.old { needed = self.new.needed } }
    {
        self.needed.pop()
    }

    /// Asks again for what was taken, as an allocation failed for it.
    pub fn ask_again(&mut self, needed: Needed) -> Result<(), AllocError>
        ensures needed { OnOk result (needed_of self.new ≡ needed_of self.old ++ needed_view needed ∷ []) }
        ensures err { OnErr result (needed_of self.new ≡ needed_of self.old) }
        ensures same { self.new ≡ record self.old { needed = self.new.needed } }
    {
        self.needed.push(needed)?;
        Ok(())
    }

    /// Takes what is on disk under the path now. After an allocation failure the texts are what they were.
    pub fn load(&mut self, alloc: Global, path: &str, found: OnDisk) -> Result<(), AllocError>
        ensures stays { KeepsReported self.old self.new }
        ensures same { self.new ≡ record self.old {
          workspace = self.new.workspace;
          known = self.new.known;
          unread = self.new.unread;
          edited = self.new.edited;
        } }
        ensures loaded { OnOk result (IsLoadedAs path.now (text_on found) (why_on found) self.old self.new) }
        ensures known { OnOk result (IsKnownAs path.now (is_there found) self.old.known self.new.known) }
        ensures err { OnErr result (IsNotLoaded path.now self.old self.new) }
    {
        match found {
            OnDisk::Text(text) => {
                self.known.add(alloc, path)?;
                self.set_why_of(alloc, path, None)?;
                self.workspace.set_file(alloc, path, text.as_str())
            }
            OnDisk::Unread(why) => {
                self.known.add(alloc, path)?;
                self.unload(alloc, path, Some(Reason::unread(why)))
            }
            OnDisk::Nothing => {
                self.unload(alloc, path, None)?;
                self.known.remove(path);
                Ok(())
            }
        }
    }

    /// All templates have these markers from now on, whatever settings of folders say; `None` stands for the usual
    /// ones. What was published stays until it is published again.
    pub fn set_markers(&mut self, markers: Option<Markers>)
        ensures same { self.new ≡ record self.old { settings = self.new.settings } }
        ensures set { self.new.settings ≡ record self.old.settings { markers = Some markers } }
    {
        self.settings.set_markers(markers);
    }

    /// Whether there was a file under this path when it was given last.
    pub fn is_known(&self, path: &str) -> bool
        ensures { result ≡ is_known self.now.known path.now }
    {
        self.known.has(path)
    }

    /// The paths of all files that there were when they were given last.
    pub fn known(&self, alloc: Global) -> Result<Vec<String>, AllocError>
        ensures { IfOk result (λ v. map string_bytes v.items ≡ known_names self.now.known) }
    {
        self.known.all(alloc)
    }

    /// The paths of the files in this folder, at any depth, that there were when they were given last.
    pub fn known_inside(&self, alloc: Global, folder: &str) -> Result<Vec<String>, AllocError>
        ensures { IfOk result (λ v. map string_bytes v.items
            ≡ filter (is_inside folder.now) (known_names self.now.known)) }
    {
        self.known.inside(alloc, folder)
    }

    // Takes that no text is on disk; `why` says why the file cannot be read, if there is one.
    fn unload(&mut self, alloc: Global, path: &str, why: Option<Reason>) -> Result<(), AllocError>
        ensures stays { KeepsReported self.old self.new }
        ensures same { self.new ≡ record self.old
            { workspace = self.new.workspace; unread = self.new.unread; edited = self.new.edited } }
        ensures loaded { OnOk result (IsLoadedAs path.now None (option_map reason_view why) self.old self.new) }
        ensures err { OnErr result (IsNotLoaded path.now self.old self.new) }
    {
        self.set_why_of(alloc, path, why)?;
        self.workspace.remove_file(alloc, path)
    }

    // Sets why a file cannot be read; `None` if it can be. It is published as in `set_why`, and also if more is found
    // by the settings than without settings, as something else may be found in it.
    fn set_why_of(
        &mut self,
        alloc: Global,
        path: &str,
        why: Option<Reason>,
    ) -> Result<(), AllocError>
        ensures same { self.new ≡ record self.old { unread = self.new.unread; edited = self.new.edited } }
        ensures set { OnOk result (IsWhyAt path.now (option_map reason_view why) self.old.unread self.new.unread) }
        ensures edited { OnOk result (edited_of self.new
            ≡ edited_with path.now (option_map reason_view why) self.old) }
        ensures unset { OnErr result ((n : List ℕ) → why_of self.new.unread n ≡ why_of self.old.unread n) }
        ensures unedited { OnErr result ((edited_of self.new ≡ edited_of self.old)
            ⊎ (edited_of self.new ≡ edited_more path.now self.old)) }
    {
        if self.finds_more_for(path) {
            self.set_why_anyhow(alloc, path, why)
        } else {
            self.set_why(alloc, path, why)
        }
    }

    // Whether more is found by the settings for the file than without settings.
    fn finds_more_for(&self, path: &str) -> bool
        ensures { result ≡ finds_more_for self.now path.now }
    {
        self.settings.finds_more_for(self.folders.as_slice(), path)
    }

    // The same as `set_why`, but the file is always published. Its name is not looked for among those that are due,
    // which may be as many as there are files: each of them is published once.
    fn set_why_anyhow(
        &mut self,
        alloc: Global,
        path: &str,
        why: Option<Reason>,
    ) -> Result<(), AllocError>
        ensures same { self.new ≡ record self.old { unread = self.new.unread; edited = self.new.edited } }
        ensures set { OnOk result (IsWhyAt path.now (option_map reason_view why) self.old.unread self.new.unread) }
        ensures edited { OnOk result (edited_of self.new ≡ edited_of self.old ++ path.now ∷ []) }
        ensures unset { OnErr result ((n : List ℕ) → why_of self.new.unread n ≡ why_of self.old.unread n) }
        ensures unedited { OnErr result ((edited_of self.new ≡ edited_of self.old)
            ⊎ (edited_of self.new ≡ edited_of self.old ++ path.now ∷ [])) }
    {
        self.edited.push(String::from_str(alloc, path)?)?;
        self.unread.set(alloc, path, why)
    }

    // Sets why the file cannot be read, or what is wrong in it; `None` if nothing is. If that changes, the file is
    // published.
    pub(crate) fn set_why(
        &mut self,
        alloc: Global,
        path: &str,
        why: Option<Reason>,
    ) -> Result<(), AllocError>
        ensures same { self.new ≡ record self.old { unread = self.new.unread; edited = self.new.edited } }
        ensures set { OnOk result (IsWhyAt path.now (option_map reason_view why) self.old.unread self.new.unread) }
        ensures edited { OnOk result (edited_of self.new
            ≡ edited_by path.now (option_map reason_view why) self.old) }
        ensures unset { OnErr result ((n : List ℕ) → why_of self.new.unread n ≡ why_of self.old.unread n) }
        ensures unedited { OnErr result ((edited_of self.new ≡ edited_of self.old)
            ⊎ (edited_of self.new ≡ with_name path.now (edited_of self.old))) }
    {
        if self.unread.is(path, &why) {
            return Ok(());
        }
        add_name(alloc, path, &mut self.edited)?;
        self.unread.set(alloc, path, why)
    }

    /// Publishes what is found in the current texts, if it differs from what was published, or if the version does.
    /// A name that no template has counts as that of a file, unless `set_presence` said that there is none. After an
    /// allocation failure the rest is published the next time.
    pub fn settle(&mut self, alloc: Global, out: &mut Outbox) -> Result<(), AllocError>
        ensures settled { OnOk result (IsSettling self.old.phase self.old self.new out.old out.new) }
        ensures unsettled { OnErr result (ArePublishedInPart self.old self.new out.old out.new) }
        ensures stays { OnlyReports self.old self.new }
        ensures known { KeepsKnown self.old.sites self.new.sites }
    {
        if self.phase != Phase::Running {
            return Ok(());
        }
        self.read_names(alloc)?;
        self.publish(alloc, out)
    }

    /// Does the same, unless there are names for which the caller has to look for a file. Then the result has these names,
    /// as in `due_names`, the documents are read as by `read_names`, and nothing is published. If the result is empty,
    /// what `settle` does is done.
    pub fn settle_unless_due(
        &mut self,
        alloc: Global,
        out: &mut Outbox,
    ) -> Result<Vec<UsedName>, AllocError>
        ensures settled { IfOk result (λ due. due.items ≡ [] →
            IsSettling self.old.phase self.old self.new out.old out.new) }
        ensures due { IfOk result (λ due. due.items ≢ [] →
            AreNamesDue (map used_view due.items) self.old self.new out.old out.new) }
        ensures none { IfOk result (λ due. due.items ≡ [] → self.old.phase ≡ Running →
            due_of_sites self.new.sites ≡ []) }
        ensures unsettled { OnErr result (ArePublishedInPart self.old self.new out.old out.new) }
        ensures stays { OnlyReports self.old self.new }
        ensures known { KeepsKnown self.old.sites self.new.sites }
    {
        if self.phase != Phase::Running {
            return Ok(Vec::new(alloc));
        }
        self.read_names(alloc)?;
        let due = self.due_names(alloc)?;
        if !due.is_empty() {
            return Ok(due);
        }
        self.publish(alloc, out)?;
        Ok(due)
    }

    // Publishes, as `settle` does, by the texts that were read last. What was not published in time is among what was
    // edited.
    fn publish(&mut self, alloc: Global, out: &mut Outbox) -> Result<(), AllocError>
        requires { unpublished_of self.old ≡ [] }
        ensures published { OnOk result (ArePublishedAsRead self.old self.new out.old out.new) }
        ensures in_part { OnErr result (ArePublishedInPart self.old self.new out.old out.new) }
        ensures stays { OnlyReports self.old self.new }
        ensures sites { self.new.sites ≡ self.old.sites }
    {
        self.unpublished = self.workspace.settle_read(alloc)?;
        let folders = self.folders.as_slice();
        let edited = self.edited.as_slice();
        // The documents in `unpublished` are published after the others.
        let unpublished = self.unpublished.as_slice();
        let between = faults_between(
            alloc,
            &self.settings,
            folders,
            &self.workspace,
            edited,
            unpublished,
        )?;
        let publishing = Publishing {
            editor: &self.editor,
            unread: &self.unread,
            related: self.client.related,
            settings: &self.settings,
            sites: &self.sites,
            between: &between,
            folders,
        };
        publish_each(alloc, publishing, &self.workspace, edited, unpublished, out)?;
        self.edited.clear();
        publish_each(alloc, publishing, &self.workspace, unpublished, &[], out)?;
        self.unpublished.clear();
        Ok(())
    }
}

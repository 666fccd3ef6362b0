//! Requests.

ghost use Rattle.std.specs.Prelude.{◌≡◌, ◌⊎◌, ◌++◌, [], ◌∷◌, codes, IfOk, IfErr, OnOk, MatchResult, option_map, map, string_bytes};
ghost use Rattle.json.specs.Json.{Json};
ghost use Rattle.json.specs.Tree.{json_tokens};
ghost use Rattle.json_rpc.specs.Writing.{body, answer};
ghost use Rattle.json_rpc.specs.declared.code.Code.TheVariants.{InternalError};
ghost use Rattle.protocol_values.specs.Members.{seen, member_of, text_in};
ghost use Rattle.tera_answers.specs.Abilities.{abilities_json};
ghost use Rattle.tera_answers.specs.Actions.{acting_view, asks_for_corrections};
ghost use Rattle.tera_outline.specs.Names.{name_view};
ghost use Rattle.tera_editor.specs.Clients.{client_in};
ghost use Rattle.tera_server.specs.Notes.{document_in, uri_given, AreNames};
ghost use Rattle.tera_server.specs.Requests.{asked_of, folders_in, IsBegun, IsOpenAs, IsNotOpen, RefusesDocument, RefusesPlace, IsMeantAs, acting_of, range_given, AreOfRange, IsResultAsRead, IsResultBetween, IsResultOfDocument, IsResultOfText, IsResultOfName, IsResultAt, place_in, roots_for, IsPut, IsAnsweredBy};
ghost use Rattle.tera_editor.specs.Settings.{markers_for};
ghost use Rattle.tera_editor.specs.Templates.{roots_view};
ghost use Rattle.tera_server.specs.declared.server.Phase.TheVariants.{Running};

use crate::notes::{names_in, push_name};
use crate::server::{Phase, Server};
use file_uris::name_of;
use json::{Value, Writer};
use json_rpc::{Code, Id, begin_answer, end_message};
use protocol_values::{is_set, items_of, member, position_of, range_of, text_of};
use std::alloc::{AllocError, Global};
use tera_answers::abilities::put_abilities;
use tera_answers::actions::{Acting, asks_for_corrections, put_if_wanted};
use tera_answers::completions::{Offering, put_completion};
use tera_answers::definitions::{name_at, put_definition};
use tera_answers::hovers::put_hover;
use tera_answers::layouts::{put_layout, put_layout_if_steady};
use tera_answers::references::{Search, put_references};
use tera_answers::semantic_tokens::put_semantic_tokens;
use tera_answers::signatures::put_signature;
use tera_answers::symbols::put_outline;
use tera_editor::client::Client;
use tera_editor::editor::DocumentState;
use tera_editor::templates::Roots;
use tera_lexer::Delimiters;
use tera_outline::Name;
use tera_workspace::{FileText, Markers, Workspace};
use text_edits::Encoding;

/// What a request asks.
#[derive(Clone, Copy)]
pub(crate) enum Asked {
    Initialize,
    Shutdown,
    OfText(TextRequest),
    AtPlace(PlaceRequest),
    Actions,
    Other,
}

/// What a request asks about the text of a document.
#[derive(Clone, Copy)]
pub(crate) enum TextRequest {
    Formatting,
    Symbols,
    SemanticTokens,
}

/// What a request asks about a position in a document.
#[derive(Clone, Copy)]
pub(crate) enum PlaceRequest {
    OfName(NameRequest),
    Completion,
    Signature,
}

/// What a request asks about the name at a position.
#[derive(Clone, Copy)]
pub(crate) enum NameRequest {
    Definition,
    Hover,
    References,
}

impl Asked {
    /// What the request of this method asks.
    pub(crate) fn of(method: &str) -> Asked
        ensures { result ≡ asked_of method.now }
    {
        match method {
            "initialize" => Asked::Initialize,
            "shutdown" => Asked::Shutdown,
            "textDocument/formatting" => Asked::OfText(TextRequest::Formatting),
            "textDocument/documentSymbol" => Asked::OfText(TextRequest::Symbols),
            "textDocument/definition" => Asked::AtPlace(PlaceRequest::OfName(
                NameRequest::Definition,
            )),
            "textDocument/hover" => Asked::AtPlace(PlaceRequest::OfName(NameRequest::Hover)),
            "textDocument/references" => Asked::AtPlace(PlaceRequest::OfName(
                NameRequest::References,
            )),
            "textDocument/completion" => Asked::AtPlace(PlaceRequest::Completion),
            "textDocument/signatureHelp" => Asked::AtPlace(PlaceRequest::Signature),
            "textDocument/semanticTokens/full" => Asked::OfText(TextRequest::SemanticTokens),
            "textDocument/codeAction" => Asked::Actions,
            _ => Asked::Other,
        }
    }
}

impl Server {
    /// The answer to a request.
    pub(crate) fn result_of(
        &mut self,
        alloc: Global,
        id: &Id<'_>,
        asked: Asked,
        params: Option<&Value<'_>>,
    ) -> Result<Vec<u8>, Code>
        ensures { IsAnsweredBy self.old id.now asked (seen params.entry) result self.new }
    {
        match self.phase {
            Phase::New => match asked {
                Asked::Initialize => self.initialize(alloc, id, params),
                _ => Err(Code::ServerNotInitialized),
            },
            Phase::Running => self.result_within(alloc, id, asked, params),
            Phase::ShutDown => Err(Code::InvalidRequest),
        }
    }

    // Begins the exchange. After an allocation failure it has not begun.
    fn initialize(
        &mut self,
        alloc: Global,
        id: &Id<'_>,
        params: Option<&Value<'_>>,
    ) -> Result<Vec<u8>, Code>
        ensures begun { IfOk result (λ v. IsBegun (seen params.entry) self.old self.new
            × (v.items ≡ body (answer id.now (abilities_json (client_in (seen params.entry)).encoding)))) }
        ensures err { IfErr result (λ code. (self.new ≡ self.old) × (code ≡ InternalError)) }
    {
        let client = Client::of(params);
        let folders = folders_of(alloc, params)?;
        let mut out = begin_answer(alloc, id)?;
        put_abilities(&mut out, client.encoding)?;
        let answer = end_message(out)?;
        self.client = client;
        self.folders = folders;
        self.workspace = Workspace::new(alloc, client.encoding);
        self.phase = Phase::Running;
        Ok(answer)
    }

    // The answer once the exchange has begun. The exchange ends when the answer to `shutdown` was made.
    fn result_within(
        &mut self,
        alloc: Global,
        id: &Id<'_>,
        asked: Asked,
        params: Option<&Value<'_>>,
    ) -> Result<Vec<u8>, Code>
        requires { self.old.phase ≡ Running }
        ensures { IsAnsweredBy self.old id.now asked (seen params.entry) result self.new }
    {
        let mut out = begin_answer(alloc, id)?;
        self.put_result(alloc, &mut out, asked, params)?;
        let answer = end_message(out)?;
        if let Asked::Shutdown = asked {
            self.phase = Phase::ShutDown;
        }
        Ok(answer)
    }

    // Writes the result of a request, or returns why there is none. Then a part of a result may be written, which is to
    // be dropped.
    fn put_result(
        &mut self,
        alloc: Global,
        out: &mut Writer,
        asked: Asked,
        params: Option<&Value<'_>>,
    ) -> Result<(), Code>
        ensures result { IsPut asked self.old (seen params.entry) out.old.tokens result self.new out.new.tokens }
        ensures before { out.new.before ≡ out.old.before }
    {
        match asked {
            Asked::Initialize => Err(Code::InvalidRequest),
            Asked::Shutdown => Ok(out.null()?),
            Asked::OfText(request) => self.put_result_of_document(alloc, out, request, params),
            Asked::AtPlace(request) => {
                self.workspace.read(alloc)?; // What is reported is given by the texts as they are.
                self.put_result_at(alloc, out, request, params)
            }
            Asked::Actions => {
                self.workspace.read(alloc)?;
                self.put_actions_within(alloc, out, params)
            }
            Asked::Other => Err(Code::MethodNotFound),
        }
    }

    // Writes what is asked about the document in the parameters, between its markers.
    fn put_result_of_document(
        &self,
        alloc: Global,
        out: &mut Writer,
        request: TextRequest,
        params: Option<&Value<'_>>,
    ) -> Result<(), Code>
        ensures result { MatchResult result
            (λ _. (j : Json) × IsResultOfDocument request (uri_given (document_in (seen params.entry))) self.now j
            × (out.new.tokens ≡ out.old.tokens ++ json_tokens j))
            (λ code. (code ≡ InternalError) ⊎ RefusesDocument (uri_given (document_in (seen params.entry))) self.now code) }
        ensures before { out.new.before ≡ out.old.before }
    {
        let (name, text) = self.document_meant(alloc, params)?;
        Ok(self.put_result_as_read(alloc, out, request, name.as_str(), text)?)
    }

    fn put_result_as_read(
        &self,
        alloc: Global,
        out: &mut Writer,
        request: TextRequest,
        name: &str,
        text: &str,
    ) -> Result<(), AllocError>
        ensures tokens { OnOk result ((j : Json)
            × IsResultAsRead (markers_for self.now.settings (map string_bytes self.now.folders.items) name.now)
            request self.now.client.encoding text.now j
            × (out.new.tokens ≡ out.old.tokens ++ json_tokens j)) }
        ensures before { out.new.before ≡ out.old.before }
    {
        let encoding = self.client.encoding;
        match self.settings.markers_for(self.folders.as_slice(), name) {
            Some(markers) => put_result_between(alloc, out, request, encoding, markers, text),
            None => put_result_of_text(alloc, out, request, encoding, text),
        }
    }

    // Writes what is asked about the position in the parameters, by the documents as they were read.
    fn put_result_at(
        &self,
        alloc: Global,
        out: &mut Writer,
        request: PlaceRequest,
        params: Option<&Value<'_>>,
    ) -> Result<(), Code>
        ensures result { MatchResult result
            (λ _. (j : Json) × IsResultAt request (seen params.entry) self.now j × (out.new.tokens ≡ out.old.tokens ++ json_tokens j))
            (λ code. (code ≡ InternalError)
            ⊎ RefusesPlace (place_in (seen params.entry)) (uri_given (document_in (seen params.entry))) self.now code) }
        ensures before { out.new.before ≡ out.old.before }
    {
        let Some(position) = position_of(member(params, "position")) else {
            return Err(Code::InvalidParams);
        };
        let (name, text) = self.document_meant(alloc, params)?;
        match request {
            PlaceRequest::OfName(request) => {
                let named = name_at(alloc, self.client.encoding, text, position)?;
                Ok(self.put_result_of_name(alloc, out, request, params, name.as_str(), &named)?)
            }
            PlaceRequest::Completion => {
                let offering = Offering {
                    workspace: &self.workspace,
                    roots: self.roots_for(name.as_str()),
                };
                let registered = self
                    .settings
                    .registered(self.folders.as_slice(), name.as_str());
                let encoding = self.client.encoding;
                Ok(put_completion(alloc, out, offering, registered, encoding, text, position)?)
            }
            PlaceRequest::Signature => {
                let workspace = &self.workspace;
                Ok(put_signature(alloc, out, workspace, self.client, text, position)?)
            }
        }
    }

    // Writes the actions for the range in the parameters, by the documents as they were read.
    fn put_actions_within(
        &self,
        alloc: Global,
        out: &mut Writer,
        params: Option<&Value<'_>>,
    ) -> Result<(), Code>
        ensures result { MatchResult result
            (λ _. (j : Json) × AreOfRange (asks_for_corrections (seen params.entry)) (range_given (seen params.entry)) (uri_given (document_in (seen params.entry))) self.now j
            × (out.new.tokens ≡ out.old.tokens ++ json_tokens j))
            (λ code. (code ≡ InternalError)
            ⊎ RefusesPlace (range_given (seen params.entry)) (uri_given (document_in (seen params.entry))) self.now code) }
        ensures before { out.new.before ≡ out.old.before }
    {
        let Some(range) = range_of(member(params, "range")) else {
            return Err(Code::InvalidParams);
        };
        let (name, text) = self.document_meant(alloc, params)?;
        let document = FileText {
            file: name.as_str(),
            text,
        };
        let wanted = asks_for_corrections(params);
        Ok(put_if_wanted(alloc, out, wanted, self.acting(), document, range)?)
    }

    // What the offered actions depend on.
    fn acting(&self) -> Acting<'_>
        ensures { acting_view result ≡ acting_of self.now }
    {
        Acting {
            workspace: &self.workspace,
            editor: &self.editor,
            settings: &self.settings,
            folders: self.folders.as_slice(),
            encoding: self.client.encoding,
        }
    }

    // Where the names of templates begin for the document.
    fn roots_for(&self, file: &str) -> Roots<'_>
        ensures { roots_view result ≡ roots_for self.now file.now }
    {
        let folders = self.folders.as_slice();
        match self.sites.of(folders, file) {
            Some(site) => Roots {
                root: Some(site.root()),
                folders,
            },
            None => Roots {
                root: None,
                folders,
            },
        }
    }

    fn put_result_of_name(
        &self,
        alloc: Global,
        out: &mut Writer,
        request: NameRequest,
        params: Option<&Value<'_>>,
        file: &str,
        name: &Option<Name>,
    ) -> Result<(), AllocError>
        ensures tokens { OnOk result ((j : Json) × IsResultOfName request (seen params.entry) file.now (option_map name_view name.now) self.now j
            × (out.new.tokens ≡ out.old.tokens ++ json_tokens j)) }
        ensures before { out.new.before ≡ out.old.before }
    {
        match request {
            NameRequest::Definition => {
                let offering = Offering {
                    workspace: &self.workspace,
                    roots: self.roots_for(file),
                };
                put_definition(alloc, out, offering, &self.editor, name)
            }
            NameRequest::Hover => put_hover(alloc, out, &self.workspace, name),
            NameRequest::References => {
                let declared = is_set(member(member(params, "context"), "includeDeclaration"));
                match name {
                    Some(name) => {
                        let search = Search {
                            name,
                            declared,
                            editor: &self.editor,
                            encoding: self.client.encoding,
                        };
                        let texts = self.workspace.texts(alloc)?;
                        put_references(alloc, out, search, texts.as_slice())
                    }
                    None => out.null(),
                }
            }
        }
    }

    // The name of the document that the parameters name, and its text, which the editor has open.
    fn document_meant(
        &self,
        alloc: Global,
        params: Option<&Value<'_>>,
    ) -> Result<(String, &str), Code>
        ensures { MatchResult result (λ document. IsMeantAs (uri_given (document_in (seen params.entry))) self.now
            (string_bytes document.0) document.1.now)
            (λ code. (code ≡ InternalError) ⊎ RefusesDocument (uri_given (document_in (seen params.entry))) self.now code) }
    {
        let Some(uri) = text_of(member(member(params, "textDocument"), "uri")) else {
            return Err(Code::InvalidParams);
        };
        let name = name_of(alloc, uri)?;
        let text = self.open_text(name.as_str())?;
        Ok((name, text))
    }

    // The text of the document of this name, which the editor has open.
    fn open_text(&self, name: &str) -> Result<&str, Code>
        ensures { MatchResult result (λ text. IsOpenAs name.now self.now text.now) (IsNotOpen name.now self.now) }
    {
        match self.editor.state(name) {
            DocumentState::Closed => Err(Code::InvalidParams),
            DocumentState::Lost => Err(Code::RequestFailed),
            DocumentState::Open => match self.workspace.text(name) {
                Some(text) => Ok(text),
                None => Err(Code::InvalidParams),
            },
        }
    }
}

// Writes what is asked about a text between other markers; only its layout is known, if these are steady.
fn put_result_between(
    alloc: Global,
    out: &mut Writer,
    request: TextRequest,
    encoding: Encoding,
    markers: &Markers,
    text: &str,
) -> Result<(), AllocError>
    ensures tokens { OnOk result ((j : Json) × IsResultBetween markers.now request encoding text.now j
        × (out.new.tokens ≡ out.old.tokens ++ json_tokens j)) }
    ensures before { out.new.before ≡ out.old.before }
{
    match request {
        TextRequest::Formatting => put_layout_if_steady(alloc, out, encoding, markers, text),
        TextRequest::Symbols => out.null(),
        TextRequest::SemanticTokens => out.null(),
    }
}

fn put_result_of_text(
    alloc: Global,
    out: &mut Writer,
    request: TextRequest,
    encoding: Encoding,
    text: &str,
) -> Result<(), AllocError>
    ensures tokens { OnOk result ((j : Json) × IsResultOfText request encoding text.now j
        × (out.new.tokens ≡ out.old.tokens ++ json_tokens j)) }
    ensures before { out.new.before ≡ out.old.before }
{
    match request {
        TextRequest::Formatting => put_layout(alloc, out, encoding, &Delimiters::default(), text),
        TextRequest::Symbols => put_outline(alloc, out, encoding, text),
        TextRequest::SemanticTokens => put_semantic_tokens(alloc, out, encoding, text),
    }
}

// The folders that the parameters of `initialize` name: those of the workspace, or else its root.
fn folders_of(alloc: Global, params: Option<&Value<'_>>) -> Result<Vec<String>, AllocError>
    ensures { IfOk result (λ v. AreNames (folders_in (seen params.entry)) (map string_bytes v.items)) }
{
    match items_of(member(params, "workspaceFolders")) {
        Some(named) => {
            if named.is_empty() {
                root_of(alloc, params)
            } else {
                names_in(alloc, named)
            }
        }
        None => root_of(alloc, params),
    }
}

fn root_of(alloc: Global, params: Option<&Value<'_>>) -> Result<Vec<String>, AllocError>
    ensures { IfOk result (λ v. AreNames (text_in (member_of (codes "rootUri") (seen params.entry)) ∷ [])
        (map string_bytes v.items)) }
{
    let mut folders = Vec::new(alloc);
    push_name(alloc, text_of(member(params, "rootUri")), &mut folders)?;
    Ok(folders)
}

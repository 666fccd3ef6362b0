//! Publishing what is found in a document.

ghost use Rattle.std.specs.Prelude.{◌≡◌, ◌++◌, ◌∷◌, [], ℕ, List, map, string_bytes, IfOk, OnOk, OnErr};
ghost use Rattle.std.specs.List.{flat_map};
ghost use Rattle.std.specs.Option.{option_map};
ghost use Rattle.json_members.specs.Written.{Puts, PutsJson};
ghost use Rattle.tera_workspace.specs.Diagnostics.{diagnostic_view, related_view};
ghost use Rattle.tera_workspace.specs.Names.{contains_name, is_among};
ghost use Rattle.tera_workspace.specs.Unregistered.{unknown_of_name};
ghost use Rattle.tera_server.specs.Between.{faults_in};
ghost use Rattle.tera_editor.specs.Editors.{seen_of, version_in};
ghost use Rattle.tera_server.specs.Findings.{one_related, related_tokens, one_found, found_if_on, found_json, reason_code, reason_tokens, version_tokens};
ghost use Rattle.tera_server.specs.Sending.{with_all, messages_in, publisher, SendsFirst, named_for, names_once, unknown_for};
ghost use Rattle.tera_editor.specs.Settings.{FaultsAlone, registered_in, reported_for, reported_view, settings_view, shown_in};
ghost use Rattle.tera_editor.specs.UnreadFiles.{reason_view, severity_number, why_of};

use crate::between::FaultsBetween;
use json::{Token, Writer};
use json_members::{put_number, put_tokens};
use json_rpc::{Outbox, begin_notification, end_message};
use protocol_values::{put_location, put_range};
use std::alloc::{AllocError, Global};
use std::collections::BTreeSet;
use tera_check::Severity;
use tera_editor::editor::{DocumentState, Editor, uri_by};
use tera_editor::settings::{FolderSettings, Reported, Settings};
use tera_editor::sites::Sites;
use tera_editor::unread::{Reason, UnreadFiles};
use tera_workspace::{Diagnostic, Related, Workspace};
use text_edits::Position;

/// How findings are reported.
#[derive(Clone, Copy)]
pub(crate) struct Publishing<'e> {
    pub(crate) editor: &'e Editor,
    /// Why files cannot be read; this comes before the findings of a file.
    pub(crate) unread: &'e UnreadFiles,
    /// Whether the notes of a finding are sent with it.
    pub(crate) related: bool,
    /// What rules are set to, and what the program registers, by the folders that are open.
    pub(crate) settings: &'e Settings,
    /// The sites by which names of templates are checked.
    pub(crate) sites: &'e Sites,
    /// What is found in documents that have other markers.
    pub(crate) between: &'e FaultsBetween,
    pub(crate) folders: &'e [String],
}

/// Publishes what was reported last for the documents of these names, each once, except those among `others`. If the
/// editor has one open with a text that is not known, it is not published.
pub(crate) fn publish_each<'n>(
    alloc: Global,
    publishing: Publishing<'_>,
    workspace: &Workspace,
    names: &'n [String],
    others: &'n [String],
    out: &mut Outbox,
) -> Result<(), AllocError>
    ensures published { OnOk result (out.new ≡ with_all out.old (messages_in (publisher publishing.entry) workspace.now
        (names_once (map string_bytes others.now) (map string_bytes names.now)))) }
    ensures in_part { OnErr result (SendsFirst (λ ns. messages_in (publisher publishing.entry) workspace.now
        (names_once (map string_bytes others.now) ns)) (map string_bytes names.now) out.old out.new) }
{
    let mut done = set_of(alloc, others)?;
    for name in names {
        let name = name.as_str();
        if !done.contains(name) {
            done.insert(name)?;
            publish(alloc, publishing, workspace, name, out)?;
        }
    }
    Ok(())
}

fn set_of<'n>(alloc: Global, names: &'n [String]) -> Result<BTreeSet<&'n str>, AllocError>
    ensures { IfOk result (λ all. (n : List ℕ) →
        contains_name all n ≡ is_among n (map string_bytes names.now)) }
{
    let mut all = BTreeSet::new(alloc);
    for name in names {
        all.insert(name.as_str())?;
    }
    Ok(all)
}

fn publish(
    alloc: Global,
    publishing: Publishing<'_>,
    workspace: &Workspace,
    name: &str,
    out: &mut Outbox,
) -> Result<(), AllocError>
    ensures published { OnOk result (out.new ≡ with_all out.old
        (messages_in (publisher publishing.entry) workspace.now (name.now ∷ []))) }
    ensures err { OnErr result (out.new ≡ out.old) }
{
    match publishing.editor.state(name) {
        DocumentState::Open | DocumentState::Closed => {
            let unknown = unknown_in(alloc, publishing, workspace, name)?;
            let named = named_in(alloc, publishing, workspace, name)?;
            let mut message = begin_notification(alloc, "textDocument/publishDiagnostics")?;
            put_published(
                alloc,
                &mut message,
                publishing,
                name,
                workspace.reported(name),
                unknown.as_slice(),
                named.as_slice(),
            )?;
            out.push(end_message(message)?)
        }
        DocumentState::Lost => Ok(()),
    }
}

// The filters, tests and functions in the document that the program does not have, if the settings list some.
fn unknown_in(
    alloc: Global,
    publishing: Publishing<'_>,
    workspace: &Workspace,
    name: &str,
) -> Result<Vec<Diagnostic>, AllocError>
    ensures { IfOk result (λ v. map diagnostic_view v.items
        ≡ unknown_for (publisher publishing.entry) workspace.now name.now) }
{
    match publishing.settings.listing(publishing.folders, name) {
        Some(settings) => unknown_by(alloc, settings, workspace, name),
        None => Ok(Vec::new(alloc)),
    }
}

fn unknown_by(
    alloc: Global,
    settings: &FolderSettings,
    workspace: &Workspace,
    name: &str,
) -> Result<Vec<Diagnostic>, AllocError>
    ensures { IfOk result (λ v. map diagnostic_view v.items
        ≡ unknown_of_name workspace.now (registered_in (settings_view settings.now)) name.now) }
{
    let registered = settings.registered(alloc)?;
    workspace.unknown_of(alloc, name, &registered)
}

// The findings on names of templates in the document, if there is a site for it.
fn named_in(
    alloc: Global,
    publishing: Publishing<'_>,
    workspace: &Workspace,
    name: &str,
) -> Result<Vec<Diagnostic>, AllocError>
    ensures { IfOk result (λ v. map diagnostic_view v.items
        ≡ named_for (publisher publishing.entry) workspace.now name.now) }
{
    match publishing.sites.of(publishing.folders, name) {
        Some(site) => workspace.named_of(alloc, name, site),
        None => Ok(Vec::new(alloc)),
    }
}

// Writes what was reported for the document, what is not registered in it, and the findings on names of templates; and
// what is found between other markers.
fn put_published(
    alloc: Global,
    out: &mut Writer,
    publishing: Publishing<'_>,
    name: &str,
    found: &[Diagnostic],
    unknown: &[Diagnostic],
    named: &[Diagnostic],
) -> Result<(), AllocError>
    ensures { PutsJson result out.old out.new
        (found_json publishing.entry.editor.now publishing.entry.related name.now
        (why_of publishing.entry.unread.now name.now)
        (shown_in (reported_for publishing.entry.settings.now
        (map string_bytes publishing.entry.folders.now) name.now)
        (map diagnostic_view found.now ++ (map diagnostic_view unknown.now ++ map diagnostic_view named.now))
        ++ shown_in FaultsAlone (faults_in publishing.entry.between.now name.now))) }
{
    let uri = uri_by(alloc, publishing.editor, name)?;
    put_tokens(
        out,
        &[
            Token::BeginObject,
            Token::Key("uri"),
            Token::String(uri.as_str()),
        ],
    )?;
    put_version(out, publishing.editor, name)?;
    put_tokens(out, &[Token::Key("diagnostics"), Token::BeginArray])?;
    put_reason(out, publishing.unread.of(name))?;
    let reported = publishing.settings.reported(publishing.folders, name);
    put_found(alloc, out, publishing, reported, found)?;
    put_found(alloc, out, publishing, reported, unknown)?;
    put_found(alloc, out, publishing, reported, named)?;
    let between = publishing.between.of(name);
    put_found(alloc, out, publishing, Reported::Faults, between)?;
    put_tokens(out, &[Token::EndArray, Token::EndObject])
}

// Writes the findings that are on.
fn put_found(
    alloc: Global,
    out: &mut Writer,
    publishing: Publishing<'_>,
    reported: Reported<'_>,
    found: &[Diagnostic],
) -> Result<(), AllocError>
    ensures { Puts result out.old out.new
        (flat_map (found_if_on publishing.entry.editor.now publishing.entry.related
        (reported_view reported.entry)) (map diagnostic_view found.now)) }
{
    for diagnostic in found {
        put_if_on(alloc, out, publishing, reported, diagnostic)?;
    }
    Ok(())
}

fn put_version(out: &mut Writer, editor: &Editor, name: &str) -> Result<(), AllocError>
    ensures { Puts result out.old out.new
        (version_tokens (version_in (seen_of editor.now name.now))) }
{
    if let Some(seen) = editor.of(name) {
        if let Some(version) = seen.version {
            out.key("version")?;
            return out.u64(version);
        }
    }
    Ok(())
}

// Writes why the file cannot be read, or what is wrong in it, if anything is.
fn put_reason(out: &mut Writer, why: Option<&Reason>) -> Result<(), AllocError>
    ensures { Puts result out.old out.new
        (reason_tokens (option_map (λ r. reason_view r.now) why.entry)) }
{
    let Some(why) = why else {
        return Ok(());
    };
    let at = Position {
        line: why.line.unwrap_or(0),
        character: 0,
    };
    out.begin_object()?;
    put_range(out, "range", at, at)?;
    put_number(out, "severity", severity_number(Severity::Error))?;
    put_tokens(
        out,
        &[
            Token::Key("code"),
            Token::String(reason_code(why)),
            Token::Key("source"),
            Token::String("tera"),
            Token::Key("message"),
            Token::String(why.message.as_str()),
            Token::EndObject,
        ],
    )
}

// The code of the diagnostic for a file that cannot be read, or for settings that are wrong.
fn reason_code(why: &Reason) -> &'static str
    ensures { result.now ≡ reason_code (reason_view why.now) }
{
    match why.line {
        Some(_) => "settings",
        None => "unread",
    }
}

// Writes the finding, with the severity that its rule has, if it is on.
fn put_if_on(
    alloc: Global,
    out: &mut Writer,
    publishing: Publishing<'_>,
    reported: Reported<'_>,
    diagnostic: &Diagnostic,
) -> Result<(), AllocError>
    ensures { Puts result out.old out.new
        (found_if_on publishing.entry.editor.now publishing.entry.related
        (reported_view reported.entry) (diagnostic_view diagnostic.now)) }
{
    match reported.level(diagnostic.kind) {
        Some(severity) => put_diagnostic(alloc, out, publishing, severity, diagnostic),
        None => Ok(()),
    }
}

// Writes the finding with this severity.
fn put_diagnostic(
    alloc: Global,
    out: &mut Writer,
    publishing: Publishing<'_>,
    severity: Severity,
    diagnostic: &Diagnostic,
) -> Result<(), AllocError>
    ensures { Puts result out.old out.new
        (one_found publishing.entry.editor.now publishing.entry.related
        (record (diagnostic_view diagnostic.now) { severity = severity })) }
{
    out.begin_object()?;
    put_range(out, "range", diagnostic.start, diagnostic.end)?;
    put_number(out, "severity", severity_number(severity))?;
    put_tokens(
        out,
        &[
            Token::Key("code"),
            Token::String(diagnostic.kind.name()),
            Token::Key("source"),
            Token::String("tera"),
            Token::Key("message"),
            Token::String(diagnostic.message.as_str()),
        ],
    )?;
    put_related(alloc, out, publishing, diagnostic.related.as_slice())?;
    out.end_object()
}

// The number of the severity in the protocol.
fn severity_number(severity: Severity) -> usize
    ensures { result ≡ severity_number severity }
{
    match severity {
        Severity::Error => 1,
        Severity::Warning => 2,
    }
}

// Writes the notes of a finding, if they are sent.
fn put_related(
    alloc: Global,
    out: &mut Writer,
    publishing: Publishing<'_>,
    related: &[Related],
) -> Result<(), AllocError>
    ensures { Puts result out.old out.new
        (related_tokens publishing.entry.editor.now publishing.entry.related
        (map related_view related.now)) }
{
    if !publishing.related {
        return Ok(());
    }
    put_tokens(out, &[Token::Key("relatedInformation"), Token::BeginArray])?;
    for one in related {
        put_one(alloc, out, publishing.editor, one)?;
    }
    out.end_array()
}

fn put_one(
    alloc: Global,
    out: &mut Writer,
    editor: &Editor,
    one: &Related,
) -> Result<(), AllocError>
    ensures { Puts result out.old out.new (one_related editor.now (related_view one.now)) }
{
    let uri = uri_by(alloc, editor, one.file.as_str())?;
    put_tokens(out, &[Token::BeginObject, Token::Key("location")])?;
    put_location(out, uri.as_str(), one.start, one.end)?;
    put_tokens(
        out,
        &[
            Token::Key("message"),
            Token::String(one.message.as_str()),
            Token::EndObject,
        ],
    )
}

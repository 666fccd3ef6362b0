//! The actions for what is found in a part of a document.

ghost use Rattle.std.specs.Prelude.{◌≡◌, ◌++◌, List, map, string_bytes, IfOk, OnOk};
ghost use Rattle.std.specs.List.{filter, flat_map, list_any};
ghost use Rattle.std.specs.Option.{option_map};
ghost use Rattle.json.specs.Json.{Json};
ghost use Rattle.json.specs.Tree.{json_tokens};
ghost use Rattle.json.specs.Value.{value_view};
ghost use Rattle.json_members.specs.Written.{Puts, PutsJson};
ghost use Rattle.protocol_values.specs.Members.{seen};
ghost use Rattle.tera_fixes.specs.Suggestions.{suggestion_view};
ghost use Rattle.tera_workspace.specs.Definitions.{text_view};
ghost use Rattle.text_edits.specs.Places.{AreLinesOf};
ghost use Rattle.tera_answers.specs.Actions.{AreActions, AreActionsBy, AreWanted, acting_view, action_json, action_tokens, are_wanted, asks_for_corrections, covers_corrections, is_asked, is_correction, part_tokens};
ghost use Rattle.tera_answers.specs.Positions.{position_at};
ghost use Rattle.tera_editor.specs.Settings.{reported_view};

use json::{Token, Value, Writer};
use json_members::put_tokens;
use protocol_values::{items_of, member, put_edit, text_of};
use std::alloc::{AllocError, Global};
use tera_check::Finding;
use tera_editor::editor::{Editor, uri_by};
use tera_editor::settings::{Reported, Settings};
use tera_fixes::{Part, Suggestion, suggestions_in};
use tera_workspace::{FileText, Judgement, Workspace};
use text_edits::{Encoding, Lines, Position, position_at};

/// What the offered actions depend on.
#[derive(Clone, Copy)]
pub struct Acting<'s> {
    pub workspace: &'s Workspace,
    pub editor: &'s Editor,
    /// What rules are set to, by the folders that are open.
    pub settings: &'s Settings,
    pub folders: &'s [String],
    pub encoding: Encoding,
}

// The document that is edited.
#[derive(Clone, Copy)]
struct Edited<'d> {
    uri: &'d str,
    text: &'d str,
    lines: &'d Lines,
    encoding: Encoding,
}

/// Whether the parameters of a request ask for corrections: they name no kinds, or one that covers these.
pub fn asks_for_corrections(params: Option<&Value<'_>>) -> bool
    ensures { result ≡ asks_for_corrections (seen params.entry) }
{
    match items_of(member(member(params, "context"), "only")) {
        Some(kinds) => are_wanted(kinds),
        None => true,
    }
}

// Whether corrections are of these kinds, or no kinds are named.
fn are_wanted(kinds: &[Value<'_>]) -> bool
    ensures { result ≡ are_wanted (map value_view kinds.now) }
{
    match kinds {
        [] => true,
        kinds => is_any_correction(kinds),
    }
}

fn is_any_correction(kinds: &[Value<'_>]) -> bool
    ensures { result ≡ list_any is_correction (map value_view kinds.now) }
{
    for kind in kinds {
        if is_correction(kind) {
            return true;
        }
    }
    false
}

fn is_correction(kind: &Value<'_>) -> bool
    ensures { result ≡ is_correction (value_view kind.now) }
{
    match text_of(Some(kind)) {
        Some(kind) => covers_corrections(kind),
        None => false,
    }
}

fn covers_corrections(kind: &str) -> bool
    ensures { result ≡ covers_corrections kind.now }
{
    matches!(kind, "" | "quickfix")
}

/// Writes the actions for what is found on the lines of this range, if they are wanted; otherwise none.
pub fn put_if_wanted(
    alloc: Global,
    out: &mut Writer,
    wanted: bool,
    acting: Acting<'_>,
    document: FileText<'_>,
    range: (Position, Position),
) -> Result<(), AllocError>
    ensures tokens { OnOk result ((j : Json)
        × AreWanted wanted (acting_view acting.entry) (text_view document.entry) range j
        × (out.new.tokens ≡ out.old.tokens ++ json_tokens j)) }
    ensures before { out.new.before ≡ out.old.before }
{
    if wanted {
        put_actions(alloc, out, acting, document, range)
    } else {
        put_tokens(out, &[Token::BeginArray, Token::EndArray])
    }
}

// Writes the suggested correction of each finding on the lines of the range.
fn put_actions(
    alloc: Global,
    out: &mut Writer,
    acting: Acting<'_>,
    document: FileText<'_>,
    range: (Position, Position),
) -> Result<(), AllocError>
    ensures tokens { OnOk result ((j : Json) × AreActions (acting_view acting.entry) (text_view document.entry) range j
        × (out.new.tokens ≡ out.old.tokens ++ json_tokens j)) }
    ensures before { out.new.before ≡ out.old.before }
{
    let found = acting.workspace.judgement_of(alloc, document.file)?;
    match found {
        Some(judgement) => {
            out.begin_array()?;
            put_suggested(alloc, out, acting, document, range, &judgement)?;
            out.end_array()
        }
        None => put_tokens(out, &[Token::BeginArray, Token::EndArray]),
    }
}

fn put_suggested(
    alloc: Global,
    out: &mut Writer,
    acting: Acting<'_>,
    document: FileText<'_>,
    range: (Position, Position),
    judgement: &Judgement<'_>,
) -> Result<(), AllocError>
    ensures tokens { OnOk result ((js : List Json)
        × AreActionsBy (acting_view acting.entry) (text_view document.entry) range judgement.now js
        × (out.new.tokens ≡ out.old.tokens ++ flat_map json_tokens js)) }
    ensures before { out.new.before ≡ out.old.before }
{
    let lines = Lines::for_many(alloc, document.text)?;
    let uri = uri_by(alloc, acting.editor, document.file)?;
    let edited = Edited {
        uri: uri.as_str(),
        text: document.text,
        lines: &lines,
        encoding: acting.encoding,
    };
    let reported = acting.settings.reported(acting.folders, document.file);
    let asked = asked_about(alloc, reported, edited, range, &judgement.findings)?;
    let suggestions = suggestions_in(
        alloc,
        &judgement.catalogue,
        judgement.template,
        document.text,
        asked.as_slice(),
    )?;
    put_each(out, edited, suggestions.as_slice())
}

// The findings that are on lines of the range, and whose rules are on.
fn asked_about<'f>(
    alloc: Global,
    reported: Reported<'_>,
    edited: Edited<'_>,
    range: (Position, Position),
    findings: &'f Vec<Finding>,
) -> Result<Vec<&'f Finding>, AllocError>
    requires { AreLinesOf edited.text.now edited.lines.now }
    ensures { IfOk result (λ v. map (λ f. f.now) v.items
        ≡ filter (is_asked edited.entry.encoding edited.entry.text.now range (reported_view reported.entry))
        findings.now.items) }
{
    let mut asked = Vec::new(alloc);
    for finding in findings {
        if is_asked(reported, edited, range, finding) {
            asked.push(finding)?;
        }
    }
    Ok(asked)
}

fn is_asked(
    reported: Reported<'_>,
    edited: Edited<'_>,
    range: (Position, Position),
    finding: &Finding,
) -> bool
    requires { AreLinesOf edited.text.now edited.lines.now }
    ensures { result ≡ is_asked edited.entry.encoding edited.entry.text.now range (reported_view reported.entry)
        finding.now }
{
    let span = &finding.span.range;
    reported.has(finding.kind)
        && edited.position(span.start).line <= range.1.line
        && range.0.line <= edited.position(span.end).line
}

impl Edited<'_> {
    fn position(self, byte: usize) -> Position
        requires { AreLinesOf self.text.now self.lines.now }
        ensures { result ≡ position_at self.entry.encoding self.entry.text.now byte }
    {
        position_at(self.text, self.lines, self.encoding, byte)
    }
}

fn put_each(
    out: &mut Writer,
    edited: Edited<'_>,
    suggestions: &[Option<Suggestion>],
) -> Result<(), AllocError>
    requires { AreLinesOf edited.text.now edited.lines.now }
    ensures { Puts result out.old out.new
        (flat_map (action_tokens edited.entry.encoding edited.entry.uri.now edited.entry.text.now)
        (map (option_map suggestion_view) suggestions.now)) }
{
    for suggestion in suggestions {
        put_if_any(out, edited, suggestion)?;
    }
    Ok(())
}

fn put_if_any(
    out: &mut Writer,
    edited: Edited<'_>,
    suggestion: &Option<Suggestion>,
) -> Result<(), AllocError>
    requires { AreLinesOf edited.text.now edited.lines.now }
    ensures { Puts result out.old out.new
        (action_tokens edited.entry.encoding edited.entry.uri.now edited.entry.text.now
        (option_map suggestion_view suggestion.now)) }
{
    match suggestion {
        Some(suggestion) => put_action(out, edited, suggestion),
        None => Ok(()),
    }
}

fn put_action<'x>(
    out: &mut Writer,
    edited: Edited<'x>,
    suggestion: &'x Suggestion,
) -> Result<(), AllocError>
    requires { AreLinesOf edited.text.now edited.lines.now }
    ensures { PutsJson result out.old out.new
        (action_json edited.entry.encoding edited.entry.uri.now edited.entry.text.now
        (suggestion_view suggestion.now)) }
{
    put_tokens(
        out,
        &[
            Token::BeginObject,
            Token::Key("title"),
            Token::String(suggestion.title.as_str()),
            Token::Key("kind"),
            Token::String("quickfix"),
            Token::Key("isPreferred"),
            Token::Bool(true),
            Token::Key("edit"),
            Token::BeginObject,
            Token::Key("changes"),
            Token::BeginObject,
            Token::Key(edited.uri),
            Token::BeginArray,
        ],
    )?;
    put_parts(
        out,
        edited,
        suggestion.text.as_str(),
        suggestion.parts.as_slice(),
    )?;
    put_tokens(
        out,
        &[
            Token::EndArray,
            Token::EndObject,
            Token::EndObject,
            Token::EndObject,
        ],
    )
}

// Writes the edits that replace each of the parts by the text.
fn put_parts(
    out: &mut Writer,
    edited: Edited<'_>,
    text: &str,
    parts: &[Part],
) -> Result<(), AllocError>
    requires { AreLinesOf edited.text.now edited.lines.now }
    ensures { Puts result out.old out.new
        (flat_map (part_tokens edited.entry.encoding edited.entry.text.now text.now) parts.now) }
{
    for part in parts {
        put_part(out, edited, text, *part)?;
    }
    Ok(())
}

fn put_part(out: &mut Writer, edited: Edited<'_>, text: &str, part: Part) -> Result<(), AllocError>
    requires { AreLinesOf edited.text.now edited.lines.now }
    ensures { Puts result out.old out.new
        (part_tokens edited.entry.encoding edited.entry.text.now text.now part) }
{
    put_edit(
        out,
        edited.position(part.start),
        edited.position(part.end),
        text,
    )
}

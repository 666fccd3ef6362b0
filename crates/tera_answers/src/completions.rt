//! What may be typed at a place of a text.

ghost use Rattle.std.specs.Prelude.{◌≡◌, ◌++◌, [], map, string_bytes, IfOk, OnOk};
ghost use Rattle.std.specs.List.{filter_map, find};
ghost use Rattle.std.specs.Option.{option_map_or};
ghost use Rattle.json.specs.Json.{Json, array};
ghost use Rattle.json.specs.Tree.{json_tokens};
ghost use Rattle.json.specs.Value.{items_of};
ghost use Rattle.json_members.specs.Written.{Puts, PutsJson};
ghost use Rattle.tera_outline.specs.Bound.{bound_of};
ghost use Rattle.tera_outline.specs.Names.{names_of, name_view, holds};
ghost use Rattle.tera_outline.specs.Pieces.{part_of};
ghost use Rattle.tera_tree.specs.Calls.{texts, once_each};
ghost use Rattle.tera_workspace.specs.Components.{components_of, parameters_of_name};
ghost use Rattle.tera_answers.specs.Completions.{defined_names, loop_names, offered, kind_number, item_json, item_tokens, items_json, IsCompletion};
ghost use Rattle.tera_editor.specs.Settings.{registered_view};
ghost use Rattle.tera_editor.specs.Templates.{roots_view, template_name};

use json::{Token, Writer};
use json_members::{put_number, put_tokens};
use protocol_values::put_edit;
use std::alloc::{AllocError, Global};
use std::collections::BTreeSet;
use tera_editor::settings::RegisteredNames;
use tera_editor::templates::{Roots, template_name};
use tera_lexer::words::STATEMENTS;
use tera_outline::{
    CompletionKind, Name, NameKind, Piece, bound_of, completion_for, names_of, pieces_of,
};
use tera_workspace::Workspace;
use text_edits::{Encoding, Lines, Position, byte_at, position_at};

/// Where offered names come from.
#[derive(Clone, Copy)]
pub struct Offering<'w> {
    pub workspace: &'w Workspace,
    pub roots: Roots<'w>,
}

// All that offered names come from.
#[derive(Clone, Copy)]
struct Given<'w> {
    offering: Offering<'w>,
    registered: RegisteredNames<'w>,
    // The names that are in the text, and the variables that it binds.
    named: &'w [Name],
    bound: &'w [&'w str],
}

// The variables of a loop.
const LOOP_NAMES: [&str; 5] = [
    "loop.first",
    "loop.index",
    "loop.index0",
    "loop.last",
    "loop.length",
];

// The part of the text that a name replaces, and the kind of the name.
#[derive(Clone, Copy)]
struct Place {
    start: Position,
    end: Position,
    kind: CompletionKind,
}

/// Writes what may be typed at the position, or `null`. `registered` are the names that the program registers for the
/// document.
pub fn put_completion(
    alloc: Global,
    out: &mut Writer,
    offering: Offering<'_>,
    registered: RegisteredNames<'_>,
    encoding: Encoding,
    text: &str,
    position: Position,
) -> Result<(), AllocError>
    ensures tokens { OnOk result ((j : Json) × IsCompletion encoding offering.entry.workspace.now
        (roots_view offering.entry.roots) (registered_view registered.entry) text.now position j
        × (out.new.tokens ≡ out.old.tokens ++ json_tokens j)) }
    ensures before { out.new.before ≡ out.old.before }
{
    let pieces = pieces_of(alloc, text)?;
    let lines = Lines::of(alloc, text)?;
    let byte = byte_at(text, &lines, encoding, position);
    match completion_for(pieces.as_slice(), text.len(), byte) {
        Some(completion) => {
            let place = Place {
                start: position_at(text, &lines, encoding, completion.start),
                end: position_at(text, &lines, encoding, byte),
                kind: completion.kind,
            };
            put_offered(alloc, out, offering, registered, place, pieces.as_slice())
        }
        None => out.null(),
    }
}

fn put_offered(
    alloc: Global,
    out: &mut Writer,
    offering: Offering<'_>,
    registered: RegisteredNames<'_>,
    place: Place,
    pieces: &[Piece<'_>],
) -> Result<(), AllocError>
    ensures { PutsJson result out.old out.new
        (items_json place.start place.end (kind_number place.kind)
        (offered offering.entry.workspace.now (roots_view offering.entry.roots)
        (registered_view registered.entry) (names_of (map part_of pieces.now))
        (bound_of (map part_of pieces.now)) place.kind)) }
{
    let named = names_of(alloc, pieces)?;
    let bound = bound_of(alloc, pieces)?;
    let given = Given {
        offering,
        registered,
        named: named.as_slice(),
        bound: bound.as_slice(),
    };
    let names = offered(alloc, given, place.kind)?;
    let sorted = once_each(alloc, names.as_slice())?;
    put_items(out, place, &sorted)
}

// The names of this kind that may be typed.
fn offered<'w>(
    alloc: Global,
    given: Given<'w>,
    kind: CompletionKind,
) -> Result<Vec<&'w str>, AllocError>
    ensures { IfOk result (λ v. texts v.items ≡ offered given.entry.offering.workspace.now
        (roots_view given.entry.offering.roots) (registered_view given.entry.registered)
        (map name_view given.entry.named.now) (texts given.entry.bound.now) kind) }
{
    let workspace = given.offering.workspace;
    match kind {
        CompletionKind::Statement => Ok(Vec::from_array(alloc, STATEMENTS)?),
        CompletionKind::Component => components(alloc, workspace, given.named),
        CompletionKind::Template => {
            let files = workspace.files(alloc)?;
            templates(alloc, given.offering.roots, &files)
        }
        CompletionKind::Argument(call) => arguments(alloc, workspace, given.named, call),
        CompletionKind::Filter => listed(alloc, given.registered.filters),
        CompletionKind::Test => listed(alloc, given.registered.tests),
        CompletionKind::Operand => operands(alloc, given.bound, given.registered.functions),
    }
}

// The variables of a loop, those that the text binds, and the functions of a list.
fn operands<'w>(
    alloc: Global,
    bound: &[&'w str],
    functions: &'w [String],
) -> Result<Vec<&'w str>, AllocError>
    ensures { IfOk result (λ v. texts v.items
        ≡ (loop_names ++ texts bound.now) ++ map string_bytes functions.now) }
{
    let mut names = Vec::from_array(alloc, LOOP_NAMES)?;
    push_all(&mut names, bound)?;
    push_listed(&mut names, functions)?;
    Ok(names)
}

// The names of a list.
fn listed<'w>(alloc: Global, list: &'w [String]) -> Result<Vec<&'w str>, AllocError>
    ensures { IfOk result (λ v. texts v.items ≡ map string_bytes list.now) }
{
    let mut names = Vec::new(alloc);
    push_listed(&mut names, list)?;
    Ok(names)
}

fn push_listed<'w>(names: &mut Vec<&'w str>, list: &'w [String]) -> Result<(), AllocError>
    ensures { OnOk result (texts names.new.items ≡ texts names.old.items ++ map string_bytes list.now) }
{
    for name in list {
        names.push(name.as_str())?;
    }
    Ok(())
}

fn push_all<'w>(names: &mut Vec<&'w str>, list: &[&'w str]) -> Result<(), AllocError>
    ensures { OnOk result (texts names.new.items ≡ texts names.old.items ++ texts list.now) }
{
    for name in list {
        names.push(*name)?;
    }
    Ok(())
}

// The components that documents define, and the names in the text that stand for a definition.
fn components<'w>(
    alloc: Global,
    workspace: &'w Workspace,
    named: &'w [Name],
) -> Result<Vec<&'w str>, AllocError>
    ensures { IfOk result (λ v. texts v.items
        ≡ components_of workspace.now ++ defined_names (map name_view named.now)) }
{
    let mut names = workspace.components(alloc)?;
    for name in named {
        if let NameKind::Defined = name.kind {
            names.push(name.text.as_str())?;
        }
    }
    Ok(names)
}

// The parameters of the component whose name is at the byte.
fn arguments<'w>(
    alloc: Global,
    workspace: &'w Workspace,
    named: &[Name],
    call: usize,
) -> Result<Vec<&'w str>, AllocError>
    ensures { IfOk result (λ v. texts v.items
        ≡ option_map_or (λ n. parameters_of_name workspace.now n.text) (find (holds call) (map name_view named.now)) []) }
{
    for name in named {
        if name.holds(call) {
            return workspace.parameters_of(alloc, name.text.as_str());
        }
    }
    Ok(Vec::new(alloc))
}

// The names of the templates in these files.
fn templates<'w>(
    alloc: Global,
    roots: Roots<'_>,
    files: &Vec<&'w str>,
) -> Result<Vec<&'w str>, AllocError>
    ensures { IfOk result (λ v. texts v.items
        ≡ filter_map (template_name (roots_view roots.entry)) (texts files.now.items)) }
{
    let mut names = Vec::new(alloc);
    for file in files {
        if let Some(name) = template_name(roots, file) {
            names.push(name)?;
        }
    }
    Ok(names)
}

// The names in byte order, each once.
fn once_each<'n>(alloc: Global, names: &[&'n str]) -> Result<BTreeSet<&'n str>, AllocError>
    ensures { IfOk result (λ s. texts s.keys ≡ once_each (texts names.now)) }
{
    let mut sorted = BTreeSet::new(alloc);
    for name in names {
        sorted.insert(*name)?;
    }
    Ok(sorted)
}

fn put_items(out: &mut Writer, place: Place, names: &BTreeSet<&str>) -> Result<(), AllocError>
    ensures { PutsJson result out.old out.new
        (array (items_of (map (item_json place.start place.end (kind_number place.kind))
        (texts names.now.keys)))) }
{
    out.begin_array()?;
    for name in names {
        put_item(out, place, name)?;
    }
    out.end_array()
}

fn put_item(out: &mut Writer, place: Place, name: &str) -> Result<(), AllocError>
    ensures { Puts result out.old out.new
        (item_tokens place.start place.end (kind_number place.kind) name.now) }
{
    put_tokens(
        out,
        &[Token::BeginObject, Token::Key("label"), Token::String(name)],
    )?;
    put_number(out, "kind", kind_number(place.kind))?;
    out.key("textEdit")?;
    put_edit(out, place.start, place.end, name)?;
    out.end_object()
}

fn kind_number(kind: CompletionKind) -> usize
    ensures { result ≡ kind_number kind }
{
    match kind {
        CompletionKind::Statement => 14,
        CompletionKind::Component => 7,
        CompletionKind::Template => 17,
        CompletionKind::Argument(_) => 5,
        CompletionKind::Filter | CompletionKind::Test => 3,
        CompletionKind::Operand => 6,
    }
}

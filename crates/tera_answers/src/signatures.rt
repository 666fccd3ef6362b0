//! The head and the parameters of the component that is called at a place.

ghost use Rattle.std.specs.Prelude.{◌≡◌, ◌++◌, Some, map, IfOk, OnOk};
ghost use Rattle.std.specs.Char.{is_ascii};
ghost use Rattle.std.specs.List.{find, flat_map, list_all};
ghost use Rattle.std.specs.Option.{option_map};
ghost use Rattle.json.specs.Json.{Json};
ghost use Rattle.json.specs.Tree.{json_tokens};
ghost use Rattle.json_members.specs.Written.{Puts, PutsJson};
ghost use Rattle.tera_outline.specs.Calls.{in_call_view};
ghost use Rattle.tera_outline.specs.Names.{holds, name_view, names_of};
ghost use Rattle.tera_outline.specs.Pieces.{part_of};
ghost use Rattle.tera_outline.specs.Signatures.{parameter_view, signature_view};
ghost use Rattle.tera_answers.specs.Signatures.{IsSignature, IsSignatureBy, IsSignatureOf, IsSignedBy, active_number, are_placed, label_json, marked_json, parameter_tokens, placed_json, plain_json, signature_json};

use crate::semantic_tokens::put_numbers;
use json::{Token, Writer};
use json_members::{put_number, put_tokens};
use std::alloc::{AllocError, Global};
use tera_editor::client::Client;
use tera_outline::{
    InCall, Name, Parameter, Piece, Signature, call_at, names_of, pieces_of, signature_of,
};
use tera_workspace::Workspace;
use text_edits::{Lines, Position, byte_at};

/// Writes the head of the component whose call the position is in, with its parameters if the argument there is for one
/// of them; or `null`.
pub fn put_signature(
    alloc: Global,
    out: &mut Writer,
    workspace: &Workspace,
    client: Client,
    text: &str,
    position: Position,
) -> Result<(), AllocError>
    ensures tokens { OnOk result ((j : Json) × IsSignature client workspace.now text.now position j
        × (out.new.tokens ≡ out.old.tokens ++ json_tokens j)) }
    ensures before { out.new.before ≡ out.old.before }
{
    let pieces = pieces_of(alloc, text)?;
    let lines = Lines::of(alloc, text)?;
    let byte = byte_at(text, &lines, client.encoding, position);
    match call_at(pieces.as_slice(), text.len(), byte) {
        Some(place) => put_called(
            alloc,
            out,
            workspace,
            client.labels,
            pieces.as_slice(),
            place,
        ),
        None => out.null(),
    }
}

fn put_called(
    alloc: Global,
    out: &mut Writer,
    workspace: &Workspace,
    labels: bool,
    pieces: &[Piece<'_>],
    place: InCall<'_>,
) -> Result<(), AllocError>
    ensures tokens { OnOk result ((j : Json)
        × IsSignatureBy labels workspace.now (names_of (map part_of pieces.now)) (in_call_view place.entry) j
        × (out.new.tokens ≡ out.old.tokens ++ json_tokens j)) }
    ensures before { out.new.before ≡ out.old.before }
{
    let names = names_of(alloc, pieces)?;
    match name_holding(names.as_slice(), place.call) {
        Some(name) => put_named(alloc, out, workspace, labels, name, place.argument),
        None => out.null(),
    }
}

// Writes what the component of the name takes, or `null` if no document defines it.
fn put_named(
    alloc: Global,
    out: &mut Writer,
    workspace: &Workspace,
    labels: bool,
    name: &str,
    argument: Option<&str>,
) -> Result<(), AllocError>
    ensures tokens { OnOk result ((j : Json)
        × IsSignatureOf labels workspace.now (Some name.now) (option_map (λ n. n.now) argument.entry) j
        × (out.new.tokens ≡ out.old.tokens ++ json_tokens j)) }
    ensures before { out.new.before ≡ out.old.before }
{
    match signature_by(alloc, workspace, name)? {
        Some(signature) => put_one(out, labels, &signature, argument),
        None => out.null(),
    }
}

// The signature of the component of this name, in the first file that defines it.
fn signature_by<'w>(
    alloc: Global,
    workspace: &'w Workspace,
    name: &str,
) -> Result<Option<Signature<'w>>, AllocError>
    ensures { IfOk result (λ s. IsSignedBy workspace.now name.now (option_map signature_view s)) }
{
    let Some(place) = workspace.definition_of(alloc, name)? else {
        return Ok(None);
    };
    match workspace.text(place.file.as_str()) {
        Some(text) => signature_of(alloc, text, name),
        None => Ok(None),
    }
}

// The name that contains the byte.
fn name_holding(names: &[Name], byte: usize) -> Option<&str>
    ensures { option_map (λ n. n.now) result
        ≡ option_map (λ n. n.text) (find (holds byte) (map name_view names.now)) }
{
    for name in names {
        if name.holds(byte) {
            return Some(name.text.as_str());
        }
    }
    None
}

// Writes the head, and its parameters if the argument is for one of them.
fn put_one(
    out: &mut Writer,
    labels: bool,
    signature: &Signature<'_>,
    argument: Option<&str>,
) -> Result<(), AllocError>
    ensures { PutsJson result out.old out.new
        (signature_json labels (signature_view signature.now) (option_map (λ n. n.now) argument.entry)) }
{
    match active_number(signature.parameters.as_slice(), argument) {
        Some(number) => put_marked(out, labels, signature, number),
        None => put_plain(out, signature.head),
    }
}

// Writes the head with its parameters; the one of this number is active.
fn put_marked(
    out: &mut Writer,
    labels: bool,
    signature: &Signature<'_>,
    number: usize,
) -> Result<(), AllocError>
    ensures { PutsJson result out.old out.new (marked_json labels (signature_view signature.now) number) }
{
    put_tokens(
        out,
        &[
            Token::BeginObject,
            Token::Key("signatures"),
            Token::BeginArray,
            Token::BeginObject,
            Token::Key("label"),
            Token::String(signature.head),
            Token::Key("parameters"),
            Token::BeginArray,
        ],
    )?;
    let placed = are_placed(labels, signature.head);
    put_parameters(out, placed, signature.parameters.as_slice())?;
    put_tokens(out, &[Token::EndArray, Token::EndObject, Token::EndArray])?;
    put_number(out, "activeSignature", 0)?;
    put_number(out, "activeParameter", number)?;
    out.end_object()
}

// Writes only the head, in which editors mark nothing.
fn put_plain(out: &mut Writer, head: &str) -> Result<(), AllocError>
    ensures { PutsJson result out.old out.new (plain_json head.now) }
{
    put_tokens(
        out,
        &[
            Token::BeginObject,
            Token::Key("signatures"),
            Token::BeginArray,
            Token::BeginObject,
            Token::Key("label"),
            Token::String(head),
            Token::EndObject,
            Token::EndArray,
        ],
    )?;
    put_number(out, "activeSignature", 0)?;
    out.end_object()
}

fn put_parameters(
    out: &mut Writer,
    placed: bool,
    parameters: &[Parameter<'_>],
) -> Result<(), AllocError>
    ensures { Puts result out.old out.new
        (flat_map (parameter_tokens placed) (map parameter_view parameters.now)) }
{
    for parameter in parameters {
        put_parameter(out, placed, *parameter)?;
    }
    Ok(())
}

// Writes the parameter by its place in the head, or by its name.
fn put_parameter(out: &mut Writer, placed: bool, parameter: Parameter<'_>) -> Result<(), AllocError>
    ensures { Puts result out.old out.new (parameter_tokens placed (parameter_view parameter.entry)) }
{
    if placed {
        put_placed(out, parameter.start, parameter.end)
    } else {
        put_label(out, parameter.name)
    }
}

fn put_placed(out: &mut Writer, start: usize, end: usize) -> Result<(), AllocError>
    ensures { PutsJson result out.old out.new (placed_json start end) }
{
    put_tokens(
        out,
        &[Token::BeginObject, Token::Key("label"), Token::BeginArray],
    )?;
    put_numbers(out, &[start, end])?;
    put_tokens(out, &[Token::EndArray, Token::EndObject])
}

fn put_label(out: &mut Writer, name: &str) -> Result<(), AllocError>
    ensures { PutsJson result out.old out.new (label_json name.now) }
{
    put_tokens(
        out,
        &[
            Token::BeginObject,
            Token::Key("label"),
            Token::String(name),
            Token::EndObject,
        ],
    )
}

// Whether parameters are given by their places: the protocol counts these in UTF-16.
fn are_placed(labels: bool, head: &str) -> bool
    ensures { result ≡ are_placed labels head.now }
{
    labels && is_ascii(head)
}

fn is_ascii(text: &str) -> bool
    ensures { result ≡ list_all is_ascii text.now }
{
    text.as_bytes().iter().all(|byte| byte.is_ascii())
}

// The number of the parameter that the argument is for.
fn active_number(parameters: &[Parameter<'_>], argument: Option<&str>) -> Option<usize>
    ensures { result
        ≡ active_number (map parameter_view parameters.now) (option_map (λ n. n.now) argument.entry) }
{
    let name = argument?;
    parameters
        .iter()
        .position(|parameter| parameter.name == name)
}

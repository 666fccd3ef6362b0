//! What is shown for the name of a component in a text.

ghost use Rattle.std.specs.Prelude.{◌≡◌, ◌++◌, ℕ, List, Option, Some, IfOk, OnOk};
ghost use Rattle.std.specs.Option.{option_map};
ghost use Rattle.json.specs.Tree.{json_tokens};
ghost use Rattle.tera_outline.specs.Names.{name_view};
ghost use Rattle.tera_answers.specs.Hovers.{IsHead, IsHeadBy, hover_json};

use crate::definitions::is_component;
use json::{Token, Writer};
use json_members::put_tokens;
use std::alloc::{AllocError, Global};
use tera_outline::{Name, head_of};
use tera_workspace::Workspace;

/// Writes the head of the definition of the component that has the name, or `null`.
pub fn put_hover(
    alloc: Global,
    out: &mut Writer,
    workspace: &Workspace,
    name: &Option<Name>,
) -> Result<(), AllocError>
    ensures tokens { OnOk result ((head : Option (List ℕ)) × IsHead workspace.now (option_map name_view name.now) head
        × (out.new.tokens ≡ out.old.tokens ++ json_tokens (hover_json head))) }
    ensures before { out.new.before ≡ out.old.before }
{
    match head_meant(alloc, workspace, name)? {
        Some(head) => put_tokens(
            out,
            &[
                Token::BeginObject,
                Token::Key("contents"),
                Token::BeginObject,
                Token::Key("kind"),
                Token::String("plaintext"),
                Token::Key("value"),
                Token::String(head),
                Token::EndObject,
                Token::EndObject,
            ],
        ),
        None => out.null(),
    }
}

fn head_meant<'w>(
    alloc: Global,
    workspace: &'w Workspace,
    name: &Option<Name>,
) -> Result<Option<&'w str>, AllocError>
    ensures { IfOk result (λ head. IsHead workspace.now (option_map name_view name.now)
        (option_map (λ h. h.now) head)) }
{
    match name {
        Some(name) if is_component(name.kind) => head_by(alloc, workspace, name.text.as_str()),
        _ => Ok(None),
    }
}

/// The head of the component of this name, in the first file that defines it.
pub(crate) fn head_by<'w>(
    alloc: Global,
    workspace: &'w Workspace,
    name: &str,
) -> Result<Option<&'w str>, AllocError>
    ensures { IfOk result (λ head. IsHeadBy workspace.now (Some name.now) (option_map (λ h. h.now) head)) }
{
    let Some(place) = workspace.definition_of(alloc, name)? else {
        return Ok(None);
    };
    match workspace.text(place.file.as_str()) {
        Some(text) => head_of(alloc, text, name),
        None => Ok(None),
    }
}

//! Blocks, and the definitions of components.

ghost use Rattle.std.specs.Prelude.{IfErr, IfOk, ◌≡◌, ◌⊎◌, false, is_none, true};
ghost use Rattle.std.specs.Str.{bytes_eq};
ghost use Rattle.tera_base.specs.Errors.{IsMemory};
ghost use Rattle.tera_grammar.specs.statements.Reading.{block_end, block_of, component_def_of};
ghost use Rattle.tera_grammar.specs.statements.TagParts.{Name};
ghost use Rattle.tera_grammar.specs.statements.Reading.Meeting.{locate};
ghost use Rattle.tera_statements.specs.Adding.{AddsBy, here, seen_of};
ghost use Rattle.tera_statements.specs.Blocks.{IsName, new_block_of};
ghost use Rattle.tera_tags.specs.Known.{located_of, met_of};
ghost use Rattle.tera_statements.specs.Around.{known_at};
ghost use Rattle.tera_tags.specs.Knowing.{RefusesKnowing};
ghost use Rattle.tera_tags.specs.Settings.{bodies_under, limits_under};
ghost use Rattle.tera_expect.specs.Taking.{GivesBy, Passes, Refuses, Took, name_in};

use crate::added::Added;
use crate::around::{Around, Context, Opening};
use crate::bodies::body;
use crate::faults::{nested_definition, repeated_block};
use crate::simple::check_block;
use tera_base::{Error, Span, Spanned};
use tera_expect::{eat_name, name};
use tera_lexer::Cursor;
use tera_tags::components::{closing_tag, opening_tag};
use tera_tags::faults::renamed;
use tera_tags::fronts::Closer;
use tera_tags::names::{Known, Names, keep_name, place_of};
use tera_tags::settings::Setting;
use tera_tags::tag_parts::{closed, finish};
use tera_tree::{ComponentDefinition, build};

/// Reads the rest of a block, whose word was taken last.
#[cycle(bodies)]
#[tactic(auto, using(tera_tags::proofs::OnTheWay::through_tags))]
pub(crate) fn block(
    setting: &Setting<'_>,
    cursor: &mut Cursor<'_>,
    names: &mut Names,
    around: &Around,
    depth: usize,
) -> Result<Added, Error>
    ensures gives { AddsBy around.now result (here names.new cursor.new) (λ path start.
        block_of (bodies_under setting.now depth) path start cursor.old.span
        (seen_of names.old) cursor.old.left) }
    ensures refusal { IfErr result (Refuses cursor.old cursor.new) }
    ensures later { IfOk result (λ _. Took cursor.old cursor.new) }
{
    let alloc = cursor.alloc();
    let opening = Opening {
        context: Context::Block,
        at: cursor.current_span().copied(),
    };
    check_block(cursor, around)?;
    let (name, span) = new_block(cursor, &mut names.blocks)?;
    finish(cursor)?;
    let inside = body(setting, cursor, names, around, &opening, depth)?;
    block_end(cursor, name)?;
    let name = String::from_str(alloc, name)?;
    let name = Spanned::new(alloc, name, span)?;
    Ok(Added::Node(build::block(name, inside)))
}

// The name of a block that the template does not have yet, and where it is. It is kept.
#[tactic(auto, using(tera_expect::proofs::TakingLemmas::after_tokens))]
fn new_block<'a>(cursor: &mut Cursor<'a>, blocks: &mut Known) -> Result<(&'a str, Span), Error>
    ensures gives { GivesBy IsName result cursor.new.left
        (new_block_of (met_of blocks.old) cursor.old.left) }
    ensures kept { IfOk result (λ n.
        located_of blocks.new ≡ locate (name_in n.0.now n.1) (located_of blocks.old)) }
    ensures refusal { IfErr result (Refuses cursor.old cursor.new) }
    ensures later { IfOk result (λ _. Took cursor.old cursor.new) }
{
    let name = name(cursor)?;
    if place_of(blocks, name).is_some() {
        return Err(repeated_block(cursor, name));
    }
    keep_name(cursor.alloc(), blocks, name, cursor.current_span())?;
    Ok((name, cursor.current_span().copied()))
}

// The closing tag of the block with this name.
#[tactic(auto, using(tera_tags::proofs::OnTheWay::through_tags))]
fn block_end(cursor: &mut Cursor<'_>, name: &str) -> Result<(), Error>
    ensures gives { (n : Name) → n.text ≡ name.now →
        Passes result cursor.new.left (block_end n cursor.old.left) }
    ensures refusal { IfErr result (Refuses cursor.old cursor.new) }
    ensures later { IfOk result (λ _. Took cursor.old cursor.new) }
{
    closed(cursor, Closer::EndBlock)?;
    match eat_name(cursor) {
        Some(end) => {
            check_name(cursor, name, end)?;
            finish(cursor)
        }
        None => finish(cursor),
    }
}

// Refuses a closing tag of another name, which was taken last.
fn check_name(cursor: &Cursor<'_>, name: &str, end: &str) -> Result<(), Error>
    ensures same { IfOk result (λ _. bytes_eq end.now name.now ≡ true) }
    ensures fails { IfErr result (λ e. IsMemory e ⊎ (bytes_eq end.now name.now ≡ false)) }
    ensures refusal { IfErr result (Refuses cursor.now cursor.now) }
{
    if end == name {
        Ok(())
    } else {
        Err(renamed(cursor, "block", name, end))
    }
}

/// Reads the rest of the definition of a component, whose word was taken last.
#[cycle(bodies)]
#[tactic(auto, using(tera_tags::proofs::OnTheWay::through_tags))]
pub(crate) fn definition(
    setting: &Setting<'_>,
    cursor: &mut Cursor<'_>,
    names: &mut Names,
    around: &Around,
    depth: usize,
) -> Result<Added, Error>
    ensures gives { AddsBy around.now result (here names.new cursor.new) (λ path start.
        component_def_of (limits_under setting.now) (bodies_under setting.now depth) path start
        cursor.old.span (seen_of names.old) cursor.old.left) }
    ensures refusal { IfErr result
        (RefusesKnowing (known_at around.now names.old) cursor.old cursor.new) }
    ensures later { IfOk result (λ _. Took cursor.old cursor.new) }
{
    let opening = Opening {
        context: Context::Definition,
        at: cursor.current_span().copied(),
    };
    check_definition(cursor, around)?;
    let opened = opening_tag(setting, cursor, names)?;
    let inside = body(setting, cursor, names, around, &opening, depth)?;
    closing_tag(cursor, opened.name.as_str())?;
    Ok(Added::Definition(ComponentDefinition {
        name: opened.name,
        kwargs: opened.parameters.arguments,
        rest_param_name: opened.parameters.rest,
        metadata: opened.metadata,
        body: inside,
    }))
}

// Refuses the definition of a component, whose word was taken last, in another tag.
fn check_definition(cursor: &Cursor<'_>, around: &Around) -> Result<(), Error>
    ensures represents { IfOk result (λ _. is_none around.now.innermost ≡ true) }
    ensures fails { IfErr result (λ e. IsMemory e ⊎ (is_none around.now.innermost ≡ false)) }
    ensures refusal { IfErr result (Refuses cursor.now cursor.now) }
{
    match &around.innermost {
        None => Ok(()),
        Some(opening) => Err(nested_definition(cursor, opening)),
    }
}

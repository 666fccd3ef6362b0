//! The tags of a component's definition.

ghost use Rattle.std.specs.Prelude.{◌≡◌, [], IfErr, IfOk, OnOk, map, string_bytes};
ghost use Rattle.tera_base.specs.ValueView.{pairs_view, value_view};
ghost use Rattle.tera_base.specs.declared.utils.Span.{Span};
ghost use Rattle.tera_grammar.specs.expressions.Marks.{LeftBrace};
ghost use Rattle.tera_grammar.specs.expressions.Reading.Front.{begins};
ghost use Rattle.tera_grammar.specs.statements.Components.{put_pairs};
ghost use Rattle.tera_grammar.specs.statements.Types.{put_name};
ghost use Rattle.tera_grammar.specs.statements.Expressions.{component_text};
ghost use Rattle.tera_grammar.specs.statements.Places.{placed_name};
ghost use Rattle.tera_grammar.specs.statements.TagParts.{Edge};
ghost use Rattle.tera_grammar.specs.statements.Reading.Components as reading;
ghost use Rattle.tera_grammar.specs.statements.Reading.Components.{ending_of, metadata_in, opened_of};
ghost use Rattle.tera_tags.specs.Components.{Defines, IsOpened, agreeing_name, new_component_of};
ghost use Rattle.tera_tags.specs.Known.{Keeps, located_of, met_of};
ghost use Rattle.tera_tags.specs.Knowing.{RefusesKnowing};
ghost use Rattle.tera_tags.specs.Parameters.{IsMetadata};
ghost use Rattle.tera_tags.specs.Reading.{IsComponent};
ghost use Rattle.tera_tags.specs.Settings.{limits_under};
ghost use Rattle.tera_expect.specs.Taking.{GivesBy, GoesOn, Passes, Refuses, Took};
ghost use Rattle.tera_tree.specs.Definitions.{named_value};

use crate::faults::{renamed, repeated_component};
use crate::fronts::Closer;
use crate::names::{Known, Names, keep_name, keep_parameters, place_of};
use crate::parameters::{Parameters, read_parameters};
use crate::settings::Setting;
use crate::tag_parts::{closed, finish};
use std::alloc::{AllocError, Global};
use std::collections::BTreeMap;
use tera_base::{Error, Map, Span, Value};
use tera_expect::{Fixed, begins, begins_name, expect};
use tera_expr_reader::{component_name, literal_map};
use tera_lexer::Cursor;

/// What the opening tag of a component's definition says.
#[derive(Drop)]
pub struct Opened {
    pub name: String,
    pub parameters: Parameters,
    pub metadata: BTreeMap<String, Value>,
}

/// Reads the opening tag of a component's definition, after its first word. The component is kept.
#[tactic(auto, using(crate::proofs::OnTheWay::through_tags))]
pub fn opening_tag(
    setting: &Setting<'_>,
    cursor: &mut Cursor<'_>,
    names: &mut Names,
) -> Result<Opened, Error>
    ensures gives { GivesBy (λ o x. IsOpened o x × Defines names.old names.new x)
        result cursor.new.left
        (opened_of (limits_under setting.now) (met_of names.old.components) cursor.old.left) }
    ensures refusal { IfErr result
        (RefusesKnowing (located_of names.old.components) cursor.old cursor.new) }
    ensures later { IfOk result (λ _. Took cursor.old cursor.new) }
{
    let alloc = cursor.alloc();
    let name = new_component(cursor, &mut names.components)?;
    expect(cursor, Fixed::LeftParen)?;
    let (parameters, places) = read_parameters(setting, cursor)?;
    keep_parameters(alloc, &mut names.parameters, name.as_str(), places)?;
    let metadata = metadata(setting, cursor)?;
    finish(cursor)?;
    Ok(Opened {
        name,
        parameters,
        metadata,
    })
}

// The name of a component that the template did not define before. It is kept.
#[tactic(auto, using(tera_expect::proofs::TakingLemmas::after_tokens))]
fn new_component(cursor: &mut Cursor<'_>, seen: &mut Known) -> Result<String, Error>
    ensures gives { GivesBy (λ s n. IsComponent s n × Keeps seen.old seen.new (placed_name n))
        result cursor.new.left (new_component_of (met_of seen.old) cursor.old.left) }
    ensures refusal { IfErr result
        (RefusesKnowing (located_of seen.old) cursor.old cursor.new) }
    ensures later { IfOk result (λ _. Took cursor.old cursor.new) }
{
    let name = component_name(cursor)?;
    if let Some(first) = place_of(seen, name.as_str()) {
        return Err(repeated_component(cursor, name.as_str(), first));
    }
    keep_name(cursor.alloc(), seen, name.as_str(), cursor.current_span())?;
    Ok(name)
}

// The metadata of a component, where a map is there.
#[tactic(auto, using(tera_expect::proofs::TakingLemmas::on_the_way))]
fn metadata(
    setting: &Setting<'_>,
    cursor: &mut Cursor<'_>,
) -> Result<BTreeMap<String, Value>, Error>
    ensures gives { GivesBy (λ m x. IsMetadata m.entries x) result cursor.new.left
        (metadata_in (limits_under setting.now) cursor.old.left
        (begins LeftBrace cursor.old.left)) }
    ensures refusal { IfErr result (Refuses cursor.old cursor.new) }
    ensures later { IfOk result (λ _. GoesOn cursor.old cursor.new) }
{
    let alloc = cursor.alloc();
    if !begins(cursor, Fixed::LeftBrace) {
        return Ok(BTreeMap::new(alloc));
    }
    let value = literal_map(cursor, "component metadata", setting.limits)?;
    match value.as_map() {
        Some(pairs) => Ok(by_text(alloc, pairs)?),
        None => Ok(BTreeMap::new(alloc)),
    }
}

// The values of a map by the texts of their keys; of two keys with one text the later wins.
fn by_text(alloc: Global, pairs: &Map) -> Result<BTreeMap<String, Value>, AllocError>
    ensures { IfOk result (λ m. map named_value m.entries ≡ put_pairs (pairs_view pairs.now) []) }
{
    let mut values = BTreeMap::new(alloc);
    'pairs: for (key, value) in pairs.iter() {
        let text = key.to_string(alloc)?;
        put_value(&mut values, text, value.clone()?)?;
    }
    Ok(values)
}

// Puts a value to those that are there.
fn put_value(
    values: &mut BTreeMap<String, Value>,
    name: String,
    value: Value,
) -> Result<(), AllocError>
    ensures { OnOk result (map named_value values.new.entries
        ≡ put_name (string_bytes name) (value_view value) (map named_value values.old.entries)) }
{
    let _before = values.insert(name, value)?;
    Ok(())
}

/// Reads the closing tag of the definition of the component with this name.
#[tactic(auto, using(crate::proofs::OnTheWay::through_tags))]
pub fn closing_tag(cursor: &mut Cursor<'_>, name: &str) -> Result<(), Error>
    ensures gives { (start : Edge) (first : Span) (o : reading.Opened) →
        component_text o.name ≡ name.now →
        Passes result cursor.new.left (ending_of start first o cursor.old.left) }
    ensures refusal { IfErr result (Refuses cursor.old cursor.new) }
    ensures later { IfOk result (λ _. Took cursor.old cursor.new) }
{
    closed(cursor, Closer::EndComponent)?;
    end_name(cursor, name)?;
    finish(cursor)
}

// The name at the end of a definition, where one is there; it has to be that of the component.
#[tactic(auto, using(tera_expect::proofs::TakingLemmas::on_the_way))]
fn end_name(cursor: &mut Cursor<'_>, name: &str) -> Result<(), Error>
    ensures gives { Passes result cursor.new.left (agreeing_name name.now cursor.old.left) }
    ensures refusal { IfErr result (Refuses cursor.old cursor.new) }
    ensures later { IfOk result (λ _. GoesOn cursor.old cursor.new) }
{
    if !begins_name(cursor) {
        return Ok(());
    }
    let end = component_name(cursor)?;
    if end.as_str() == name {
        Ok(())
    } else {
        Err(renamed(cursor, "component", name, end.as_str()))
    }
}

//! Whole templates.

ghost use Rattle.std.specs.Prelude.{◌≡◌, ◌⊎◌, IfErr, IfOk, None, OnOk, []};
ghost use Rattle.tera_base.specs.Errors.{IsMemory};
ghost use Rattle.tera_lexer.specs.code.Cursors.{Position};
ghost use Rattle.tera_grammar.specs.statements.Output.{text_adds};
ghost use Rattle.tera_grammar.specs.statements.Reading.{at, step};
ghost use Rattle.tera_grammar.specs.statements.Reading.Meeting.{Seen};
ghost use Rattle.tera_grammar.specs.statements.Reading.Loops.{node_weight, text_weight, turn, weight, with_added};
ghost use Rattle.tera_grammar.specs.statements.Top.{is_blank};
ghost use Rattle.tera_grammar.specs.statements.Reading.TagParts.{front};
ghost use Rattle.tera_statements.specs.Adding.{added_view, here};
ghost use Rattle.tera_tree.specs.Outputs.{output_view};
ghost use Rattle.tera_statements.specs.Items.{AreEmptyTexts, BeginWithoutText, GivesStep, GoesByItem};
ghost use Rattle.tera_tags.specs.Kinds.{kind_of, opens_extends};
ghost use Rattle.tera_tags.specs.Known.{located_of};
ghost use Rattle.tera_tags.specs.Knowing.{RefusesInKnowing};
ghost use Rattle.tera_expr_parts.specs.Allowed.{AreValid, limits_of};
ghost use Rattle.tera_expect.specs.Taking.{RefusesIn, Took};
ghost use Rattle.tera_tags.specs.Settings.{bodies_under, limits_under};
ghost use Rattle.tera_statements.specs.Templates.{Excludes, GivesPhase, GivesTemplate, GivesTextPhase, GivesTop, IsStep, ReadsTemplate, RefusesTemplate, ComesNext, StopsLate, top_depth, phase_if_any, phase_of, weight_of};
ghost use Rattle.tera_tags.specs.declared.fronts.Front.TheVariants as fronts;
ghost use Rattle.tera_tags.specs.declared.fronts.Opener.TheVariants as openers;
ghost use Rattle.tera_ast.specs.View.{node_view};

use crate::added::{Added, is_blank, push_text};
use crate::around::Around;
use crate::faults::{again_extended, ignored, late_extended};
use crate::items::{eat_text, enter, item};
use crate::simple::Extension;
use std::alloc::Global;
use tera_base::{Error, Span};
use tera_expr_parts::Limits;
use tera_lexer::Cursor;
use tera_tags::fronts::{Front, Opener};
use tera_tags::names::Names;
use tera_tags::settings::Setting;
use tera_tags::tag_parts::{quote, unknown_tag};
use tera_tree::{Node, ParserOutput};

// The name of the template that this one extends, as far as it is known.
fn parent_of(output: &ParserOutput) -> Option<&str> {
    match &output.parent {
        Some(name) => Some(name.as_str()),
        None => None,
    }
}

// Adds a text.
fn add_text(output: &mut ParserOutput, alloc: Global, text: &str) -> Result<(), Error>
    ensures added { OnOk result (output_view output.new ≡
        with_added (output_view output.old) (text_adds text.now)) }
    ensures refusal { IfErr result IsMemory }
    ensures empty { IfErr result (λ _. text.now ≡ [] → ⊥) }
{
    push_text(&mut output.nodes, alloc, text)?;
    Ok(())
}

// Adds what an item does.
fn add(output: &mut ParserOutput, added: Added) -> Result<(), Error>
    ensures added { OnOk result (output_view output.new
        ≡ with_added (output_view output.old) (added_view added)) }
    ensures refusal { IfErr result IsMemory }
{
    match added {
        Added::Node(node) => {
            output.nodes.push(node)?;
            Ok(())
        }
        Added::Parent(name) => {
            output.parent = Some(name);
            Ok(())
        }
        Added::Definition(definition) => {
            output.component_definitions.push(definition)?;
            Ok(())
        }
    }
}

/// How the top level of a template has been read so far: from the start; in a template that extends no other; in one
/// that does.
#[derive(Clone, Copy)]
enum Phase {
    Starting,
    Standalone,
    Extending,
}

/// What an item of the top level is: white space, a comment or a definition; a block; an `extends`; anything else.
#[derive(Clone, Copy)]
enum Weight {
    Silent,
    Kept,
    Parent,
    Other,
}

impl Phase {
    // The phase after an item, where such an item may be.
    fn following(self, weight: Weight) -> Option<Phase>
        ensures { phase_if_any result ≡ turn (phase_of self) (weight_of weight) }
    {
        match (self, weight) {
            (Phase::Starting, Weight::Silent) => Some(Phase::Starting),
            (Phase::Starting, Weight::Parent) => Some(Phase::Extending),
            (Phase::Starting, Weight::Kept | Weight::Other) => Some(Phase::Standalone),
            (Phase::Standalone, Weight::Parent) => None,
            (Phase::Standalone, _) => Some(Phase::Standalone),
            (Phase::Extending, Weight::Silent | Weight::Kept) => Some(Phase::Extending),
            (Phase::Extending, Weight::Parent | Weight::Other) => None,
        }
    }

    // The phase after a text, where such a text may be. In most templates each may, after the start.
    #[tactic(auto, using(crate::proofs::TemplatesLemmas::standalone_text, crate::proofs::TemplatesLemmas::weight_text))]
    fn after_text(self, text: &str) -> Option<Phase>
        ensures { phase_if_any result ≡ turn (phase_of self) (weight (text_adds text.now)) }
    {
        match self {
            Phase::Standalone => Some(Phase::Standalone),
            _ => self.following(text_weight(text)),
        }
    }
}

// What an item is to the top level.
fn weigh(added: &Added) -> Weight
    ensures { weight_of result ≡ weight (added_view added.now) }
{
    match added {
        Added::Definition(_) => Weight::Silent,
        Added::Parent(_) => Weight::Parent,
        Added::Node(node) => node_weight(node),
    }
}

// What a node is to it.
fn node_weight(node: &Node) -> Weight
    ensures { weight_of result ≡ node_weight (node_view node.now) }
{
    match node {
        Node::Content(text) => text_weight(text.as_str()),
        Node::Block(_) => Weight::Kept,
        _ => Weight::Other,
    }
}

// What a text is to it.
fn text_weight(text: &str) -> Weight
    ensures { weight_of result ≡ text_weight (is_blank text.now) }
{
    if is_blank(text) {
        Weight::Silent
    } else {
        Weight::Other
    }
}

/// Reads the tokens that are left as a whole template, with the names that it defines, within limits that
/// [`Limits::valid`](tera_expr_parts::Limits::valid) accepts.
///
/// An error is the first fault that is met from left to right: the lexical fault, the end of the input, or a syntax
/// error, whose notes name no file; or it is `Memory`. Empty texts, as comments are, take no memory.
pub fn read_output(mut cursor: Cursor<'_>, limits: Limits) -> Result<(ParserOutput, Names), Error>
    requires { AreValid (limits_of limits) }
    ensures gives { GivesTemplate (limits_of limits) result cursor.entry.left }
    ensures refusal { IfErr result (RefusesTemplate (limits_of limits) cursor.entry) }
    ensures empty { IfErr result (λ _. AreEmptyTexts cursor.entry.left → ⊥) }
{
    let setting = Setting {
        limits,
        parent: None,
    };
    whole(&setting, &mut cursor)
}

// Reads a whole template.
#[tactic(auto, using(tera_tags::proofs::RefusalLemmas::goes_inside, tera_tags::proofs::RefusalLemmas::memory_inside))]
fn whole(setting: &Setting<'_>, cursor: &mut Cursor<'_>) -> Result<(ParserOutput, Names), Error>
    ensures gives { ReadsTemplate (limits_under setting.now) result cursor.old.left cursor.new.left }
    ensures refusal { IfErr result (RefusesIn cursor.old cursor.new) }
    ensures empty { IfErr result (λ _. AreEmptyTexts cursor.old.left → ⊥) }
{
    let alloc = cursor.alloc();
    let mut names = Names::new(alloc);
    let mut output = ParserOutput::empty(alloc);
    let mut phase = Phase::Starting;
    'items: while let Some(next) = next_phase(setting, cursor, &mut names, &mut output, phase)? {
        phase = next;
    }
    if !cursor.at_end() {
        return Err(unknown_tag(cursor));
    }
    Ok((output, names))
}

// Takes the next item of the top level, where one is there, and returns the phase after it.
fn next_phase(
    setting: &Setting<'_>,
    cursor: &mut Cursor<'_>,
    names: &mut Names,
    output: &mut ParserOutput,
    phase: Phase,
) -> Result<Option<Phase>, Error>
    ensures gives { GivesPhase (limits_under setting.now) phase result (output_view output.new)
        (output_view output.old) (here names.new cursor.new) (here names.old cursor.old) }
    ensures refusal { IfErr result
        (RefusesInKnowing (located_of names.old.components) cursor.old cursor.new) }
    ensures empty { IfErr result (λ _. AreEmptyTexts cursor.old.left → ⊥) }
    ensures later { GoesByItem result cursor.old cursor.new }
{
    match eat_text(cursor) {
        Some(text) => text_phase(cursor, output, phase, text),
        None => item_phase(setting, cursor, names, output, phase),
    }
}

// Takes what a text adds, which was taken last, and returns the phase after it.
#[tactic(auto, using(tera_tags::proofs::RefusalLemmas::memory_inside))]
fn text_phase(
    cursor: &Cursor<'_>,
    output: &mut ParserOutput,
    phase: Phase,
    text: &str,
) -> Result<Option<Phase>, Error>
    ensures gives { GivesTextPhase text.now phase result (output_view output.new)
        (output_view output.old) }
    ensures refusal { (old : Position) → Took old cursor.now → IfErr result (RefusesIn old cursor.now) }
    ensures empty { IfErr result (λ _. text.now ≡ [] → ⊥) }
{
    let Some(next) = phase.after_text(text) else {
        return Err(ignored(cursor, None));
    };
    add_text(output, cursor.alloc(), text)?;
    Ok(Some(next))
}

// Takes what the next item adds, where one is there, which is not a text, and returns the phase after it.
#[tactic(auto, using(tera_tags::proofs::KnowingLemmas::memory_inside_knowing))]
fn item_phase(
    setting: &Setting<'_>,
    cursor: &mut Cursor<'_>,
    names: &mut Names,
    output: &mut ParserOutput,
    phase: Phase,
) -> Result<Option<Phase>, Error>
    requires { BeginWithoutText cursor.old.left }
    ensures gives { GivesPhase (limits_under setting.now) phase result (output_view output.new)
        (output_view output.old) (here names.new cursor.new) (here names.old cursor.old) }
    ensures refusal { IfErr result
        (RefusesInKnowing (located_of names.old.components) cursor.old cursor.new) }
    ensures empty { IfErr result (λ _. AreEmptyTexts cursor.old.left → ⊥) }
    ensures later { GoesByItem result cursor.old cursor.new }
{
    let Some((added, next)) = next_item(setting, cursor, names, parent_of(output), phase)? else {
        return Ok(None);
    };
    add(output, added)?;
    Ok(Some(next))
}

// Reads the next item of the top level, where one is there, and returns the phase after it.
#[tactic(auto, using(tera_tags::proofs::KnowingLemmas::memory_inside_knowing))]
fn next_item(
    setting: &Setting<'_>,
    cursor: &mut Cursor<'_>,
    names: &mut Names,
    parent: Option<&str>,
    phase: Phase,
) -> Result<Option<(Added, Phase)>, Error>
    requires { BeginWithoutText cursor.old.left }
    ensures gives { GivesTop (limits_under setting.now) phase result (here names.new cursor.new)
        (here names.old cursor.old) }
    ensures refusal { IfErr result
        (RefusesInKnowing (located_of names.old.components) cursor.old cursor.new) }
    ensures empty { IfErr result (λ _. AreEmptyTexts cursor.old.left → ⊥) }
    ensures later { GoesByItem result cursor.old cursor.new }
{
    refuse_extends(setting, cursor, parent, phase)?;
    let first = next_place(cursor);
    let Some(added) = top_item(setting, cursor, names, parent)? else {
        return Ok(None);
    };
    let Some(next) = phase.following(weigh(&added)) else {
        return Err(ignored(cursor, first));
    };
    Ok(Some((added, next)))
}

// Refuses an `extends` that comes next, where none may be.
fn refuse_extends(
    setting: &Setting<'_>,
    cursor: &mut Cursor<'_>,
    parent: Option<&str>,
    phase: Phase,
) -> Result<(), Error>
    ensures stays { IfOk result (λ _. cursor.new ≡ cursor.old) }
    ensures step { IfOk result (λ _. (seen : Seen) →
        IsStep (limits_under setting.now) (phase_of phase) (at seen cursor.old.left)) }
    ensures excludes { IfErr result (λ e. IsMemory e ⊎ ((seen : Seen) →
        Excludes (limits_under setting.now) (at seen cursor.old.left) (phase_of phase) cursor.new.left)) }
    ensures refusal { IfErr result (RefusesIn cursor.old cursor.new) }
    ensures empty { IfErr result (λ _. AreEmptyTexts cursor.old.left → ⊥) }
{
    if phase.following(Weight::Parent).is_some() {
        return Ok(());
    }
    if extends_next(cursor) {
        return Err(late_extends(cursor, parent));
    }
    Ok(())
}

// Whether an `extends` comes next.
fn extends_next(cursor: &Cursor<'_>) -> bool
    ensures { result ≡ opens_extends (kind_of (front cursor.now.left)) }
{
    matches!(Front::at(cursor), Front::Opens(Opener::Extends))
}

// That an `extends`, which comes next, is where none may. It is taken up to its string, at which that is reported.
#[tactic(auto, using(tera_tags::proofs::RefusalLemmas::took_inside))]
fn late_extends(cursor: &mut Cursor<'_>, parent: Option<&str>) -> Error
    requires { fronts.Opens openers.Extends ≡ kind_of (front cursor.old.left) }
    ensures refusal { RefusesIn cursor.old cursor.new result }
    ensures late { IsMemory result ⊎ StopsLate cursor.old.left cursor.new.left }
{
    match take_extends(cursor) {
        Ok(()) => match parent {
            Some(parent) => again_extended(cursor, parent),
            None => late_extended(cursor),
        },
        Err(error) => error,
    }
}

// Takes an `extends`, which comes next, up to its string.
#[tactic(auto, using(tera_expect::proofs::TakingLemmas::took_all, tera_tags::proofs::RefusalLemmas::took_inside, tera_tags::proofs::RefusalLemmas::memory_inside))]
fn take_extends(cursor: &mut Cursor<'_>) -> Result<(), Error>
    requires { fronts.Opens openers.Extends ≡ kind_of (front cursor.old.left) }
    ensures late { IfOk result (λ _. StopsLate cursor.old.left cursor.new.left) }
    ensures fails { IfErr result (λ e.
        IsMemory e ⊎ StopsLate cursor.old.left cursor.new.left) }
    ensures refusal { IfErr result (RefusesIn cursor.old cursor.new) }
    ensures later { IfOk result (λ _. Took cursor.old cursor.new) }
{
    enter(cursor, Opener::Extends)?;
    let _ = quote(cursor)?;
    Ok(())
}

// Where the next token is, if it is shown.
fn next_place(cursor: &Cursor<'_>) -> Option<Span>
    ensures { ComesNext result cursor.now }
{
    match cursor.first_span() {
        Some(span) => Some(span.copied()),
        None => None,
    }
}

// Reads the next item of the top level, where one is there; the template extends this parent, as far as it is known.
fn top_item(
    setting: &Setting<'_>,
    cursor: &mut Cursor<'_>,
    names: &mut Names,
    parent: Option<&str>,
) -> Result<Option<Added>, Error>
    requires { BeginWithoutText cursor.old.left }
    ensures gives { GivesStep [] result (here names.new cursor.new) (here names.old cursor.old)
        (step (limits_under setting.now)
        (bodies_under setting.now (top_depth (limits_under setting.now))) []
        (here names.old cursor.old).seen cursor.old.left (front cursor.old.left)) }
    ensures refusal { IfErr result
        (RefusesInKnowing (located_of names.old.components) cursor.old cursor.new) }
    ensures empty { IfErr result (λ _. AreEmptyTexts cursor.old.left → ⊥) }
    ensures later { GoesByItem result cursor.old cursor.new }
{
    let inside = Setting {
        limits: setting.limits,
        parent,
    };
    let around = Around::nothing();
    let depth = setting.limits.bodies - 1;
    item(&inside, cursor, names, &around, Extension::Free, depth)
}

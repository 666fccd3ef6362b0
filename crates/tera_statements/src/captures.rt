//! The statements that take their body as a value.

ghost use Rattle.std.specs.Prelude.{◌≡◌, ◌⊎◌, IfErr, IfOk, false, true};
ghost use Rattle.std.specs.Str.{bytes_eq};
ghost use Rattle.tera_base.specs.Errors.{IsMemory};
ghost use Rattle.tera_grammar.specs.statements.Expressions.{ComponentName, component_text};
ghost use Rattle.tera_grammar.specs.statements.Reading.Expressions.{component_of};
ghost use Rattle.tera_grammar.specs.statements.Reading.{call_end, call_of, section_of, set_of};
ghost use Rattle.tera_statements.specs.Adding.{AddsBy, here, seen_of};
ghost use Rattle.tera_statements.specs.Captures.{GivesSetBody, GivesSetValue, IsCallEnd, IsNoBody};
ghost use Rattle.tera_tags.specs.Reading.{IsComponent};
ghost use Rattle.tera_tags.specs.Settings.{bodies_under, limits_under};
ghost use Rattle.tera_expect.specs.Taking.{GivesBy, Refuses, Took};
ghost use Rattle.tera_ast.specs.Tree as tree;
ghost use Rattle.tera_ast.specs.View.{expression_view, node_view};

use crate::added::Added;
use crate::around::{Around, Context, Opening};
use crate::bodies::body;
use crate::faults::{no_called_name, nothing_to_set, other_call, unclosed_call};
use tera_base::{Error, Span};
use tera_expect::{Fixed, begins_name, eat, expect};
use tera_expr_parts::{free_name, spanning};
use tera_expr_reader::component_name;
use tera_lexer::{Cursor, Token};
use tera_tags::fronts::Closer;
use tera_tags::heads::{attributes_to_end, expression_to_end, filters_to_end, section_to_end};
use tera_tags::names::Names;
use tera_tags::settings::Setting;
use tera_tags::tag_parts::{closed, closed_tag, finish};
use tera_tree::{Expression, Node, build};

/// A variable that is set, for the whole template or not.
#[derive(Clone, Copy)]
pub(crate) struct Variable<'a> {
    pub name: &'a str,
    pub global: bool,
}

/// Reads the rest of a `set` or a `set_global`, whose word was taken last.
#[cycle(bodies)]
#[tactic(auto, using(tera_expect::proofs::TakingLemmas::after_tokens))]
pub(crate) fn set(
    setting: &Setting<'_>,
    cursor: &mut Cursor<'_>,
    names: &mut Names,
    around: &Around,
    global: bool,
    depth: usize,
) -> Result<Added, Error>
    ensures gives { AddsBy around.now result (here names.new cursor.new) (λ path start.
        set_of (limits_under setting.now) (bodies_under setting.now depth) path global start
        cursor.old.span (seen_of names.old) cursor.old.left) }
    ensures refusal { IfErr result (Refuses cursor.old cursor.new) }
    ensures later { IfOk result (λ _. Took cursor.old cursor.new) }
{
    let opening = Opening {
        context: Context::Set,
        at: cursor.current_span().copied(),
    };
    let name = free_name(cursor, "assigned to.")?;
    let variable = Variable { name, global };
    if eat(cursor, Fixed::Assign) {
        return set_value(setting, cursor, around, variable);
    }
    set_body(setting, cursor, names, around, &opening, variable, depth)
}

// The value of a variable, after the equals sign, which was taken last.
#[tactic(auto, using(tera_expect::proofs::TakingLemmas::after_tokens))]
fn set_value(
    setting: &Setting<'_>,
    cursor: &mut Cursor<'_>,
    around: &Around,
    variable: Variable<'_>,
) -> Result<Added, Error>
    ensures gives { GivesSetValue (limits_under setting.now) around.now
        variable.entry.name.now variable.entry.global result cursor.new cursor.old }
    ensures refusal { IfErr result (Refuses cursor.old cursor.new) }
    ensures later { IfOk result (λ _. Took cursor.old cursor.new) }
{
    let value = expression_to_end(setting, cursor, around.in_loop)?;
    let name = String::from_str(cursor.alloc(), variable.name)?;
    Ok(Added::Node(build::set(name, value, variable.global)))
}

// The filters and the body that a variable takes, after its name.
#[cycle(bodies)]
#[tactic(auto, using(tera_tags::proofs::OnTheWay::through_tags))]
fn set_body(
    setting: &Setting<'_>,
    cursor: &mut Cursor<'_>,
    names: &mut Names,
    around: &Around,
    opening: &Opening,
    variable: Variable<'_>,
    depth: usize,
) -> Result<Added, Error>
    ensures gives { GivesSetBody (limits_under setting.now) depth around.now opening.now.context
        variable.entry.name.now variable.entry.global result
        (here names.new cursor.new) (here names.old cursor.old) }
    ensures refusal { IfErr result (Refuses cursor.old cursor.new) }
    ensures later { IfOk result (λ _. Took cursor.old cursor.new) }
{
    let alloc = cursor.alloc();
    check_set(cursor)?;
    let filters = filters_to_end(setting, cursor, around.in_loop, Vec::new(alloc))?;
    let inside = body(setting, cursor, names, around, opening, depth)?;
    closed_tag(cursor, Closer::EndSet)?;
    let name = String::from_str(alloc, variable.name)?;
    Ok(Added::Node(build::block_set(name, filters, inside, variable.global)))
}

// Refuses what begins neither filters nor a body.
fn check_set(cursor: &Cursor<'_>) -> Result<(), Error>
    ensures fails { IfErr result (IsNoBody cursor.now.left) }
    ensures refusal { IfErr result (Refuses cursor.now cursor.now) }
{
    match cursor.first() {
        Some(Token::Pipe | Token::TagEnd(_)) => Ok(()),
        _ => Err(nothing_to_set(cursor)),
    }
}

/// Reads the rest of a filter section, whose word was taken last.
#[cycle(bodies)]
#[tactic(auto, using(tera_tags::proofs::OnTheWay::through_tags))]
pub(crate) fn section(
    setting: &Setting<'_>,
    cursor: &mut Cursor<'_>,
    names: &mut Names,
    around: &Around,
    depth: usize,
) -> Result<Added, Error>
    ensures gives { AddsBy around.now result (here names.new cursor.new) (λ path start.
        section_of (limits_under setting.now) (bodies_under setting.now depth) path start
        cursor.old.span (seen_of names.old) cursor.old.left) }
    ensures refusal { IfErr result (Refuses cursor.old cursor.new) }
    ensures later { IfOk result (λ _. Took cursor.old cursor.new) }
{
    let opening = Opening {
        context: Context::Filter,
        at: cursor.current_span().copied(),
    };
    let filters = section_to_end(setting, cursor, around.in_loop)?;
    let inside = body(setting, cursor, names, around, &opening, depth)?;
    closed_tag(cursor, Closer::EndFilter)?;
    Ok(Added::Node(build::filter_section(filters, inside)))
}

/// Reads the rest of a call of a component, whose `<` was taken last.
#[cycle(bodies)]
#[tactic(auto, using(tera_tags::proofs::OnTheWay::through_tags))]
pub(crate) fn call(
    setting: &Setting<'_>,
    cursor: &mut Cursor<'_>,
    names: &mut Names,
    around: &Around,
    depth: usize,
) -> Result<Added, Error>
    ensures gives { AddsBy around.now result (here names.new cursor.new) (λ path start.
        call_of (limits_under setting.now) (bodies_under setting.now depth) path start
        cursor.old.span (seen_of names.old) cursor.old.left) }
    ensures refusal { IfErr result (Refuses cursor.old cursor.new) }
    ensures later { IfOk result (λ _. Took cursor.old cursor.new) }
{
    let opening = Opening {
        context: Context::Call,
        at: cursor.current_span().copied(),
    };
    let name = called_name(cursor)?;
    let attributes = attributes_to_end(setting, cursor, around.in_loop)?;
    let inside = body(setting, cursor, names, around, &opening, depth)?;
    let last = call_end(cursor, name.as_str())?;
    let span = spanning(&opening.at, &last);
    let call = build::component_call(cursor.alloc(), name, attributes, inside, false, span)?;
    Ok(Added::Node(shown_node(call)))
}

/// The node of an expression that is shown.
pub(crate) fn shown_node(expr: Expression) -> Node
    ensures { node_view result ≡ tree.Shown (expression_view expr) }
{
    Node::Expression(expr)
}

// The name of a component after the `<` of a tag, which was taken last.
fn called_name(cursor: &mut Cursor<'_>) -> Result<String, Error>
    ensures gives { GivesBy IsComponent result cursor.new.left (component_of cursor.old.left) }
    ensures refusal { IfErr result (Refuses cursor.old cursor.new) }
    ensures later { IfOk result (λ _. Took cursor.old cursor.new) }
{
    if !begins_name(cursor) {
        return Err(no_called_name(cursor));
    }
    component_name(cursor)
}

// The closing tag of a call of the component with this name, and where its `>` is.
#[tactic(auto, using(tera_expect::proofs::TakingLemmas::after_tokens))]
fn call_end(cursor: &mut Cursor<'_>, name: &str) -> Result<Span, Error>
    ensures gives { (n : ComponentName) → component_text n ≡ name.now →
        GivesBy IsCallEnd result cursor.new.left (call_end n cursor.old.left) }
    ensures refusal { IfErr result (Refuses cursor.old cursor.new) }
    ensures later { IfOk result (λ _. Took cursor.old cursor.new) }
{
    if cursor.at_end() {
        return Err(unclosed_call(cursor, name));
    }
    closed(cursor, Closer::EndCall)?;
    let end = component_name(cursor)?;
    check_call_name(cursor, name, end.as_str())?;
    expect(cursor, Fixed::GreaterThan)?;
    let last = cursor.current_span().copied();
    finish(cursor)?;
    Ok(last)
}

// Refuses a closing tag of another name, which was taken last.
fn check_call_name(cursor: &Cursor<'_>, name: &str, end: &str) -> Result<(), Error>
    ensures same { IfOk result (λ _. bytes_eq end.now name.now ≡ true) }
    ensures fails { IfErr result (λ e. IsMemory e ⊎ (bytes_eq end.now name.now ≡ false)) }
    ensures refusal { IfErr result (Refuses cursor.now cursor.now) }
{
    if end == name {
        return Ok(());
    }
    Err(other_call(cursor, name, end))
}

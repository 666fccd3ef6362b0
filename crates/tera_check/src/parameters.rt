//! The parameters of components that nothing in their bodies names.

ghost use Rattle.std.specs.Prelude.{◌≡◌, ◌++◌, ◌∷◌, [], ◌||◌, ◌&&◌, not, false, ℕ, List, Bool, Some, map, string_bytes, bytes_eq, IfOk, OnOk};
ghost use Rattle.std.specs.List.{flat_map};
ghost use Rattle.std.specs.Option.{option_map};
ghost use Rattle.tera_base.specs.Spanned.{node_of, span_of};
ghost use Rattle.tera_ast.specs.View.{expression_view, node_view, nodes_view, name_view, maybe_view};
ghost use Rattle.tera_ast.specs.declared.ast.ComponentCall.{out-ComponentCall};
ghost use Rattle.tera_ast.specs.declared.ast.ForLoop.{out-ForLoop};
ghost use Rattle.tera_tree.specs.Parts.{part_view, parts_view, parts_of_nodes, parts_of_maybe, ExpressionPart};
ghost use Rattle.tera_tree.specs.View.{definition_view};
ghost use Rattle.tera_findings.specs.Findings.{finding_view, span_if_any};
ghost use Rattle.tera_rules.specs.Judged.{known_view, taken_by};
ghost use Rattle.tera_check.specs.Named.{known_in, taken_in};
ghost use Rattle.tera_check.specs.Parameters.{Taking, binds, variable_names, named_in, named_in_node, named_in_nodes, named_in_maybe, may_be_unused, parameter_at, unused, unused_if, unused_of, unused_rest, unused_in};
ghost use Rattle.tera_check.specs.Scopes.{is_hidden, named_in_part, named_in_parts, named_in_scope, is_to_come, is_named, AreTaken};

use crate::catalogue::Catalogue;
use crate::messages::unused_parameter;
use std::alloc::{AllocError, Global};
use std::collections::BTreeMap;
use tera_findings::{Finding, Kind, first_span, push_finding};
use tera_parser::ParserOutput;
use tera_parser::ast::{
    ComponentCall, ComponentDefinition, Expression, ForLoop, ListComprehension, Node, Part, Parts,
    Var, push_nodes,
};
use tera_parser::value::{Span, Spanned};
use tera_rules::{Known, Spans, put_span};
use tera_templates::Template;

/// Adds a finding for each parameter that nothing in the body of its component names, at the place of the parameter.
pub(crate) fn push_all_unused(
    alloc: Global,
    findings: &mut Vec<Finding>,
    catalogue: &Catalogue<'_>,
    template: &Template,
    output: &ParserOutput,
) -> Result<(), AllocError>
    ensures { OnOk result (map finding_view findings.new.items ≡ map finding_view findings.old.items
        ++ flat_map (unused_in (taken_in (known_in catalogue.now)) (parameter_at template.now))
        (map definition_view output.now.component_definitions.items)) }
{
    for definition in &output.component_definitions {
        push_unused(alloc, findings, catalogue, template, definition)?;
    }
    Ok(())
}

fn push_unused(
    alloc: Global,
    findings: &mut Vec<Finding>,
    catalogue: &Catalogue<'_>,
    template: &Template,
    definition: &ComponentDefinition,
) -> Result<(), AllocError>
    ensures { OnOk result (map finding_view findings.new.items ≡ map finding_view findings.old.items
        ++ unused_in (taken_in (known_in catalogue.now)) (parameter_at template.now) (definition_view definition.now)) }
{
    let naming = naming_of(alloc, catalogue, &definition.body)?;
    push_unused_arguments(alloc, findings, template, definition, &naming)?;
    push_unused_rest(alloc, findings, template, definition, &naming)
}

fn push_unused_arguments(
    alloc: Global,
    findings: &mut Vec<Finding>,
    template: &Template,
    definition: &ComponentDefinition,
    naming: &Naming<'_, '_>,
) -> Result<(), AllocError>
    ensures { let d = definition_view definition.now in
        OnOk result (map finding_view findings.new.items ≡ map finding_view findings.old.items
        ++ flat_map (λ a. unused_if d (is_named naming.now) (parameter_at template.now d.name) a.0)
        d.arguments) }
{
    for (name, _argument) in definition.kwargs.iter() {
        push_if_unused(alloc, findings, template, definition, naming, name.as_str())?;
    }
    Ok(())
}

fn push_unused_rest(
    alloc: Global,
    findings: &mut Vec<Finding>,
    template: &Template,
    definition: &ComponentDefinition,
    naming: &Naming<'_, '_>,
) -> Result<(), AllocError>
    ensures { let d = definition_view definition.now in
        OnOk result (map finding_view findings.new.items ≡ map finding_view findings.old.items
        ++ unused_rest d (is_named naming.now) (parameter_at template.now d.name) d.rest) }
{
    match &definition.rest_param_name {
        Some(rest) => {
            push_if_unused(alloc, findings, template, definition, naming, rest.as_str())
        }
        None => Ok(()),
    }
}

fn push_if_unused(
    alloc: Global,
    findings: &mut Vec<Finding>,
    template: &Template,
    definition: &ComponentDefinition,
    naming: &Naming<'_, '_>,
    name: &str,
) -> Result<(), AllocError>
    ensures { let d = definition_view definition.now in
        OnOk result (map finding_view findings.new.items ≡ map finding_view findings.old.items
        ++ unused_if d (is_named naming.now) (parameter_at template.now d.name) name.now) }
{
    if may_be_unused(name) || naming.has(name) {
        return Ok(());
    }
    let component = definition.name.as_str();
    let span = place_of(template, component, name);
    push_finding(findings, unused(alloc, component, name, span)?)
}

/// Whether the name says that its parameter, or its component, may be unused.
pub(crate) fn may_be_unused(name: &str) -> bool
    ensures { result ≡ may_be_unused name.now }
{
    name.as_bytes().starts_with(b"_")
}

// Where the parameter of the component is; if the template has no place for it, the start of the file.
fn place_of(template: &Template, component: &str, name: &str) -> Span
    ensures { result ≡ span_if_any (parameter_at template.now component.now name.now) }
{
    match parameter_at(template, component, name) {
        Some(span) => span.copied(),
        None => first_span(),
    }
}

fn parameter_at<'a>(template: &'a Template, component: &str, name: &str) -> Option<&'a Span>
    ensures { option_map (λ s. s.now) result ≡ parameter_at template.now component.now name.now }
{
    template.parameters_at.get(component)?.get(name)
}

fn unused(alloc: Global, component: &str, name: &str, span: Span) -> Result<Finding, AllocError>
    ensures { IfOk result (λ f. finding_view f ≡ unused component.now name.now span) }
{
    let message = unused_parameter(alloc, component, name)?;
    Ok(Finding::new(alloc, Kind::UnusedParameter, &span, message))
}

// The names of variables, and the names that calls may take, each with the place of one of them; or `all` names.
#[derive(Drop)]
struct Naming<'a, 'c> {
    all: bool,
    names: Spans<'a, 'a>,
    taken: Spans<'c, 'a>,
}

impl<'a, 'c> Naming<'a, 'c> {
    fn has(&self, name: &str) -> bool
        ensures { result ≡ is_named self.now name.now }
    {
        self.all || self.names.contains_key(name) || self.taken.contains_key(name)
    }
}

// Parts that are still to be taken, and the names that loops and comprehensions around them give.
#[derive(Drop)]
struct Scope<'a> {
    hidden: Vec<&'a str>,
    parts: Parts<'a>,
}

// What the body names. A body of more parts than a `u64` counts, which no memory holds, gives an allocation failure.
fn naming_of<'a, 'c>(
    alloc: Global,
    catalogue: &Catalogue<'c>,
    body: &'a Vec<Node>,
) -> Result<Naming<'a, 'c>, AllocError>
    ensures { IfOk result (λ s. (n : List ℕ) → is_named s n
        ≡ named_in_nodes (taken_in (known_in catalogue.now)) false n (nodes_view body.now.items)) }
{
    let mut naming = Naming {
        all: false,
        names: BTreeMap::new(alloc),
        taken: BTreeMap::new(alloc),
    };
    let mut scopes = Vec::new(alloc);
    scopes.push(scope_of(alloc, Vec::new(alloc), body)?)?;
    for _part in 0..u64::MAX {
        if naming.all {
            return Ok(naming);
        }
        match scopes.pop() {
            Some(scope) => take_last(alloc, catalogue, &mut naming, &mut scopes, scope)?,
            None => return Ok(naming),
        }
    }
    Err(AllocError)
}

fn scope_of<'a>(
    alloc: Global,
    hidden: Vec<&'a str>,
    body: &'a Vec<Node>,
) -> Result<Scope<'a>, AllocError>
    ensures { IfOk result (λ s. (takes : Taking) (n : List ℕ) → named_in_scope takes n s
        ≡ named_in_nodes takes (is_hidden hidden.entry.items n) n (nodes_view body.now.items)) }
{
    let mut parts = Vec::new(alloc);
    push_nodes(&mut parts, body)?;
    Ok(Scope { hidden, parts })
}

// Takes the last part of the scope, if there is one.
fn take_last<'a, 'c>(
    alloc: Global,
    catalogue: &Catalogue<'c>,
    naming: &mut Naming<'a, 'c>,
    scopes: &mut Vec<Scope<'a>>,
    mut scope: Scope<'a>,
) -> Result<(), AllocError>
    ensures { let takes = taken_in (known_in catalogue.now) in
        OnOk result ((n : List ℕ) → (is_named naming.new n || is_to_come takes n scopes.new.items)
        ≡ (is_named naming.old n
        || (is_to_come takes n scopes.old.items || named_in_scope takes n scope.entry))) }
{
    let inside = &mut scope;
    match inside.parts.pop() {
        Some(part) => {
            take(
                alloc,
                catalogue,
                naming,
                scopes,
                &inside.hidden,
                &mut inside.parts,
                part,
            )?;
            scopes.push(scope)?;
            Ok(())
        }
        None => Ok(()),
    }
}

// Takes the part. Scopes inside it are added after the others.
fn take<'a, 'c>(
    alloc: Global,
    catalogue: &Catalogue<'c>,
    naming: &mut Naming<'a, 'c>,
    scopes: &mut Vec<Scope<'a>>,
    hidden: &Vec<&'a str>,
    parts: &mut Parts<'a>,
    part: Part<'a>,
) -> Result<(), AllocError>
    ensures { let takes = taken_in (known_in catalogue.now) in OnOk result (AreTaken takes hidden.now.items
        (λ h n. named_in_part takes h n (part_view part.entry))
        naming.old scopes.old.items parts.old.items naming.new scopes.new.items parts.new.items) }
{
    match part {
        Part::Node(node) => take_node(alloc, catalogue, naming, scopes, hidden, parts, node),
        Part::Expression(expression) => {
            take_expression(alloc, catalogue, naming, scopes, hidden, parts, expression)
        }
    }
}

fn take_node<'a, 'c>(
    alloc: Global,
    catalogue: &Catalogue<'c>,
    naming: &mut Naming<'a, 'c>,
    scopes: &mut Vec<Scope<'a>>,
    hidden: &Vec<&'a str>,
    parts: &mut Parts<'a>,
    node: &'a Node,
) -> Result<(), AllocError>
    ensures { let takes = taken_in (known_in catalogue.now) in OnOk result (AreTaken takes hidden.now.items
        (λ h n. named_in_node takes h n (node_view node.now))
        naming.old scopes.old.items parts.old.items naming.new scopes.new.items parts.new.items) }
{
    match node {
        Node::ForLoop(turns) => take_loop(alloc, scopes, hidden, parts, turns),
        Node::Include(_) => {
            naming.all = true;
            Ok(())
        }
        Node::Content(_)
        | Node::Expression(_)
        | Node::Set(_)
        | Node::BlockSet(_)
        | Node::Block(_)
        | Node::Break
        | Node::Continue
        | Node::If(_)
        | Node::FilterSection(_) => Part::Node(node).push_inside(parts),
    }
}

fn take_loop<'a>(
    alloc: Global,
    scopes: &mut Vec<Scope<'a>>,
    hidden: &Vec<&'a str>,
    parts: &mut Parts<'a>,
    turns: &'a ForLoop,
) -> Result<(), AllocError>
    ensures { let t = out-ForLoop turns.now in
        OnOk result ((takes : Taking) (n : List ℕ) → (let h = is_hidden hidden.now.items n in
        let inner = h || binds (name_view t.key) (string_bytes t.value) n in
        (is_to_come takes n scopes.new.items || named_in_parts takes h n (parts_view parts.new.items))
        ≡ (is_to_come takes n scopes.old.items || (named_in_parts takes h n (parts_view parts.old.items)
        || (named_in takes h n (expression_view t.target)
        || (named_in_nodes takes inner n (nodes_view t.body.items)
        || named_in_nodes takes h n (nodes_view t.else_body.items))))))) }
{
    parts.push(Part::Expression(&turns.target))?;
    push_nodes(parts, &turns.else_body)?;
    let inner = hidden_inside(alloc, hidden, &turns.key, &turns.value)?;
    scopes.push(scope_of(alloc, inner, &turns.body)?)?;
    Ok(())
}

fn take_expression<'a, 'c>(
    alloc: Global,
    catalogue: &Catalogue<'c>,
    naming: &mut Naming<'a, 'c>,
    scopes: &mut Vec<Scope<'a>>,
    hidden: &Vec<&'a str>,
    parts: &mut Parts<'a>,
    expression: &'a Expression,
) -> Result<(), AllocError>
    ensures { let takes = taken_in (known_in catalogue.now) in OnOk result (AreTaken takes hidden.now.items
        (λ h n. named_in takes h n (expression_view expression.now))
        naming.old scopes.old.items parts.old.items naming.new scopes.new.items parts.new.items) }
{
    match expression {
        Expression::ListComprehension(list) => {
            take_comprehension(alloc, scopes, hidden, parts, list.node())
        }
        Expression::Var(variable) => take_variable(naming, hidden, variable),
        Expression::ComponentCall(call) => {
            take_call(catalogue, naming, hidden, call)?;
            Part::Expression(expression).push_inside(parts)
        }
        Expression::Const(_)
        | Expression::Array(_)
        | Expression::Map(_)
        | Expression::GetAttr(_)
        | Expression::GetItem(_)
        | Expression::Slice(_)
        | Expression::Filter(_)
        | Expression::Test(_)
        | Expression::Ternary(_)
        | Expression::FunctionCall(_)
        | Expression::UnaryOperation(_)
        | Expression::BinaryOperation(_) => Part::Expression(expression).push_inside(parts),
    }
}

fn take_comprehension<'a>(
    alloc: Global,
    scopes: &mut Vec<Scope<'a>>,
    hidden: &Vec<&'a str>,
    parts: &mut Parts<'a>,
    list: &'a ListComprehension,
) -> Result<(), AllocError>
    ensures { OnOk result ((takes : Taking) (n : List ℕ) → (let h = is_hidden hidden.now.items n in
        let inner = h || binds (name_view list.now.key) (string_bytes list.now.value) n in
        (is_to_come takes n scopes.new.items || named_in_parts takes h n (parts_view parts.new.items))
        ≡ (is_to_come takes n scopes.old.items || (named_in_parts takes h n (parts_view parts.old.items)
        || (named_in takes inner n (expression_view list.now.expr)
        || (named_in takes h n (expression_view list.now.target)
        || named_in_maybe takes inner n (maybe_view list.now.condition))))))) }
{
    parts.push(Part::Expression(&list.target))?;
    let hidden = hidden_inside(alloc, hidden, &list.key, &list.value)?;
    let mut parts = Vec::new(alloc);
    parts.push(Part::Expression(&list.expr))?;
    if let Some(condition) = &list.condition {
        parts.push(Part::Expression(condition))?;
    }
    scopes.push(Scope { hidden, parts })?;
    Ok(())
}

// These names, and those that a loop or a comprehension gives.
fn hidden_inside<'a>(
    alloc: Global,
    hidden: &Vec<&'a str>,
    key: &'a Option<String>,
    value: &'a String,
) -> Result<Vec<&'a str>, AllocError>
    ensures { IfOk result (λ v. (n : List ℕ) → is_hidden v.items n
        ≡ (is_hidden hidden.now.items n || binds (name_view key.now) (string_bytes value.now) n)) }
{
    let mut names = Vec::from_slice(alloc, hidden.as_slice())?;
    names.push(value.as_str())?;
    if let Some(key) = key {
        names.push(key.as_str())?;
    }
    Ok(names)
}

fn take_variable<'a, 'c>(
    naming: &mut Naming<'a, 'c>,
    hidden: &Vec<&'a str>,
    variable: &'a Spanned<Var>,
) -> Result<(), AllocError>
    ensures { OnOk result ((n : List ℕ) → is_named naming.new n ≡ (is_named naming.old n
        || variable_names (is_hidden hidden.now.items n) n
        (string_bytes (node_of variable.now).name))) }
{
    let name = variable.node().name.as_str();
    if name == "__tera_context" {
        naming.all = true;
        Ok(())
    } else if is_hidden(hidden, name) {
        Ok(())
    } else {
        put_span(&mut naming.names, name, variable.span())?;
        Ok(())
    }
}

// Takes the call itself: the variables that its component may take if they are not given.
fn take_call<'a, 'c>(
    catalogue: &Catalogue<'c>,
    naming: &mut Naming<'a, 'c>,
    hidden: &Vec<&'a str>,
    call: &'a Spanned<ComponentCall>,
) -> Result<(), AllocError>
    ensures { OnOk result ((n : List ℕ) → is_named naming.new n ≡ (is_named naming.old n
        || taken_in (known_in catalogue.now) (string_bytes (out-ComponentCall (node_of call.now)).name)
        (is_hidden hidden.now.items n) n)) }
{
    match catalogue.get(call.node().name.as_str()) {
        Some(known) => take_implicit(naming, hidden, known, call.span()),
        None => {
            naming.all = true;
            Ok(())
        }
    }
}

fn take_implicit<'a, 'c>(
    naming: &mut Naming<'a, 'c>,
    hidden: &Vec<&'a str>,
    known: &Known<'c>,
    span: &'a Span,
) -> Result<(), AllocError>
    ensures { OnOk result ((n : List ℕ) → is_named naming.new n ≡ (is_named naming.old n
        || taken_by (Some (known_view known.now)) (is_hidden hidden.now.items n) n)) }
{
    for (name, argument) in known.definition.kwargs.iter() {
        if argument.implicit {
            put_taken(naming, hidden, name.as_str(), span)?;
        }
    }
    Ok(())
}

// Notes that the variable may be taken, unless it is hidden.
fn put_taken<'a, 'c>(
    naming: &mut Naming<'a, 'c>,
    hidden: &Vec<&'a str>,
    name: &'c str,
    span: &'a Span,
) -> Result<(), AllocError>
    ensures { OnOk result ((n : List ℕ) → is_named naming.new n ≡ (is_named naming.old n
        || not (is_hidden hidden.now.items n) && bytes_eq name.now n)) }
{
    if !is_hidden(hidden, name) {
        put_span(&mut naming.taken, name, span)?;
    }
    Ok(())
}

fn is_hidden(hidden: &[&str], name: &str) -> bool
    ensures { result ≡ is_hidden hidden.now name.now }
{
    hidden.iter().any(|one| *one == name)
}

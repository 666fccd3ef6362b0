//! The rule `repeated-condition`.

ghost use Rattle.std.specs.Prelude.{◌≡◌, ◌∷◌, [], ◌++◌, ℕ, List, false, Some, map, reverse, string_bytes, if◌then◌else◌, IfOk, IfNone, IfSome, MatchOption, OnOk};
ghost use Rattle.std.specs.Option.{option_map};
ghost use Rattle.tera_ast.specs.Spans.{expr_span};
ghost use Rattle.tera_ast.specs.View.{expression_view, if_view, nodes_view};
ghost use Rattle.tera_ast.specs.declared.ast.If.{out-If};
ghost use Rattle.tera_tree.specs.Parts.{NodePart, part_view};
ghost use Rattle.tera_findings.specs.Findings.{finding_view, note_view, NoteOf};
ghost use Rattle.tera_rules.specs.RepeatedConditions.{IsKept, condition_text, conditions_in, conditions_of, earlier_text, has_text, is_choice, kept, next_alike, nexts, nexts_after, nexts_of, repeated_condition, repeated_conditions, repeated_if, seen_if, under_text, under_text_if};

use crate::messages;
use std::alloc::{AllocError, Global};
use std::collections::BTreeMap;
use tera_findings::{Finding, Kind, Note, is_memory, push_finding};
use tera_parser::ast::{Expression, If, Node, Part};
use tera_parser::expr::source_of;

/// What a walk keeps of the chain of `if`s that it is in: for each condition still to come, from the last to the first,
/// the next one that is the same.
#[derive(Drop)]
pub(crate) struct Chain<'a> {
    nexts: Vec<Option<&'a Expression>>,
}

impl<'a> Chain<'a> {
    ghost use Rattle.std.specs.Prelude.{◌≡◌, []};
    ghost use Rattle.tera_rules.specs.RepeatedConditions.{kept};

    /// Before the first part.
    pub(crate) fn none(alloc: Global) -> Chain<'a>
        ensures { kept result ≡ [] }
    {
        Chain {
            nexts: Vec::new(alloc),
        }
    }
}

/// Adds a finding where the condition of the part, if it is an `if` or an `elif`, comes again in the chain for the
/// first time. The parts of a chain come one after the other, so its conditions are compared once.
pub(crate) fn push_repeated_conditions<'a>(
    alloc: Global,
    findings: &mut Vec<Finding>,
    file: &str,
    chain: &mut Chain<'a>,
    part: Part<'a>,
) -> Result<(), AllocError>
    requires { IsKept (kept chain.old) (nexts_of (part_view part)) }
    ensures findings { OnOk result (map finding_view findings.new.items
        ≡ map finding_view findings.old.items
        ++ repeated_conditions file.now (part_view part.entry)) }
    ensures chain { OnOk result (IsKept (kept chain.new) (nexts_after (part_view part.entry))) }
{
    match choice_in(part) {
        Some(choice) => push_if_again(alloc, findings, file, chain, choice),
        None => Ok(()),
    }
}

// The `if` that the part is, if it is one.
#[tactic(auto, using(tera_ast::proofs::Views::view_if))]
fn choice_in<'a>(part: Part<'a>) -> Option<&'a If>
    ensures { MatchOption result (is_choice (part_view part.entry) ≡ false)
        (λ choice. part_view part.entry ≡ NodePart (if_view choice.now)) }
{
    match part {
        Part::Node(Node::If(choice)) => Some(choice),
        Part::Node(_) | Part::Expression(_) => None,
    }
}

fn push_if_again<'a>(
    alloc: Global,
    findings: &mut Vec<Finding>,
    file: &str,
    chain: &mut Chain<'a>,
    choice: &'a If,
) -> Result<(), AllocError>
    requires { IsKept (kept chain.old) (nexts (conditions_of (if_view choice.now))) }
    ensures findings { OnOk result (map finding_view findings.new.items
        ≡ map finding_view findings.old.items
        ++ repeated_conditions file.now (NodePart (if_view choice.now))) }
    ensures chain { OnOk result (IsKept (kept chain.new)
        (nexts_after (NodePart (if_view choice.now)))) }
{
    let next = next_of(alloc, chain, choice)?;
    push_if_any(alloc, findings, file, &choice.expr, next)
}

// The next condition of the chain that is the same as the condition of this `if`.
fn next_of<'a>(
    alloc: Global,
    chain: &mut Chain<'a>,
    choice: &'a If,
) -> Result<Option<&'a Expression>, AllocError>
    requires { IsKept (kept chain.old) (nexts (conditions_of (if_view choice.now))) }
    ensures next { let i = out-If choice.now in IfOk result (λ next. seen_if next
        ≡ next_alike (expression_view i.expr) (conditions_in (nodes_view i.false_body.items))) }
    ensures chain { let i = out-If choice.now in OnOk result (IsKept (kept chain.new)
        (nexts (conditions_in (nodes_view i.false_body.items)))) }
{
    keep_nexts(alloc, chain, choice)?;
    match chain.nexts.pop() {
        Some(next) => Ok(next),
        None => Ok(None),
    }
}

// Keeps for each condition from this `if` on the next one that is the same, unless they are kept already.
fn keep_nexts<'a>(alloc: Global, chain: &mut Chain<'a>, choice: &'a If) -> Result<(), AllocError>
    requires { IsKept (kept chain.old) (nexts (conditions_of (if_view choice.now))) }
    ensures { OnOk result (kept chain.new ≡ nexts (conditions_of (if_view choice.now))) }
{
    if !chain.nexts.is_empty() {
        return Ok(());
    }
    match elif_of(&choice.false_body) {
        Some(_) => {
            let conditions = conditions_of(alloc, choice)?;
            chain.nexts = nexts_of(alloc, conditions)?;
            Ok(())
        }
        None => {
            chain.nexts.push(None)?;
            Ok(())
        }
    }
}

// The `if` that is alone in a body.
#[tactic(auto, using(crate::proofs::ConditionsLemmas::no_elif, crate::proofs::ConditionsLemmas::lone))]
fn elif_of(nodes: &Vec<Node>) -> Option<&If>
    ensures some { IfSome result (λ next. nodes.now.items ≡ Node.If next.now ∷ []) }
    ensures none { IfNone result (conditions_in (nodes_view nodes.now.items) ≡ []) }
{
    match nodes.as_slice() {
        [only] => match only {
            Node::If(next) => Some(next),
            _ => None,
        },
        _ => None,
    }
}

// The conditions of the `if` and of the `elif`s after it. A chain of more than a `u64` counts, which no memory holds,
// gives an allocation failure.
fn conditions_of<'a>(alloc: Global, choice: &'a If) -> Result<Vec<&'a Expression>, AllocError>
    ensures { IfOk result (λ v. map (λ e. expression_view e.now) v.items
        ≡ conditions_of (if_view choice.now)) }
{
    let mut conditions = Vec::new(alloc);
    let mut link = choice;
    for _step in 0..u64::MAX {
        conditions.push(&link.expr)?;
        match elif_of(&link.false_body) {
            Some(next) => link = next,
            None => return Ok(conditions),
        }
    }
    Err(AllocError)
}

// For each condition the next one that is the same, from the last to the first.
fn nexts_of<'a>(
    alloc: Global,
    mut conditions: Vec<&'a Expression>,
) -> Result<Vec<Option<&'a Expression>>, AllocError>
    ensures { IfOk result (λ v. reverse (map seen_if v.items)
        ≡ nexts (map (λ e. expression_view e.now) conditions.entry.items)) }
{
    let mut following = BTreeMap::new(alloc);
    let mut nexts = Vec::new(alloc);
    'conditions: while let Some(condition) = conditions.pop() {
        let next = put(alloc, &mut following, condition)?;
        nexts.push(next)?;
    }
    Ok(nexts)
}

// Puts the condition under its text, and returns the one that was there.
fn put<'a>(
    alloc: Global,
    following: &mut BTreeMap<String, &'a Expression>,
    condition: &'a Expression,
) -> Result<Option<&'a Expression>, AllocError>
    ensures next { IfOk result (λ next. seen_if next
        ≡ under_text_if following.old (condition_text (expression_view condition.now))) }
    ensures following { let e = expression_view condition.now in
        OnOk result ((text : List ℕ) → under_text following.new text
        ≡ (if has_text text e then Some e else under_text following.old text)) }
{
    match condition_text(alloc, condition)? {
        Some(text) => Ok(following.insert(text, condition)?),
        None => Ok(None),
    }
}

fn condition_text(alloc: Global, condition: &Expression) -> Result<Option<String>, AllocError>
    ensures { IfOk result (λ text. option_map string_bytes text
        ≡ condition_text (expression_view condition.now)) }
{
    match source_of(alloc, condition) {
        Ok(text) => Ok(Some(text)),
        Err(error) => {
            if is_memory(&error) {
                return Err(AllocError);
            }
            Ok(None)
        }
    }
}

fn push_if_any(
    alloc: Global,
    findings: &mut Vec<Finding>,
    file: &str,
    condition: &Expression,
    next: Option<&Expression>,
) -> Result<(), AllocError>
    ensures { OnOk result (map finding_view findings.new.items ≡ map finding_view findings.old.items
        ++ repeated_if file.now (expression_view condition.now) (seen_if next.entry)) }
{
    match next {
        Some(next) => push_finding(findings, repeated_condition(alloc, file, condition, next)?),
        None => Ok(()),
    }
}

fn repeated_condition(
    alloc: Global,
    file: &str,
    condition: &Expression,
    next: &Expression,
) -> Result<Finding, AllocError>
    ensures { IfOk result (λ f. finding_view f
        ≡ repeated_condition file.now (expression_view condition.now) (expression_view next.now)) }
{
    let note = earlier(alloc, file, condition)?;
    let message = messages::condition_again(alloc)?;
    Finding::with_note(alloc, Kind::RepeatedCondition, next.span(), message, note)
}

fn earlier(alloc: Global, file: &str, condition: &Expression) -> Result<Note, AllocError>
    ensures { IfOk result (λ n. note_view n
        ≡ NoteOf file.now (expr_span (expression_view condition.now)) earlier_text) }
{
    Ok(Note {
        file: String::from_str(alloc, file)?,
        span: condition.span().copied(),
        message: messages::earlier_condition(alloc)?,
    })
}

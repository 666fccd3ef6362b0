//! What the objects of a tree share: how they begin, and members that hold no part of the tree.

ghost use Rattle.std.specs.Prelude.{◌≡◌, ◌∷◌, [], codes};
ghost use Rattle.json.specs.Token.{begin_object, key, string, boolean};
ghost use Rattle.json.specs.Tree.{json_tokens};
ghost use Rattle.tera_ast.specs.View.{name_view};
ghost use Rattle.tera_tree_json.specs.Forms.{span_json, name_json, unary_name, binary_name};
ghost use Rattle.json_members.specs.Written.{Puts, PutsJson};

use json::Writer;
use json_members::put_number;
use std::alloc::AllocError;
use tera_base::Span;
use tera_tree::{BinaryOperator, UnaryOperator};

/// The beginning of an object of this kind.
pub(crate) fn begin(out: &mut Writer, kind: &str) -> Result<(), AllocError>
    ensures { Puts result out.old out.new
        (begin_object ∷ key (codes "kind") ∷ string kind.now ∷ []) }
{
    out.begin_object()?;
    out.key("kind")?;
    out.string(kind)
}

/// The beginning of an object of this kind that is at this place.
pub(crate) fn begin_at(out: &mut Writer, kind: &str, span: &Span) -> Result<(), AllocError>
    ensures { Puts result out.old out.new (begin_object ∷ key (codes "kind") ∷ string kind.now
        ∷ key (codes "span") ∷ json_tokens (span_json span.now)) }
{
    begin(out, kind)?;
    out.key("span")?;
    put_span(out, span)
}

fn put_span(out: &mut Writer, span: &Span) -> Result<(), AllocError>
    ensures { PutsJson result out.old out.new (span_json span.now) }
{
    out.begin_object()?;
    put_number(out, "start_line", span.start_line)?;
    put_number(out, "start_col", span.start_col)?;
    put_number(out, "end_line", span.end_line)?;
    put_number(out, "end_col", span.end_col)?;
    put_number(out, "start", span.range.start)?;
    put_number(out, "end", span.range.end)?;
    out.end_object()
}

/// A member that is a truth.
pub(crate) fn put_flag(out: &mut Writer, name: &str, flag: bool) -> Result<(), AllocError>
    ensures { Puts result out.old out.new (key name.now ∷ boolean flag ∷ []) }
{
    out.key(name)?;
    out.boolean(flag)
}

/// A member that is a name, if there is one.
pub(crate) fn put_name(
    out: &mut Writer,
    name: &str,
    value: &Option<String>,
) -> Result<(), AllocError>
    ensures { Puts result out.old out.new
        (key name.now ∷ json_tokens (name_json (name_view value.now))) }
{
    out.key(name)?;
    match value {
        Some(value) => out.string(value.as_str()),
        None => out.null(),
    }
}

/// The name of an operator before its operand.
pub(crate) fn unary_name(op: UnaryOperator) -> &'static str
    ensures { result.now ≡ unary_name op }
{
    match op {
        UnaryOperator::Not => "Not",
        UnaryOperator::Minus => "Minus",
    }
}

/// The name of an operator between its operands.
pub(crate) fn binary_name(op: BinaryOperator) -> &'static str
    ensures { result.now ≡ binary_name op }
{
    match op {
        BinaryOperator::Mul => "Mul",
        BinaryOperator::Div => "Div",
        BinaryOperator::Mod => "Mod",
        BinaryOperator::Plus => "Plus",
        BinaryOperator::Minus => "Minus",
        BinaryOperator::FloorDiv => "FloorDiv",
        BinaryOperator::Power => "Power",
        BinaryOperator::LessThan => "LessThan",
        BinaryOperator::GreaterThan => "GreaterThan",
        BinaryOperator::LessThanOrEqual => "LessThanOrEqual",
        BinaryOperator::GreaterThanOrEqual => "GreaterThanOrEqual",
        BinaryOperator::Equal => "Equal",
        BinaryOperator::NotEqual => "NotEqual",
        BinaryOperator::And => "And",
        BinaryOperator::Or => "Or",
        BinaryOperator::StrConcat => "StrConcat",
        BinaryOperator::In => "In",
        BinaryOperator::Is => "Is",
        BinaryOperator::Pipe => "Pipe",
    }
}

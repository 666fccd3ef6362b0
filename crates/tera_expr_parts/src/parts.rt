//! What expressions are made of.

ghost use Rattle.std.specs.Prelude.{◌≡◌, ◌⊎◌, IfErr, IfOk, false, true};
ghost use Rattle.tera_base.specs.Errors.{IsMemory};
ghost use Rattle.tera_base.specs.declared.utils.Span.{Span};
ghost use Rattle.tera_lexer.specs.code.Seen.{seen};
ghost use Rattle.tera_ast.specs.Tree as tree;
ghost use Rattle.tera_ast.specs.View.{expression_view};
ghost use Rattle.tera_ast.specs.declared.ast.UnaryOperator.TheVariants as unary;
ghost use Rattle.tera_grammar.specs.expressions.Output.{prefixed};
ghost use Rattle.tera_grammar.specs.expressions.Spans.{spanning};
ghost use Rattle.tera_grammar.specs.expressions.Stack.{binary_output, refuses};
ghost use Rattle.tera_expr_parts.specs.Literals.{GivesLiteral, MayBeNegated, number_of};
ghost use Rattle.tera_expr_parts.specs.Fronts.{operator_of, sign_of};
ghost use Rattle.tera_expect.specs.Taking.{IsCounted, Refuses};

use crate::faults::{no_expression, prefix_after_tilde};
use crate::leaves;
use crate::operators::Operator;
use std::alloc::{AllocError, Global};
use tera_base::{Error, Span, Value};
use tera_lexer::{Cursor, Token};
use tera_tree::{Expression, UnaryOperator, build};

/// From the start of one span to the end of another.
pub fn spanning(start: &Span, end: &Span) -> Span
    ensures { result ≡ spanning start.now end.now }
{
    let mut span = start.copied();
    span.expand(end);
    span
}

/// The constant that the token is, which is at the span and was taken last.
#[tactic(auto, using(tera_expect::proofs::TakingLemmas::memory_refused, crate::proofs::LiteralsLemmas::count_negatable))]
pub fn literal(cursor: &Cursor<'_>, token: Token<'_>, span: &Span) -> Result<Expression, Error>
    requires { IsCounted (seen token) }
    ensures gives { GivesLiteral (seen token.entry) span.now result }
    ensures negatable { IfOk result (λ e. MayBeNegated (expression_view e)) }
    ensures refusal { IfErr result (Refuses cursor.now cursor.now) }
{
    let alloc = cursor.alloc();
    match token {
        Token::Integer(n) => Ok(leaves::integer(alloc, n, span.copied())?),
        Token::Str(text) => Ok(leaves::text(alloc, text, span.copied())?),
        Token::String(text) => Ok(leaves::string(alloc, text, span.copied())?),
        Token::Bool(b) => Ok(leaves::truth(alloc, b, span.copied())?),
        token => Err(no_expression(cursor, &token)),
    }
}

/// A prefix and its operand. A minus before a whole number is part of it.
pub fn signed(
    alloc: Global,
    sign: UnaryOperator,
    operand: Expression,
    span: Span,
) -> Result<Expression, AllocError>
    requires { MayBeNegated (expression_view operand) }
    ensures gives { IfOk result (λ e. (start : Span) →
        expression_view e ≡ prefixed (sign_of sign start) (expression_view operand) span) }
    ensures negatable { IfOk result (λ e. MayBeNegated (expression_view e)) }
{
    match (sign, number(&operand)) {
        (UnaryOperator::Minus, Some(n)) => build::constant(alloc, Value::I64(-n), span),
        _ => build::unary(alloc, sign, operand, span),
    }
}

// The whole number that the expression is.
fn number(expr: &Expression) -> Option<i64>
    ensures { result ≡ number_of (expression_view expr.now) }
{
    match expr {
        Expression::Const(constant) => match constant.node() {
            Value::I64(n) => Some(*n),
            _ => None,
        },
        _ => None,
    }
}

/// An operator and its operands, or the negation of that.
pub fn joined(
    alloc: Global,
    operator: Operator,
    negated: bool,
    left: Expression,
    right: Expression,
    span: Span,
) -> Result<Expression, AllocError>
    ensures { IfOk result (λ e.
        expression_view e ≡ binary_output (operator_of operator) negated (expression_view left)
        (expression_view right) span) }
{
    if !negated {
        return build::binary(alloc, operator.node(), left, right, span);
    }
    let inside = build::binary(alloc, operator.node(), left, right, span.copied())?;
    build::unary(alloc, UnaryOperator::Not, inside, span)
}

/// The negation of a test whose operand begins at `start`, up to the last token of the test.
pub fn negation(
    alloc: Global,
    test: Expression,
    start: &Span,
    last: &Span,
) -> Result<Expression, AllocError>
    ensures { IfOk result (λ e. expression_view e
        ≡ tree.UnaryOperation unary.Not (expression_view test) (spanning start.now last.now)) }
{
    let span = spanning(start, last);
    build::unary(alloc, UnaryOperator::Not, test, span)
}

/// Refuses what `~` does not join on its right.
pub fn refuse_prefix(
    cursor: &Cursor<'_>,
    operator: Operator,
    right: &Expression,
) -> Result<(), Error>
    ensures joins { IfOk result (λ _.
        refuses (operator_of operator) (expression_view right.now) ≡ false) }
    ensures fails { IfErr result (λ e.
        IsMemory e ⊎ (refuses (operator_of operator) (expression_view right.now) ≡ true)) }
    ensures refusal { IfErr result (Refuses cursor.now cursor.now) }
{
    match (operator, right) {
        (Operator::StrConcat, Expression::UnaryOperation(operation)) => {
            Err(prefix_after_tilde(cursor, operation.node().op))
        }
        _ => Ok(()),
    }
}

//! Where an expression is, and whether it needs parentheses there.

ghost use Rattle.std.specs.Prelude.{◌≡◌, suc};
ghost use Rattle.tera_base.specs.ValueView.{value_view};
ghost use Rattle.tera_ast.specs.View.{expression_view};
ghost use Rattle.tera_source.specs.Contexts as at;
ghost use Rattle.tera_source.specs.Contexts.{left_of, right_of, prefix_breaks, operator_breaks, is_negative, takes_negation, unary_breaks, breaks};

use crate::operators::{
    FILTER_POWER, MINUS_POWER, NEGATION_POWER, TERNARY_POWER, TEST_POWER, left_power, right_power,
};
use tera_base::Value;
use tera_tree::{BinaryOperator, Expression, UnaryOperation, UnaryOperator};

/// What the nodes above an expression, with no parentheses between, ask of it: a least left power on its left
/// spine, a least right power on its right spine, and maybe that it does not begin with a prefix.
#[derive(Clone, Copy)]
pub(crate) struct Context {
    left: u8,
    right: u8,
    plain: bool,
}

impl Context {
    /// Nothing is asked, as between brackets.
    pub(crate) fn free() -> Context
        ensures { result ≡ at.free }
    {
        Context::above(0)
    }

    /// A least left power alone.
    pub(crate) fn above(left: u8) -> Context
        ensures { result ≡ at.above left }
    {
        Context {
            left,
            right: 0,
            plain: false,
        }
    }

    /// Of the left operand of a binary operator.
    pub(crate) fn before_operator(self, op: BinaryOperator) -> Context
        ensures { result ≡ at.before (suc (left_of op)) self }
    {
        self.before(left_power(op) + 1)
    }

    /// Of the right operand of a binary operator.
    pub(crate) fn after_operator(self, op: BinaryOperator) -> Context
        ensures { result ≡ at.following (right_of op) self }
    {
        self.following(right_power(op))
    }

    /// Of what is before something: a least right power.
    pub(crate) fn before(self, right: u8) -> Context
        ensures { result ≡ at.before right self }
    {
        Context {
            left: self.left,
            right,
            plain: self.plain,
        }
    }

    /// Of what comes after an operator: its right power is the least left power.
    pub(crate) fn following(self, left: u8) -> Context
        ensures { result ≡ at.following left self }
    {
        Context {
            left,
            right: self.right,
            plain: false,
        }
    }

    /// Of what comes after a prefix with this power.
    pub(crate) fn after_prefix(self, left: u8) -> Context
        ensures { result ≡ at.after_prefix left self }
    {
        Context {
            left,
            right: self.right,
            plain: true,
        }
    }

    /// Whether the expression, by itself, breaks what is asked.
    #[tactic(auto, using(tera_ast::proofs::Views::view_const, tera_ast::proofs::Views::view_array, tera_ast::proofs::Views::view_var, tera_ast::proofs::Views::view_get_attr, tera_ast::proofs::Views::view_get_item, tera_ast::proofs::Views::view_slice, tera_ast::proofs::Views::view_filter, tera_ast::proofs::Views::view_test, tera_ast::proofs::Views::view_ternary, tera_ast::proofs::Views::view_comprehension, tera_ast::proofs::Views::view_call, tera_ast::proofs::Views::view_function_call, tera_ast::proofs::Views::view_unary, tera_ast::proofs::Views::view_binary, tera_ast::proofs::Views::view_map))]
    pub(crate) fn bars(self, e: &Expression) -> bool
        ensures { result ≡ breaks (expression_view e.now) self }
    {
        match e {
            Expression::Const(s) => is_negative(s.node()) && self.bars_prefix(MINUS_POWER),
            Expression::Filter(_) => FILTER_POWER < self.left,
            Expression::Test(_) => TEST_POWER < self.left,
            Expression::Ternary(_) => self.bars_operator(TERNARY_POWER, TERNARY_POWER),
            Expression::UnaryOperation(s) => self.bars_unary(s.node()),
            Expression::BinaryOperation(s) => self.bars_binary(s.node().op),
            _ => false,
        }
    }

    // A test, or an operator, that takes a `not` into itself is asked what it is asked without it.
    fn bars_unary(self, operation: &UnaryOperation) -> bool
        ensures { result ≡ unary_breaks operation.now.op (expression_view operation.now.expr) self }
    {
        match operation.op {
            UnaryOperator::Minus => self.bars_prefix(MINUS_POWER),
            UnaryOperator::Not => self.bars_negation(&operation.expr),
        }
    }

    fn bars_negation(self, e: &Expression) -> bool
        ensures { result ≡ unary_breaks UnaryOperator.Not (expression_view e.now) self }
    {
        match e {
            Expression::Test(_) => TEST_POWER < self.left,
            Expression::BinaryOperation(s) => match s.node().op {
                BinaryOperator::In => self.bars_binary(BinaryOperator::In),
                _ => self.bars_prefix(NEGATION_POWER),
            },
            _ => self.bars_prefix(NEGATION_POWER),
        }
    }

    fn bars_binary(self, op: BinaryOperator) -> bool
        ensures { result ≡ operator_breaks (left_of op) (right_of op) self }
    {
        self.bars_operator(left_power(op), right_power(op))
    }

    fn bars_operator(self, left: u8, right: u8) -> bool
        ensures { result ≡ operator_breaks left right self }
    {
        left < self.left || right < self.right
    }

    fn bars_prefix(self, power: u8) -> bool
        ensures { result ≡ prefix_breaks power self }
    {
        self.plain || power < self.right
    }
}

// A number below zero is written with a prefix.
fn is_negative(value: &Value) -> bool
    ensures { result ≡ is_negative (value_view value.now) }
{
    match value {
        Value::I64(n) => *n < 0,
        Value::I128(n) => *n < 0,
        _ => false,
    }
}

/// Whether a `not` before it is written inside it: before a test's name, and before `in`.
pub(crate) fn takes_negation(e: &Expression) -> bool
    ensures { result ≡ takes_negation (expression_view e.now) }
{
    match e {
        Expression::Test(_) => true,
        Expression::BinaryOperation(s) => s.node().op == BinaryOperator::In,
        _ => false,
    }
}

//! Operators and their powers.

ghost use Rattle.std.specs.Prelude.{◌≡◌};
ghost use Rattle.tera_base.specs.declared.utils.Span.{Span};
ghost use Rattle.tera_grammar.specs.expressions.Operators.{operator_made};
ghost use Rattle.tera_grammar.specs.expressions.Powers.{left_of, right_of, sign_power};
ghost use Rattle.tera_expr_parts.specs.Fronts.{operator_of, sign_of};

use tera_tree::{BinaryOperator, UnaryOperator};

/// An operator between two operands.
#[derive(Clone, Copy)]
pub enum Operator {
    Mul,
    Div,
    Mod,
    Plus,
    Minus,
    FloorDiv,
    Power,
    LessThan,
    GreaterThan,
    LessThanOrEqual,
    GreaterThanOrEqual,
    Equal,
    NotEqual,
    And,
    Or,
    StrConcat,
    In,
}

impl Operator {
    /// What it is in the tree.
    pub fn node(self) -> BinaryOperator
        ensures { result ≡ operator_made (operator_of self) }
    {
        match self {
            Operator::Mul => BinaryOperator::Mul,
            Operator::Div => BinaryOperator::Div,
            Operator::Mod => BinaryOperator::Mod,
            Operator::Plus => BinaryOperator::Plus,
            Operator::Minus => BinaryOperator::Minus,
            Operator::FloorDiv => BinaryOperator::FloorDiv,
            Operator::Power => BinaryOperator::Power,
            Operator::LessThan => BinaryOperator::LessThan,
            Operator::GreaterThan => BinaryOperator::GreaterThan,
            Operator::LessThanOrEqual => BinaryOperator::LessThanOrEqual,
            Operator::GreaterThanOrEqual => BinaryOperator::GreaterThanOrEqual,
            Operator::Equal => BinaryOperator::Equal,
            Operator::NotEqual => BinaryOperator::NotEqual,
            Operator::And => BinaryOperator::And,
            Operator::Or => BinaryOperator::Or,
            Operator::StrConcat => BinaryOperator::StrConcat,
            Operator::In => BinaryOperator::In,
        }
    }

    /// How tightly it binds what is before it.
    pub fn left_power(self) -> u8
        ensures { result ≡ left_of (operator_of self) }
    {
        match self {
            Operator::Or => 1,
            Operator::And => 3,
            Operator::In => 5,
            Operator::Equal
            | Operator::NotEqual
            | Operator::LessThan
            | Operator::LessThanOrEqual
            | Operator::GreaterThan
            | Operator::GreaterThanOrEqual => 7,
            Operator::Plus | Operator::Minus => 11,
            Operator::Mul
            | Operator::Div
            | Operator::Mod
            | Operator::StrConcat
            | Operator::FloorDiv => 13,
            Operator::Power => 16,
        }
    }

    /// How tightly it binds what comes after it.
    pub fn right_power(self) -> u8
        ensures { result ≡ right_of (operator_of self) }
    {
        match self {
            Operator::Power => 15,
            _ => self.left_power() + 1,
        }
    }
}

/// How tightly a test binds what is before it.
pub(crate) const TEST_POWER: u8 = 5;

/// How tightly a filter binds what is before it.
pub(crate) const FILTER_POWER: u8 = 17;

/// How tightly a prefix binds what comes after it.
pub fn prefix_power(sign: UnaryOperator) -> u8
    ensures { (span : Span) → result ≡ sign_power (sign_of sign span) }
{
    match sign {
        UnaryOperator::Minus => 20,
        UnaryOperator::Not => 5,
    }
}

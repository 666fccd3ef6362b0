//! Binary operators: their powers, and how they are written.

ghost use Rattle.std.specs.Prelude.{◌≡◌, ◌≤◌};
ghost use Rattle.tera_source.specs.Contexts.{left_of, right_of};
ghost use Rattle.tera_source.specs.Writing.{operator_text};

use tera_tree::BinaryOperator;

/// How tightly a test holds what is before it.
pub(crate) const TEST_POWER: u8 = 5;

/// How tightly a filter holds what is before it.
pub(crate) const FILTER_POWER: u8 = 17;

/// How tightly a `not` holds what comes after it.
pub(crate) const NEGATION_POWER: u8 = 5;

/// How tightly a minus before an operand holds it.
pub(crate) const MINUS_POWER: u8 = 20;

/// How tightly the parts of a ternary are held.
pub(crate) const TERNARY_POWER: u8 = 0;

/// Above every power: what is before a link or a subscript is closed on its right.
pub(crate) const CLOSED: u8 = 21;

/// How strongly it holds what is before it.
pub(crate) fn left_power(op: BinaryOperator) -> u8
    ensures power { result ≡ left_of op }
    ensures bound { result ≤ 16 }
{
    match op {
        BinaryOperator::Or => 1,
        BinaryOperator::And => 3,
        BinaryOperator::In | BinaryOperator::Is | BinaryOperator::Pipe => 5,
        BinaryOperator::Equal
        | BinaryOperator::NotEqual
        | BinaryOperator::LessThan
        | BinaryOperator::LessThanOrEqual
        | BinaryOperator::GreaterThan
        | BinaryOperator::GreaterThanOrEqual => 7,
        BinaryOperator::Plus | BinaryOperator::Minus => 11,
        BinaryOperator::Mul
        | BinaryOperator::Div
        | BinaryOperator::Mod
        | BinaryOperator::StrConcat
        | BinaryOperator::FloorDiv => 13,
        BinaryOperator::Power => 16,
    }
}

/// How strongly it holds what comes after it.
pub(crate) fn right_power(op: BinaryOperator) -> u8
    ensures { result ≡ right_of op }
{
    match op {
        BinaryOperator::Power => 15,
        _ => left_power(op) + 1,
    }
}

/// How it is written between its operands.
pub(crate) fn operator_text(op: BinaryOperator, negated: bool) -> &'static str
    ensures { result.now ≡ operator_text negated op }
{
    if negated {
        return " not in ";
    }
    match op {
        BinaryOperator::Mul => " * ",
        BinaryOperator::Div => " / ",
        BinaryOperator::Mod => " % ",
        BinaryOperator::Plus => " + ",
        BinaryOperator::Minus => " - ",
        BinaryOperator::FloorDiv => " // ",
        BinaryOperator::Power => " ** ",
        BinaryOperator::LessThan => " < ",
        BinaryOperator::GreaterThan => " > ",
        BinaryOperator::LessThanOrEqual => " <= ",
        BinaryOperator::GreaterThanOrEqual => " >= ",
        BinaryOperator::Equal => " == ",
        BinaryOperator::NotEqual => " != ",
        BinaryOperator::And => " and ",
        BinaryOperator::Or => " or ",
        BinaryOperator::StrConcat => " ~ ",
        BinaryOperator::In => " in ",
        BinaryOperator::Is => " is ",
        BinaryOperator::Pipe => " | ",
    }
}

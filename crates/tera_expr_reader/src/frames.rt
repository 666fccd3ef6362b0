//! Open expressions, and where the reading is.

use tera_base::Span;
use tera_expr_parts::Operator;
use tera_tree::{Expression, UnaryOperator};

/// An expression that was read, and where it is with its parentheses.
#[derive(Drop)]
pub(crate) struct Operand {
    pub expr: Expression,
    pub span: Span,
}

/// An open expression: how many more may open inside of it, and the least power that it lets in.
#[derive(Clone, Copy)]
pub(crate) struct Level {
    pub depth: usize,
    pub least: u8,
}

/// An open expression that waits for one inside of it.
#[derive(Drop)]
pub(crate) enum Frame {
    /// After the parenthesis at the span.
    Paren(Level, Span),
    /// After the prefix at the span.
    Prefix(Level, UnaryOperator, Span),
    /// After an operator, which is negated or not.
    Binary {
        level: Level,
        operator: Operator,
        negated: bool,
        left: Operand,
    },
    /// After the `if` of a ternary.
    TernaryCondition {
        level: Level,
        left: Operand,
    },
    /// After the `else` of a ternary.
    TernaryLast {
        level: Level,
        left: Operand,
        condition: Expression,
    },
}

/// Where the reading is.
#[derive(Drop)]
pub(crate) enum State {
    /// An expression opens, inside of which so many may open, from a least power on.
    Needs(usize, u8),
    /// An open expression has this operand so far.
    Holds(Level, Operand),
    /// All is read.
    Done(Operand),
}

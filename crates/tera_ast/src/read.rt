//! What is read of an expression by its form alone.

ghost use Rattle.std.specs.Prelude.{◌≡◌};
ghost use Rattle.tera_base.specs.Spanned.{expanded, node_of, span_of};
ghost use Rattle.tera_ast.specs.View.{expression_view};
ghost use Rattle.tera_ast.specs.Spans.{is_const, expr_span, with_span};

use crate::ast::Expression;
use tera_base::{Span, Spanned};

impl Expression {
    /// Whether it is a constant.
    pub fn is_literal(&self) -> bool
        ensures { result ≡ is_const (expression_view self.now) }
    {
        matches!(self, Expression::Const(_))
    }

    /// Where it is.
    pub fn span(&self) -> &Span
        ensures { result.now ≡ expr_span (expression_view self.now) }
    {
        match self {
            Expression::Const(s) => s.span(),
            Expression::Array(s) => s.span(),
            Expression::Map(s) => s.span(),
            Expression::Var(s) => s.span(),
            Expression::GetAttr(s) => s.span(),
            Expression::GetItem(s) => s.span(),
            Expression::Slice(s) => s.span(),
            Expression::Filter(s) => s.span(),
            Expression::Test(s) => s.span(),
            Expression::Ternary(s) => s.span(),
            Expression::ListComprehension(s) => s.span(),
            Expression::ComponentCall(s) => s.span(),
            Expression::FunctionCall(s) => s.span(),
            Expression::UnaryOperation(s) => s.span(),
            Expression::BinaryOperation(s) => s.span(),
        }
    }

    /// Ends where the other span ends.
    pub fn expand_span(&mut self, other: &Span)
        ensures { expression_view self.new ≡ with_span
            (expanded (expr_span (expression_view self.old)) other.now) (expression_view self.old) }
    {
        match self {
            Expression::Const(s) => expand(s, other),
            Expression::Array(s) => expand(s, other),
            Expression::Map(s) => expand(s, other),
            Expression::Var(s) => expand(s, other),
            Expression::GetAttr(s) => expand(s, other),
            Expression::GetItem(s) => expand(s, other),
            Expression::Slice(s) => expand(s, other),
            Expression::Filter(s) => expand(s, other),
            Expression::Test(s) => expand(s, other),
            Expression::Ternary(s) => expand(s, other),
            Expression::ListComprehension(s) => expand(s, other),
            Expression::ComponentCall(s) => expand(s, other),
            Expression::FunctionCall(s) => expand(s, other),
            Expression::UnaryOperation(s) => expand(s, other),
            Expression::BinaryOperation(s) => expand(s, other),
        }
    }
}

// Lets a node end where the other span ends.
fn expand<T: Drop>(spanned: &mut Spanned<T>, other: &Span)
    ensures node { node_of spanned.new ≡ node_of spanned.old }
    ensures span { span_of spanned.new ≡ expanded (span_of spanned.old) other.now }
{
    spanned.span_mut().expand(other);
}

//! Makes expressions.

ghost use Rattle.std.specs.Prelude.{◌≡◌, IfOk, string_bytes};
ghost use Rattle.tera_base.specs.Values as values;
ghost use Rattle.tera_ast.specs.Tree as tree;
ghost use Rattle.tera_ast.specs.View.{expression_view};

use std::alloc::{AllocError, Global};
use tera_base::{Span, Spanned, Value};
use tera_tree::{Expression, Var};

/// A whole number that is at the span.
pub fn integer(alloc: Global, n: i64, span: Span) -> Result<Expression, AllocError>
    ensures { IfOk result (λ e. expression_view e ≡ tree.Const (values.I64 n) span) }
{
    Ok(Expression::Const(Spanned::new(alloc, Value::I64(n), span)?))
}

/// A text that is at the span.
pub fn text(alloc: Global, text: &str, span: Span) -> Result<Expression, AllocError>
    ensures { IfOk result (λ e. expression_view e ≡ tree.Const (values.Text text.now) span) }
{
    let value = Value::String(String::from_str(alloc, text)?);
    Ok(Expression::Const(Spanned::new(alloc, value, span)?))
}

/// A text that was made, which is at the span.
pub fn string(alloc: Global, text: String, span: Span) -> Result<Expression, AllocError>
    ensures { IfOk result (λ e.
        expression_view e ≡ tree.Const (values.Text (string_bytes text)) span) }
{
    Ok(Expression::Const(Spanned::new(alloc, Value::String(text), span)?))
}

/// A truth that is at the span.
pub fn truth(alloc: Global, b: bool, span: Span) -> Result<Expression, AllocError>
    ensures { IfOk result (λ e. expression_view e ≡ tree.Const (values.Truth b) span) }
{
    Ok(Expression::Const(Spanned::new(alloc, Value::Bool(b), span)?))
}

/// No value, at the span.
pub fn none(alloc: Global, span: Span) -> Result<Expression, AllocError>
    ensures { IfOk result (λ e. expression_view e ≡ tree.Const values.Nothing span) }
{
    Ok(Expression::Const(Spanned::new(alloc, Value::None, span)?))
}

/// A variable whose name is at the span.
pub fn variable(alloc: Global, name: &str, span: Span) -> Result<Expression, AllocError>
    ensures { IfOk result (λ e. expression_view e ≡ tree.Var name.now span) }
{
    let name = String::from_str(alloc, name)?;
    Ok(Expression::Var(Spanned::new(alloc, Var { name }, span)?))
}

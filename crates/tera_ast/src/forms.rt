//! Expressions and nodes whose parts can be moved out of them.
//!
//! An [`Expression`] and a [`Node`] have a `Drop` of their own, so no match moves anything out of them. These have the
//! same variants, and are dropped part by part.

ghost use Rattle.std.specs.Prelude.{◌≡◌};
ghost use Rattle.tera_ast.specs.Form.{expression_from, node_from};

use crate::ast::{
    Array, BinaryOperation, Block, BlockSet, ComponentCall, Expression, Filter, FilterSection,
    ForLoop, FunctionCall, GetAttr, GetItem, If, Include, ListComprehension, Map, Node, Set, Slice,
    Ternary, Test, UnaryOperation, Var,
};
use tera_base::{Spanned, Value};

/// What an expression is, to be matched by value.
#[derive(Debug, Drop)]
pub enum ExpressionForm {
    Const(Spanned<Value>),
    Array(Spanned<Array>),
    Map(Spanned<Map>),
    Var(Spanned<Var>),
    GetAttr(Spanned<GetAttr>),
    GetItem(Spanned<GetItem>),
    Slice(Spanned<Slice>),
    Filter(Spanned<Filter>),
    Test(Spanned<Test>),
    Ternary(Spanned<Ternary>),
    ListComprehension(Spanned<ListComprehension>),
    ComponentCall(Spanned<ComponentCall>),
    FunctionCall(Spanned<FunctionCall>),
    UnaryOperation(Spanned<UnaryOperation>),
    BinaryOperation(Spanned<BinaryOperation>),
}

/// What a node is, to be matched by value.
#[derive(Debug, Drop)]
pub enum NodeForm {
    Content(String),
    Expression(Expression),
    Set(Set),
    BlockSet(BlockSet),
    Include(Include),
    Block(Block),
    ForLoop(ForLoop),
    Break,
    Continue,
    If(If),
    FilterSection(FilterSection),
}

impl ExpressionForm {
    /// The expression of this form.
    pub fn into_expression(self) -> Expression
        ensures { result ≡ expression_from self }
    {
        match self {
            ExpressionForm::Const(it) => Expression::Const(it),
            ExpressionForm::Array(it) => Expression::Array(it),
            ExpressionForm::Map(it) => Expression::Map(it),
            ExpressionForm::Var(it) => Expression::Var(it),
            ExpressionForm::GetAttr(it) => Expression::GetAttr(it),
            ExpressionForm::GetItem(it) => Expression::GetItem(it),
            ExpressionForm::Slice(it) => Expression::Slice(it),
            ExpressionForm::Filter(it) => Expression::Filter(it),
            ExpressionForm::Test(it) => Expression::Test(it),
            ExpressionForm::Ternary(it) => Expression::Ternary(it),
            ExpressionForm::ListComprehension(it) => Expression::ListComprehension(it),
            ExpressionForm::ComponentCall(it) => Expression::ComponentCall(it),
            ExpressionForm::FunctionCall(it) => Expression::FunctionCall(it),
            ExpressionForm::UnaryOperation(it) => Expression::UnaryOperation(it),
            ExpressionForm::BinaryOperation(it) => Expression::BinaryOperation(it),
        }
    }
}

impl NodeForm {
    /// The node of this form.
    pub fn into_node(self) -> Node
        ensures { result ≡ node_from self }
    {
        match self {
            NodeForm::Content(it) => Node::Content(it),
            NodeForm::Expression(it) => Node::Expression(it),
            NodeForm::Set(it) => Node::Set(it),
            NodeForm::BlockSet(it) => Node::BlockSet(it),
            NodeForm::Include(it) => Node::Include(it),
            NodeForm::Block(it) => Node::Block(it),
            NodeForm::ForLoop(it) => Node::ForLoop(it),
            NodeForm::Break => Node::Break,
            NodeForm::Continue => Node::Continue,
            NodeForm::If(it) => Node::If(it),
            NodeForm::FilterSection(it) => Node::FilterSection(it),
        }
    }
}

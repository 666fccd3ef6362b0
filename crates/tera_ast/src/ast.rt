//! Expressions and nodes.
//!
//! A struct that holds expressions alone, or nodes alone, is declared for every type of them and has its
//! name as an alias: so the types that hold one another stay few.

ghost use Rattle.std.specs.Prelude.{◌≡◌, false, MatchResult};
ghost use Rattle.tera_ast.specs.declared.ast.Node.TheVariants as nodes;
ghost use Rattle.tera_ast.specs.Form.{constant_in, expression_from, is_if, node_from};

use crate::forms::{ExpressionForm, NodeForm};
use std::collections::BTreeMap;
use tera_base::{Key, Spanned, Value};

/// What is before its one operand.
#[derive(Clone, Copy, Debug, PartialEq, Eq)]
pub enum UnaryOperator {
    Not,
    Minus,
}

/// What is between its two operands.
#[derive(Clone, Copy, Debug, PartialEq, Eq)]
pub enum BinaryOperator {
    Mul,
    Div,
    Mod,
    Plus,
    Minus,
    FloorDiv,
    Power,
    LessThan,
    GreaterThan,
    LessThanOrEqual,
    GreaterThanOrEqual,
    Equal,
    NotEqual,
    And,
    Or,
    StrConcat,
    In,
    Is,
    Pipe,
}

/// An expression.
#[cycle(ast)]
#[derive(Debug)]
pub enum Expression {
    Const(Spanned<Value>),
    Array(Spanned<Array>),
    Map(Spanned<Map>),
    Var(Spanned<Var>),
    GetAttr(Spanned<GetAttr>),
    GetItem(Spanned<GetItem>),
    Slice(Spanned<Slice>),
    Filter(Spanned<Filter>),
    Test(Spanned<Test>),
    Ternary(Spanned<Ternary>),
    ListComprehension(Spanned<ListComprehension>),
    ComponentCall(Spanned<ComponentCall>),
    FunctionCall(Spanned<FunctionCall>),
    UnaryOperation(Spanned<UnaryOperation>),
    BinaryOperation(Spanned<BinaryOperation>),
}

impl Expression {
    /// The constant that it is, if it is one.
    pub fn into_constant(self) -> Option<Spanned<Value>>
        ensures { result ≡ constant_in self }
    {
        match self {
            Expression::Const(constant) => Some(constant),
            _other => None,
        }
    }

    /// What it is, with its parts.
    pub fn into_form(self) -> ExpressionForm
        ensures { expression_from result ≡ self }
    {
        match self {
            Expression::Const(it) => ExpressionForm::Const(it),
            Expression::Array(it) => ExpressionForm::Array(it),
            Expression::Map(it) => ExpressionForm::Map(it),
            Expression::Var(it) => ExpressionForm::Var(it),
            Expression::GetAttr(it) => ExpressionForm::GetAttr(it),
            Expression::GetItem(it) => ExpressionForm::GetItem(it),
            Expression::Slice(it) => ExpressionForm::Slice(it),
            Expression::Filter(it) => ExpressionForm::Filter(it),
            Expression::Test(it) => ExpressionForm::Test(it),
            Expression::Ternary(it) => ExpressionForm::Ternary(it),
            Expression::ListComprehension(it) => ExpressionForm::ListComprehension(it),
            Expression::ComponentCall(it) => ExpressionForm::ComponentCall(it),
            Expression::FunctionCall(it) => ExpressionForm::FunctionCall(it),
            Expression::UnaryOperation(it) => ExpressionForm::UnaryOperation(it),
            Expression::BinaryOperation(it) => ExpressionForm::BinaryOperation(it),
        }
    }
}

// What is dropped of a tree is dropped by these, so that a crate that owns one has no drops of its parts to prove.
impl Drop for Expression {
    #[cycle(drops)]
    fn drop(self) {
        match self {
            Expression::Const(it) => drop(it),
            Expression::Array(it) => drop(it),
            Expression::Map(it) => drop(it),
            Expression::Var(it) => drop(it),
            Expression::GetAttr(it) => drop(it),
            Expression::GetItem(it) => drop(it),
            Expression::Slice(it) => drop(it),
            Expression::Filter(it) => drop(it),
            Expression::Test(it) => drop(it),
            Expression::Ternary(it) => drop(it),
            Expression::ListComprehension(it) => drop(it),
            Expression::ComponentCall(it) => drop(it),
            Expression::FunctionCall(it) => drop(it),
            Expression::UnaryOperation(it) => drop(it),
            Expression::BinaryOperation(it) => drop(it),
        }
    }
}

/// A node of a template.
#[cycle(ast)]
#[derive(Debug)]
pub enum Node {
    Content(String),
    Expression(Expression),
    Set(Set),
    BlockSet(BlockSet),
    Include(Include),
    Block(Block),
    ForLoop(ForLoop),
    Break,
    Continue,
    If(If),
    FilterSection(FilterSection),
}

impl Node {
    /// The `if` that it is, or the node.
    pub fn into_if(self) -> Result<If, Node>
        ensures { MatchResult result (λ i. self ≡ nodes.If i) (λ n. (n ≡ self) × (is_if n ≡ false)) }
    {
        match self {
            Node::If(chosen) => Ok(chosen),
            other => Err(other),
        }
    }

    /// What it is, with its parts.
    pub fn into_form(self) -> NodeForm
        ensures { node_from result ≡ self }
    {
        match self {
            Node::Content(it) => NodeForm::Content(it),
            Node::Expression(it) => NodeForm::Expression(it),
            Node::Set(it) => NodeForm::Set(it),
            Node::BlockSet(it) => NodeForm::BlockSet(it),
            Node::Include(it) => NodeForm::Include(it),
            Node::Block(it) => NodeForm::Block(it),
            Node::ForLoop(it) => NodeForm::ForLoop(it),
            Node::Break => NodeForm::Break,
            Node::Continue => NodeForm::Continue,
            Node::If(it) => NodeForm::If(it),
            Node::FilterSection(it) => NodeForm::FilterSection(it),
        }
    }
}

impl Drop for Node {
    #[cycle(drops)]
    fn drop(self) {
        match self {
            Node::Content(it) => drop(it),
            Node::Expression(it) => drop(it),
            Node::Set(it) => drop(it),
            Node::BlockSet(it) => drop(it),
            Node::Include(it) => drop(it),
            Node::Block(it) => drop(it),
            Node::ForLoop(it) => drop(it),
            Node::If(it) => drop(it),
            Node::FilterSection(it) => drop(it),
            Node::Break | Node::Continue => {}
        }
    }
}

/// A call of a component, with its body if it is not closed at once.
#[cycle(ast)]
#[derive(Debug, Drop)]
pub struct ComponentCall {
    pub name: String,
    pub kwargs: Vec<MapEntry>,
    pub body: Vec<Node>,
    pub self_closing: bool,
}

/// A variable that takes what a body is shown as, after some filters.
#[cycle(ast)]
#[derive(Debug, Drop)]
pub struct BlockSet {
    pub name: String,
    pub filters: Vec<Expression>,
    pub body: Vec<Node>,
    pub global: bool,
}

/// A body for each item of the target, and one for a target without items.
#[cycle(ast)]
#[derive(Debug, Drop)]
pub struct ForLoop {
    pub key: Option<String>,
    pub value: String,
    pub target: Expression,
    pub body: Vec<Node>,
    pub else_body: Vec<Node>,
}

/// A body under a condition, and one without it. An `elif` is an `If` alone in `false_body`.
///
/// A chain of `elif`s is dropped in a loop, however long it is. So that it is, its fields are not moved out of it one
/// by one: [`If::into_parts`] takes it apart.
#[cycle(ast)]
#[derive(Debug)]
pub struct If {
    pub expr: Expression,
    pub body: Vec<Node>,
    pub false_body: Vec<Node>,
}

impl If {
    /// The condition, the body under it, and the one without it.
    pub fn into_parts(self) -> (Expression, Vec<Node>, Vec<Node>)
        ensures { result ≡ (self.expr, self.body, self.false_body) }
    {
        let If {
            expr,
            body,
            false_body,
        } = self;
        (expr, body, false_body)
    }
}

impl Drop for If {
    // Along a chain of `elif`s.
    #[cycle(drops)]
    fn drop(mut self) {
        'chain: loop {
            let If {
                expr: _expr,
                body: _body,
                mut false_body,
            } = self;
            match false_body.pop() {
                Some(last) if false_body.is_empty() => match last.into_if() {
                    Ok(next) => self = next,
                    Err(_last) => return,
                },
                Some(_last) => return,
                None => return,
            }
        }
    }
}

/// A body that filters change.
#[cycle(ast)]
#[derive(Debug, Drop)]
pub struct FilterSection {
    pub filters: Vec<Expression>,
    pub body: Vec<Node>,
}

/// A variable.
#[derive(Clone, Debug, PartialEq, Eq, Drop)]
pub struct Var {
    pub name: String,
}

/// An item of an array, or a spread of them.
#[derive(Clone, Debug, PartialEq, Eq, Drop)]
pub enum ArrayEntryOf<E> {
    Item(E),
    Spread(E),
}

/// An array.
#[derive(Clone, Debug, PartialEq, Eq, Drop)]
pub struct ArrayOf<E> {
    pub items: Vec<ArrayEntryOf<E>>,
}

/// A pair of a map, or a spread of them.
#[derive(Clone, Debug, PartialEq, Eq, Drop)]
pub enum MapEntryOf<E> {
    KeyValue { key: Key, value: E },
    Spread(E),
}

/// A map.
#[derive(Clone, Debug, PartialEq, Eq, Drop)]
pub struct MapOf<E> {
    pub entries: Vec<MapEntryOf<E>>,
}

/// A field by its name.
#[derive(Clone, Debug, PartialEq, Eq, Drop)]
pub struct GetAttrOf<E> {
    pub expr: E,
    pub name: String,
    pub optional: bool,
}

/// A field by an expression.
#[derive(Clone, Debug, PartialEq, Eq, Drop)]
pub struct GetItemOf<E> {
    pub expr: E,
    pub sub_expr: E,
    pub optional: bool,
}

/// A part of a list.
#[derive(Clone, Debug, PartialEq, Eq, Drop)]
pub struct SliceOf<E> {
    pub expr: E,
    pub start: Option<E>,
    pub end: Option<E>,
    pub step: Option<E>,
    pub optional: bool,
}

/// A filter on an expression.
#[derive(Clone, Debug, PartialEq, Eq, Drop)]
pub struct FilterOf<E> {
    pub expr: E,
    pub name: String,
    pub kwargs: BTreeMap<String, E>,
}

/// A test of an expression.
#[derive(Clone, Debug, PartialEq, Eq, Drop)]
pub struct TestOf<E> {
    pub expr: E,
    pub name: String,
    pub kwargs: BTreeMap<String, E>,
}

/// One of two expressions, by the condition `expr`.
#[derive(Clone, Debug, PartialEq, Eq, Drop)]
pub struct TernaryOf<E> {
    pub expr: E,
    pub true_expr: E,
    pub false_expr: E,
}

/// An expression for each item of the target that meets the condition.
#[derive(Clone, Debug, PartialEq, Eq, Drop)]
pub struct ListComprehensionOf<E> {
    pub expr: E,
    pub key: Option<String>,
    pub value: String,
    pub target: E,
    pub condition: Option<E>,
}

/// A call of a function.
#[derive(Clone, Debug, PartialEq, Eq, Drop)]
pub struct FunctionCallOf<E> {
    pub name: String,
    pub kwargs: BTreeMap<String, E>,
}

/// An operator and its operand.
#[derive(Clone, Debug, PartialEq, Eq, Drop)]
pub struct UnaryOperationOf<E> {
    pub op: UnaryOperator,
    pub expr: E,
}

/// An operator between its operands.
#[derive(Clone, Debug, PartialEq, Eq, Drop)]
pub struct BinaryOperationOf<E> {
    pub op: BinaryOperator,
    pub left: E,
    pub right: E,
}

/// A variable that takes a value.
#[derive(Clone, Debug, PartialEq, Eq, Drop)]
pub struct SetOf<E> {
    pub name: String,
    pub value: E,
    pub global: bool,
}

/// Another template at this place.
#[derive(Clone, Debug, PartialEq, Eq, Drop)]
pub struct Include {
    pub name: Spanned<String>,
}

/// A body with a name.
#[derive(Clone, Debug, PartialEq, Eq, Drop)]
pub struct BlockOf<N> {
    pub name: Spanned<String>,
    pub body: Vec<N>,
}

pub type Array = ArrayOf<Expression>;

pub type ArrayEntry = ArrayEntryOf<Expression>;

pub type Map = MapOf<Expression>;

pub type MapEntry = MapEntryOf<Expression>;

pub type GetAttr = GetAttrOf<Expression>;

pub type GetItem = GetItemOf<Expression>;

pub type Slice = SliceOf<Expression>;

pub type Filter = FilterOf<Expression>;

pub type Test = TestOf<Expression>;

pub type Ternary = TernaryOf<Expression>;

pub type ListComprehension = ListComprehensionOf<Expression>;

pub type FunctionCall = FunctionCallOf<Expression>;

pub type UnaryOperation = UnaryOperationOf<Expression>;

pub type BinaryOperation = BinaryOperationOf<Expression>;

pub type Set = SetOf<Expression>;

pub type Block = BlockOf<Node>;

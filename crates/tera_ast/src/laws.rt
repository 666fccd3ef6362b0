//! What equality decides. Each function has the law as its promise.

ghost use Rattle.std.specs.Prelude.{◌≡◌, ◌↔◌, IsTrue};
ghost use Rattle.tera_ast.specs.View.{expression_view, node_view};

use crate::ast::{Expression, Node};

/// Expressions are equal exactly where they mean the same, places included.
#[tactic(auto, using(crate::specs::SameLaws::expr_decides))]
pub fn same_expression(a: &Expression, b: &Expression) -> bool
    ensures { IsTrue result ↔ (expression_view a.now ≡ expression_view b.now) }
{
    a == b
}

/// Nodes are equal exactly where they mean the same, places included.
#[tactic(auto, using(crate::specs::SameLaws::stmt_decides))]
pub fn same_node(a: &Node, b: &Node) -> bool
    ensures { IsTrue result ↔ (node_view a.now ≡ node_view b.now) }
{
    a == b
}

//! Trees that are matched by value, and changed in place.

use crate::making::{Made, variable};
use std::alloc::Global;
use std::test::Fail;
use tera_base::{Span, Spanned};
use tera_tree::{Expression, ExpressionForm, Node, NodeForm, UnaryOperator, build};

fn negation(alloc: Global) -> Made<Expression> {
    let inside = variable(alloc, "a", Span::default())?;
    build::unary(alloc, UnaryOperator::Not, inside, Span::default())
}

fn operand(expression: Expression) -> Option<Expression> {
    match expression.into_form() {
        ExpressionForm::UnaryOperation(it) => Some(it.into_parts().0.expr),
        _ => None,
    }
}

#[test]
fn an_operand_is_moved_out(rt: HostRuntime) -> Result<(), Fail> {
    let found = operand(negation(rt.alloc())?);
    assert!(rt; found == Some(variable(rt.alloc(), "a", Span::default())?));
    Ok(())
}

#[test]
fn a_form_makes_its_expression(rt: HostRuntime) -> Result<(), Fail> {
    let made = negation(rt.alloc())?.into_form().into_expression();
    assert!(rt; made == negation(rt.alloc())?);
    Ok(())
}

fn block(alloc: Global) -> Made<Node> {
    let name = Spanned::new(alloc, String::from_str(alloc, "page")?, Span::default())?;
    Ok(build::block(name, Vec::new(alloc)))
}

fn name_of(node: Node) -> Option<String> {
    match node.into_form() {
        NodeForm::Block(it) => Some(it.name.into_parts().0),
        _ => None,
    }
}

#[test]
fn a_name_is_moved_out(rt: HostRuntime) -> Result<(), Fail> {
    let name = name_of(block(rt.alloc())?);
    assert!(rt; name == Some(String::from_str(rt.alloc(), "page")?));
    Ok(())
}

#[test]
fn a_form_makes_its_node(rt: HostRuntime) -> Result<(), Fail> {
    let made = block(rt.alloc())?.into_form().into_node();
    assert!(rt; made == block(rt.alloc())?);
    Ok(())
}

fn rename(expression: &mut Expression, name: String) {
    if let Expression::Var(it) = expression {
        it.node_mut().name = name;
    }
}

#[test]
fn a_variable_is_renamed(rt: HostRuntime) -> Result<(), Fail> {
    let mut renamed = variable(rt.alloc(), "a", Span::default())?;
    rename(&mut renamed, String::from_str(rt.alloc(), "b")?);
    assert!(rt; renamed == variable(rt.alloc(), "b", Span::default())?);
    Ok(())
}

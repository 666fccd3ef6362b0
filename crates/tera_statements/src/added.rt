//! What the items of a body add to a template.

ghost use Rattle.std.specs.Prelude.{◌≡◌, ◌++◌, ◌∷◌, IfErr, OnOk, [], map};
ghost use Rattle.tera_base.specs.Errors.{IsMemory};
ghost use Rattle.tera_grammar.specs.statements.Output.{added_nodes, text_adds};
ghost use Rattle.tera_grammar.specs.statements.Top.{is_blank};
ghost use Rattle.tera_statements.specs.Adding.{added_view};
ghost use Rattle.tera_ast.specs.View.{node_view};

use std::alloc::Global;
use tera_base::Error;
use tera_tree::{ComponentDefinition, Node};

/// What an item adds that is not a text.
#[derive(Drop)]
pub(crate) enum Added {
    Node(Node),
    Parent(String),
    Definition(ComponentDefinition),
}

/// Whether a text is of white space alone.
pub(crate) fn is_blank(text: &str) -> bool
    ensures { result ≡ is_blank text.now }
{
    text.trim_start().is_empty()
}

/// Puts a text after the others, unless it is empty.
pub(crate) fn push_text(nodes: &mut Vec<Node>, alloc: Global, text: &str) -> Result<(), Error>
    ensures pushed { OnOk result (map node_view nodes.new.items ≡
        map node_view nodes.old.items ++ added_nodes (text_adds text.now)) }
    ensures refusal { IfErr result IsMemory }
    ensures empty { IfErr result (λ _. text.now ≡ [] → ⊥) }
{
    if text.is_empty() {
        return Ok(());
    }
    let text = String::from_str(alloc, text)?;
    push(nodes, Node::Content(text))?;
    Ok(())
}

/// Puts what is a node after the others. What adds a parent or a definition is refused in a body, so none comes here.
pub(crate) fn push_node(nodes: &mut Vec<Node>, added: Added) -> Result<(), Error>
    ensures pushed { OnOk result (map node_view nodes.new.items
        ≡ map node_view nodes.old.items ++ added_nodes (added_view added)) }
    ensures refusal { IfErr result IsMemory }
{
    match added {
        Added::Node(node) => {
            push(nodes, node)?;
            Ok(())
        }
        Added::Parent(_) | Added::Definition(_) => Ok(()),
    }
}

// Puts a node after the others.
#[inline(always)]
fn push(nodes: &mut Vec<Node>, node: Node) -> Result<(), Error>
    ensures pushed { OnOk result (map node_view nodes.new.items ≡
        map node_view nodes.old.items ++ (node_view node ∷ [])) }
    ensures refusal { IfErr result IsMemory }
{
    // Many bodies have a single node.
    if nodes.is_empty() {
        nodes.reserve_exact(1)?;
    }
    nodes.push(node)?;
    Ok(())
}

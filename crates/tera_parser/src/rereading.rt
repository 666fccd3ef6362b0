//! An expression that is written back and parsed again.

ghost use Rattle.std.specs.Prelude.{◌≡◌, IfOk, MatchResult, string_bytes};
ghost use Rattle.tera_base.specs.Errors.{IsMemory};
ghost use Rattle.tera_lexer.specs.grammar.Marks.{default_marks};
ghost use Rattle.tera_ast.specs.Tree.{Expr, Shown};
ghost use Rattle.tera_ast.specs.View.{expression_view, node_view};
ghost use Rattle.tera_tree.specs.Outputs.{output_view};
ghost use Rattle.tera_grammar.specs.statements.Top.{Derives};
ghost use Rattle.tera_spelling.specs.Sources.{in_tag};
ghost use Rattle.tera_source.specs.Placeless.{placeless};
ghost use Rattle.tera_source.specs.Printing.{PrintsBack, shown_alone};
ghost use Rattle.tera_source.specs.Source.{source_text};
ghost use Rattle.tera_source.specs.Writable.{IsWritable};
ghost use Rattle.tera_expr_parts.specs.Allowed.{AreValid, limits_of};

use crate::parsing::Parser;
use std::alloc::{AllocError, Global};
use tera_base::Error;
use tera_expr_parts::Limits;
use tera_lexer::Delimiters;
use tera_source::source_of;
use tera_tree::{Expression, Node, NodeForm, ParserOutput};

/// The expression, written as source and parsed again, within these limits.
///
/// An expression of a source that was parsed within the limits is itself again, apart from places, or `Memory` is the
/// answer: [`crate::laws::printed_back`] promises of each that it is printed back. An expression that was made by hand
/// may be refused as [`crate::expr::source_of`] refuses it, or because its text is not an expression. A place in such a
/// refusal is one of the text, in a variable tag between the default markers.
pub fn reread(alloc: Global, expression: &Expression, limits: Limits) -> Result<Expression, Error>
    requires { AreValid (limits_of limits) }
    ensures again { PrintsBack (limits_of limits) (expression_view expression.now) →
        MatchResult result
        (λ again. placeless (expression_view again) ≡ placeless (expression_view expression.now))
        IsMemory }
    ensures read { IsWritable (expression_view expression.now) → IfOk result (λ again.
        Derives (limits_of limits) default_marks
        (in_tag (source_text (expression_view expression.now)))
        (shown_alone (expression_view again))) }
{
    let text = source_of(alloc, expression)?;
    let source = in_variable_tag(alloc, text.as_str())?;
    let delimiters = Delimiters::default();
    let parser = Parser::with_limits(alloc, "", source.as_str(), delimiters, limits);
    expression_alone(alloc, parser.parse()?)
}

// The text in a variable tag between the default markers.
fn in_variable_tag(alloc: Global, text: &str) -> Result<String, AllocError>
    ensures { IfOk result (λ source. string_bytes source ≡ in_tag text.now) }
{
    format!(in alloc; "{{{{ {text} }}}}")
}

// The expression that the output shows, where this is all of the output.
fn expression_alone(alloc: Global, output: ParserOutput) -> Result<Expression, Error>
    ensures shown { IfOk result (λ e. output_view output ≡ shown_alone (expression_view e)) }
    ensures alone { (e : Expr) → output_view output ≡ shown_alone e →
        MatchResult result (λ shown. expression_view shown ≡ e) IsMemory }
{
    let ParserOutput {
        parent,
        mut nodes,
        component_definitions,
    } = output;
    match nodes.pop() {
        Some(node) if nodes.is_empty() && parent.is_none() && component_definitions.is_empty() => {
            expression_shown(alloc, node)
        }
        _ => Err(not_alone(alloc)),
    }
}

// The expression that the node shows.
fn expression_shown(alloc: Global, node: Node) -> Result<Expression, Error>
    ensures shown { IfOk result (λ e. node_view node ≡ Shown (expression_view e)) }
    ensures alone { (e : Expr) → node_view node ≡ Shown e →
        MatchResult result (λ shown. expression_view shown ≡ e) IsMemory }
{
    match node.into_form() {
        NodeForm::Expression(expression) => Ok(expression),
        _ => Err(not_alone(alloc)),
    }
}

fn not_alone(alloc: Global) -> Error {
    Error::message(
        alloc,
        "The text of the expression is not read as one expression",
    )
}

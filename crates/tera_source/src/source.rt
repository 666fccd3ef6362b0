//! The source text of an expression.

ghost use Rattle.std.specs.Prelude.{◌≡◌, Bool, false, IfOk, IfErr, MatchResult, codes, string_bytes};
ghost use Rattle.tera_base.specs.Errors.{IsMemory, Says};
ghost use Rattle.tera_grammar.specs.expressions.Concrete.{Tree};
ghost use Rattle.tera_grammar.specs.expressions.Output.{output};
ghost use Rattle.tera_ast.specs.View.{expression_view};
ghost use Rattle.tera_source.specs.Bodies.{has_body};
ghost use Rattle.tera_source.specs.Contexts.{free};
ghost use Rattle.tera_source.specs.Source.{source_text};
ghost use Rattle.tera_source.specs.Writable.{IsWritable};
ghost use Rattle.tera_source.specs.Writing.{written};

use crate::context::Context;
use crate::refusal::Refusal;
use crate::writing::push_expression;
use std::alloc::{AllocError, Global};
use tera_base::Error;
use tera_tree::Expression;

/// The text that is read as this expression: its tokens with a space between each two, and with parentheses only where
/// they are needed. What is read of a source has one. A call of a component with a body has none, nor has what holds
/// one, which is refused by a message; the only other refusal is `Memory`. It needs a stack for as many calls as the
/// expression is deep.
#[tactic(auto, using(crate::proofs::Printed::written_source, crate::proofs::Read::read_written, crate::proofs::Read::read_bodiless))]
pub fn source_of(alloc: Global, expression: &Expression) -> Result<String, Error>
    ensures text { IsWritable (expression_view expression.now) →
        IfOk result (λ text. string_bytes text ≡ source_text (expression_view expression.now)) }
    ensures read { (in_loop : Bool) (t : Tree) → expression_view expression.now ≡ output in_loop t →
        MatchResult result
        (λ text. string_bytes text ≡ source_text (expression_view expression.now)) IsMemory }
    ensures written { IfOk result (λ text.
        string_bytes text ≡ written (expression_view expression.now) free) }
    ensures bodiless { IfOk result (λ _. has_body (expression_view expression.now) ≡ false) }
    ensures message { IfErr result
        (Says (codes "A component call with a body has no expression text")) }
    ensures memory { IfErr result (λ error. has_body (expression_view expression.now) ≡ false →
        IsMemory error) }
{
    let mut text = String::new(alloc);
    match push_expression(&mut text, expression, Context::free()) {
        Ok(()) => Ok(text),
        Err(Refusal::Memory) => Err(Error::from(AllocError)),
        Err(Refusal::Body) => {
            Err(Error::message(alloc, "A component call with a body has no expression text"))
        }
    }
}

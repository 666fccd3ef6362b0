//! Whole expressions.

ghost use Rattle.std.specs.Prelude.{◌≡◌, IfErr, IfOk};
ghost use Rattle.tera_lexer.specs.code.Cursors.{IsLater, RefusesFrom};
ghost use Rattle.tera_lexer.specs.grammar.Tokens.{Items};
ghost use Rattle.tera_ast.specs.View.{expression_view};
ghost use Rattle.tera_grammar.specs.expressions.Concrete.{Tree, yield};
ghost use Rattle.tera_grammar.specs.expressions.Conditions.{IsExpression};
ghost use Rattle.tera_grammar.specs.expressions.Ends.{IsStop};
ghost use Rattle.tera_grammar.specs.expressions.Measures.{Within};
ghost use Rattle.tera_grammar.specs.expressions.Output.{output};
ghost use Rattle.tera_parser.specs.Promises.{TakesOnly, TookExpression};
ghost use Rattle.tera_expr_parts.specs.Allowed.{AreValid, limits_of};

use tera_base::Error;
use tera_expr_parts::Scope;
use tera_lexer::Cursor;
use tera_tree::Expression;

/// Reads an expression.
///
/// An error is the lexical fault, the end of the input, a syntax error, or `Memory`. After an error the cursor is
/// not used again.
#[tactic(auto, using(tera_expect::proofs::TakingLemmas::refused, tera_expect::proofs::TakingLemmas::later))]
pub fn expression(cursor: &mut Cursor<'_>, scope: Scope) -> Result<Expression, Error>
    requires { AreValid (limits_of scope.limits) }
    // What was taken are the tokens of an expression within the limits, and it is returned.
    ensures found { IfOk result (λ e.
        TookExpression (limits_of scope.limits) scope.in_loop cursor.old e cursor.new) }
    // An expression within the limits is not refused where a token follows at which expressions end.
    ensures complete { (t : Tree) (rest : Items) → IsExpression scope.in_loop t →
        Within (limits_of scope.limits) t → IsStop rest → cursor.old.left ≡ yield t rest →
        TakesOnly (λ e. expression_view e ≡ output scope.in_loop t) rest result cursor.new }
    ensures refusal { IfErr result (RefusesFrom cursor.old) }
    ensures later { IfOk result (λ _. IsLater cursor.old cursor.new) }
{
    tera_expr_reader::expression(cursor, scope)
}

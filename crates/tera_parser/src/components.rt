//! The names of components.

ghost use Rattle.std.specs.Prelude.{◌≡◌, IfErr, IfOk, string_bytes};
ghost use Rattle.tera_lexer.specs.code.Cursors.{IsLater, RefusesFrom};
ghost use Rattle.tera_lexer.specs.grammar.Tokens.{Items};
ghost use Rattle.tera_grammar.specs.expressions.Companions.{Path, path_output, path_yield};
ghost use Rattle.tera_grammar.specs.expressions.Ends.{EndsPath};
ghost use Rattle.tera_parser.specs.Promises.{TakesOnly, TookPath};

use tera_base::Error;
use tera_lexer::Cursor;

/// Reads names joined by dots.
///
/// An error is the lexical fault, the end of the input, a syntax error at the first token that is not a name where one
/// is required, or `Memory`. After an error the cursor is not used again.
#[tactic(auto, using(tera_expect::proofs::TakingLemmas::refused, tera_expect::proofs::TakingLemmas::later))]
pub fn component_name(cursor: &mut Cursor<'_>) -> Result<String, Error>
    // What was taken are the tokens of a name, and it is returned.
    ensures found { IfOk result (λ s. TookPath cursor.old s cursor.new) }
    // No dot follows a name.
    ensures ends { IfOk result (λ _. EndsPath cursor.new.left) }
    // A name is not refused where no dot follows.
    ensures complete { (x : Path) (rest : Items) → EndsPath rest →
        cursor.old.left ≡ path_yield x rest →
        TakesOnly (λ s. string_bytes s ≡ path_output x) rest result cursor.new }
    ensures refusal { IfErr result (RefusesFrom cursor.old) }
    ensures later { IfOk result (λ _. IsLater cursor.old cursor.new) }
{
    tera_expr_reader::component_name(cursor)
}

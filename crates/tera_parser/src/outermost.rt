//! What tags hold beside expressions: the attributes of components, arguments, filters, and arrays and maps of
//! constants.

ghost use Rattle.std.specs.Prelude.{◌≡◌, IfErr, IfOk};
ghost use Rattle.tera_base.specs.Values as values;
ghost use Rattle.tera_base.specs.Values.{Pairs, Vals};
ghost use Rattle.tera_base.specs.ValueView.{value_view};
ghost use Rattle.tera_lexer.specs.code.Cursors.{IsLater, RefusesFrom};
ghost use Rattle.tera_lexer.specs.grammar.Tokens.{Items};
ghost use Rattle.tera_ast.specs.View.{args_view, entries_view, expression_view};
ghost use Rattle.tera_grammar.specs.expressions.Concrete.{Attributes, attributes_yield};
ghost use Rattle.tera_grammar.specs.expressions.Companions.{
  AreKwargs,
  ArrayWithin,
  EachArgs,
  Filtering,
  IsArray,
  IsMap,
  Opened,
  array_yield,
  filter_output,
  filter_yield,
  kwargs_output,
  kwargs_yield,
  map_yield,
};
ghost use Rattle.tera_grammar.specs.expressions.Conditions.{AreArgs, AreAttributes};
ghost use Rattle.tera_grammar.specs.expressions.Ends.{EndsAttributes, EndsFilter};
ghost use Rattle.tera_grammar.specs.expressions.Measures.{EachAttribute, EachRow, Within};
ghost use Rattle.tera_grammar.specs.expressions.Output.{attributes_output};
ghost use Rattle.tera_parser.specs.Promises.{TakesOnly, TookArray, TookAttributes, TookFilter, TookKwargs, TookMap};
ghost use Rattle.tera_expr_parts.specs.Allowed.{AreValid, limits_of};

use std::collections::BTreeMap;
use tera_base::{Error, Value};
use tera_expr_parts::{Limits, Scope};
use tera_lexer::Cursor;
use tera_tree::{Expression, MapEntry};

/// Reads the attributes of a call of a component, as many as are there.
///
/// Each value in braces is an expression with limits of its own. An error is the lexical fault, the end of the input,
/// a syntax error, or `Memory`. After an error the cursor is not used again.
#[tactic(auto, using(tera_expect::proofs::TakingLemmas::refused, crate::proofs::YieldLemmas::later_on))]
pub fn attributes(cursor: &mut Cursor<'_>, scope: Scope) -> Result<Vec<MapEntry>, Error>
    requires { AreValid (limits_of scope.limits) }
    // What was taken are the tokens of attributes within the limits, and they are returned.
    ensures found { IfOk result (λ v.
        TookAttributes (limits_of scope.limits) scope.in_loop cursor.old v cursor.new) }
    // Attributes within the limits are not refused where what ends attributes follows.
    ensures complete { (x : Attributes) (rest : Items) → AreAttributes scope.in_loop x →
        EachAttribute (Within (limits_of scope.limits)) x → EndsAttributes rest →
        cursor.old.left ≡ attributes_yield x rest → TakesOnly
        (λ v. entries_view v.items ≡ attributes_output scope.in_loop x) rest result cursor.new }
    ensures refusal { IfErr result (RefusesFrom cursor.old) }
    ensures later { IfOk result (λ _. IsLater cursor.old cursor.new) }
{
    tera_expr_reader::attributes(cursor, scope)
}

/// Reads arguments with their parentheses.
///
/// Each argument is an expression with limits of its own. An error is the lexical fault, the end of the input, a
/// syntax error, or `Memory`. After an error the cursor is not used again.
#[tactic(auto, using(tera_expect::proofs::TakingLemmas::refused, tera_expect::proofs::TakingLemmas::later))]
pub fn kwargs(cursor: &mut Cursor<'_>, scope: Scope) -> Result<BTreeMap<String, Expression>, Error>
    requires { AreValid (limits_of scope.limits) }
    // What was taken are the tokens of arguments within the limits, and they are returned.
    ensures found { IfOk result (λ m.
        TookKwargs (limits_of scope.limits) scope.in_loop cursor.old m cursor.new) }
    // Arguments within the limits are not refused, whatever follows.
    ensures complete { (x : Opened) (rest : Items) → AreKwargs scope.in_loop x →
        EachRow (Within (limits_of scope.limits)) x.row → cursor.old.left ≡ kwargs_yield x rest →
        TakesOnly
        (λ m. args_view m.entries ≡ kwargs_output scope.in_loop x) rest result cursor.new }
    ensures refusal { IfErr result (RefusesFrom cursor.old) }
    ensures later { IfOk result (λ _. IsLater cursor.old cursor.new) }
{
    tera_expr_reader::kwargs(cursor, scope)
}

/// Reads the name of a filter and its arguments. What it filters is not a value, at the token taken last before.
///
/// Each argument is an expression with limits of its own. An error is the lexical fault, the end of the input, a
/// syntax error, or `Memory`. After an error the cursor is not used again.
#[tactic(auto, using(tera_expect::proofs::TakingLemmas::refused, tera_expect::proofs::TakingLemmas::later))]
pub fn filter(cursor: &mut Cursor<'_>, scope: Scope) -> Result<Expression, Error>
    requires { AreValid (limits_of scope.limits) }
    // What was taken are the tokens of a filter within the limits, and it is returned.
    ensures found { IfOk result (λ e.
        TookFilter (limits_of scope.limits) scope.in_loop cursor.old e cursor.new) }
    // A filter within the limits is not refused where what ends filters follows.
    ensures complete { (x : Filtering) (rest : Items) → AreArgs scope.in_loop x.args →
        EachArgs (Within (limits_of scope.limits)) x.args → EndsFilter rest →
        cursor.old.left ≡ filter_yield x rest → TakesOnly (λ e.
        expression_view e ≡ filter_output scope.in_loop cursor.old.span x) rest result cursor.new }
    ensures refusal { IfErr result (RefusesFrom cursor.old) }
    ensures later { IfOk result (λ _. IsLater cursor.old cursor.new) }
{
    tera_expr_reader::filter(cursor, scope)
}

/// Reads an array of constants from its bracket on.
///
/// Each value is an expression with limits of its own. An error is the lexical fault, the end of the input, a syntax
/// error, or `Memory`. After an error the cursor is not used again.
#[tactic(auto, using(tera_expect::proofs::TakingLemmas::refused, tera_expect::proofs::TakingLemmas::later))]
pub fn literal_array(cursor: &mut Cursor<'_>, limits: Limits) -> Result<Value, Error>
    requires { AreValid (limits_of limits) }
    // What was taken are the tokens of an array of constants within the limits, and its value is returned.
    ensures found { IfOk result (λ v. TookArray (limits_of limits) cursor.old v cursor.new) }
    // An array of constants within the limits is not refused, whatever follows.
    ensures complete { (x : Opened) (vs : Vals) (rest : Items) → IsArray x vs →
        ArrayWithin (limits_of limits) x → cursor.old.left ≡ array_yield x rest →
        TakesOnly (λ v. value_view v ≡ values.Array vs) rest result cursor.new }
    ensures refusal { IfErr result (RefusesFrom cursor.old) }
    ensures later { IfOk result (λ _. IsLater cursor.old cursor.new) }
{
    tera_expr_reader::literal_array(cursor, limits)
}

/// Reads a map of constants from its brace on; a fault reports what it is in as the context.
///
/// Each value is an expression with limits of its own. An error is the lexical fault, the end of the input, a syntax
/// error, or `Memory`. After an error the cursor is not used again.
#[tactic(auto, using(tera_expect::proofs::TakingLemmas::refused, tera_expect::proofs::TakingLemmas::later))]
pub fn literal_map(cursor: &mut Cursor<'_>, context: &str, limits: Limits) -> Result<Value, Error>
    requires { AreValid (limits_of limits) }
    // What was taken are the tokens of a map of constants within the limits, and its value is returned.
    ensures found { IfOk result (λ v. TookMap (limits_of limits) cursor.old v cursor.new) }
    // A map of constants within the limits is not refused, whatever follows.
    ensures complete { (x : Opened) (ps : Pairs) (rest : Items) → IsMap x ps →
        EachRow (Within (limits_of limits)) x.row → cursor.old.left ≡ map_yield x rest →
        TakesOnly (λ v. value_view v ≡ values.Map ps) rest result cursor.new }
    ensures refusal { IfErr result (RefusesFrom cursor.old) }
    ensures later { IfOk result (λ _. IsLater cursor.old cursor.new) }
{
    tera_expr_reader::literal_map(cursor, context, limits)
}

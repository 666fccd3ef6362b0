//! Laws of the definitions, and what equality decides: each function has the law as its promise.

ghost use Rattle.std.specs.Prelude.{◌≡◌, ◌↔◌, IsTrue, ℕ, List, false};
ghost use Rattle.tera_base.specs.Kinds.{kind_of};
ghost use Rattle.tera_base.specs.Values.{KeyVal, Val, Pairs};
ghost use Rattle.tera_lexer.specs.code.Cursors as cursors;
ghost use Rattle.tera_lexer.specs.grammar.Marks.{Marks, IsValid};
ghost use Rattle.tera_ast.specs.Spans as nodes;
ghost use Rattle.tera_tree.specs.Calls as calls;
ghost use Rattle.tera_tree.specs.Infos.{shown_type, shown_type_name};
ghost use Rattle.tera_tree.specs.Tree.{Output};
ghost use Rattle.tera_tree.specs.Types.{type_name, type_of_kind, is_of_type};
ghost use Rattle.tera_tree.specs.declared.ast.ArgType.{ArgType};
ghost use Rattle.tera_grammar.specs.Limits.{Limits};
ghost use Rattle.tera_grammar.specs.expressions.Constants.{IsLiteralNumber};
ghost use Rattle.tera_grammar.specs.expressions.Output.{output, put_pair};
ghost use Rattle.tera_grammar.specs.statements.Constants.{EachOfOutput};
ghost use Rattle.tera_grammar.specs.statements.Top.{Derives};
ghost use Rattle.tera_grammar.specs.statements.Trees.{IsRight};
ghost use Rattle.tera_grammar.specs.statements.Types.{type_of, has_type};
ghost use Rattle.tera_source.specs.Outermost.{EachOfBody};
ghost use Rattle.tera_source.specs.Nodes as trees;
ghost use Rattle.tera_source.specs.Subexpressions.{EachPart};
ghost use Rattle.tera_source.specs.Printing.{PrintsBack};
ghost use Rattle.tera_tree.specs.Outputs.{output_view};

use tera_statements::ParserOutput;

/// No source has derivations with two outputs, within whatever limits.
pub fn one_output()
    ensures { (l : Limits) (m : Marks) → IsValid m → (source : List ℕ) (one other : Output) →
        Derives l m source one → Derives l m source other → one ≡ other }
{}

/// In the tree of a source no two blocks have one name, nor two components; each `break` and `continue` is in a loop,
/// with no body that is taken as a value between; and where the source extends another template, texts of white space
/// and blocks alone are at its top level.
pub fn right_trees()
    ensures { (l : Limits) (m : Marks) (source : List ℕ) (read : Output) → Derives l m source read →
        IsRight read }
{}

/// Each number among the constants of the tree of a source is greater than the least `i64`, so no minus overflows.
pub fn constants()
    ensures { (l : Limits) (m : Marks) → IsValid m → (source : List ℕ) (read : Output) →
        Derives l m source read → EachOfOutput IsLiteralNumber read }
{}

/// An expression that is parsed, written back and parsed again is itself, apart from places. It has a source text, and
/// in a variable tag between the default markers this has a derivation within the same limits, of one node alone, which
/// shows the expression. So it is for each expression in a derivation of a source, at any depth (`of_sources`), and for
/// each that a node of its tree shows, sets, goes over or asks (`of_trees`).
///
/// What [`crate::Parser::parse`] answers is the output of a derivation, by its clause `sound`. Of each of these
/// expressions [`crate::expr::reread`] answers that expression, apart from places, or `Memory`.
pub fn printed_back()
    ensures of_sources { (l : Limits) (m : Marks) (source : List ℕ) (read : Output)
        (d : Derives l m source read) → EachOfBody
        (λ in_loop e. EachPart (λ part. PrintsBack l (output in_loop part)) e) false d.2.0 }
    ensures of_trees { (l : Limits) (m : Marks) (source : List ℕ) (read : Output) →
        Derives l m source read → trees.EachOfOutput (PrintsBack l) read }
{}

/// What two crates define, each in its own terms, agrees: what a map is after a pair was put into it, in a source and
/// by a call (`pairs`); which type a value has, and whether it is of a type, by its form and by its kind (`types`,
/// `of_types`); the names of types, declared and shown (`names`); and the span of what is nowhere (`nowhere`).
pub fn one_meaning()
    ensures pairs { (k : KeyVal) (v : Val) (ps : Pairs) → put_pair k v ps ≡ calls.put_pair k v ps }
    ensures types { (v : Val) → type_of v ≡ type_of_kind (kind_of v) }
    ensures of_types { (t : ArgType) (v : Val) → has_type t v ≡ is_of_type t (kind_of v) }
    ensures names { (t : ArgType) → shown_type_name (shown_type t) ≡ type_name t }
    ensures nowhere { cursors.nowhere ≡ nodes.nowhere }
{}

/// Outputs are equal exactly where they mean the same, places included.
pub fn same_output(a: &ParserOutput, b: &ParserOutput) -> bool
    ensures { IsTrue result ↔ (output_view a.now ≡ output_view b.now) }
{
    a == b
}

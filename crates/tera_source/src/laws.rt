//! Laws of the source text of expressions: each function has the law as its promise and does nothing.

ghost use Rattle.std.specs.Prelude.{◌≡◌, ◌≤◌, ℕ, List, Bool, false};
ghost use Rattle.tera_lexer.specs.grammar.Marks.{Marks};
ghost use Rattle.tera_lexer.specs.grammar.Tokens.{Items, Ended};
ghost use Rattle.tera_ast.specs.Tree.{Expr};
ghost use Rattle.tera_tree.specs.Tree.{Output};
ghost use Rattle.tera_grammar.specs.Limits.{Limits};
ghost use Rattle.tera_grammar.specs.expressions.Concrete.{Tree, yield};
ghost use Rattle.tera_grammar.specs.expressions.Conditions.{IsExpression};
ghost use Rattle.tera_grammar.specs.expressions.Ends.{IsStop};
ghost use Rattle.tera_grammar.specs.expressions.Measures.{Within};
ghost use Rattle.tera_grammar.specs.expressions.Output.{output};
ghost use Rattle.tera_grammar.specs.Reads.{found};
ghost use Rattle.tera_grammar.specs.expressions.Reading.Whole.{expression_of};
ghost use Rattle.tera_grammar.specs.statements.Top.{Derives};
ghost use Rattle.tera_spelling.specs.Sources.{AreReadAs};
ghost use Rattle.tera_source.specs.Placeless.{placeless};
ghost use Rattle.tera_source.specs.Outermost.{EachOfBody};
ghost use Rattle.tera_source.specs.Nodes.{EachOfOutput};
ghost use Rattle.tera_source.specs.Subexpressions.{EachPart};
ghost use Rattle.tera_source.specs.Printing.{PrintsBack};
ghost use Rattle.tera_source.specs.Source.{source_tree, source_text};
ghost use Rattle.tera_source.specs.InSources.{IsInSource};
ghost use Rattle.tera_source.specs.Bodies.{has_body};
ghost use Rattle.tera_source.specs.Contexts.{free};
ghost use Rattle.tera_source.specs.Writable.{IsWritable};
ghost use Rattle.tera_source.specs.Writing.{written};

/// What is written for the output of an expression is an expression outside of loops, and is read as that output, apart
/// from places. Where the expression is in a source, it is within the limits of the expression.
pub fn sources()
    ensures bound { (in_loop : Bool) (e : Tree) → IsExpression in_loop e →
        IsExpression false (source_tree (output in_loop e)) }
    ensures within { (m : Marks) (source : List ℕ) (limits : Limits) (in_loop : Bool) (e : Tree) →
        IsInSource m source e →
        IsExpression in_loop e → Within limits e → Within limits (source_tree (output in_loop e)) }
    ensures same { (in_loop : Bool) (e : Tree) → IsExpression in_loop e →
        placeless (output false (source_tree (output in_loop e))) ≡ placeless (output in_loop e) }
{}

/// Where an expression is in a source, the tokens that are written for its output, each at any place, before one that
/// ends expressions, are read as an expression outside of loops, within the limits of the first, and with its output,
/// apart from places.
pub fn read_back()
    ensures { (m : Marks) (source : List ℕ) (limits : Limits) (in_loop : Bool) (e : Tree) →
        IsInSource m source e → IsExpression in_loop e → Within limits e → (read rest : Items) →
        AreReadAs (yield (source_tree (output in_loop e)) Ended) rest read → IsStop rest →
        (t : Tree) × (expression_of limits false read ≡ found (t, rest)) × Within limits t
        × (placeless (output false t) ≡ placeless (output in_loop e)) }
{}

/// Each expression that is in a source is printed back within the limits of the expression (`each`). So it is for each
/// expression in a derivation of a source, at any depth, between whatever markers (`of_sources`), and for each that a
/// node of its tree shows, sets, goes over or asks (`of_trees`).
pub fn printed_back()
    ensures each { (m : Marks) (source : List ℕ) (limits : Limits) (in_loop : Bool) (e : Tree) →
        IsInSource m source e → IsExpression in_loop e → Within limits e → 1 ≤ limits.bodies →
        PrintsBack limits (output in_loop e) }
    ensures of_sources { (m : Marks) (source : List ℕ) (limits : Limits) (read : Output)
        (d : Derives limits m source read) → EachOfBody
        (λ in_loop e. EachPart (λ part. PrintsBack limits (output in_loop part)) e) false d.2.0 }
    ensures of_trees { (m : Marks) (source : List ℕ) (limits : Limits) (read : Output) →
        Derives limits m source read → EachOfOutput (PrintsBack limits) read }
{}

/// What is written for an expression, form by form, is the text of its source tree.
#[tactic(auto, using(crate::proofs::Printed::written_source))]
pub fn written_texts()
    ensures { (e : Expr) → IsWritable e → written e free ≡ source_text e }
{}

/// What an expression of the grammar is read as has a source text, and no component is called with a body in it.
#[tactic(auto, using(crate::proofs::Writables::output_writable, crate::proofs::Bodiless::bodiless))]
pub fn outputs()
    ensures writable { (in_loop : Bool) (e : Tree) → IsWritable (output in_loop e) }
    ensures bodiless { (e : Expr) → IsWritable e → has_body e ≡ false }
{}

/// Expressions that are the same apart from places have one source text. So what is printed, read and printed again is
/// the first text.
pub fn one_text()
    ensures { (one other : Expr) → placeless one ≡ placeless other →
        source_text one ≡ source_text other }
{}

/// Expressions that are printed back, as those of a source are, have one source text only where they are the same apart
/// from places.
pub fn texts_tell_apart()
    ensures { (limits : Limits) (one other : Expr) → PrintsBack limits one → PrintsBack limits other →
        source_text one ≡ source_text other → placeless one ≡ placeless other }
{}

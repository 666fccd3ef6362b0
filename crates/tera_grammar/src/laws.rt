//! Laws of the grammar: each function has the law as its promise and does nothing.

ghost use Rattle.std.specs.Prelude.{◌≡◌, ◌↔◌, ℕ, List, [], Bool, false, map};
ghost use Rattle.tera_lexer.specs.grammar.Marks.{Marks, IsValid};
ghost use Rattle.tera_lexer.specs.code.Cursors.{Passes};
ghost use Rattle.tera_lexer.specs.grammar.Faults.{IsFaultOf};
ghost use Rattle.tera_lexer.specs.grammar.Tiling.{Tile};
ghost use Rattle.tera_lexer.specs.grammar.Tokens.{Tok, Items, Ended, Token};
ghost use Rattle.tera_base.specs.declared.utils.Span.{Span};
ghost use Rattle.tera_base.specs.Values.{Vals, Pairs};
ghost use Rattle.tera_grammar.specs.Reads.{found, stopped};
ghost use Rattle.tera_grammar.specs.expressions.Concrete.{Tree, Attributes, yield, attributes_yield};
ghost use Rattle.tera_grammar.specs.expressions.Conditions.{IsExpression, AreArgs, AreAttributes};
ghost use Rattle.tera_grammar.specs.expressions.Ends.{IsStop, EndsAttributes, EndsFilter, EndsPath};
ghost use Rattle.tera_grammar.specs.Limits.{Limits};
ghost use Rattle.tera_grammar.specs.expressions.Measures.{Within, EachRow, EachAttribute};
ghost use Rattle.tera_grammar.specs.expressions.Companions.{
  Opened,
  Filtering,
  Path,
  kwargs_yield,
  AreKwargs,
  filter_yield,
  EachArgs,
  path_yield,
  array_yield,
  IsArray,
  ArrayWithin,
  map_yield,
  IsMap,
};
ghost use Rattle.tera_grammar.specs.expressions.Output.{output};
ghost use Rattle.tera_grammar.specs.expressions.Constants.{IsLiteralNumber, EachNumber, EachConstant};
ghost use Rattle.tera_grammar.specs.expressions.Reading.Whole.{
  expression_of,
  kwargs_of,
  filter_of,
  all_attributes,
  path_of,
  literal_array_of,
  literal_map_of,
};
ghost use Rattle.tera_ast.specs.View.{nodes_of};
ghost use Rattle.tera_tree.specs.Tree.{Output};
ghost use Rattle.tera_grammar.specs.statements.Constants.{EachOfOutput};
ghost use Rattle.tera_grammar.specs.statements.Grammar.{Body};
ghost use Rattle.tera_grammar.specs.statements.Lost.{AreLost};
ghost use Rattle.tera_grammar.specs.statements.Output.{output_of};
ghost use Rattle.tera_grammar.specs.statements.Places.{Places, texts};
ghost use Rattle.tera_grammar.specs.statements.Reading.{template};
ghost use Rattle.tera_grammar.specs.statements.Top.{IsTemplate, Derives, DerivesNames};
ghost use Rattle.tera_grammar.specs.statements.Trees.{IsRight, blocks, definition_names, group_names};

/// What is read as an expression is one, within the limits, and its tokens are those that were taken. Each
/// expression within the limits is read before a token that ends it. So no other has the same tokens.
pub fn expressions()
    ensures sound { (limits : Limits) (in_loop : Bool) (items rest : Items) (e : Tree) →
        expression_of limits in_loop items ≡ found (e, rest) →
        (items ≡ yield e rest) × IsExpression in_loop e × Within limits e }
    ensures complete { (limits : Limits) (in_loop : Bool) (e : Tree) (rest : Items) →
        IsExpression in_loop e → Within limits e → IsStop rest →
        expression_of limits in_loop (yield e rest) ≡ found (e, rest) }
    ensures unique { (in_loop : Bool) (one other : Tree) (rest last : Items) →
        IsExpression in_loop one → IsExpression in_loop other → IsStop rest → IsStop last →
        yield one rest ≡ yield other last → (one ≡ other) × (rest ≡ last) }
    ensures alone { (in_loop : Bool) (one other : Tree) → IsExpression in_loop one →
        IsExpression in_loop other → yield one Ended ≡ yield other Ended → one ≡ other }
{}

/// The same of the arguments of a call, whatever follows.
pub fn arguments()
    ensures sound { (limits : Limits) (in_loop : Bool) (items rest : Items) (x : Opened) →
        kwargs_of limits in_loop items ≡ found (x, rest) →
        (items ≡ kwargs_yield x rest) × AreKwargs in_loop x × EachRow (Within limits) x.row }
    ensures complete { (limits : Limits) (in_loop : Bool) (x : Opened) (rest : Items) →
        AreKwargs in_loop x → EachRow (Within limits) x.row →
        kwargs_of limits in_loop (kwargs_yield x rest) ≡ found (x, rest) }
    ensures unique { (in_loop : Bool) (one other : Opened) (rest last : Items) →
        AreKwargs in_loop one → AreKwargs in_loop other →
        kwargs_yield one rest ≡ kwargs_yield other last → (one ≡ other) × (rest ≡ last) }
{}

/// The same of a filter, before a further one or the end of its tag.
pub fn filters()
    ensures sound { (limits : Limits) (in_loop : Bool) (items rest : Items) (x : Filtering) →
        filter_of limits in_loop items ≡ found (x, rest) →
        (items ≡ filter_yield x rest) × AreArgs in_loop x.args × EachArgs (Within limits) x.args }
    ensures complete { (limits : Limits) (in_loop : Bool) (x : Filtering) (rest : Items) →
        AreArgs in_loop x.args → EachArgs (Within limits) x.args → EndsFilter rest →
        filter_of limits in_loop (filter_yield x rest) ≡ found (x, rest) }
    ensures unique { (in_loop : Bool) (one other : Filtering) (rest last : Items) →
        AreArgs in_loop one.args → AreArgs in_loop other.args → EndsFilter rest → EndsFilter last →
        filter_yield one rest ≡ filter_yield other last → (one ≡ other) × (rest ≡ last) }
{}

/// The same of the attributes of a component, before `/` or `>`.
pub fn attributes()
    ensures sound { (limits : Limits) (in_loop : Bool) (items rest : Items) (x : Attributes) →
        all_attributes limits in_loop items ≡ found (x, rest) → (items ≡ attributes_yield x rest)
        × AreAttributes in_loop x × EachAttribute (Within limits) x }
    ensures complete { (limits : Limits) (in_loop : Bool) (x : Attributes) (rest : Items) →
        AreAttributes in_loop x → EachAttribute (Within limits) x → EndsAttributes rest →
        all_attributes limits in_loop (attributes_yield x rest) ≡ found (x, rest) }
    ensures unique { (in_loop : Bool) (one other : Attributes) (rest last : Items) →
        AreAttributes in_loop one → AreAttributes in_loop other → EndsAttributes rest →
        EndsAttributes last → attributes_yield one rest ≡ attributes_yield other last →
        (one ≡ other) × (rest ≡ last) }
{}

/// The same of the name of a component, before all but a dot.
pub fn component_names()
    ensures sound { (items rest : Items) (x : Path) → path_of items ≡ found (x, rest) →
        items ≡ path_yield x rest }
    ensures complete { (x : Path) (rest : Items) → EndsPath rest →
        path_of (path_yield x rest) ≡ found (x, rest) }
    ensures unique { (one other : Path) (rest last : Items) → EndsPath rest → EndsPath last →
        path_yield one rest ≡ path_yield other last → (one ≡ other) × (rest ≡ last) }
{}

/// The same of an array of constants, whatever follows.
pub fn literal_arrays()
    ensures sound { (limits : Limits) (items rest : Items) (x : Opened) (values : Vals) →
        literal_array_of limits items ≡ found ((x, values), rest) →
        (items ≡ array_yield x rest) × IsArray x values × ArrayWithin limits x }
    ensures complete { (limits : Limits) (x : Opened) (values : Vals) (rest : Items) →
        IsArray x values → ArrayWithin limits x →
        literal_array_of limits (array_yield x rest) ≡ found ((x, values), rest) }
    ensures unique { (one other : Opened) (values others : Vals) (rest last : Items) →
        IsArray one values → IsArray other others → array_yield one rest ≡ array_yield other last →
        (one ≡ other) × (values ≡ others) × (rest ≡ last) }
{}

/// The same of a map of constants, whatever follows.
pub fn literal_maps()
    ensures sound { (limits : Limits) (items rest : Items) (x : Opened) (pairs : Pairs) →
        literal_map_of limits items ≡ found ((x, pairs), rest) →
        (items ≡ map_yield x rest) × IsMap x pairs × EachRow (Within limits) x.row }
    ensures complete { (limits : Limits) (x : Opened) (pairs : Pairs) (rest : Items) →
        IsMap x pairs → EachRow (Within limits) x.row →
        literal_map_of limits (map_yield x rest) ≡ found ((x, pairs), rest) }
    ensures unique { (one other : Opened) (pairs others : Pairs) (rest last : Items) →
        IsMap one pairs → IsMap other others → map_yield one rest ≡ map_yield other last →
        (one ≡ other) × (pairs ≡ others) × (rest ≡ last) }
{}

/// Each number among the constants of an expression, and of a template, is a number of its tokens or the negation of
/// one. So where these are at most the greatest `i64`, as those of every source are, each is greater than the least
/// `i64`, and no minus overflows.
pub fn constants()
    ensures of_expressions { (in_loop : Bool) (e : Tree) (rest : Items) →
        EachNumber IsLiteralNumber (yield e rest) →
        EachConstant IsLiteralNumber (output in_loop e) }
    ensures of_templates { (l : Limits) (items : Items) (b : Body) → IsTemplate l items b →
        EachNumber IsLiteralNumber items → EachOfOutput IsLiteralNumber (output_of b) }
    ensures of_sources { (l : Limits) (m : Marks) → IsValid m →
        (source : List ℕ) (output : Output) → Derives l m source output →
        EachOfOutput IsLiteralNumber output }
{}

/// A template is read from its tokens, and what is read from tokens is a template of them.
pub fn each_is_read()
    ensures { (l : Limits) (items : Items) (b : Body) →
        IsTemplate l items b ↔ (template l items ≡ found b) }
{}

/// No list of tokens is that of two templates.
pub fn one_template()
    ensures { (l : Limits) (items : Items) (one other : Body) → IsTemplate l items one →
        IsTemplate l items other → one ≡ other }
{}

/// No source has derivations with two outputs.
pub fn one_output()
    ensures { (l : Limits) (m : Marks) → IsValid m → (source : List ℕ) (one other : Output) →
        Derives l m source one → Derives l m source other → one ≡ other }
{}

/// Each derivation of a source defines names at places, and no source has derivations with two lists of them. They are
/// the names of the blocks of its tree, and those of the definitions of its components, in order; and with the name of
/// each of these the names of its arguments and that of its rest parameter, and no others.
pub fn placed_names()
    ensures some { (l : Limits) (m : Marks) (source : List ℕ) (output : Output) →
        Derives l m source output ↔ ((names : Places) × DerivesNames l m source output names) }
    ensures one { (l : Limits) (m : Marks) → IsValid m → (source : List ℕ)
        (one other : Output) (ones others : Places) → DerivesNames l m source one ones →
        DerivesNames l m source other others → (one ≡ other) × (ones ≡ others) }
    ensures in_output { (l : Limits) (m : Marks) (source : List ℕ) (output : Output) (names : Places) →
        DerivesNames l m source output names →
        (texts names.blocks ≡ blocks (nodes_of output.nodes))
        × (texts names.components ≡ map (λ d. d.name) output.definitions) }
    ensures parameters { (l : Limits) (m : Marks) (source : List ℕ) (output : Output)
        (names : Places) → DerivesNames l m source output names →
        map group_names names.parameters ≡ map definition_names output.definitions }
{}

/// The tree of a source has no two blocks and no two components of one name, each `break` and `continue` in a
/// loop, and, where the source extends another template, texts of white space and blocks alone.
pub fn right_trees()
    ensures { (l : Limits) (m : Marks) (source : List ℕ) (output : Output) →
        Derives l m source output → IsRight output }
{}

/// Where the reading of a template stops, the source is lost: no template has the same tokens up to the end of the token
/// that was taken last and one step further. The token that reading refuses was not taken (`before`), or is the one that
/// was taken last (`after`). A source with a lexical fault is lost where the fault begins (`lexical`).
pub fn lost_sources()
    ensures before { (limits : Limits) (source : List ℕ) (items left : Items) →
        Tile false [] source items → template limits items ≡ stopped left →
        (n : ℕ) (first last : Span) → Passes n items first left last →
        AreLost limits last.range.end items }
    ensures after { (limits : Limits) (source : List ℕ) (items left : Items) (t : Tok) (s : Span) →
        Tile false [] source items → template limits items ≡ stopped (Token t s left) →
        (n : ℕ) (first last : Span) → Passes n items first left last →
        AreLost limits last.range.end items }
    ensures lexical { (limits : Limits) (source : List ℕ) (items : Items) (text : List ℕ) (span : Span) →
        Tile false [] source items → IsFaultOf items text span → AreLost limits span.range.start items }
{}

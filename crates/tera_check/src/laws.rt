//! Laws of what is found: each function has the law as its promise and does nothing.

ghost use Rattle.std.specs.Prelude.{◌≡◌, ◌+◌, ◌++◌, [], ℕ, List, Bool, true, false, not, Option, None, Some, Ok, length, string_bytes};
ghost use Rattle.std.specs.List.{Contains, filter};
ghost use Rattle.tera_base.specs.declared.utils.Span.{Span};
ghost use Rattle.tera_mend.specs.Spans.{HasPart};
ghost use Rattle.tera_tree.specs.Outputs.{output_view};
ghost use Rattle.tera_tree.specs.declared.outputs.ParserOutput.{ParserOutput};
ghost use Rattle.tera_lexer.specs.grammar.Lexeme.{Float};
ghost use Rattle.tera_lexer.specs.grammar.Tokens.{fault_text};
ghost use Rattle.tera_tree.specs.Tree.{Output};
ghost use Rattle.tera_check.specs.Alike.{names_in, AgreeOn};
ghost use Rattle.tera_check.specs.Due.{due_findings, is_lost_in, is_undefined, mark_of, name_at};
ghost use Rattle.tera_findings.specs.Findings.{FindingOf, FindingVal, NoteVal, hint_of, float_hint};
ghost use Rattle.tera_rules.specs.Judged.{KnownVal};
ghost use Rattle.tera_templates.specs.Mended.{IsMended};
ghost use Rattle.tera_check.specs.Named.{tree_findings};
ghost use Rattle.tera_check.specs.Silenced.{is_silenced, unused_ignores};
ghost use Rattle.tera_findings.specs.declared.finding.Kind.TheVariants.{UnusedParameter};
ghost use Rattle.tera_templates.specs.declared.mended.Mended.{Mended};
ghost use Rattle.tera_templates.specs.declared.templates.Template.{Template};

/// What is found in a tree depends on what is known under the names that it defines and calls: the name of each
/// component, its parameters, its file and its span there, whether it is in this template, whatever the number of that
/// is, and whether it may show its body. All else of its body, and what is known under other names, have no part in it.
pub fn by_names()
    ensures { (known others : List ℕ → Option KnownVal) (number other : ℕ) (t : Template)
        (o : Output) → AgreeOn (names_in o) number other known others →
        tree_findings known number t o ≡ tree_findings others other t o }
{}

/// The fault of a number with a point, wherever it is, has the hint that this is a limit of the parser.
pub fn floats_have_a_hint()
    ensures { (b : ℕ) (bs more : List ℕ) → hint_of (fault_text (Float b bs more)) ≡ Some float_hint }
{}

/// If a template has no fault, and no text may define more components than are known, then all that is found in its
/// tree is due, except what its ignores silence; its ignores that silence nothing there are due too. Without ignores it
/// is all.
pub fn whole_texts_are_checked_whole()
    ensures silenced { (known : List ℕ → Option KnownVal) (number : ℕ) (t : Template)
        (o : ParserOutput) → t.parsed ≡ Ok o → t.mended ≡ None →
        (let found = tree_findings known number t (output_view o) in
        due_findings known false number t
        ≡ unused_ignores false t found ++ filter (λ f. not (is_silenced t f)) found) }
    ensures whole { (known : List ℕ → Option KnownVal) (number : ℕ) (t : Template)
        (o : ParserOutput) → t.parsed ≡ Ok o → t.mended ≡ None → t.ignores.items ≡ [] →
        due_findings known false number t ≡ tree_findings known number t (output_view o) }
{}

/// While a text with a fault may define more components, no call is reported for a component that no template defines.
pub fn none_is_undefined()
    ensures { (known : List ℕ → Option KnownVal) (number : ℕ) (t : Template) (f : FindingVal) →
        Contains (due_findings known true number t) f → is_undefined f ≡ false }
{}

/// What a due finding in a text with faults is about was not written for a fault: the source of the template has it, at
/// the same line, column and byte.
pub fn due_findings_are_written()
    ensures { (known : List ℕ → Option KnownVal) (open_text : Bool) (number : ℕ) (t : Template)
        (file source : List ℕ) (most : ℕ) (m : Mended) (f : FindingVal) →
        t.mended ≡ Some m → IsMended file source most m →
        Contains (due_findings known open_text number t) f →
        (front part after : List ℕ) × (string_bytes m.text ≡ front ++ (part ++ after))
        × ((length front, length front + length part) ≡ mark_of f) × HasPart source front part }
{}

/// An unused parameter is due in a text with faults only where its name was not written over in its definition.
pub fn unused_parameters_are_unused()
    ensures { (known : List ℕ → Option KnownVal) (open_text : Bool) (number : ℕ) (t : Template)
        (m : Mended) (span : Span) (text : List ℕ) (notes : List NoteVal) →
        t.mended ≡ Some m →
        Contains (due_findings known open_text number t)
        (FindingOf UnusedParameter span text notes) →
        (name : List ℕ) × (name_at m span ≡ Some name)
        × (is_lost_in m span.range.start name ≡ false) }
{}

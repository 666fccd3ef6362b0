//! Laws of what is suggested: each function has the law as its promise and does nothing.

ghost use Rattle.std.specs.Prelude.{◌≡◌, ℕ, List, All, Some};
ghost use Rattle.std.specs.List.{Contains};
ghost use Rattle.tera_base.specs.declared.utils.Span.{Span};
ghost use Rattle.tera_findings.specs.Findings.{FindingOf, FindingVal, NoteVal};
ghost use Rattle.tera_rules.specs.Judged.{KnownVal};
ghost use Rattle.tera_findings.specs.declared.finding.Kind.TheVariants.{UndefinedComponent, UnknownArgument};
ghost use Rattle.tera_fixes.specs.Laws.{IsPartOf};
ghost use Rattle.tera_fixes.specs.Names.{parameter_names};
ghost use Rattle.tera_fixes.specs.Suggestions.{ContextVal, SuggestionVal, suggestion_of};

/// Each part that a suggestion changes is in the text of the template, and begins and ends between characters.
pub fn parts_are_in_the_text()
    ensures { (x : ContextVal) (f : FindingVal) (s : SuggestionVal) →
        suggestion_of x f ≡ Some s → All (IsPartOf x.source) s.parts }
{}

/// For a component that no template defines, the name of a defined component is suggested.
pub fn suggested_components_exist()
    ensures { (x : ContextVal) (span : Span) (text : List ℕ) (notes : List NoteVal)
        (s : SuggestionVal) → suggestion_of x (FindingOf UndefinedComponent span text notes) ≡ Some s →
        Contains x.names s.text }
{}

/// For an argument that a component does not have, the name of one of its parameters is suggested.
pub fn suggested_arguments_exist()
    ensures { (x : ContextVal) (span : Span) (text : List ℕ) (notes : List NoteVal)
        (s : SuggestionVal) → suggestion_of x (FindingOf UnknownArgument span text notes) ≡ Some s →
        (name : List ℕ) × (k : KnownVal) × (x.known name ≡ Some k)
        × Contains (parameter_names k.definition) s.text }
{}

//! Laws of outlines, of coloured tokens, of what names lead to, of what is offered and of what refers to a name. Each
//! function has the law as its promise, and nothing in its body except what it cites.

ghost use Rattle.std.specs.Prelude.{◌≡◌, ◌⊎◌, ℕ, List, [], length, map, slice_index_or, All, IsUtf8, Option, None, Some};
ghost use Rattle.std.specs.List.{Contains, find};
ghost use Rattle.json.specs.Json.{Json};
ghost use Rattle.tera_outline.specs.Names.{Named, holds};
ghost use Rattle.tera_outline.specs.Pieces.{Part, ArePartsOf};
ghost use Rattle.tera_outline.specs.SemanticTokens.{semantic_tokens_of};
ghost use Rattle.tera_outline.specs.declared.completions.CompletionKind.TheVariants.{Component, Template, Argument};
ghost use Rattle.tera_outline.specs.declared.semantic_tokens.SemanticKind.{SemanticKind};
ghost use Rattle.tera_outline.specs.declared.semantic_tokens.SemanticToken.{SemanticToken};
ghost use Rattle.tera_outline.specs.Symbols.{Outlined, outline_of};
ghost use Rattle.tera_check.specs.Levels.{level_of};
ghost use Rattle.tera_findings.specs.declared.finding.Kind.{Kind};
ghost use Rattle.tera_check.specs.declared.levels.Levels.{Levels};
ghost use Rattle.text_edits.specs.declared.positions.Encoding.{Encoding};
ghost use Rattle.tera_workspace.specs.Components.{files_of};
ghost use Rattle.tera_workspace.specs.Definitions.{DefinitionVal, definition_of_name, IsParameterIn};
ghost use Rattle.tera_workspace.specs.Kept.{templates_of};
ghost use Rattle.tera_workspace.specs.Sources.{Source};
ghost use Rattle.tera_workspace.specs.declared.workspace.Workspace.{Workspace};
ghost use Rattle.tera_answers.specs.Completions.{defined_names, offered};
ghost use Rattle.tera_answers.specs.Definitions.{first_of, template_place};
ghost use Rattle.tera_answers.specs.Hovers.{IsHead, IsOfDefinition};
ghost use Rattle.tera_answers.specs.Outlines.{nested, in_order, AreWithin, IsSelectable};
ghost use Rattle.tera_answers.specs.Positions.{position_at};
ghost use Rattle.tera_answers.specs.References.{LookedFor, AreReferences, IsReferenceIn, AreAllOf};
ghost use Rattle.tera_editor.specs.Settings.{ByRules, RegisteredVal, level_by, level_view};
ghost use Rattle.tera_answers.specs.SemanticTokens.{all_kinds, kind_name, kind_number, placed, data_of, first, sent_token, read_from, end_of, AreApart};
ghost use Rattle.tera_editor.specs.Templates.{RootsVal, template_in, template_name, IsTemplateOf};

use tera_outline::laws::{symbols_in_text, symbols_nest};

/// Each symbol is sent once, before those in it and those after it.
pub fn all_symbols()
    ensures { (symbols : List Outlined) → in_order (nested symbols) ≡ symbols }
{}

/// A finding has the severity that it has in `tera check` with the same settings, if no option says anything else.
pub fn levels_are_those_of_check()
    ensures { (levels : Levels) (kind : Kind) → levels.select ≡ None → levels.ignore ≡ None →
        level_by (ByRules (map level_view levels.set.now)) kind ≡ level_of levels kind }
{}

/// What is sent inside a symbol begins after its start and ends no later than it, and what is sent after it begins no
/// earlier than its end.
pub fn symbols_within()
    ensures { (text : List ℕ) (parts : List Part) → ArePartsOf text parts →
        AreWithin (nested (outline_of (length text) parts)) }
{
    symbols_nest();
}

/// The range of a name is within the range of its symbol, in any encoding. If one is not, a client rejects the whole
/// outline.
pub fn names_within()
    ensures { (e : Encoding) (text : List ℕ) (parts : List Part) → ArePartsOf text parts →
        All (IsSelectable e text) (outline_of (length text) parts) }
{
    symbols_in_text();
}

/// The legend has the name of a kind at its number.
pub fn kinds_have_names()
    ensures { (kind : SemanticKind) →
        slice_index_or (map kind_name all_kinds) (kind_number kind) [] ≡ kind_name kind }
{}

/// The numbers of the tokens can be read back as their positions, in any encoding. The tokens follow one another, and
/// each ends where it does in the text, on the line on which it begins: a client may reject one that does not.
pub fn semantic_tokens_read_back()
    ensures read { (e : Encoding) (text : List ℕ) (parts : List Part) → ArePartsOf text parts →
        read_from first (data_of e text (semantic_tokens_of text parts))
        ≡ map sent_token (map (placed e text) (semantic_tokens_of text parts)) }
    ensures apart { (e : Encoding) (text : List ℕ) (parts : List Part) → IsUtf8 text →
        ArePartsOf text parts → AreApart first (map (placed e text) (semantic_tokens_of text parts)) }
    ensures line { (e : Encoding) (text : List ℕ) (parts : List Part) → IsUtf8 text →
        ArePartsOf text parts →
        All (λ (t : SemanticToken). position_at e text t.end ≡ end_of (placed e text t))
        (semantic_tokens_of text parts) }
{}

/// The file to which the name of a template leads exists, and has that name; only if no file has the name, it is one
/// whose path ends in it. No other file of the name has a shorter path.
pub fn templates_have_their_names()
    ensures { (roots : RootsVal) (files : List (List ℕ)) (name file : List ℕ) →
        template_in roots files name ≡ Some file → IsTemplateOf roots files name file }
{}

/// The name of each file that exists leads to a file of that name.
pub fn names_of_templates_lead()
    ensures { (roots : RootsVal) (files : List (List ℕ)) (name file : List ℕ) → Contains files file →
        template_name roots file ≡ Some name → (f : List ℕ)
        × (template_in roots files name ≡ Some f) × (template_name roots f ≡ Some name) }
{}

/// A component that is offered is defined in a document, or its name is after `component` or `endcomponent` in the text
/// at the cursor.
pub fn offered_components_are_defined()
    ensures { (w : Workspace) (roots : RootsVal) (r : RegisteredVal) (named : List Named)
        (bound : List (List ℕ)) (n : List ℕ) →
        Contains (offered w roots r named bound Component) n →
        ((d : DefinitionVal) × (definition_of_name w n ≡ Some d)) ⊎ Contains (defined_names named) n }
{}

/// The name of a template that is offered leads to a file that exists and has that name.
pub fn offered_templates_lead()
    ensures { (w : Workspace) (roots : RootsVal) (r : RegisteredVal) (named : List Named)
        (bound : List (List ℕ)) (n : List ℕ) →
        Contains (offered w roots r named bound Template) n → (f : List ℕ) × Contains (files_of w) f
        × (template_name roots f ≡ Some n) × (template_place w roots n ≡ Some (first_of f)) }
{}

/// A parameter that is offered is one of a definition of the component that is called, in a document that was read.
pub fn offered_parameters_are_defined()
    ensures { (w : Workspace) (roots : RootsVal) (r : RegisteredVal) (named : List Named)
        (bound : List (List ℕ)) (n : List ℕ) (call : ℕ) →
        Contains (offered w roots r named bound (Argument call)) n → (m : Named)
        × (find (holds call) named ≡ Some m) × IsParameterIn (templates_of w.judged.items) m.text n }
{}

/// The head that is shown for a name is the head of a definition in the text of the file to which the name leads.
pub fn heads_are_of_definitions()
    ensures { (w : Workspace) (roots : RootsVal) (named : Option Named) (head : List ℕ) →
        IsHead w named (Some head) → IsOfDefinition w roots named head }
{}

/// Each place that is listed has a name that is looked for, and each such name in a text is listed.
pub fn references_refer()
    ensures each { (k : LookedFor) (sources : List Source) (reported : List Json) → AreReferences k sources reported →
        (j : Json) → Contains reported j → (s : Source) × Contains sources s × IsReferenceIn k s j }
    ensures all { (k : LookedFor) (sources : List Source) (reported : List Json) → AreReferences k sources reported →
        (s : Source) → Contains sources s → AreAllOf k s reported }
{}

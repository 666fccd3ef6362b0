//! Laws of what is found and of queries: each function has its law as its promise and does nothing.

ghost use Rattle.std.specs.Prelude.{◌≡◌, ℕ, List, Option, Some};
ghost use Rattle.std.specs.List.{AllByRecursion, Contains};
ghost use Rattle.tera_tree.specs.Tree.{Output};
ghost use Rattle.tera_check.specs.Alike.{names_in};
ghost use Rattle.tera_rules.specs.Judged.{KnownVal};
ghost use Rattle.tera_check.specs.Named.{tree_findings};
ghost use Rattle.tera_templates.specs.declared.templates.Template.{Template};
ghost use Rattle.tera_workspace.specs.Beside.{HasNoNoteIn, AgreeBut};
ghost use Rattle.tera_workspace.specs.Components.{components_of, parameters_of_name};
ghost use Rattle.tera_workspace.specs.Definitions.{DefinitionVal, definition_of_name, IsDefinedIn, IsParameterIn};
ghost use Rattle.tera_workspace.specs.Kept.{sources_of, templates_of};
ghost use Rattle.tera_workspace.specs.SiteValues.{KeptSiteVal};
ghost use Rattle.tera_workspace.specs.Sites.{AreNamed, FitsWorkspace, named_of_name, templates_below};
ghost use Rattle.tera_workspace.specs.declared.workspace.Workspace.{Workspace};

/// If no note of what is found in a tree is in a file, the same is found with other components under the names that the
/// tree defines and calls, if these are alike except for their spans in that file.
pub fn beside()
    ensures { (known others : List ℕ → Option KnownVal) (file : List ℕ) (number : ℕ)
        (t : Template) (o : Output) → AgreeBut (names_in o) file number known others →
        AllByRecursion (HasNoNoteIn file) (tree_findings known number t o) →
        tree_findings known number t o ≡ tree_findings others number t o }
{}

/// The place that is reported for a component is one of a definition of this component, in a document that was read.
pub fn definitions_define()
    ensures { (w : Workspace) (n : List ℕ) (d : DefinitionVal) → definition_of_name w n ≡ Some d →
        (t : Template) × Contains (templates_of w.judged.items) t
        × IsDefinedIn w.encoding (sources_of w.judged.items) t n d }
{}

/// Each component that the documents define has such a place.
pub fn components_are_defined()
    ensures { (w : Workspace) (n : List ℕ) → Contains (components_of w) n →
        (d : DefinitionVal) × (definition_of_name w n ≡ Some d) }
{}

/// The parameters that are reported for a component are those of a definition of this component, in a document that was
/// read.
pub fn parameters_are_defined()
    ensures { (w : Workspace) (n p : List ℕ) → Contains (parameters_of_name w n) p →
        IsParameterIn (templates_of w.judged.items) n p }
{}

/// By a site that fits the documents there is found in each of its templates what is due of names by what is around the
/// template in the site, and nothing in other files.
pub fn named_in_site()
    ensures { (s : KeptSiteVal) (w : Workspace) → FitsWorkspace s w → AreNamed w.encoding
        (sources_of w.judged.items) (templates_below s.root w.documents (templates_of w.judged.items))
        s.root s.others (named_of_name w s) }
{}

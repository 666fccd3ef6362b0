//! Laws of what is found, and of what is kept. Each function has the law as its promise.

ghost use Rattle.std.specs.Prelude.{◌≡◌};
ghost use Rattle.std.specs.Bool.{Decides};
ghost use Rattle.tera_base.specs.declared.utils.Span.{Span};
ghost use Rattle.tera_templates.specs.declared.templates.Template.{Template};
ghost use Rattle.tera_tree.specs.Tree.{Output};
ghost use Rattle.tera_site.specs.Alike.{AgreeAround};
ghost use Rattle.tera_site.specs.Kept.{AreAboveAlike, kept_page, kept_view, on_page};
ghost use Rattle.tera_site.specs.Named.{due_names, names_findings};
ghost use Rattle.tera_site.specs.Pages.{page_of};
ghost use Rattle.tera_site.specs.Sites.{AroundVal};

use crate::kept::{KeptPage, Surroundings};

/// What is found of the names of a tree depends on what is around it under these names: whether what it extends and
/// includes is there, and leads back to it, and which of the blocks around its parts have none above them. Nothing else
/// of other templates matters.
pub fn by_names()
    ensures { (a b : AroundVal) (span : Span) (o : Output) → AgreeAround o a b →
        names_findings a span o ≡ names_findings b span o }
{}

/// What is found of the names of a template depends on what is around it under the names of its page, whatever else its
/// tree has. So the same is found with what is kept of that.
pub fn by_page()
    ensures { (a : AroundVal) (t : Template) → due_names (on_page (page_of t) a) t ≡ due_names a t }
{}

/// Pages are equal exactly if they say the same.
pub fn same_page(a: &KeptPage, b: &KeptPage) -> bool
    ensures { Decides result (kept_page a.now ≡ kept_page b.now) }
{
    a == b
}

/// Whether two pages say the same to all that extend them: they extend the same, and have the same blocks.
pub fn same_above(a: &KeptPage, b: &KeptPage) -> bool
    ensures { Decides result (AreAboveAlike (kept_page a.now) (kept_page b.now)) }
{
    a.parent == b.parent && a.blocks == b.blocks && a.is_whole == b.is_whole
}

/// What is kept of what is around two pages is equal exactly if it has the same names. The same is found with equal
/// ones.
pub fn same_surroundings(a: &Surroundings, b: &Surroundings) -> bool
    ensures { Decides result (kept_view a.now ≡ kept_view b.now) }
{
    a == b
}

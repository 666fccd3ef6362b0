//! What a template says of others by their names, and the blocks that it has.

ghost use Rattle.std.specs.Prelude.{◌≡◌, ◌++◌, ◌∷◌, [], Some, map, IfOk, OnOk};
ghost use Rattle.std.specs.List.{flat_map};
ghost use Rattle.std.specs.Option.{option_map};
ghost use Rattle.tera_tree.specs.Outputs.{output_view};
ghost use Rattle.tera_tree.specs.Parts.{part_view, parts_view};
ghost use Rattle.tera_rules.specs.Within.{all_parts, parts_of};
ghost use Rattle.tera_site.specs.Pages.{block_name, included, is_whole_by, page_by, page_of};
ghost use Rattle.tera_site.specs.Sites.{if_any, used_names};
ghost use Rattle.tera_site.specs.Views.{names_of, page_view};

use std::alloc::{AllocError, Global};
use tera_check::{Template, tree_of};
use tera_parser::ParserOutput;
use tera_parser::ast::{Node, Part, Parts, top_parts};

/// What a template says of others, and the blocks that it has.
#[derive(Drop)]
pub struct Page<'a> {
    pub(crate) parent: Option<&'a str>,
    pub(crate) includes: Vec<&'a str>,
    pub(crate) blocks: Vec<&'a str>,
    /// Whether this is all: no text that was written for a fault may have had more.
    pub(crate) is_whole: bool,
}

impl<'a> Page<'a> {
    /// The names of templates that it uses: what it extends and includes.
    pub fn used_names(&self, alloc: Global) -> Result<Vec<&'a str>, AllocError>
        ensures { IfOk result (λ v. names_of v.items ≡ used_names (page_view self.now)) }
    {
        let mut used = Vec::new(alloc);
        self.push_used(&mut used)?;
        Ok(used)
    }

    pub(crate) fn push_used(&self, used: &mut Vec<&'a str>) -> Result<(), AllocError>
        ensures { OnOk result (names_of used.new.items
            ≡ names_of used.old.items ++ used_names (page_view self.now)) }
    {
        push_if_any(used, self.parent)?;
        used.extend_from_slice(self.includes.as_slice())?;
        Ok(())
    }
}

fn push_if_any<'a>(used: &mut Vec<&'a str>, name: Option<&'a str>) -> Result<(), AllocError>
    ensures { OnOk result (names_of used.new.items
        ≡ names_of used.old.items ++ if_any (option_map (λ n. n.now) name.entry)) }
{
    if let Some(name) = name {
        used.push(name)?;
    }
    Ok(())
}

pub(crate) fn pages_of(
    alloc: Global,
    templates: &Vec<Template>,
) -> Result<Vec<Page<'_>>, AllocError>
    ensures { IfOk result (λ v. map page_view v.items ≡ map page_of templates.now.items) }
{
    let mut pages = Vec::new(alloc);
    for template in templates {
        pages.push(page_of(alloc, template)?)?;
    }
    Ok(pages)
}

/// What the template says, by its tree.
pub(crate) fn page_of(alloc: Global, template: &Template) -> Result<Page<'_>, AllocError>
    ensures { IfOk result (λ p. page_view p ≡ page_of template.now) }
{
    let is_whole = is_whole(template);
    match tree_of(template) {
        Some(output) => page_of_tree(alloc, is_whole, output),
        None => Ok(Page {
            parent: None,
            includes: Vec::new(alloc),
            blocks: Vec::new(alloc),
            is_whole,
        }),
    }
}

fn page_of_tree(
    alloc: Global,
    is_whole: bool,
    output: &ParserOutput,
) -> Result<Page<'_>, AllocError>
    ensures { IfOk result (λ p. page_view p ≡ page_by is_whole (Some (output_view output.now))) }
{
    let mut includes = Vec::new(alloc);
    let mut blocks = Vec::new(alloc);
    put_names(alloc, &mut includes, &mut blocks, output)?;
    Ok(Page {
        parent: parent_of(output),
        includes,
        blocks,
        is_whole,
    })
}

fn parent_of(output: &ParserOutput) -> Option<&str>
    ensures { option_map (λ n. n.now) result ≡ (output_view output.now).parent }
{
    match &output.parent {
        Some(parent) => Some(parent.as_str()),
        None => None,
    }
}

// Whether the tree has all blocks of the template, and what it extends.
fn is_whole(template: &Template) -> bool
    ensures { result ≡ is_whole_by template.now.parsed template.now.mended }
{
    match (&template.parsed, &template.mended) {
        (Ok(_), _) => true,
        (Err(_), Some(mended)) => {
            let lost = mended.lost.contains_key("block")
                || mended.lost.contains_key("endblock")
                || mended.lost.contains_key("extends");
            !lost
        }
        (Err(_), None) => false,
    }
}

// Puts the names of the templates that the tree includes, and of its blocks.
fn put_names<'a>(
    alloc: Global,
    includes: &mut Vec<&'a str>,
    blocks: &mut Vec<&'a str>,
    output: &'a ParserOutput,
) -> Result<(), AllocError>
    ensures includes { let ps = parts_of (output_view output.now) in OnOk result
        (names_of includes.new.items ≡ names_of includes.old.items ++ flat_map included ps) }
    ensures blocks { let ps = parts_of (output_view output.now) in OnOk result
        (names_of blocks.new.items ≡ names_of blocks.old.items ++ flat_map block_name ps) }
{
    let mut left = top_parts(alloc, &output.component_definitions, &output.nodes)?;
    for _part in 0..u64::MAX {
        match left.pop() {
            Some(part) => take(includes, blocks, &mut left, part)?,
            None => return Ok(()),
        }
    }
    Err(AllocError)
}

// Takes the part, and puts the parts inside it on the list.
#[tactic(auto, using(crate::proofs::PageLemmas::taken))]
fn take<'a>(
    includes: &mut Vec<&'a str>,
    blocks: &mut Vec<&'a str>,
    left: &mut Parts<'a>,
    part: Part<'a>,
) -> Result<(), AllocError>
    ensures includes { OnOk result (names_of includes.new.items
        ++ flat_map included (all_parts (parts_view left.new.items)) ≡ names_of includes.old.items
        ++ flat_map included (all_parts (parts_view left.old.items ++ part_view part.entry ∷ []))) }
    ensures blocks { OnOk result (names_of blocks.new.items
        ++ flat_map block_name (all_parts (parts_view left.new.items)) ≡ names_of blocks.old.items
        ++ flat_map block_name (all_parts (parts_view left.old.items ++ part_view part.entry ∷ []))) }
{
    put_part(includes, blocks, part)?;
    part.push_inside(left)
}

fn put_part<'a>(
    includes: &mut Vec<&'a str>,
    blocks: &mut Vec<&'a str>,
    part: Part<'a>,
) -> Result<(), AllocError>
    ensures includes { OnOk result (names_of includes.new.items
        ≡ names_of includes.old.items ++ included (part_view part.entry)) }
    ensures blocks { OnOk result (names_of blocks.new.items
        ≡ names_of blocks.old.items ++ block_name (part_view part.entry)) }
{
    match part {
        Part::Node(Node::Include(include)) => includes.push(include.name.node().as_str())?,
        Part::Node(Node::Block(block)) => blocks.push(block.name.node().as_str())?,
        Part::Node(_) | Part::Expression(_) => {}
    }
    Ok(())
}

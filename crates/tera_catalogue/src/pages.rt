//! The catalogue as a page of HTML.

ghost use Rattle.std.specs.Prelude.{◌≡◌, ◌++◌, IfOk, OnOk};
ghost use Rattle.std.specs.List.{flat_map};
ghost use Rattle.tera_catalogue.specs.Pages.{section_of, page_of};

use crate::cells::{push_call, push_metadata, push_place, push_table, push_within};
use crate::components::Component;
use crate::escapes::push;
use crate::frame::{push_head, push_tail};
use crate::objects::call_to_copy;
use std::alloc::{AllocError, Global};

/// The components as a self-contained page of HTML: a search box, and a section for each component.
pub fn html_of(alloc: Global, components: &[Component<'_>]) -> Result<Vec<u8>, AllocError>
    ensures { IfOk result (λ v. v.items ≡ page_of components.now) }
{
    let mut page = Vec::new(alloc);
    push_head(&mut page)?;
    push_sections(alloc, &mut page, components)?;
    push_tail(&mut page)?;
    Ok(page)
}

fn push_sections(
    alloc: Global,
    page: &mut Vec<u8>,
    components: &[Component<'_>],
) -> Result<(), AllocError>
    ensures { OnOk result (page.new.items
        ≡ page.old.items ++ flat_map section_of components.now) }
{
    for component in components {
        push_section(alloc, page, component)?;
    }
    Ok(())
}

fn push_section(
    alloc: Global,
    page: &mut Vec<u8>,
    component: &Component<'_>,
) -> Result<(), AllocError>
    ensures { OnOk result (page.new.items ≡ page.old.items ++ section_of component.now) }
{
    let info = &component.info;
    push_within(page, "<section>\n<h2>", info.name(), "</h2>\n")?;
    push_place(
        alloc,
        page,
        component.file,
        component.place,
        component.has_body,
    )?;
    push_call(page, call_to_copy(component))?;
    push_table(alloc, page, info)?;
    push_metadata(alloc, page, info.metadata())?;
    push(page, "</section>\n")
}

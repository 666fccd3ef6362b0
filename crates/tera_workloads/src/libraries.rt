//! Libraries of components, and templates that call them.

use crate::draws::Draws;
use crate::expressions::{put_expression, put_quoted, put_some_number};
use crate::pages::{Kind, fill};
use crate::pen::Pen;
use std::alloc::{AllocError, Global};

/// How many files of a library define components.
pub(crate) const DEFINING: u64 = 100;

// How many components a file defines.
const EACH: u64 = 3;

/// The parameters of a component beside its label, which it always has.
#[derive(Clone, Copy)]
struct Parameters {
    size: bool,
    kind: bool,
    items: bool,
    open: bool,
    rest: bool,
}

// Those of this component of that file, in each library.
fn parameters_of(file: u64, component: u64) -> Parameters {
    let mut draws = Draws::new(file.wrapping_mul(64).wrapping_add(component));
    Parameters {
        size: draws.below(4) != 0,
        kind: draws.below(4) != 0,
        items: draws.below(3) == 0,
        open: draws.below(2) == 0,
        rest: draws.below(4) == 0,
    }
}

fn put_component(pen: &mut Pen, file: u64, component: u64) -> Result<(), AllocError> {
    pen.put("ui.part_")?;
    pen.put_number(file)?;
    pen.put("_")?;
    pen.put_number(component)
}

/// A file that defines a few components.
pub(crate) fn defining_source(alloc: Global, seed: u64, file: u64) -> Result<String, AllocError> {
    let mut pen = Pen::new(alloc, seed);
    pen.reserve(4_000)?;
    for component in 0..EACH {
        put_definition(&mut pen, file, component)?;
    }
    if file == 17 {
        put_definition(&mut pen, 0, 0)?;
    }
    Ok(pen.text)
}

fn put_definition(pen: &mut Pen, file: u64, component: u64) -> Result<(), AllocError> {
    pen.put("{% component ")?;
    put_component(pen, file, component)?;
    put_parameters(pen, parameters_of(file, component))?;
    if pen.draws.below(2) == 0 {
        put_metadata(pen)?;
    }
    pen.end("%}")?;
    pen.put("\n<div class=\"{{ kind }}\">{{ label | upper }}")?;
    let len = (pen.text.len() as u64).saturating_add(200 + pen.draws.below(900));
    fill(pen, Kind::Body, len)?;
    pen.put("{% if body %}{{ body }}{% endif %}</div>\n{% endcomponent %}\n\n")
}

fn put_parameters(pen: &mut Pen, parameters: Parameters) -> Result<(), AllocError> {
    pen.put("(label: string")?;
    if parameters.size {
        pen.put(", size: integer = ")?;
        put_some_number(pen)?;
    }
    if parameters.kind {
        pen.put(", kind = ")?;
        put_quoted(pen)?;
    }
    if parameters.items {
        pen.put(", items: array")?;
    }
    if parameters.open {
        pen.put(", open: bool = false")?;
    }
    pen.put(if parameters.rest { ", ...rest)" } else { ")" })
}

fn put_metadata(pen: &mut Pen) -> Result<(), AllocError> {
    pen.put(" {\"description\": \"")?;
    for _ in 0..5 {
        pen.put_word()?;
        pen.put(" ")?;
    }
    pen.put("\", \"since\": ")?;
    put_some_number(pen)?;
    pen.put(", \"states\": [\"on\", \"off\"]}")
}

/// A file that calls components: a page with a call or a few in each part of it.
pub(crate) fn calling_source(alloc: Global, seed: u64) -> Result<String, AllocError> {
    let mut pen = Pen::new(alloc, seed);
    pen.reserve(4_000)?;
    let parts = 2 + pen.draws.below(16);
    for _ in 0..parts {
        put_call(&mut pen)?;
        let len = (pen.text.len() as u64).saturating_add(40 + pen.draws.below(300));
        fill(&mut pen, Kind::Body, len)?;
    }
    Ok(pen.text)
}

// A call. Now and then no component has its name.
fn put_call(pen: &mut Pen) -> Result<(), AllocError> {
    let file = pen.draws.below(DEFINING);
    let component = if pen.draws.below(60) == 0 {
        EACH
    } else {
        pen.draws.below(EACH)
    };
    let with_body = pen.draws.below(3) == 0;
    pen.begin(if with_body { "{%" } else { "{{" })?;
    pen.put("<")?;
    put_component(pen, file, component)?;
    put_attributes(pen, parameters_of(file, component))?;
    if !with_body {
        pen.put("/>")?;
        return pen.end("}}");
    }
    pen.put(">")?;
    pen.end("%}")?;
    pen.put("\n  ")?;
    pen.put_lines(1)?;
    pen.put("{{ <ui.part_3_1 label=\"inner\" items={page.items} /> }}{% </")?;
    put_component(pen, file, component)?;
    pen.put("> %}\n")
}

// Attributes. Now and then one is missing, unknown, or of another type.
fn put_attributes(pen: &mut Pen, parameters: Parameters) -> Result<(), AllocError> {
    let fault = pen.draws.below(40);
    if fault != 0 {
        pen.put(" label=")?;
        put_quoted(pen)?;
    }
    if fault == 1 {
        pen.put(" colour=\"red\"")?;
    }
    if parameters.size && pen.draws.below(2) == 0 {
        put_size(pen, fault == 2)?;
    }
    if parameters.kind && pen.draws.below(2) == 0 {
        pen.put(" kind={")?;
        put_expression(pen)?;
        pen.put("}")?;
    }
    if parameters.items {
        pen.put(" items={page.items}")?;
    }
    if parameters.open && pen.draws.below(2) == 0 {
        pen.put(" open={true}")?;
    }
    pen.put(if fault == 3 { " {...given}" } else { " " })
}

fn put_size(pen: &mut Pen, is_wrong: bool) -> Result<(), AllocError> {
    pen.put(" size=")?;
    if is_wrong {
        return put_quoted(pen);
    }
    pen.put("{")?;
    put_some_number(pen)?;
    pen.put("}")
}

//! Sites of 10,000 templates, in linear time.

use std::alloc::{AllocError, Global};
use std::collections::BTreeSet;
use std::test::Fail;
use tera_check::{Kind, Template, all_found, read_template};
use tera_site::{SiteNames, add_names};

const TEMPLATES: usize = 10_000;

#[derive(Drop)]
struct Read {
    names: SiteNames,
    templates: Vec<Template>,
}

impl Read {
    fn new(alloc: Global) -> Read {
        Read {
            names: SiteNames {
                names: Vec::new(alloc),
                others: BTreeSet::new(alloc),
            },
            templates: Vec::new(alloc),
        }
    }

    fn add(&mut self, alloc: Global, number: usize, source: &str) -> Result<(), AllocError> {
        let name = format!(in alloc; "t{number}")?;
        let template = read_template(alloc, name.as_str(), source, 1)?;
        self.templates.push(template)?;
        self.names.names.push(Some(name))?;
        Ok(())
    }
}

// How many findings of the kind there are in all templates.
fn count_of(alloc: Global, read: &Read, kind: Kind) -> Result<usize, AllocError> {
    let checked = read.templates.len();
    let mut all = all_found(alloc, &read.templates, checked)?;
    add_names(alloc, &read.names, &read.templates, checked, &mut all)?;
    let mut count = 0_usize;
    for found in &all {
        for finding in &found.findings {
            if finding.kind == kind {
                count = count.saturating_add(1);
            }
        }
    }
    Ok(count)
}

#[test]
fn templates_that_extend_each_other(rt: HostRuntime) -> Result<(), Fail> {
    let alloc = rt.alloc();
    let mut read = Read::new(alloc);
    for number in 0..TEMPLATES {
        let next = (number + 1) % TEMPLATES;
        let source = format!(in alloc; "{{% extends \"t{next}\" %}}")?;
        read.add(alloc, number, source.as_str())?;
    }
    assert_eq!(&rt; count_of(alloc, &read, Kind::CircularExtends)?, TEMPLATES);
    Ok(())
}

#[test]
fn templates_that_extend_one_another_to_the_last(rt: HostRuntime) -> Result<(), Fail> {
    let alloc = rt.alloc();
    let mut read = Read::new(alloc);
    read.add(alloc, 0, "{% block b0 %}{% endblock %}")?;
    for number in 1..TEMPLATES {
        let above = number - 1;
        let source = format!(in alloc;
            "{{% extends \"t{above}\" %}}{{% block b{above} %}}{{% endblock %}}{{% block b{number} %}}{{% endblock %}}"
        )?;
        read.add(alloc, number, source.as_str())?;
    }
    assert_eq!(&rt;
        count_of(alloc, &read, Kind::UndefinedBlock)?,
        TEMPLATES - 1
    );
    Ok(())
}

#[test]
fn one_template_that_all_include(rt: HostRuntime) -> Result<(), Fail> {
    let alloc = rt.alloc();
    let mut read = Read::new(alloc);
    let mut source = String::new(alloc);
    for number in 0..TEMPLATES {
        let include = format!(in alloc; "{{% include \"t{number}\" %}}")?;
        source.push_str(include.as_str())?;
    }
    read.add(alloc, 0, source.as_str())?;
    for number in 1..TEMPLATES {
        read.add(alloc, number, "{% include \"t0\" %}")?;
    }
    assert_eq!(&rt;
        count_of(alloc, &read, Kind::CircularInclude)?,
        2 * TEMPLATES - 1
    );
    Ok(())
}

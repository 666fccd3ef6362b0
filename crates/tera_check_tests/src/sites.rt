//! What is kept of a site while its documents come, change and go, and while each allocation fails in turn.

use scarce_memory::{Attempt, Seen, Verdict, refuse};
use std::alloc::{AllocError, Global};
use std::collections::BTreeSet;
use std::test::Fail;
use tera_workspace::{KeptSite, Workspace};
use text_edits::Encoding;

// The files below the root whose findings are looked at.
const FILES: [&str; 2] = ["/w/page", "/w/sub/part"];

// A file, and its text from then on, if it has one; the documents around which something changes by that; and what is
// then found of names in the page and in the part.
const STEPS: [(&str, Option<&str>, &str, &str); 9] = [
    (
        "/w/page",
        Some("{% include \"sub/part\" %}"),
        "/w/page ",
        "missing-template ",
    ),
    // A letter more.
    (
        "/w/page",
        Some("a{% include \"sub/part\" %}"),
        "",
        "missing-template ",
    ),
    // Files that are not below the root.
    ("/w2/sub/part", Some(""), "", "missing-template "),
    ("/sub/part", Some(""), "", "missing-template "),
    // A template that has no text is there.
    ("/w/sub/part", Some(""), "/w/page /w/sub/part ", ""),
    (
        "/w/sub/part",
        Some("{% include \"page\" %}"),
        "/w/page /w/sub/part ",
        "circular-include circular-include ",
    ),
    // It includes another name, which no template has.
    (
        "/w/sub/part",
        Some("{% include \"pages\" %}"),
        "/w/page /w/sub/part ",
        "missing-template ",
    ),
    ("/w/page", None, "/w/page ", "missing-template "),
    ("/w/sub/part", None, "/w/sub/part ", ""),
];

// What is renewed by a change, and what is found of names then.
fn changed(
    alloc: Global,
    workspace: &mut Workspace,
    site: &mut KeptSite,
    file: &str,
    text: Option<&str>,
) -> Result<(String, String), AllocError> {
    match text {
        Some(text) => workspace.set_file(alloc, file, text)?,
        None => workspace.remove_file(alloc, file)?,
    }
    workspace.read(alloc)?;
    renewed(alloc, workspace, site)
}

fn renewed(
    alloc: Global,
    workspace: &Workspace,
    site: &mut KeptSite,
) -> Result<(String, String), AllocError> {
    let mut names = String::new(alloc);
    for name in &site.renew(alloc, workspace)? {
        names.push_str(name.as_str())?;
        names.push(' ')?;
    }
    Ok((names, found(alloc, workspace, site)?))
}

fn found(alloc: Global, workspace: &Workspace, site: &KeptSite) -> Result<String, AllocError> {
    let mut kinds = String::new(alloc);
    for file in &FILES {
        for diagnostic in &workspace.named_of(alloc, file, site)? {
            kinds.push_str(diagnostic.kind.name())?;
            kinds.push(' ')?;
        }
    }
    Ok(kinds)
}

#[test]
fn documents_come_change_and_go(rt: HostRuntime) -> Result<(), Fail> {
    let alloc = rt.alloc();
    let mut workspace = Workspace::new(alloc, Encoding::Utf16);
    let mut site = KeptSite::new(alloc, "/w", BTreeSet::new(alloc))?;
    for (file, text, names, kinds) in &STEPS {
        let (renewed, found) = changed(alloc, &mut workspace, &mut site, file, *text)?;
        assert_eq!(&rt; renewed.as_str(), *names, "{file}");
        assert_eq!(&rt; found.as_str(), *kinds, "{file}");
    }
    Ok(())
}

// A page that includes a part, and a part that extends what no template has.
fn read(alloc: Global) -> Result<Workspace, AllocError> {
    let mut workspace = Workspace::new(alloc, Encoding::Utf16);
    workspace.set_file(
        alloc,
        "/w/page",
        "{% include \"sub/part\" %}{% include \"icon\" %}",
    )?;
    workspace.set_file(alloc, "/w/sub/part", "{% extends \"nowhere\" %}")?;
    workspace.read(alloc)?;
    Ok(workspace)
}

fn others(alloc: Global) -> Result<BTreeSet<String>, AllocError> {
    let mut others = BTreeSet::new(alloc);
    others.insert(String::from_str(alloc, "icon")?)?;
    Ok(others)
}

// Whether the other templates count once they are set, and what is lacking then.
fn are_others_found(alloc: Global, workspace: &Workspace) -> Result<bool, AllocError> {
    let mut site = KeptSite::new(alloc, "/w", BTreeSet::new(alloc))?;
    let before = renewed(alloc, workspace, &mut site)?;
    site.set_others(others(alloc)?);
    let after = renewed(alloc, workspace, &mut site)?;
    let lacking = site.lacking();
    Ok(
        before.0.as_str() == "/w/page /w/sub/part "
            && before.1.as_str() == "missing-template missing-template "
            && after.0.as_str() == "/w/page "
            && after.1.as_str() == "missing-template "
            && lacking.len() == 1
            && lacking[0].as_str() == "nowhere",
    )
}

// A site of documents that were read.
#[derive(Drop)]
struct Renewing<'w> {
    workspace: &'w Workspace,
}

impl Attempt for Renewing<'_> {
    fn attempt(&self, alloc: Global) -> Seen {
        match are_others_found(alloc, self.workspace) {
            Ok(are_found) => Seen::answer(are_found),
            Err(_) => Seen::Memory,
        }
    }
}

#[test]
fn each_request_of_memory_may_be_refused(rt: HostRuntime) -> Result<(), Fail> {
    let alloc = rt.alloc();
    let workspace = &read(alloc)?;
    assert!(&rt; are_others_found(alloc, workspace)?);
    let verdict = refuse(alloc, &Renewing { workspace })?;
    let is_refused = matches!(verdict, Verdict::Refused(n) if n > 0);
    assert!(&rt; is_refused, "{verdict:?}");
    Ok(())
}

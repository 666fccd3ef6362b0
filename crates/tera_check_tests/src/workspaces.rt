//! Documents of a workspace that are opened, changed and checked while allocations fail.

use scarce_memory::{Attempt, Seen, Verdict, refuse};
use std::alloc::{AllocError, Global};
use std::test::Fail;
use tera_workspace::Workspace;
use text_edits::{Change, Encoding, Position};

const DEFINING: &str = "{% component box() %}{{<lid/>}}{% endcomponent %}";

const CALLING: &str = "{{<box x/>}}";

// Opens two documents and changes the first.
#[derive(Drop)]
struct Reporting;

impl Attempt for Reporting {
    fn attempt(&self, alloc: Global) -> Seen {
        match reported(alloc) {
            Ok((defining, calling)) => Seen::answer(defining == 1 && calling == 1),
            Err(_) => Seen::Memory,
        }
    }
}

fn reported(alloc: Global) -> Result<(usize, usize), AllocError> {
    let mut workspace = Workspace::new(alloc, Encoding::Utf16);
    workspace.open(alloc, "b", DEFINING)?;
    workspace.open(alloc, "a", CALLING)?;
    workspace.settle(alloc)?;
    let start = Position {
        line: 0,
        character: 0,
    };
    workspace.change(alloc, "b", &[Change::Part(start, start, "é")])?;
    workspace.settle(alloc)?;
    Ok((workspace.reported("b").len(), workspace.reported("a").len()))
}

#[test]
fn each_request_of_memory_may_be_refused(rt: HostRuntime) -> Result<(), Fail> {
    let (defining, calling) = reported(rt.alloc())?;
    assert!(rt; defining == 1 && calling == 1);
    let verdict = refuse(rt.alloc(), &Reporting)?;
    let is_refused = matches!(verdict, Verdict::Refused(n) if n > 0);
    assert!(rt; is_refused, "{verdict:?}");
    Ok(())
}

//! Suggestions without memory.

use crate::fixes_shown::suggested;
use scarce_memory::{Attempt, Seen, Verdict, refuse};
use std::alloc::Global;
use std::test::Fail;

// A page that is read and corrected.
#[derive(Clone, Copy)]
struct Suggesting;

impl Attempt for Suggesting {
    fn attempt(&self, alloc: Global) -> Seen {
        let library = "{% component box(title) %}{{ title }}{% endcomponent %}";
        match suggested(alloc, library, "{{<bax titel={a} title=\"b\"/>}}") {
            Ok(text) => Seen::answer(
                text.as_str() == "Replace `bax` with `box`; {{<box titel={a} title=\"b\"/>}}",
            ),
            Err(_) => Seen::Memory,
        }
    }
}

#[test]
fn memory_is_refused(rt: HostRuntime) -> Result<(), Fail> {
    let verdict = refuse(rt.alloc(), &Suggesting)?;
    assert!(rt; matches!(verdict, Verdict::Refused(1..)), "{verdict:?}");
    Ok(())
}

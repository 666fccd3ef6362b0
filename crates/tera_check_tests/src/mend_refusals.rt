//! Sources that are mended while allocations fail.

use crate::mend_reported::reported;
use scarce_memory::{Attempt, Seen, Verdict, refuse};
use std::alloc::{AllocError, Global};
use std::test::Fail;

// One without a fault, one with a fault of the whole, one with faults of tags that are read alone, and one with a word
// that is near a known one and a head without an end.
const SOURCES: [&str; 4] = [
    "{{ a }}",
    "{{ a }}{% endif %}",
    "{{ a b }}{{ c d }}",
    "{% iff a %}b{% endif %}{% if c %}",
];

// A source, and its result with ample memory.
#[derive(Drop)]
struct Mending<'a> {
    source: &'a str,
    expected: &'a str,
}

impl Attempt for Mending<'_> {
    fn attempt(&self, alloc: Global) -> Seen {
        match reported(alloc, self.source, 9) {
            Ok(found) => Seen::answer(found.as_str() == self.expected),
            Err(_) => Seen::Memory,
        }
    }
}

fn is_refused(alloc: Global, source: &str) -> Result<bool, AllocError> {
    let answer = reported(alloc, source, 9)?;
    let expected = answer.as_str();
    let verdict = refuse(alloc, &Mending { source, expected })?;
    Ok(matches!(verdict, Verdict::Refused(n) if n > 0))
}

#[test]
fn each_request_of_memory_may_be_refused(rt: HostRuntime) -> Result<(), Fail> {
    for source in &SOURCES {
        assert!(rt; is_refused(rt.alloc(), source)?, "{source}");
    }
    Ok(())
}

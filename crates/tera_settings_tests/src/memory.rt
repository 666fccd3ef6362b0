//! Calls whose allocations fail.

use scarce_memory::{Attempt, Seen, Verdict, refuse};
use std::alloc::Global;
use std::test::Fail;
use tera_settings::{Fault, Why, settings_of};

// A file that means settings.
#[derive(Clone, Copy)]
struct Meaning;

impl Attempt for Meaning {
    fn attempt(&self, alloc: Global) -> Seen {
        let text = "root = \"templates\"\n[known]\nfilters = [\"upper\"]\n";
        match settings_of(alloc, &[], text) {
            Ok(settings) => Seen::answer(
                settings.root.is_some() && settings.known.filters.is_some(),
            ),
            Err(Fault::Memory) => Seen::Memory,
            Err(_) => Seen::Other,
        }
    }
}

// A file that is wrong.
#[derive(Clone, Copy)]
struct Refusing;

impl Attempt for Refusing {
    fn attempt(&self, alloc: Global) -> Seen {
        match settings_of(alloc, &[], "rot = \"templates\"\n") {
            Ok(_) => Seen::Other,
            Err(Fault::Memory) => Seen::Memory,
            Err(Fault::Text(_)) => Seen::Other,
            Err(Fault::Member(wrong)) => Seen::answer(wrong.why == Why::UnknownKey),
        }
    }
}

#[test]
fn memory_is_refused(rt: HostRuntime) -> Result<(), Fail> {
    let alloc = rt.alloc();
    let meaning = refuse(alloc, &Meaning)?;
    assert!(rt; matches!(meaning, Verdict::Refused(1..)), "{meaning:?}");
    let refusing = refuse(alloc, &Refusing)?;
    assert!(rt; matches!(refusing, Verdict::Refused(1..)), "{refusing:?}");
    Ok(())
}

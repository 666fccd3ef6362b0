//! Maps, contexts and notes that fail to allocate when they grow.

use scarce_memory::Scarce;
use std::alloc::{AllocError, Global};
use std::process::Abort;
use std::test::Fail;
use tera_base::{Context, Error, ErrorKind, Key, Map, ReportError, Span, Value};

const RUNS: u16 = 400;

const NAMES: [&str; 20] = [
    "m", "c", "o", "a", "k", "e", "i", "g", "p", "b", "n", "d", "l", "f", "j", "h", "t", "q", "s",
    "r",
];

// The name of this number.
fn name(number: usize) -> &'static str {
    NAMES.get(number).copied().unwrap_or("")
}

/// What grows by one part at a time.
trait Growing: Drop {
    /// One without parts, which takes no memory.
    fn empty(alloc: Global) -> Self;

    /// Adds the part of this number.
    fn add(&mut self, number: usize) -> Result<(), Error>;

    /// Whether it has the parts below this number, and no others.
    fn has(&self, end: usize) -> bool;
}

impl Growing for Map {
    fn empty(alloc: Global) -> Map {
        Map::new(alloc)
    }

    fn add(&mut self, number: usize) -> Result<(), Error> {
        let value = i64::try_from(number).unwrap_or(0);
        match self.insert(Key::I64(value), Value::I64(value)) {
            Ok(_before) => Ok(()),
            Err(error) => Err(error),
        }
    }

    fn has(&self, end: usize) -> bool {
        let mut pairs = self.iter();
        for value in 0i64..20 {
            let is_below = usize::try_from(value).is_ok_and(|number| number < end);
            let pair = (&Key::I64(value), &Value::I64(value));
            if is_below && pairs.next() != Some(pair) {
                return false;
            }
            if self.get(&Key::I64(value)).is_some() != is_below {
                return false;
            }
        }
        pairs.next().is_none()
    }
}

impl Growing for Context {
    fn empty(alloc: Global) -> Context {
        Context::new(alloc)
    }

    fn add(&mut self, number: usize) -> Result<(), Error> {
        self.insert_value(name(number), Value::Bool(true))
    }

    fn has(&self, end: usize) -> bool {
        for (number, name) in NAMES.iter().enumerate() {
            if self.get(name) != (number < end).then_some(&Value::Bool(true)) {
                return false;
            }
        }
        self.iter().count() == end
    }
}

impl Growing for ReportError {
    fn empty(alloc: Global) -> ReportError {
        ReportError {
            message: String::new(alloc),
            span: Span::default(),
            notes: Vec::new(alloc),
        }
    }

    fn add(&mut self, number: usize) -> Result<(), Error> {
        self.add_note("defined here", name(number), &Span::default())
    }

    fn has(&self, end: usize) -> bool {
        for (note, name) in self.notes.iter().zip(NAMES) {
            if note.label.as_str() != "defined here"
                || note.filename.as_str() != name
                || note.span != Span::default()
            {
                return false;
            }
        }
        self.notes.len() == end && self.message.is_empty() && self.span == Span::default()
    }
}

// Adds the parts from this number on, and answers the first that is refused.
fn fill<G: Growing>(rt: &impl Abort, all: &mut G, from: usize) -> usize {
    for number in from..NAMES.len() {
        if let Err(error) = all.add(number) {
            assert_eq!(rt; error.kind, ErrorKind::Memory);
            return number;
        }
    }
    NAMES.len()
}

// How many runs fail to allocate for a part before one has memory enough.
fn refuse_growth<G: Growing>(rt: &impl Abort, alloc: Global) -> Result<u16, AllocError> {
    let mut scarce = Scarce::new(alloc, RUNS)?;
    for run in 0..RUNS {
        let mut all = G::empty(alloc);
        scarce.leave(32 * usize::from(run));
        let end = fill(rt, &mut all, 0);
        assert!(rt; all.has(end), "a refusal changes nothing");
        if end == NAMES.len() {
            return Ok(run);
        }
        scarce.give_room();
        assert_eq!(rt; fill(rt, &mut all, end), NAMES.len(), "memory is back");
        assert!(rt; all.has(NAMES.len()));
    }
    panic!(rt; "the last run has memory enough")
}

#[test]
fn a_refused_pair_changes_nothing(rt: HostRuntime) -> Result<(), Fail> {
    assert!(rt; refuse_growth::<Map>(&rt, rt.alloc())? >= 3);
    Ok(())
}

#[test]
fn a_refused_value_changes_nothing(rt: HostRuntime) -> Result<(), Fail> {
    assert!(rt; refuse_growth::<Context>(&rt, rt.alloc())? >= 16);
    Ok(())
}

#[test]
fn a_refused_note_changes_nothing(rt: HostRuntime) -> Result<(), Fail> {
    assert!(rt; refuse_growth::<ReportError>(&rt, rt.alloc())? >= 32);
    Ok(())
}

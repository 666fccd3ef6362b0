//! What a source with faults is read as.

ghost use Rattle.std.specs.Prelude.{◌≡◌, ℕ, List, IfOk, IfSome, map, string_bytes};
ghost use Rattle.tera_mend.specs.Readings.{AreOf};
ghost use Rattle.tera_templates.specs.Mended.{IsMended};

use crate::lost::{lost_words, places_of};
use std::alloc::{AllocError, Global};
use std::collections::{BTreeMap, BTreeSet};
use tera_mend::{Edit, Fault, Limit, mend};
use tera_parser::{Names, ParserOutput};

/// A source with faults, and what it was read as.
#[derive(Drop)]
pub struct Mended {
    pub source: String,
    /// At least one, in the order in which they were met, which may not be the order of their places.
    pub faults: Vec<Fault>,
    /// The tree of the text below.
    pub output: ParserOutput,
    /// The source with what was written for the faults, and then the rest.
    pub text: String,
    /// Whether there are more faults. Then the text has these edits too, or is empty.
    pub cut: bool,
    pub rest: Vec<Edit>,
    /// The words of the source, and its `<`, where the text has something else in their place: for each word the bytes
    /// with which it begins.
    pub lost: BTreeMap<String, BTreeSet<usize>>,
    /// The bytes with which the text has the word that ends a definition.
    pub ends: BTreeSet<usize>,
}

// About how many bytes of a source are parsed at most, the first parse and the last not counted.
const MOST_BYTES: usize = 10_000_000;

/// What a source with a fault is read as, and its names; at most `most` faults are reported. `None` if that is 0, or if
/// nothing can be written for the first fault.
pub(crate) fn read_mended(
    alloc: Global,
    file: &str,
    source: &str,
    most: usize,
) -> Result<Option<(Mended, Names)>, AllocError>
    ensures { IfOk result (λ o. IfSome o (λ m. IsMended file.now source.now most m.0
        × AreOf (string_bytes m.0.text) m.0.output m.1)) }
{
    if most == 0 {
        return Ok(None);
    }
    let limit = Limit {
        faults: most,
        bytes: MOST_BYTES,
    };
    let found = mend(alloc, file, source, limit)?;
    if found.faults.is_empty() {
        return Ok(None);
    }
    let lost = lost_words(alloc, source, found.text.as_str())?;
    let ends = places_of(alloc, found.text.as_str(), "endcomponent")?;
    let mended = Mended {
        source: String::from_str(alloc, source)?,
        faults: found.faults,
        output: found.output,
        text: found.text,
        cut: found.cut,
        rest: found.rest,
        lost,
        ends,
    };
    Ok(Some((mended, found.names)))
}

//! Values that messages of the Language Server Protocol (3.17) have in common, in JSON: positions, ranges, locations,
//! changes and edits of texts, and the encodings of positions that a client offers.
//!
//! It reads members of a `json::Value`, and writes to a `json::Writer`. It depends on `text_edits`, on `json_members`,
//! and on `json` of the kit.
//!
//! In the order of reading: specs `Members` and `Reading`; `reading`; specs `Writing`; `writing`.
#![tactic(auto)]

mod reading;
mod writing;

pub use reading::{
    changes_of, encoding_of, is_set, items_of, member, number_of, position_of, range_of, text_of,
};
pub use writing::{encoding_name, put_edit, put_location, put_position, put_range};

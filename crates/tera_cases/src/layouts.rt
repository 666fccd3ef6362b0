//! Layouts of sources.

use crate::faults::{Detail, error_text};
use crate::settings::Setting;
use std::alloc::{AllocError, Global};
use tera_base::Error;
use tera_layout::{are_steady, format, format_between};

/// The layout of the source, which is laid out as it is; or its fault.
pub(crate) fn layout(
    alloc: Global,
    setting: &Setting<'_>,
    source: &str,
) -> Result<String, AllocError> {
    let first = match laid_out(alloc, setting, source) {
        None => return String::from_str(alloc, "not steady"),
        Some(Err(error)) => return error_text(alloc, setting.file, Detail::Start, &error),
        Some(Ok(text)) => text,
    };
    let text = first.as_str();
    match laid_out(alloc, setting, text) {
        Some(Ok(second)) if second == first => String::from_str(alloc, text),
        Some(Ok(second)) => format!(in alloc; "{text}, and then {second}"),
        Some(Err(error)) => error_text(alloc, setting.file, Detail::Start, &error),
        None => String::from_str(alloc, "not steady"),
    }
}

// The layout, or the fault of the source; none where the markers are not steady.
fn laid_out(alloc: Global, setting: &Setting<'_>, source: &str) -> Option<Result<String, Error>> {
    let markers = &setting.delimiters;
    if setting.options.markers.is_empty() {
        Some(format(alloc, source))
    } else if markers.validate(alloc).is_ok() && are_steady(markers) {
        Some(format_between(alloc, source, markers))
    } else {
        None
    }
}

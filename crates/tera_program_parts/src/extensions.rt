//! The extensions of templates.

/// How the names of templates end in a folder.
pub static EXTENSIONS: [&str; 4] = ["html", "htm", "xml", "tera"];

/// Both `txt` and `.txt` name an extension.
pub fn without_point(extension: &str) -> &str {
    extension.strip_prefix('.').unwrap_or(extension)
}

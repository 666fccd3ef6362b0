//! Texts in HTML.

ghost use Rattle.std.specs.Prelude.{◌≡◌, ◌++◌, false, IfOk, OnOk};
ghost use Rattle.tera_catalogue.specs.Escapes.{escaped, escaped_byte, has_markup};

use std::alloc::{AllocError, Global};

/// The text as it is written in a page, without markup, so that a browser shows it as it is.
#[tactic(auto, using(crate::proofs::EscapeLemmas::without_markup))]
pub fn escaped(alloc: Global, text: &str) -> Result<Vec<u8>, AllocError>
    ensures bytes { IfOk result (λ v. v.items ≡ escaped text.now) }
    ensures without_markup { IfOk result (λ v. has_markup v.items ≡ false) }
{
    let mut escaped = Vec::new(alloc);
    push_escaped(&mut escaped, text)?;
    Ok(escaped)
}

/// Adds the text, so that a browser shows it as it is.
pub(crate) fn push_escaped(page: &mut Vec<u8>, text: &str) -> Result<(), AllocError>
    ensures { OnOk result (page.new.items ≡ page.old.items ++ escaped text.now) }
{
    for byte in text.as_bytes() {
        push_byte(page, *byte)?;
    }
    Ok(())
}

fn push_byte(page: &mut Vec<u8>, byte: u8) -> Result<(), AllocError>
    ensures { OnOk result (page.new.items ≡ page.old.items ++ escaped_byte byte) }
{
    match byte {
        b'&' => push(page, "&amp;"),
        b'<' => push(page, "&lt;"),
        b'>' => push(page, "&gt;"),
        b'"' => push(page, "&quot;"),
        b'\'' => push(page, "&#39;"),
        _ => {
            page.push(byte)?;
            Ok(())
        }
    }
}

/// Adds the markup without escapes.
pub(crate) fn push(page: &mut Vec<u8>, markup: &str) -> Result<(), AllocError>
    ensures { OnOk result (page.new.items ≡ page.old.items ++ markup.now) }
{
    page.extend_from_slice(markup.as_bytes())
}

//! Texts that are written character by character.

ghost use Rattle.std.specs.Prelude.{◌≡◌, ◌++◌, string_bytes, encode_utf8, OnOk};
ghost use Rattle.tera_spelling.specs.Spelling.{in_quotes, with_escapes};
ghost use Rattle.tera_source.specs.Writing.{dotted};

use std::alloc::AllocError;

/// A string: the text between quotes, with a backslash before each quote and each backslash in it.
pub(crate) fn push_quoted(out: &mut String, content: &str) -> Result<(), AllocError>
    ensures { OnOk result (string_bytes out.new ≡ string_bytes out.old ++ in_quotes content.now) }
{
    out.push('"')?;
    for c in content.chars() {
        push_escaped(out, c)?;
    }
    out.push('"')
}

#[tactic(auto, using(crate::proofs::Characters::escaped_kept))]
fn push_escaped(out: &mut String, c: char) -> Result<(), AllocError>
    ensures { OnOk result (string_bytes out.new
        ≡ string_bytes out.old ++ with_escapes (encode_utf8 c)) }
{
    match c {
        '\\' => out.push_str("\\\\"),
        '"' => out.push_str("\\\""),
        _ => out.push(c),
    }
}

/// The name of a component, with a space around each dot.
pub(crate) fn push_dotted(out: &mut String, name: &str) -> Result<(), AllocError>
    ensures { OnOk result (string_bytes out.new ≡ string_bytes out.old ++ dotted name.now) }
{
    for c in name.chars() {
        push_dotted_char(out, c)?;
    }
    Ok(())
}

#[tactic(auto, using(crate::proofs::Characters::dotted_kept))]
fn push_dotted_char(out: &mut String, c: char) -> Result<(), AllocError>
    ensures { OnOk result (string_bytes out.new ≡ string_bytes out.old ++ dotted (encode_utf8 c)) }
{
    match c {
        '.' => out.push_str(" . "),
        _ => out.push(c),
    }
}

//! Markers that stay where they are, whatever white space a layout puts in or takes out.

ghost use Rattle.std.specs.Prelude.{◌≡◌};
ghost use Rattle.tera_lexer.specs.grammar.Marks.{marks_of};
ghost use Rattle.tera_lexer.specs.grammar.Lexeme.{goes_on_name};
ghost use Rattle.tera_layout.specs.Steady as steady;

use tera_lexer::Delimiters;

/// Whether a source between these markers, which `Delimiters::validate` accepts, can be laid out: neither the start of
/// statements' tags nor the end of statements' or of variables' tags begins with white space, a dash, a letter, a digit
/// or an underscore, and no white space is in those ends.
pub fn are_steady(delimiters: &Delimiters) -> bool
    ensures { result ≡ steady.is_steady (marks_of delimiters.now) }
{
    begins_with_sign(delimiters.block_start.as_str().as_bytes())
        && is_steady_end(delimiters.block_end.as_str().as_bytes())
        && is_steady_end(delimiters.variable_end.as_str().as_bytes())
}

fn is_steady_end(marker: &[u8]) -> bool
    ensures { result ≡ steady.is_steady_end marker.now }
{
    match marker {
        [first, second] => is_sign(*first) && !second.is_ascii_whitespace(),
        _ => false,
    }
}

fn begins_with_sign(marker: &[u8]) -> bool
    ensures { result ≡ steady.begins_with_sign marker.now }
{
    match marker.first() {
        Some(byte) => is_sign(*byte),
        None => false,
    }
}

// Whether the byte is not white space, not a dash, and not one of a name.
fn is_sign(byte: u8) -> bool
    ensures { result ≡ steady.is_sign byte }
{
    !byte.is_ascii_whitespace() && b'-' != byte && !goes_on_name(byte)
}

fn goes_on_name(byte: u8) -> bool
    ensures { result ≡ goes_on_name byte }
{
    byte.is_ascii_alphanumeric() || byte == b'_'
}

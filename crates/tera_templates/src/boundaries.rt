//! Parts of texts between two of their bytes.

ghost use Rattle.std.specs.Prelude.{◌≡◌};
ghost use Rattle.std.specs.Option.{option_map};
ghost use Rattle.tera_templates.specs.Boundaries.{is_boundary, is_same_part, text_at};

/// Whether two texts have the same bytes from `start` on and before `end`.
pub fn is_same_part(one: &str, other: &str, start: usize, end: usize) -> bool
    ensures { result ≡ is_same_part one.now other.now (start, end) }
{
    let Some(part) = one.as_bytes().get(start..end) else {
        return false;
    };
    let Some(there) = other.as_bytes().get(start..end) else {
        return false;
    };
    part == there
}

/// What the text has between these bytes, if they are between characters.
pub fn text_at(text: &str, start: usize, end: usize) -> Option<&str>
    ensures { option_map (λ n. n.now) result ≡ text_at text.now (start, end) }
{
    if is_boundary(text, start) && is_boundary(text, end) {
        text.get(start..end)
    } else {
        None
    }
}

fn is_boundary(text: &str, at: usize) -> bool
    ensures { result ≡ is_boundary text.now at }
{
    text.is_char_boundary(at)
}

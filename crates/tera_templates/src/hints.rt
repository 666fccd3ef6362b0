//! Hints for faults: what to write instead.

ghost use Rattle.std.specs.Prelude.{◌≡◌, take, drop};
ghost use Rattle.std.specs.Option.{option_map};
ghost use Rattle.tera_templates.specs.Hints.{blanks_in, hint_for_braces, hint_for_else, hint_for_mark, hint_for_string, hint_for_tag, hint_in, is_known, is_of_macros, is_of_word, letters_in, without_blanks, without_dash, word_of};

/// The hint for a fault with this message. `before` is the source before the fault, and `there` the source from its
/// first byte on.
pub(crate) fn hint_in(message: &str, before: &str, there: &str) -> Option<&'static str>
    ensures { option_map (λ h. h.now) result ≡ hint_in message.now before.now there.now }
{
    if message == "Unknown tag" {
        return hint_for_tag(word_of(there));
    }
    if message == "Found string but expected identifier." {
        return hint_for_string(before);
    }
    if message == "Found identifier but expected %}." {
        return hint_for_else(before, there);
    }
    if message == "`extends` needs to be the first tag of the template" {
        return hint_for_mark(before);
    }
    if message.as_bytes().starts_with(b"Found `}}` but expected") {
        return hint_for_braces(there.as_bytes());
    }
    None
}

// For a tag with an unknown word.
fn hint_for_tag(word: &[u8]) -> Option<&'static str>
    ensures { option_map (λ h. h.now) result ≡ hint_for_tag word.now }
{
    if is_known(word) {
        return None;
    }
    if is_of_macros(word) {
        return Some(
            "Tera 2 has components in place of macros: `{% component name(argument) %}`, called by `{{ <name argument={1} /> }}`",
        );
    }
    Some(
        "the tags are `block`, `break`, `component`, `continue`, `elif`, `else`, `extends`, `filter`, `for`, `if`, `include`, `raw`, `set` and `set_global`",
    )
}

// Whether there is no word, or it is the word of a tag that may not be there.
fn is_known(word: &[u8]) -> bool
    ensures { result ≡ is_known word.now }
{
    let known = [
        "",
        "else",
        "elif",
        "endif",
        "endfor",
        "endblock",
        "endcomponent",
        "endset",
        "endfilter",
        "endraw",
    ];
    known.iter().any(|known| word == known.as_bytes())
}

// Whether the word is one of the macros that Tera had.
fn is_of_macros(word: &[u8]) -> bool
    ensures { result ≡ is_of_macros word.now }
{
    let words = ["macro", "endmacro", "import", "call", "endcall"];
    words.iter().any(|one| word == one.as_bytes())
}

// The letters and `_` with which the text begins.
fn word_of(text: &str) -> &[u8]
    ensures { result.now ≡ word_of text.now }
{
    let bytes = text.as_bytes();
    &bytes[..letters_in(bytes)]
}

fn letters_in(bytes: &[u8]) -> usize
    ensures { result ≡ letters_in bytes.now }
{
    let end = bytes.iter().position(|byte| !is_of_word(*byte));
    end.unwrap_or(bytes.len())
}

fn is_of_word(byte: u8) -> bool
    ensures { result ≡ is_of_word byte }
{
    byte.is_ascii_alphabetic() || byte == b'_'
}

// For an argument without its name.
fn hint_for_string(before: &str) -> Option<&'static str>
    ensures { option_map (λ h. h.now) result ≡ hint_for_string before.now }
{
    let before = before.trim_end().as_bytes();
    if before.ends_with(b"(") || before.ends_with(b",") {
        Some("each argument needs its name, as in `default(value=\"x\")`")
    } else {
        None
    }
}

// For an `if` after `else`.
fn hint_for_else(before: &str, there: &str) -> Option<&'static str>
    ensures { option_map (λ h. h.now) result ≡ hint_for_else before.now there.now }
{
    if word_of(there) == b"if".as_slice() && before.trim_end().as_bytes().ends_with(b"else") {
        Some("write `elif` in place of `else if`")
    } else {
        None
    }
}

// For a byte order mark before `extends`.
fn hint_for_mark(before: &str) -> Option<&'static str>
    ensures { option_map (λ h. h.now) result ≡ hint_for_mark before.now }
{
    if before.as_bytes().starts_with(&[0xEF, 0xBB, 0xBF]) {
        Some(
            "the file begins with a byte order mark (U+FEFF), which counts as content: save it without one",
        )
    } else {
        None
    }
}

// For two braces that were meant to end maps.
fn hint_for_braces(there: &[u8]) -> Option<&'static str>
    ensures { option_map (λ h. h.now) result ≡ hint_for_braces there.now }
{
    let after = there.strip_prefix(b"}}")?;
    if without_dash(without_blanks(after)).starts_with(b"}}") {
        Some("`}}` ends the tag here: write `} }` to close two maps")
    } else {
        None
    }
}

fn without_dash(bytes: &[u8]) -> &[u8]
    ensures { result.now ≡ without_dash bytes.now }
{
    match bytes {
        [b'-', after @ ..] => after,
        _ => bytes,
    }
}

// What comes after the white space.
fn without_blanks(bytes: &[u8]) -> &[u8]
    ensures { result.now ≡ without_blanks bytes.now }
{
    &bytes[blanks_in(bytes)..]
}

fn blanks_in(bytes: &[u8]) -> usize
    ensures { result ≡ blanks_in bytes.now }
{
    let end = bytes.iter().position(|byte| !byte.is_ascii_whitespace());
    end.unwrap_or(bytes.len())
}

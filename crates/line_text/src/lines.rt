//! Characters as they are shown on a line.

ghost use Rattle.std.specs.Prelude.{◌≡◌, ◌++◌, ◌<◌, encode_utf8_all, string_bytes, OnOk};
ghost use Rattle.std.specs.List.{list_all};
ghost use Rattle.line_text.specs.Line.{is_printable as is_printable_byte, is_unsafe as is_unsafe_character, escape, number_escape, hex_digit, safe_as, lines_as, on_one_line, on_lines};

use std::alloc::AllocError;

/// Adds the text on one line. In place of a control character, a separator of lines and a character that turns the
/// direction of text an escape is shown: `\t`, `\n`, `\r` or, as in JSON, `\u001b`.
pub fn push_on_one_line(to: &mut String, text: &str) -> Result<(), AllocError>
    ensures { OnOk result (string_bytes to.new ≡ string_bytes to.old ++ on_one_line text.now) }
{
    if is_printable(text) {
        return to.push_str(text);
    }
    for character in text.chars() {
        push_safe(to, character)?;
    }
    Ok(())
}

/// Adds a text that has lines of its own: its line feeds and tabs stay, the other characters are shown as
/// `push_on_one_line` has them.
pub fn push_on_lines(to: &mut String, text: &str) -> Result<(), AllocError>
    ensures { OnOk result (string_bytes to.new ≡ string_bytes to.old ++ on_lines text.now) }
{
    for character in text.chars() {
        push_in_lines(to, character)?;
    }
    Ok(())
}

/// Whether all of the text is ASCII that is shown as it is, a column for each character.
pub fn is_printable(text: &str) -> bool
    ensures { result ≡ list_all is_printable_byte text.now }
{
    let bytes = text.as_bytes();
    for byte in bytes {
        if !matches!(*byte, b' '..=b'~') {
            return false;
        }
    }
    true
}

/// Whether a terminal would obey the character in place of showing it, or would end the line or turn its direction there.
pub fn is_unsafe(character: char) -> bool
    ensures { result ≡ is_unsafe_character character }
{
    character.is_control()
        || matches!(
            character,
            '\u{2028}'..='\u{2029}'
                | '\u{61c}'
                | '\u{200e}'..='\u{200f}'
                | '\u{202a}'..='\u{202e}'
                | '\u{2066}'..='\u{2069}'
        )
}

// Adds the character, or its escape.
fn push_safe(to: &mut String, character: char) -> Result<(), AllocError>
    ensures { OnOk result (string_bytes to.new
        ≡ string_bytes to.old ++ encode_utf8_all (safe_as character)) }
{
    if is_unsafe(character) {
        push_escape(to, character)
    } else {
        to.push(character)
    }
}

// The same of a text that has lines of its own.
fn push_in_lines(to: &mut String, character: char) -> Result<(), AllocError>
    ensures { OnOk result (string_bytes to.new
        ≡ string_bytes to.old ++ encode_utf8_all (lines_as character)) }
{
    match character {
        '\t' => to.push_str("\t"),
        '\n' => to.push_str("\n"),
        _ => push_safe(to, character),
    }
}

fn push_escape(to: &mut String, character: char) -> Result<(), AllocError>
    ensures { OnOk result (string_bytes to.new
        ≡ string_bytes to.old ++ encode_utf8_all (escape character)) }
{
    match character {
        '\t' => to.push_str("\\t"),
        '\n' => to.push_str("\\n"),
        '\r' => to.push_str("\\r"),
        _ => push_number(to, u32::from(character)),
    }
}

// Adds the number of a character in four digits.
fn push_number(to: &mut String, code: u32) -> Result<(), AllocError>
    ensures { OnOk result (string_bytes to.new
        ≡ string_bytes to.old ++ encode_utf8_all (number_escape code)) }
{
    to.push_str("\\u")?;
    to.push(digit(code / 4096 % 16))?;
    to.push(digit(code / 256 % 16))?;
    to.push(digit(code / 16 % 16))?;
    to.push(digit(code % 16))
}

// The digit of a number below 16.
fn digit(number: u32) -> char
    requires { number < 16 }
    ensures value { result ≡ hex_digit number }
    ensures ascii { result < 128 }
{
    const DIGITS: [char; 16] = [
        '0', '1', '2', '3', '4', '5', '6', '7', '8', '9', 'a', 'b', 'c', 'd', 'e', 'f',
    ];
    DIGITS[number as usize]
}

//! What a line of a header says.

ghost use Rattle.std.specs.Prelude.{◌≡◌};
ghost use Rattle.std.specs.Option.{option_map};
ghost use Rattle.message_frames.specs.Reading.{following, reads, cut, field_of, stated_with};
ghost use Rattle.message_frames.specs.declared.field.Number.TheVariants.{Before as before_digits};

use memchr::memchr;

/// What has been read of a number that may be between blanks.
#[derive(Clone, Copy)]
pub(crate) enum Number {
    Before,
    Within(usize),
    After(usize),
}

/// What a line says.
#[derive(Clone, Copy)]
pub(crate) enum Field {
    Length(usize),
    Other,
    Malformed,
}

/// What the lines so far say together.
#[derive(Clone, Copy)]
pub(crate) enum Stated {
    Nothing,
    Length(usize),
    Malformed,
}

impl Stated {
    /// With one line more.
    pub(crate) fn with(self, field: Field) -> Stated
        ensures { result ≡ stated_with self field }
    {
        match (self, field) {
            (Stated::Nothing, Field::Length(length)) => Stated::Length(length),
            (Stated::Nothing, Field::Other) => Stated::Nothing,
            (Stated::Length(length), Field::Other) => Stated::Length(length),
            _ => Stated::Malformed,
        }
    }
}

impl Number {
    // With one byte more, as long as the number fits.
    fn with(self, byte: u8) -> Option<Number>
        ensures { result ≡ following self byte }
    {
        let blank = byte == b' ' || byte == b'\t';
        let number = match self {
            Number::Before if blank => return Some(Number::Before),
            Number::Within(number) | Number::After(number) if blank => {
                return Some(Number::After(number));
            }
            Number::Before => 0,
            Number::Within(number) => number,
            Number::After(_) => return None,
        };
        if !byte.is_ascii_digit() {
            return None;
        }
        let number = number
            .checked_mul(10)?
            .checked_add(usize::from(byte - b'0'))?;
        Some(Number::Within(number))
    }
}

fn read_number(value: &[u8]) -> Option<usize>
    ensures { result ≡ reads before_digits value.now }
{
    let mut number = Number::Before;
    'bytes: for byte in value {
        number = number.with(*byte)?;
    }
    match number {
        Number::Before => None,
        Number::Within(number) | Number::After(number) => Some(number),
    }
}

// What is before the first colon, and what after it.
fn cut(line: &[u8]) -> Option<(&[u8], &[u8])>
    ensures { option_map (λ parts. (parts.0.now, parts.1.now)) result ≡ cut line.now }
{
    let colon = memchr(b':', line)?;
    let (name, rest) = line.split_at(colon);
    let (_, value) = rest.split_at(1);
    Some((name, value))
}

/// Reads a line, without its end.
#[tactic(auto, unfolding(crate::specs::Reading::field_of))]
pub(crate) fn read_field(line: &[u8]) -> Field
    ensures { result ≡ field_of line.now }
{
    let Some((name, value)) = cut(line) else {
        return Field::Malformed;
    };
    if name.is_empty() {
        return Field::Malformed;
    }
    if !name.eq_ignore_ascii_case(b"Content-Length") {
        return Field::Other;
    }
    match read_number(value) {
        Some(length) => Field::Length(length),
        None => Field::Malformed,
    }
}

//! What may be typed at a place of a text.

ghost use Rattle.std.specs.Prelude.{◌≡◌, ◌<◌, ◌≤◌, length, map, option_map};
ghost use Rattle.std.specs.List.{find};
ghost use Rattle.tera_lexer.specs.code.Seen.{seen};
ghost use Rattle.tera_outline.specs.Pieces.{part_of};
ghost use Rattle.tera_outline.specs.Completions as specs;

use crate::dotted::{dotted, end_of, is_dot};
use crate::names::{Before, after_token, is_string};
use crate::pieces::Piece;
use tera_lexer::Token;

/// What may be typed somewhere.
#[derive(Clone, Copy, Debug, PartialEq, Eq)]
pub enum CompletionKind {
    /// The word with which a statement begins.
    Statement,
    /// The name of a component.
    Component,
    /// The name of a template.
    Template,
    /// The name of an argument in the call of the component whose name begins with this byte, and is given by `under`.
    Argument(usize),
    /// The name of a filter.
    Filter,
    /// The name of a test.
    Test,
    /// The name of a variable or a function, with which an operand begins.
    Operand,
}

/// What may be typed at a place, and where what is typed of it begins.
#[derive(Clone, Copy, Debug, PartialEq, Eq)]
pub struct Completion {
    pub kind: CompletionKind,
    /// The byte with which it begins; the place itself, where nothing is typed before it.
    pub start: usize,
}

/// What may be typed at a byte of a text that is in these pieces and ends at `last`: after the start of a tag the word
/// of a statement, after a `</` and a `<` that is not a comparison the name of a component, in the string after
/// `extends` and `include` that of a template, after a `|` and the statement `filter` that of a filter, after `is` and
/// `is not` that of a test, after `{{` and after a word that an operand follows that of a variable or a function, and
/// after the name of a component that is called that of an argument, where no value is to come.
pub fn completion_for(pieces: &[Piece<'_>], last: usize, byte: usize) -> Option<Completion>
    ensures { result ≡ option_map (specs.completion_at byte)
        (specs.slot_of last byte (map part_of pieces.now)) }
{
    let slot = match word_at(pieces, last, byte) {
        Some(slot) => slot,
        None => argument_at(pieces, last, byte)?,
    };
    Some(Completion {
        kind: slot.kind,
        start: byte.min(slot.start),
    })
}

// The place at the byte for a word of a statement or a name of a component or a template.
fn word_at(pieces: &[Piece<'_>], last: usize, byte: usize) -> Option<Slot>
    ensures { result
        ≡ find (specs.holds byte) (specs.slots_of last (map part_of pieces.now)) }
{
    let mut before = Before::Other;
    let mut rest = pieces;
    'pieces: while let [piece, following @ ..] = rest {
        if let Some(slot) = slot_after(last, before, piece, following) {
            if slot.holds(byte) {
                return Some(slot);
            }
        }
        before = after_token(before, &piece.token);
        rest = following;
    }
    None
}

// The place at the byte for an argument.
fn argument_at(pieces: &[Piece<'_>], last: usize, byte: usize) -> Option<Slot>
    ensures { result ≡ specs.argument_of last byte (map part_of pieces.now) }
{
    let mut before = Before::Other;
    let mut rest = pieces;
    'pieces: while let [piece, following @ ..] = rest {
        if begins_call(before, &piece.token) {
            if let Some(slot) = called_at(last, following, byte) {
                return Some(slot);
            }
        }
        before = after_token(before, &piece.token);
        rest = following;
    }
    None
}

pub(crate) fn begins_call(before: Before, token: &Token<'_>) -> bool
    ensures { result ≡ specs.begins_call before (seen token.now) }
{
    matches!(token, Token::LessThan) && !matches!(before, Before::Operand)
}

// The place at the byte for an argument of the call whose component's name comes first.
fn called_at(last: usize, following: &[Piece<'_>], byte: usize) -> Option<Slot>
    ensures { result ≡ find (specs.holds byte) (specs.called last (map part_of following.now)) }
{
    let name = dotted(following);
    match name {
        [] => None,
        [first, ..] => inside_at(
            last,
            first.start,
            end_of(name),
            &following[name.len()..],
            byte,
        ),
    }
}

// Where in a call a token is: the byte after the one before it, whether a value is to come, and how many brackets are
// open.
#[derive(Clone, Copy)]
pub(crate) struct Inside {
    pub(crate) from: usize,
    pub(crate) valued: bool,
    pub(crate) depth: usize,
}

// What a token is in a call.
#[derive(Clone, Copy)]
pub(crate) enum Role {
    Word,
    Equals,
    Opening,
    Closing,
    // What ends a call.
    Ending,
    // A text, or the start or the end of a tag.
    Outer,
    Value,
}

// The place at the byte for an argument of the call whose name begins and ends with these bytes.
fn inside_at(
    last: usize,
    call: usize,
    from: usize,
    following: &[Piece<'_>],
    byte: usize,
) -> Option<Slot>
    ensures { result ≡ find (specs.holds byte)
        (specs.inside last call (specs.first_inside from) (map part_of following.now)) }
{
    let mut inside = Inside {
        from,
        valued: false,
        depth: 0,
    };
    let mut rest = following;
    'pieces: while let [piece, following @ ..] = rest {
        let role = role_of(&piece.token);
        if let Some(slot) = argument_before(call, inside, role, piece.start, piece.end) {
            if slot.holds(byte) {
                return Some(slot);
            }
        }
        match inside_after(inside, role, piece.end) {
            Some(next) => inside = next,
            None => return None,
        }
        rest = following;
    }
    match argument_before(call, inside, Role::Outer, last, last) {
        Some(slot) if slot.holds(byte) => Some(slot),
        _ => None,
    }
}

// The place for an argument before a token that begins and ends with these bytes, or that of its name.
fn argument_before(
    call: usize,
    inside: Inside,
    role: Role,
    start: usize,
    end: usize,
) -> Option<Slot>
    ensures { result ≡ specs.argument_before call inside role start end }
{
    if inside.valued || inside.depth != 0 {
        return None;
    }
    match role {
        Role::Equals => None,
        Role::Word => Some(Slot {
            kind: CompletionKind::Argument(call),
            from: inside.from,
            start,
            end,
        }),
        _ => Some(Slot {
            kind: CompletionKind::Argument(call),
            from: inside.from,
            start,
            end: start,
        }),
    }
}

// Where the next token comes after one that ends with the byte; nowhere, if the call ends.
pub(crate) fn inside_after(inside: Inside, role: Role, end: usize) -> Option<Inside>
    requires { inside.depth < usize.MAX }
    ensures { result ≡ specs.inside_after inside role end }
{
    let next = Inside {
        from: end,
        valued: false,
        depth: inside.depth,
    };
    match role {
        Role::Outer => None,
        Role::Ending | Role::Closing if inside.depth == 0 => None,
        Role::Opening => Some(Inside {
            depth: inside.depth + 1,
            ..next
        }),
        Role::Closing => Some(Inside {
            depth: inside.depth - 1,
            ..next
        }),
        Role::Equals => Some(Inside {
            valued: true,
            ..next
        }),
        _ => Some(next),
    }
}

pub(crate) fn role_of(token: &Token<'_>) -> Role
    ensures { result ≡ specs.role_of (seen token.now) }
{
    match token {
        Token::Ident(_) => Role::Word,
        Token::Assign => Role::Equals,
        Token::LeftBrace | Token::LeftParen | Token::LeftBracket => Role::Opening,
        Token::RightBrace | Token::RightParen | Token::RightBracket => Role::Closing,
        Token::GreaterThan | Token::Div => Role::Ending,
        Token::VariableStart(_) | Token::TagStart(_) => Role::Outer,
        Token::VariableEnd(_) | Token::TagEnd(_) => Role::Outer,
        Token::Content(_) | Token::RawContent(..) | Token::Comment(..) => Role::Outer,
        _ => Role::Value,
    }
}

// A place where something may be typed: the cursor is between two bytes, and what is typed begins at one.
#[derive(Clone, Copy)]
struct Slot {
    kind: CompletionKind,
    from: usize,
    start: usize,
    end: usize,
}

impl Slot {
    // Whether the cursor is there.
    fn holds(self, byte: usize) -> bool
        ensures { result ≡ specs.holds byte self }
    {
        self.from <= byte && byte <= self.end
    }
}

// What may be typed after the piece.
fn slot_after(
    last: usize,
    before: Before,
    piece: &Piece<'_>,
    following: &[Piece<'_>],
) -> Option<Slot>
    ensures { result ≡ specs.slot_after last before (seen piece.now.token) piece.now.end
        (map part_of following.now) }
{
    match &piece.token {
        Token::TagStart(_) => Some(name_slot(
            CompletionKind::Statement,
            last,
            piece.end,
            following,
        )),
        Token::VariableStart(_) => Some(name_slot(
            CompletionKind::Operand,
            last,
            piece.end,
            following,
        )),
        Token::LessThan if matches!(before, Before::Operand) => None,
        Token::LessThan | Token::ClosingTagStart => {
            Some(name_slot(CompletionKind::Component, last, piece.end, following))
        }
        Token::Pipe => Some(name_slot(CompletionKind::Filter, last, piece.end, following)),
        Token::Ident(word) => word_place(last, before, piece.end, word, following),
        _ => None,
    }
}

// The place of a name after a word that ends with the byte, which is not a field.
fn word_place(
    last: usize,
    before: Before,
    end: usize,
    word: &str,
    following: &[Piece<'_>],
) -> Option<Slot>
    ensures { result ≡ specs.word_place last before end word.now (map part_of following.now) }
{
    if matches!(before, Before::Tag) {
        return word_slot(last, end, word, following);
    }
    if matches!(before, Before::Dot) {
        return None;
    }
    match word {
        "is" => test_slot(last, end, following),
        "and" | "or" | "not" | "in" | "if" | "else" => {
            spaced_slot(CompletionKind::Operand, last, end, following)
        }
        _ => None,
    }
}

// The place of a template's or a filter's name after the first word of a tag, which ends with the byte.
fn word_slot(last: usize, end: usize, word: &str, following: &[Piece<'_>]) -> Option<Slot>
    ensures { result ≡ specs.word_slot last end word.now (map part_of following.now) }
{
    match word {
        "extends" | "include" => string_slot(following),
        "filter" => spaced_slot(CompletionKind::Filter, last, end, following),
        "if" | "elif" => spaced_slot(CompletionKind::Operand, last, end, following),
        _ => None,
    }
}

// The place of a test's name after an `is` that ends with the byte, and the `not` after it.
fn test_slot(last: usize, end: usize, following: &[Piece<'_>]) -> Option<Slot>
    ensures { result ≡ specs.test_slot last end (map part_of following.now) }
{
    match following {
        [next, rest @ ..] if is_not(&next.token) => {
            spaced_slot(CompletionKind::Test, last, next.end, rest)
        }
        _ => spaced_slot(CompletionKind::Test, last, end, following),
    }
}

fn is_not(token: &Token<'_>) -> bool
    ensures { result ≡ specs.is_not (seen token.now) }
{
    match token {
        Token::Ident(word) => *word == "not",
        _ => false,
    }
}

// The place of a name after a word that ends with the byte, if something is between the word and the next token.
fn spaced_slot(
    kind: CompletionKind,
    last: usize,
    end: usize,
    following: &[Piece<'_>],
) -> Option<Slot>
    ensures { result ≡ specs.spaced_slot kind last end (map part_of following.now) }
{
    if end < gap_end(last, following) {
        Some(name_slot(kind, last, end + 1, following))
    } else {
        None
    }
}

// The place of a name after the byte, with a dot after it or none; or the gap, where no name is. A name begins where
// the gap ends.
fn name_slot(kind: CompletionKind, last: usize, from: usize, following: &[Piece<'_>]) -> Slot
    ensures { result ≡ specs.name_slot kind last from (map part_of following.now) }
{
    let start = gap_end(last, following);
    let name = dotted(following);
    let end = match name {
        [] => start,
        name => dot_end(end_of(name), &following[name.len()..]),
    };
    Slot {
        kind,
        from,
        start,
        end,
    }
}

fn gap_end(last: usize, following: &[Piece<'_>]) -> usize
    ensures { result ≡ specs.gap_end last (map part_of following.now) }
{
    match following {
        [next, ..] => next.start,
        [] => last,
    }
}

// The end of a name with the dot after it, if one is there.
fn dot_end(end: usize, following: &[Piece<'_>]) -> usize
    ensures { result ≡ specs.dot_end end (map part_of following.now) }
{
    match following {
        [next, ..] if is_dot(&next.token) => next.end,
        _ => end,
    }
}

// The place between the quotes of a string.
fn string_slot(following: &[Piece<'_>]) -> Option<Slot>
    ensures { result ≡ specs.string_slot (map part_of following.now) }
{
    match following {
        [text, ..] if is_string(&text.token) && text.start < text.end => Some(Slot {
            kind: CompletionKind::Template,
            from: text.start + 1,
            start: text.start + 1,
            end: text.end - 1,
        }),
        _ => None,
    }
}

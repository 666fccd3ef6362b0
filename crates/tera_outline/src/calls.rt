//! The call in which a place of a text is.

ghost use Rattle.std.specs.Prelude.{◌≡◌, ◌<◌, map, option_map};
ghost use Rattle.std.specs.List.{find};
ghost use Rattle.tera_lexer.specs.code.Seen.{seen};
ghost use Rattle.tera_outline.specs.Calls as specs;
ghost use Rattle.tera_outline.specs.Calls.{in_call_view, stretch_view};
ghost use Rattle.tera_outline.specs.Completions.{first_inside};
ghost use Rattle.tera_outline.specs.Pieces.{part_of};

use crate::completions::{Inside, begins_call, inside_after, role_of};
use crate::dotted::{dotted, end_of};
use crate::names::{Before, after_token};
use crate::pieces::Piece;
use tera_lexer::Token;

/// The call of a component in which a place is.
#[derive(Clone, Copy, Debug, PartialEq, Eq)]
pub struct InCall<'a> {
    /// The byte with which the name of the component begins, and which `under` takes.
    pub call: usize,
    /// The name of the argument that is there, if one is.
    pub argument: Option<&'a str>,
}

/// The call in which the byte is of a text that is in these pieces and ends at `last`: after the name of the component
/// and before its end. Of calls within one another it is the innermost.
pub fn call_at<'a>(pieces: &[Piece<'a>], last: usize, byte: usize) -> Option<InCall<'a>>
    ensures { option_map in_call_view result ≡ specs.call_at last byte (map part_of pieces.now) }
{
    let mut before = Before::Other;
    let mut found = None;
    let mut rest = pieces;
    'pieces: while let [piece, following @ ..] = rest {
        found = stretch_after(last, byte, before, piece, following).or(found);
        before = after_token(before, &piece.token);
        rest = following;
    }
    let stretch = found?;
    Some(stretch.place())
}

// A part of a call, between two bytes.
#[derive(Clone, Copy)]
struct Stretch<'a> {
    call: usize,
    from: usize,
    end: usize,
    argument: Option<&'a str>,
}

impl<'a> Stretch<'a> {
    fn place(self) -> InCall<'a>
        ensures { in_call_view result ≡ specs.place_of (stretch_view self.entry) }
    {
        InCall {
            call: self.call,
            argument: self.argument,
        }
    }

    fn holds(self, byte: usize) -> bool
        ensures { result ≡ specs.holds byte (stretch_view self.entry) }
    {
        self.from <= byte && byte <= self.end
    }
}

// The part at the byte of the call that the piece begins before the byte, if it begins one.
fn stretch_after<'a>(
    last: usize,
    byte: usize,
    before: Before,
    piece: &Piece<'a>,
    following: &[Piece<'a>],
) -> Option<Stretch<'a>>
    ensures { option_map stretch_view result
        ≡ specs.stretch_after last byte before (part_of piece.now) (map part_of following.now) }
{
    if piece.start < byte && begins_call(before, &piece.token) {
        stretch_called(last, following, byte)
    } else {
        None
    }
}

// The part at the byte of the call whose component's name comes first.
fn stretch_called<'a>(last: usize, following: &[Piece<'a>], byte: usize) -> Option<Stretch<'a>>
    ensures { option_map stretch_view result
        ≡ find (specs.holds byte) (specs.called last (map part_of following.now)) }
{
    let name = dotted(following);
    match name {
        [] => None,
        [first, ..] => stretch_inside(
            last,
            first.start,
            end_of(name),
            &following[name.len()..],
            byte,
        ),
    }
}

// The part at the byte of the call whose name begins and ends with these bytes.
fn stretch_inside<'a>(
    last: usize,
    call: usize,
    from: usize,
    following: &[Piece<'a>],
    byte: usize,
) -> Option<Stretch<'a>>
    ensures { option_map stretch_view result ≡ find (specs.holds byte)
        (specs.stretches last call (first_inside from) None (map part_of following.now)) }
{
    let mut inside = Inside {
        from,
        valued: false,
        depth: 0,
    };
    let mut argument = None;
    let mut rest = following;
    'pieces: while let [piece, following @ ..] = rest {
        let gap = Stretch {
            call,
            from: inside.from,
            end: piece.start,
            argument: if_valued(inside, argument),
        };
        if gap.holds(byte) {
            return Some(gap);
        }
        let Some(next) = inside_after(inside, role_of(&piece.token), piece.end) else {
            return None;
        };
        argument = argument_at(inside, &piece.token, argument);
        let stretch = Stretch {
            call,
            from: piece.start,
            end: piece.end,
            argument,
        };
        if stretch.holds(byte) {
            return Some(stretch);
        }
        inside = next;
        rest = following;
    }
    let gap = Stretch {
        call,
        from: inside.from,
        end: last,
        argument: if_valued(inside, argument),
    };
    if gap.holds(byte) { Some(gap) } else { None }
}

// The argument, where its value is to come, or in brackets.
fn if_valued<'a>(inside: Inside, argument: Option<&'a str>) -> Option<&'a str>
    ensures { option_map (λ n. n.now) result
        ≡ specs.if_valued inside (option_map (λ n. n.now) argument.entry) }
{
    if inside.valued || inside.depth != 0 {
        argument
    } else {
        None
    }
}

// The argument in which the token is: that before it, or its own. The `=` after a name is in the name's argument.
fn argument_at<'a>(inside: Inside, token: &Token<'a>, argument: Option<&'a str>) -> Option<&'a str>
    ensures { option_map (λ n. n.now) result
        ≡ specs.argument_at inside (seen token.now) (option_map (λ n. n.now) argument.entry) }
{
    if inside.valued || inside.depth != 0 {
        return argument;
    }
    match token {
        Token::Ident(name) => Some(*name),
        Token::Assign => argument,
        _ => None,
    }
}

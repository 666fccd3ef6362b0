//! The parts of tags.

ghost use Rattle.std.specs.Prelude.{◌≡◌, IfErr, IfOk, false, true};
ghost use Rattle.std.specs.Bool.{OnTrue};
ghost use Rattle.tera_lexer.specs.code.Cursors.{is_end};
ghost use Rattle.tera_grammar.specs.Reads.{Fails, StopsAt, stopped};
ghost use Rattle.tera_grammar.specs.expressions.Reading.Front.{taken_quote};
ghost use Rattle.tera_grammar.specs.statements.Reading.Expressions.{expression_of};
ghost use Rattle.tera_grammar.specs.statements.Reading.TagParts.{closed, closed_tag, finish_of, front, variable_end_of, wrong_at};
ghost use Rattle.tera_tags.specs.Kinds.{closer_of, closes};
ghost use Rattle.tera_tags.specs.Reading.{EatsAlone, EatsEnd, EndsAfter, IsExpression, IsQuote, NamesVariable, PassesOne};
ghost use Rattle.tera_tags.specs.Settings.{limits_under};
ghost use Rattle.tera_expect.specs.Taking.{GivesBy, Passes, Refuses, RefusesIn, Took};

use crate::faults::unknown;
use crate::fronts::{Closer, Front};
use crate::settings::Setting;
use tera_base::{Error, Span};
use tera_expect::{take, unexpected};
use tera_expr_parts::{is_none, is_not, leaves};
use tera_expr_reader::expression;
use tera_lexer::{Cursor, Token};
use tera_tree::Expression;

/// The end of a tag.
#[tactic(auto, unfolding(tera_expect::specs::Taking::Took), using(tera_expect::proofs::TakingLemmas::untaken_refused, tera_expect::proofs::TakingLemmas::token_refused))]
pub fn finish(cursor: &mut Cursor<'_>) -> Result<(), Error>
    ensures gives { Passes result cursor.new.left (finish_of cursor.old.left) }
    ensures refusal { IfErr result (Refuses cursor.old cursor.new) }
    ensures later { IfOk result (λ _. Took cursor.old cursor.new) }
{
    if eat_end(cursor) {
        return Ok(());
    }
    let (token, span) = cursor.next_or_eoi()?;
    Err(unexpected(cursor.alloc(), &token, "%}", &span))
}

// Takes the end of a tag, if it comes next.
#[tactic(auto, unfolding(tera_expect::specs::Taking::Took))]
fn eat_end(cursor: &mut Cursor<'_>) -> bool
    ensures { EatsEnd result cursor.old cursor.new (finish_of cursor.old.left) }
{
    match cursor.first() {
        Some(Token::TagEnd(_)) => cursor.skip(),
        _ => false,
    }
}

/// The end of a variable tag.
#[tactic(auto, unfolding(tera_expect::specs::Taking::Took), using(tera_expect::proofs::TakingLemmas::untaken_refused, tera_expect::proofs::TakingLemmas::token_refused))]
pub fn variable_end(cursor: &mut Cursor<'_>) -> Result<(), Error>
    ensures gives { Passes result cursor.new.left (variable_end_of cursor.old.left) }
    ensures refusal { IfErr result (Refuses cursor.old cursor.new) }
    ensures later { IfOk result (λ _. Took cursor.old cursor.new) }
{
    if eat_variable_end(cursor) {
        return Ok(());
    }
    let (token, span) = cursor.next_or_eoi()?;
    Err(unexpected(cursor.alloc(), &token, "}}", &span))
}

// Takes the end of a variable tag, if it comes next.
#[tactic(auto, unfolding(tera_expect::specs::Taking::Took))]
fn eat_variable_end(cursor: &mut Cursor<'_>) -> bool
    ensures { EatsEnd result cursor.old cursor.new (variable_end_of cursor.old.left) }
{
    match cursor.first() {
        Some(Token::VariableEnd(_)) => cursor.skip(),
        _ => false,
    }
}

/// Takes the next token, where one has to come, and lets it go.
#[tactic(auto, unfolding(tera_expect::specs::Taking::Took), using(tera_expect::proofs::TakingLemmas::untaken_refused, tera_expect::proofs::TakingLemmas::token_refused))]
pub fn pass(cursor: &mut Cursor<'_>) -> Result<(), Error>
    ensures passes { PassesOne cursor.old result cursor.new }
    ensures refusal { IfErr result (Refuses cursor.old cursor.new) }
    ensures later { IfOk result (λ _. Took cursor.old cursor.new) }
{
    if cursor.skip() {
        return Ok(());
    }
    let _ = cursor.next_or_eoi()?;
    Ok(())
}

/// An expression. A variable alone is answered at once.
#[tactic(auto, using(tera_expect::proofs::TakingLemmas::memory_refused))]
pub fn tag_expression(
    setting: &Setting<'_>,
    cursor: &mut Cursor<'_>,
    in_loop: bool,
) -> Result<Expression, Error>
    ensures gives { GivesBy (IsExpression in_loop) result cursor.new.left
        (expression_of (limits_under setting.now) in_loop cursor.old.left) }
    ensures refusal { IfErr result (Refuses cursor.old cursor.new) }
    ensures later { IfOk result (λ _. Took cursor.old cursor.new) }
{
    match eat_alone(cursor) {
        Some(name) => {
            let span = cursor.current_span().copied();
            Ok(leaves::variable(cursor.alloc(), name, span)?)
        }
        None => expression(cursor, setting.scope(in_loop)),
    }
}

// Takes the name of a variable, if it comes next and the tag ends after it.
#[tactic(auto, unfolding(tera_expect::specs::Taking::Took))]
fn eat_alone<'a>(cursor: &mut Cursor<'a>) -> Option<&'a str>
    ensures { EatsAlone result cursor.old cursor.new }
{
    if !ends_after(cursor) {
        return None;
    }
    let Some(Token::Ident(name)) = cursor.first() else {
        return None;
    };
    let name = *name;
    if !is_variable(name) {
        return None;
    }
    if cursor.skip() { Some(name) } else { None }
}

// Whether the tag ends after the next token.
fn ends_after(cursor: &Cursor<'_>) -> bool
    ensures { OnTrue result (EndsAfter cursor.now.left) }
{
    match cursor.second() {
        Some(Token::VariableEnd(_)) => true,
        Some(Token::TagEnd(_)) => true,
        _ => false,
    }
}

// Whether the word is the name of a variable: it is neither one for no value nor the negation.
fn is_variable(word: &str) -> bool
    ensures { OnTrue result (NamesVariable word.now) }
{
    if is_none(word) {
        return false;
    }
    !is_not(word)
}

/// A string, and where it is.
#[tactic(auto, unfolding(tera_expect::specs::Taking::Took), using(tera_expect::proofs::TakingLemmas::untaken_refused, tera_expect::proofs::TakingLemmas::token_refused, tera_expect::proofs::TakingLemmas::memory_refused))]
pub fn quote(cursor: &mut Cursor<'_>) -> Result<(String, Span), Error>
    ensures gives { GivesBy IsQuote result cursor.new.left (taken_quote cursor.old.left) }
    ensures refusal { IfErr result (Refuses cursor.old cursor.new) }
    ensures later { IfOk result (λ _. Took cursor.old cursor.new) }
{
    let alloc = cursor.alloc();
    let (token, span) = cursor.next_or_eoi()?;
    match token {
        Token::Str(text) => Ok((String::from_str(alloc, text)?, span)),
        Token::String(text) => Ok((text, span)),
        _ => Err(unexpected(alloc, &token, "string", &span)),
    }
}

/// Why nothing that is known is here: the lexical fault, the end of the input, or an unknown tag, which is reported at
/// its first token. What is there is taken.
#[tactic(auto, using(tera_expect::proofs::TakingLemmas::refused_after, crate::proofs::RefusalLemmas::took_inside))]
pub fn unknown_tag(cursor: &mut Cursor<'_>) -> Error
    ensures refusal { Refuses cursor.old cursor.new result }
    ensures inside { is_end cursor.old.left ≡ false → RefusesIn cursor.old cursor.new result }
    ensures stops { Fails {A = Unit {0}} (stopped (wrong_at cursor.old.left)) cursor.new.left result }
{
    match begin_tag(cursor) {
        Ok(()) => unknown(cursor),
        Err(error) => error,
    }
}

// Takes the start of a tag and its first token, or a token that starts no tag.
#[tactic(auto, using(tera_expect::proofs::TakingLemmas::after_tokens, crate::proofs::RefusalLemmas::took_inside, crate::proofs::RefusalLemmas::untaken_inside))]
fn begin_tag(cursor: &mut Cursor<'_>) -> Result<(), Error>
    ensures refusal { IfErr result (Refuses cursor.old cursor.new) }
    ensures inside { IfErr result (λ e. is_end cursor.old.left ≡ false → RefusesIn cursor.old cursor.new e) }
    ensures stops { IfErr result (Fails {A = Unit {0}} (stopped (wrong_at cursor.old.left)) cursor.new.left) }
    ensures wrong { IfOk result (λ _. StopsAt {A = Unit {0}} (stopped (wrong_at cursor.old.left)) cursor.new.left) }
    ensures later { IfOk result (λ _. Took cursor.old cursor.new) }
{
    let (token, _) = take(cursor)?;
    if let Token::TagStart(_) = token {
        return pass(cursor);
    }
    Ok(())
}

/// Whether a tag with this closing token comes next.
pub fn closes(cursor: &Cursor<'_>, closer: Closer) -> bool
    ensures { result ≡ closes closer (front cursor.now.left) }
{
    match Front::at(cursor) {
        Front::Closes(found) => found.is(closer),
        _ => false,
    }
}

/// The start of a tag, with this closing token.
#[tactic(auto, using(tera_expect::proofs::TakingLemmas::after_tokens))]
pub fn closed(cursor: &mut Cursor<'_>, closer: Closer) -> Result<(), Error>
    ensures gives { Passes result cursor.new.left (closed (closer_of closer) cursor.old.left) }
    ensures refusal { IfErr result (Refuses cursor.old cursor.new) }
    ensures later { IfOk result (λ _. Took cursor.old cursor.new) }
{
    if !closes(cursor, closer) {
        return Err(unknown_tag(cursor));
    }
    take_closer(cursor, closer)
}

/// Takes the start of a tag and this closing token, which come next.
#[tactic(auto, using(tera_expect::proofs::TakingLemmas::after_tokens))]
pub fn take_closer(cursor: &mut Cursor<'_>, closer: Closer) -> Result<(), Error>
    requires { closes closer (front cursor.old.left) ≡ true }
    ensures gives { Passes result cursor.new.left (closed (closer_of closer) cursor.old.left) }
    ensures refusal { IfErr result (Refuses cursor.old cursor.new) }
    ensures later { IfOk result (λ _. Took cursor.old cursor.new) }
{
    pass(cursor)?;
    pass(cursor)?;
    Ok(())
}

/// A tag that holds this closing token alone.
#[tactic(auto, using(tera_expect::proofs::TakingLemmas::after_tokens))]
pub fn closed_tag(cursor: &mut Cursor<'_>, closer: Closer) -> Result<(), Error>
    ensures gives { Passes result cursor.new.left (closed_tag (closer_of closer) cursor.old.left) }
    ensures refusal { IfErr result (Refuses cursor.old cursor.new) }
    ensures later { IfOk result (λ _. Took cursor.old cursor.new) }
{
    closed(cursor, closer)?;
    finish(cursor)
}

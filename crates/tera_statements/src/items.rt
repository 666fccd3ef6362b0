//! The items of bodies.

ghost use Rattle.std.specs.Prelude.{◌≡◌, IfErr, IfOk, is_none, true};
ghost use Rattle.tera_base.specs.Errors.{IsMemory};
ghost use Rattle.tera_grammar.specs.statements.Reading.{tag_of};
ghost use Rattle.tera_grammar.specs.statements.Reading.TagParts.{front};
ghost use Rattle.tera_statements.specs.Adding.{AddsBy, here, seen_of};
ghost use Rattle.tera_statements.specs.Items.{AreEmptyTexts, BeginWithoutText, EatsText, Enters, GivesNext, GivesShown, GoesByItem};
ghost use Rattle.tera_tags.specs.Kinds.{kind_of, opener_of};
ghost use Rattle.tera_statements.specs.Around.{known_at};
ghost use Rattle.tera_tags.specs.Knowing.{RefusesInKnowing, RefusesKnowing};
ghost use Rattle.tera_statements.specs.Simple.{is_free};
ghost use Rattle.tera_tags.specs.Settings.{bodies_under, limits_under};
ghost use Rattle.tera_expect.specs.Taking.{Refuses, RefusesIn, Took};
ghost use Rattle.tera_tags.specs.declared.fronts.Front.TheVariants as fronts;

use crate::added::Added;
use crate::around::Around;
use crate::blocks::{block, definition};
use crate::captures::{call, section, set, shown_node};
use crate::conditions::condition;
use crate::loops::for_loop;
use crate::simple::{Extension, Jump, extends, include, read_jump};
use tera_base::Error;
use tera_lexer::{Cursor, Token};
use tera_tags::fronts::{Front, Opener};
use tera_tags::names::Names;
use tera_tags::settings::Setting;
use tera_tags::tag_parts::{pass, tag_expression, unknown_tag, variable_end};
use tera_tree::Node;

/// Reads the next item of a body, where one is there. It is not a text: the callers take texts themselves.
#[cycle(bodies)]
#[tactic(auto, using(tera_expect::proofs::TakingLemmas::took_all, tera_tags::proofs::KnowingLemmas::items_knowing))]
pub(crate) fn item(
    setting: &Setting<'_>,
    cursor: &mut Cursor<'_>,
    names: &mut Names,
    around: &Around,
    extension: Extension<'_>,
    depth: usize,
) -> Result<Option<Added>, Error>
    requires free { is_none around.now.innermost ≡ true → is_free extension ≡ true }
    requires text { BeginWithoutText cursor.old.left }
    ensures gives { GivesNext (limits_under setting.now) depth around.now result
        (here names.new cursor.new) (here names.old cursor.old) }
    ensures refusal { IfErr result
        (RefusesInKnowing (known_at around.now names.old) cursor.old cursor.new) }
    ensures empty { IfErr result (λ _. AreEmptyTexts cursor.old.left → ⊥) }
    ensures later { GoesByItem result cursor.old cursor.new }
{
    match Front::at(cursor) {
        Front::Ends => Ok(None),
        Front::Closes(_) => Ok(None),
        Front::Shows => Ok(Some(variable_tag(setting, cursor, around)?)),
        Front::Opens(opener) => {
            enter(cursor, opener)?;
            let added = tag(setting, cursor, names, around, extension, opener, depth)?;
            Ok(Some(added))
        }
        Front::Wrong => Err(unknown_tag(cursor)),
        Front::Holds => unreachable!(),
    }
}

/// Takes the text that comes next, if one does.
#[tactic(auto, unfolding(tera_expect::specs::Taking::Took))]
pub(crate) fn eat_text<'a>(cursor: &mut Cursor<'a>) -> Option<&'a str>
    ensures { EatsText result cursor.old cursor.new }
{
    let Some(Token::Content(text)) = cursor.first() else {
        return None;
    };
    let text = *text;
    if cursor.skip() { Some(text) } else { None }
}

/// A variable tag, which comes next.
#[tactic(auto, using(tera_expect::proofs::TakingLemmas::took_all, tera_tags::proofs::RefusalLemmas::took_inside, tera_tags::proofs::RefusalLemmas::memory_inside))]
pub(crate) fn variable_tag(
    setting: &Setting<'_>,
    cursor: &mut Cursor<'_>,
    around: &Around,
) -> Result<Added, Error>
    requires { fronts.Shows ≡ kind_of (front cursor.old.left) }
    ensures gives { GivesShown (limits_under setting.now) around.now result cursor.new.left
        cursor.old.left }
    ensures refusal { IfErr result (RefusesIn cursor.old cursor.new) }
    ensures later { IfOk result (λ _. Took cursor.old cursor.new) }
{
    pass(cursor)?;
    let expr = tag_expression(setting, cursor, around.in_loop)?;
    variable_end(cursor)?;
    Ok(Added::Node(shown_node(expr)))
}

/// Takes the start of a tag and its first token, which come next.
#[tactic(auto, using(tera_expect::proofs::TakingLemmas::after_tokens))]
pub(crate) fn enter(cursor: &mut Cursor<'_>, opener: Opener) -> Result<(), Error>
    requires { fronts.Opens opener ≡ kind_of (front cursor.old.left) }
    ensures enters { IfOk result (λ _. Enters (opener_of opener) cursor.old.left cursor.new) }
    ensures memory { IfErr result IsMemory }
    ensures refusal { IfErr result (Refuses cursor.old cursor.new) }
    ensures later { IfOk result (λ _. Took cursor.old cursor.new) }
{
    pass(cursor)?;
    pass(cursor)?;
    Ok(())
}

// Reads the rest of a tag that opens a statement, after its first token.
#[cycle(bodies)]
#[tactic(auto, using(tera_tags::proofs::KnowingLemmas::knowing_err))]
fn tag(
    setting: &Setting<'_>,
    cursor: &mut Cursor<'_>,
    names: &mut Names,
    around: &Around,
    extension: Extension<'_>,
    opener: Opener,
    depth: usize,
) -> Result<Added, Error>
    requires { is_none around.now.innermost ≡ true → is_free extension ≡ true }
    ensures gives { AddsBy around.now result (here names.new cursor.new) (λ path start.
        tag_of (limits_under setting.now) (bodies_under setting.now depth) path (opener_of opener)
        start cursor.old.span (seen_of names.old) cursor.old.left) }
    ensures refusal { IfErr result
        (RefusesKnowing (known_at around.now names.old) cursor.old cursor.new) }
    ensures later { IfOk result (λ _. Took cursor.old cursor.new) }
{
    match opener {
        Opener::Set { global } => set(setting, cursor, names, around, global, depth),
        Opener::Include => include(cursor, around),
        Opener::Extends => extends(cursor, around, extension),
        Opener::Block => block(setting, cursor, names, around, depth),
        Opener::For => for_loop(setting, cursor, names, around, depth),
        Opener::If => condition(setting, cursor, names, around, depth),
        Opener::Filter => section(setting, cursor, names, around, depth),
        Opener::Component => definition(setting, cursor, names, around, depth),
        Opener::Break => read_jump(cursor, around, Jump::Break),
        Opener::Continue => read_jump(cursor, around, Jump::Continue),
        Opener::Call => call(setting, cursor, names, around, depth),
    }
}

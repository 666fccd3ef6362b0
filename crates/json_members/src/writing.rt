//! Tokens and members that are written.

ghost use Rattle.std.specs.Prelude.{map};
ghost use Rattle.std.specs.List.{AllByRecursion};
ghost use Rattle.json.specs.Print.{IsPrintable};
ghost use Rattle.json.specs.Reads.{token_of};
ghost use Rattle.json_members.specs.Members.{number_member, text_member};
ghost use Rattle.json_members.specs.Written.{Puts};

use json::{Token, Writer};
use std::alloc::AllocError;

/// Writes the tokens, one after the other.
pub fn put_tokens(out: &mut Writer, tokens: &[Token<'_>]) -> Result<(), AllocError>
    requires { AllByRecursion (λ t. IsPrintable (token_of t)) tokens.now }
    ensures { Puts result out.old out.new (map token_of tokens.now) }
{
    for token in tokens {
        out.token(*token)?;
    }
    Ok(())
}

/// Writes a member that is a text.
pub fn put_text(out: &mut Writer, name: &str, text: &str) -> Result<(), AllocError>
    ensures { Puts result out.old out.new (text_member name.now text.now) }
{
    out.key(name)?;
    out.string(text)
}

/// Writes a member that is a number.
pub fn put_number(out: &mut Writer, name: &str, number: usize) -> Result<(), AllocError>
    ensures { Puts result out.old out.new (number_member name.now number) }
{
    out.key(name)?;
    out.u64(number as u64)
}

//! Messages that are written, each with one value of the caller's.

ghost use Rattle.std.specs.Prelude.{◌≡◌, [], ◌∷◌, ◌++◌, map, IfOk, OnOk};
ghost use Rattle.std.specs.List.{AllByRecursion};
ghost use Rattle.std.specs.Str.{IsUtf8};
ghost use Rattle.json.specs.Token.{end_object};
ghost use Rattle.json.specs.Print.{print, IsPrintable};
ghost use Rattle.json.specs.Reads.{token_of};
ghost use Rattle.json_rpc.specs.Writing.{answer_begin, notification_begin, request_begin};

use crate::id::Id;
use json::{Token, Writer};
use std::alloc::{AllocError, Global};

const JSONRPC: Token<'static> = Token::Key("jsonrpc");

const VERSION: Token<'static> = Token::String("2.0");

const ID: Token<'static> = Token::Key("id");

const METHOD: Token<'static> = Token::Key("method");

const PARAMS: Token<'static> = Token::Key("params");

const RESULT: Token<'static> = Token::Key("result");

/// Begins the answer to a request. The caller writes the result, and ends the message.
pub fn begin_answer(alloc: Global, id: &Id<'_>) -> Result<Writer, AllocError>
    ensures tokens { IfOk result (λ out. out.tokens ≡ answer_begin id.now) }
    ensures before { IfOk result (λ out. out.before ≡ []) }
{
    begin(
        alloc,
        &[Token::BeginObject, JSONRPC, VERSION, ID, id.token(), RESULT],
    )
}

/// Begins a notification. The caller writes the parameters, and ends the message.
pub fn begin_notification(alloc: Global, method: &str) -> Result<Writer, AllocError>
    ensures tokens { IfOk result (λ out. out.tokens ≡ notification_begin method.now) }
    ensures before { IfOk result (λ out. out.before ≡ []) }
{
    begin(
        alloc,
        &[
            Token::BeginObject,
            JSONRPC,
            VERSION,
            METHOD,
            Token::String(method),
            PARAMS,
        ],
    )
}

/// Begins a request. The caller writes the parameters, and ends the message.
pub fn begin_request<'a>(alloc: Global, id: &Id<'a>, method: &'a str) -> Result<Writer, AllocError>
    ensures tokens { IfOk result (λ out. out.tokens ≡ request_begin id.now method.now) }
    ensures before { IfOk result (λ out. out.before ≡ []) }
{
    begin(
        alloc,
        &[
            Token::BeginObject,
            JSONRPC,
            VERSION,
            ID,
            id.token(),
            METHOD,
            Token::String(method),
            PARAMS,
        ],
    )
}

/// Ends a message, when its value was written: gives its bytes.
pub fn end_message(out: Writer) -> Result<Vec<u8>, AllocError>
    ensures bytes { IfOk result
        (λ message. message.items ≡ out.before ++ print (out.tokens ++ end_object ∷ [])) }
    ensures utf8 { OnOk result (IsUtf8 (print (out.tokens ++ end_object ∷ []))) }
{
    let mut out = out;
    out.end_object()?;
    Ok(out.into_inner())
}

// Begins a message with these tokens, in a buffer of its own.
fn begin(alloc: Global, tokens: &[Token<'_>]) -> Result<Writer, AllocError>
    requires { AllByRecursion (λ t. IsPrintable (token_of t)) tokens.now }
    ensures tokens { IfOk result (λ out. out.tokens ≡ map token_of tokens.now) }
    ensures before { IfOk result (λ out. out.before ≡ []) }
{
    let mut out = Writer::new(Vec::new(alloc));
    for token in tokens {
        out.token(*token)?;
    }
    Ok(out)
}

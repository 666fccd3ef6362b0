//! What the server can do, as it reports to a client.

ghost use Rattle.json_members.specs.Written.{PutsJson};
ghost use Rattle.tera_answers.specs.Abilities.{abilities_json, registrations_json};

use json::{Token, Writer};
use json_members::{put_number, put_tokens};
use protocol_values::encoding_name;
use std::alloc::AllocError;
use text_edits::Encoding;

/// The version of the program and of its server.
pub const VERSION: &str = "0.1.0";

/// Writes the result of `initialize`.
pub fn put_abilities(out: &mut Writer, encoding: Encoding) -> Result<(), AllocError>
    ensures { PutsJson result out.old out.new (abilities_json encoding) }
{
    // The client reports texts that are opened and closed, and changes as parts of them.
    put_tokens(
        out,
        &[
            Token::BeginObject,
            Token::Key("capabilities"),
            Token::BeginObject,
            Token::Key("positionEncoding"),
            Token::String(encoding_name(encoding)),
            Token::Key("textDocumentSync"),
            Token::BeginObject,
            Token::Key("openClose"),
            Token::Bool(true),
        ],
    )?;
    put_number(out, "change", 2)?;
    put_tokens(out, &AFTER_THE_CHANGES)
}

const AFTER_THE_CHANGES: [Token<'static>; 84] = [
    Token::EndObject,
    Token::Key("documentFormattingProvider"),
    Token::Bool(true),
    Token::Key("documentSymbolProvider"),
    Token::Bool(true),
    Token::Key("definitionProvider"),
    Token::Bool(true),
    Token::Key("hoverProvider"),
    Token::Bool(true),
    Token::Key("referencesProvider"),
    Token::Bool(true),
    Token::Key("codeActionProvider"),
    Token::BeginObject,
    Token::Key("codeActionKinds"),
    Token::BeginArray,
    Token::String("quickfix"),
    Token::EndArray,
    Token::EndObject,
    // An editor asks by itself after these characters, in addition to those of words.
    Token::Key("completionProvider"),
    Token::BeginObject,
    Token::Key("triggerCharacters"),
    Token::BeginArray,
    Token::String("<"),
    Token::String("/"),
    Token::String("."),
    Token::String(" "),
    Token::String("\""),
    Token::String("'"),
    Token::String("|"),
    Token::EndArray,
    Token::EndObject,
    Token::Key("signatureHelpProvider"),
    Token::BeginObject,
    Token::Key("triggerCharacters"),
    Token::BeginArray,
    Token::String(" "),
    Token::String("="),
    Token::EndArray,
    Token::EndObject,
    // What the numbers of kinds mean; tokens are sent for a whole text.
    Token::Key("semanticTokensProvider"),
    Token::BeginObject,
    Token::Key("legend"),
    Token::BeginObject,
    Token::Key("tokenTypes"),
    Token::BeginArray,
    Token::String("comment"),
    Token::String("keyword"),
    Token::String("string"),
    Token::String("number"),
    Token::String("operator"),
    Token::String("namespace"),
    Token::String("class"),
    Token::String("type"),
    Token::String("function"),
    Token::String("parameter"),
    Token::String("property"),
    Token::String("variable"),
    Token::EndArray,
    Token::Key("tokenModifiers"),
    Token::BeginArray,
    Token::EndArray,
    Token::EndObject,
    Token::Key("full"),
    Token::Bool(true),
    Token::EndObject,
    // Folders may be opened and closed.
    Token::Key("workspace"),
    Token::BeginObject,
    Token::Key("workspaceFolders"),
    Token::BeginObject,
    Token::Key("supported"),
    Token::Bool(true),
    Token::Key("changeNotifications"),
    Token::Bool(true),
    Token::EndObject,
    Token::EndObject,
    Token::EndObject,
    Token::Key("serverInfo"),
    Token::BeginObject,
    Token::Key("name"),
    Token::String("tera"),
    Token::Key("version"),
    Token::String(VERSION),
    Token::EndObject,
    Token::EndObject,
];

/// Writes the parameters by which a client is asked to watch files and folders.
pub fn put_registrations(out: &mut Writer) -> Result<(), AllocError>
    ensures { PutsJson result out.old out.new registrations_json }
{
    put_tokens(out, &REGISTRATIONS)
}

// For all files: settings say how the names of templates end, and a folder may change too.
const REGISTRATIONS: [Token<'static>; 21] = [
    Token::BeginObject,
    Token::Key("registrations"),
    Token::BeginArray,
    Token::BeginObject,
    Token::Key("id"),
    Token::String("watch"),
    Token::Key("method"),
    Token::String("workspace/didChangeWatchedFiles"),
    Token::Key("registerOptions"),
    Token::BeginObject,
    Token::Key("watchers"),
    Token::BeginArray,
    Token::BeginObject,
    Token::Key("globPattern"),
    Token::String("**/*"),
    Token::EndObject,
    Token::EndArray,
    Token::EndObject,
    Token::EndObject,
    Token::EndArray,
    Token::EndObject,
];

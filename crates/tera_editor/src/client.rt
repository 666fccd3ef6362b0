//! What a client reports about itself.

ghost use Rattle.std.specs.Prelude.{◌≡◌};
ghost use Rattle.protocol_values.specs.Members.{seen};
ghost use Rattle.tera_editor.specs.Clients.{client_in, labels_in, offered_in, related_in, watches_in};

use json::Value;
use protocol_values::{encoding_of, is_set, member};
use text_edits::Encoding;

/// What the client of a server can do.
#[derive(Clone, Copy)]
pub struct Client {
    /// What positions are counted in.
    pub encoding: Encoding,
    /// Whether it shows the notes of a finding.
    pub related: bool,
    /// Whether it can be asked to watch files.
    pub watches: bool,
    /// Whether it accepts the place of a parameter in a head, and not only its name.
    pub labels: bool,
}

impl Client {
    /// A client of which nothing is known.
    pub const UNKNOWN: Client = Client {
        encoding: Encoding::Utf16,
        related: false,
        watches: false,
        labels: false,
    };

    /// The client by the parameters of `initialize`.
    pub fn of(params: Option<&Value<'_>>) -> Client
        ensures { result ≡ client_in (seen params.entry) }
    {
        let capabilities = member(params, "capabilities");
        Client {
            encoding: encoding_of(offered(capabilities)),
            related: is_set(related(capabilities)),
            watches: is_set(watches(capabilities)),
            labels: is_set(labels(capabilities)),
        }
    }
}

fn offered<'m, 'a>(capabilities: Option<&'m Value<'a>>) -> Option<&'m Value<'a>>
    ensures { seen result ≡ offered_in (seen capabilities.entry) }
{
    member(member(capabilities, "general"), "positionEncodings")
}

fn related<'m, 'a>(capabilities: Option<&'m Value<'a>>) -> Option<&'m Value<'a>>
    ensures { seen result ≡ related_in (seen capabilities.entry) }
{
    let document = member(capabilities, "textDocument");
    member(member(document, "publishDiagnostics"), "relatedInformation")
}

fn watches<'m, 'a>(capabilities: Option<&'m Value<'a>>) -> Option<&'m Value<'a>>
    ensures { seen result ≡ watches_in (seen capabilities.entry) }
{
    let workspace = member(capabilities, "workspace");
    let files = member(workspace, "didChangeWatchedFiles");
    member(files, "dynamicRegistration")
}

fn labels<'m, 'a>(capabilities: Option<&'m Value<'a>>) -> Option<&'m Value<'a>>
    ensures { seen result ≡ labels_in (seen capabilities.entry) }
{
    let help = member(member(capabilities, "textDocument"), "signatureHelp");
    let parameter = member(member(help, "signatureInformation"), "parameterInformation");
    member(parameter, "labelOffsetSupport")
}

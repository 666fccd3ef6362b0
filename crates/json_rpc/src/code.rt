//! Codes of errors.

ghost use Rattle.std.specs.Prelude.{◌≡◌};
ghost use Rattle.json_rpc.specs.Codes.{code_number, code_text};

use std::alloc::AllocError;

/// Why a request has no result.
#[derive(Clone, Copy, Debug, PartialEq, Eq)]
pub enum Code {
    /// -32700: no UTF-8, no JSON, or nested too deep.
    ParseError,
    /// -32600: no request, or one that is not allowed now.
    InvalidRequest,
    /// -32601
    MethodNotFound,
    /// -32602
    InvalidParams,
    /// -32603: an allocation failed for it.
    InternalError,
    /// -32002: a request before the server was initialized.
    ServerNotInitialized,
    /// -32803: the request is as it should be, and cannot be answered now.
    RequestFailed,
}

impl Code {
    /// The number that is written, in decimal digits.
    pub fn number(self) -> &'static str
        ensures { result.now ≡ code_number self }
    {
        match self {
            Code::ParseError => "-32700",
            Code::InvalidRequest => "-32600",
            Code::MethodNotFound => "-32601",
            Code::InvalidParams => "-32602",
            Code::InternalError => "-32603",
            Code::ServerNotInitialized => "-32002",
            Code::RequestFailed => "-32803",
        }
    }

    /// The message that is written.
    pub fn text(self) -> &'static str
        ensures { result.now ≡ code_text self }
    {
        match self {
            Code::ParseError => "the message is no JSON",
            Code::InvalidRequest => "the message is no request that is allowed here",
            Code::MethodNotFound => "the method is not known",
            Code::InvalidParams => "the parameters are not those of the method",
            Code::InternalError => "out of memory",
            Code::ServerNotInitialized => "the server is not initialized",
            Code::RequestFailed => "the request cannot be answered now",
        }
    }
}

impl From<AllocError> for Code {
    ghost use Rattle.std.specs.Prelude.{◌≡◌};
    ghost use Rattle.json_rpc.specs.declared.code.Code.TheVariants.{InternalError};

    ghost from_gives = { λ _ code. code ≡ InternalError };

    fn from(_refused: AllocError) -> Code {
        Code::InternalError
    }
}

//! What the bytes and the tokens of a template say by themselves, for an editor: a layout as edits, the tokens, the
//! outline, the names of components and templates, what may be typed at a place, and the kind of each token for its
//! colour.
//!
//! It takes a text, with a fault or without one, and needs no tree. It depends on `tera_lexer`, and for the layout on
//! `tera_layout`.
//!
//! In the order of reading: specs `Edits`; `edits`, a layout as edits of white space; specs `Pieces`; `pieces`, the
//! tokens with their bytes; specs `Dotted` and `Symbols`; `symbols`, the outline; specs `Names`; `names`, what is
//! called, defined, extended and included; specs `Heads`; `heads`, what the definition of a component begins with;
//! specs `Completions`; `completions`, what may be typed; specs `Bound`; `bound`, the variables that are bound; specs
//! `Calls`; `calls`, the call at a place; specs `Signatures`; `signatures`, heads with their parameters; specs
//! `SemanticTokens`; `semantic_tokens`, what is coloured; `dotted`, which reads names with dots; `laws`.
#![tactic(auto)]

mod bound;
mod calls;
mod completions;
mod dotted;
mod edits;
mod heads;
pub mod laws;
mod names;
mod pieces;
mod semantic_tokens;
mod signatures;
mod symbols;

pub use bound::bound_of;
pub use calls::{InCall, call_at};
pub use completions::{Completion, CompletionKind, completion_for};
pub use edits::{Edit, edits_of};
pub use heads::head_of;
pub use names::{Name, NameKind, names_of, under};
pub use pieces::{Piece, pieces_of};
pub use semantic_tokens::{SemanticKind, SemanticToken, semantic_tokens_of};
pub use signatures::{Parameter, Signature, signature_of};
pub use symbols::{Symbol, SymbolKind, symbols_of};

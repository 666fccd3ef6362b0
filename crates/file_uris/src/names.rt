//! The names of documents.

ghost use Rattle.std.specs.Prelude.{◌≡◌, ◌++◌, true, ℕ, List, string_bytes, IfOk, MatchOption};
ghost use Rattle.file_uris.specs.Decoding.{decoded};
ghost use Rattle.file_uris.specs.Names.{uri_of, is_rooted, IsHere, IsOfFile, IsNameOf};

use crate::decoding::{decoded_of, single_slashed_of};
use crate::encoding::push_path;
use std::alloc::{AllocError, Global};

const SCHEME: &str = "file://";

// The host that stands for none.
const HERE: &str = "localhost";

/// The name of a document by its URI: what is after `file://`, or `file://localhost`, decoded, where that begins with a slash,
/// with one slash in the place of several; and else the URI itself.
pub fn name_of(alloc: Global, uri: &str) -> Result<String, AllocError>
    ensures { IfOk result (λ name. IsNameOf uri.now (string_bytes name)) }
{
    match path_of(alloc, uri)? {
        Some(path) => Ok(path),
        None => String::from_str(alloc, uri),
    }
}

// The path of the file whose URI this is.
fn path_of(alloc: Global, uri: &str) -> Result<Option<String>, AllocError>
    ensures { IfOk result (λ path. MatchOption path ((other : List ℕ) → ¬ (IsOfFile uri.now other))
        (λ path. IsOfFile uri.now (string_bytes path))) }
{
    let Some(rest) = uri.strip_prefix(SCHEME) else {
        return Ok(None);
    };
    let decoded = decoded_of(alloc, without_host(rest))?;
    if !begins_at_root(decoded.as_slice()) {
        return Ok(None);
    }
    match String::from_utf8(single_slashed_of(alloc, decoded.as_slice())?) {
        Ok(path) => Ok(Some(path)),
        Err(_) => Ok(None),
    }
}

// What is after the host that stands for none.
fn without_host(rest: &str) -> &str
    ensures split { (host : List ℕ) × IsHere host × (rest.now ≡ host ++ result.now) }
    ensures only { (host other : List ℕ) → IsHere host → rest.now ≡ host ++ other →
        is_rooted (decoded other) ≡ true → other ≡ result.now }
{
    match rest.strip_prefix(HERE) {
        Some(path) => path,
        None => rest,
    }
}

fn begins_at_root(path: &[u8]) -> bool
    ensures { result ≡ is_rooted path.now }
{
    !path.is_empty() && path[0] == b'/'
}

/// The URI of the name.
pub fn uri_of(alloc: Global, name: &str) -> Result<String, AllocError>
    ensures { IfOk result (λ uri. string_bytes uri ≡ uri_of name.now) }
{
    if !is_rooted(name) {
        return String::from_str(alloc, name);
    }
    let mut uri = String::from_str(alloc, SCHEME)?;
    push_path(&mut uri, name)?;
    Ok(uri)
}

fn is_rooted(path: &str) -> bool
    ensures { result ≡ is_rooted path.now }
{
    path.starts_with('/')
}

//! Laws of names: each function has the law as its promise and does nothing.

ghost use Rattle.std.specs.Prelude.{◌≡◌, ◌≢◌, ◌++◌, ℕ, ◌<◌, List, true, codes};
ghost use Rattle.std.specs.List.{AllByRecursion};
ghost use Rattle.std.specs.Str.{IsUtf8};
ghost use Rattle.file_uris.specs.Decoding.{decoded, single_slashed};
ghost use Rattle.file_uris.specs.Encoding.{encoded_path, reference};
ghost use Rattle.file_uris.specs.Names.{scheme, uri_of, is_rooted, IsOfFile, IsNameOf};

/// An encoded path stands for the path.
pub fn decodes()
    ensures { (path : List ℕ) → AllByRecursion (λ b. b < 256) path →
        decoded (encoded_path path) ≡ path }
{}

/// A reference to a file begins with no host.
pub fn no_host()
    ensures { (path rest : List ℕ) → reference path ≢ codes "//" ++ rest }
{}

/// A reference leads to the path with one slash in the place of several.
pub fn leads_to()
    ensures { (path : List ℕ) → AllByRecursion (λ b. b < 256) path →
        decoded (reference path) ≡ single_slashed path }
{}

/// The URI of a path is read back as that path with one slash in the place of several in a row, and as no other name.
pub fn read_back()
    ensures { (path name : List ℕ) → AllByRecursion (λ b. b < 256) path → IsUtf8 (single_slashed path) →
        is_rooted path ≡ true → IsNameOf (uri_of path) name → name ≡ single_slashed path }
{}

/// `file://localhost/a` is the URI of the same file as `file:///a`.
pub fn one_host()
    ensures { (rest path : List ℕ) → is_rooted (decoded rest) ≡ true →
        IsOfFile (scheme ++ (codes "localhost" ++ rest)) path → IsOfFile (scheme ++ rest) path }
{}

/// A URI gives one name.
pub fn one_name()
    ensures { (uri name other : List ℕ) → IsNameOf uri name → IsNameOf uri other → name ≡ other }
{}

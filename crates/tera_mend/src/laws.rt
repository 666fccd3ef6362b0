//! What edits leave as it was: each function has the law as its promise.

ghost use Rattle.std.specs.Prelude.{◌≡◌, ◌+◌, ◌<◌, ◌++◌, ℕ, List, length};
ghost use Rattle.tera_grammar.specs.Limits.{Limits};
ghost use Rattle.tera_lexer.specs.grammar.Marks.{Marks};
ghost use Rattle.tera_lexer.specs.grammar.Place.{place_after};
ghost use Rattle.tera_mend.specs.Mending.{EditVal, Edits, Mends, Step};
ghost use Rattle.tera_mend.specs.Places.{AreInPlace, Keeps};
ghost use Rattle.tera_mend.specs.Spans.{HasPart, MeetsNoStep, MeetsNone};

/// After bytes that are in the place of others is the same place as after those: the same line, column and byte.
pub fn places_stay()
    ensures { (old new : List ℕ) → AreInPlace old new → place_after old ≡ place_after new }
{}

/// Each byte of a source has one in its place in the text to which its faults led, so by [`places_stay`] what comes
/// after it has its place. What is after these bytes was written after the end of the text.
pub fn source_stays()
    ensures { (l : Limits) (m : Marks) (source : List ℕ) (steps : List Step) (text : List ℕ) →
        Mends l m source steps text → Keeps source text }
{}

/// A part of the text that is read in the end, as the span of a node of the tree, is a part of the source, with the same
/// text and the same span, where it has a byte and meets no edit: none for a fault, and none of those that are made
/// where the faults are cut short.
pub fn spans_stay()
    ensures { (l : Limits) (m : Marks) (source : List ℕ) (steps : List Step) (reached : List ℕ)
        (rest : List EditVal) (text : List ℕ) →
        Mends l m source steps reached → Edits rest reached text →
        (front part after : List ℕ) → text ≡ front ++ (part ++ after) → 0 < length part →
        MeetsNoStep (length front) (length front + length part) steps →
        MeetsNone (length front) (length front + length part) rest →
        HasPart source front part }
{}

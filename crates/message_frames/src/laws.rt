//! Laws of frames: each function has the law as its promise and does nothing.

ghost use Rattle.std.specs.Prelude.{◌≡◌, ℕ, ◌<◌, ◌^◌, List, [], length, map};
ghost use Rattle.std.specs.List.{AllByRecursion, flat_map};
ghost use Rattle.message_frames.specs.Stream.{Item, Whole, Splits};
ghost use Rattle.message_frames.specs.Writing.{frame};

/// A stream is split in one way.
pub fn one_split()
    ensures { (stream : List ℕ) (items others : List Item) (rest end : List ℕ) →
        Splits stream items rest → Splits stream others end → (items ≡ others) × (rest ≡ end) }
{}

/// Messages that are written one after the other are read back as these messages.
pub fn read_back()
    ensures { (messages : List (List ℕ)) → AllByRecursion (λ message. length message < 2 ^ 64) messages →
        Splits (flat_map frame messages) (map Whole messages) [] }
{}

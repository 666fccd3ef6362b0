//! Lanes of bytes that are looked at together.

ghost use Rattle.std.specs.Prelude.{◌≡◌};
ghost use Rattle.tera_base.specs.Lanes.{first_set};

/// The place of the lowest bit that is set in a mask of so many lanes, from 0, or `lanes` where none is.
#[inline(always)]
pub fn first_set(mask: u64, lanes: usize) -> usize
    ensures { result ≡ first_set lanes mask }
{
    if mask == 0 {
        lanes
    } else {
        mask.trailing_zeros() as usize
    }
}

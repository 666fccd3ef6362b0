//! Numbers that are drawn from a seed.

ghost use Rattle.std.specs.Prelude.{◌<◌};

/// Numbers by SplitMix64: each seed has its own, and the same at each run.
#[derive(Clone, Copy)]
pub(crate) struct Draws {
    state: u64,
}

impl Draws {
    /// The numbers of the seed.
    pub(crate) fn new(seed: u64) -> Draws {
        Draws { state: seed }
    }

    /// The next number.
    pub(crate) fn next(&mut self) -> u64 {
        self.state = self.state.wrapping_add(0x9E37_79B9_7F4A_7C15);
        let state = self.state;
        let state = (state ^ (state >> 30)).wrapping_mul(0xBF58_476D_1CE4_E5B9);
        let state = (state ^ (state >> 27)).wrapping_mul(0x94D0_49BB_1331_11EB);
        state ^ (state >> 31)
    }

    /// The next number, below this one.
    pub(crate) fn below(&mut self, bound: u64) -> u64
        requires { 0 < bound }
        ensures { result < bound }
    {
        self.next() % bound
    }

    /// One of the words.
    pub(crate) fn one_of(&mut self, words: &[&'static str]) -> &'static str {
        let at = match self.next().checked_rem(words.len() as u64) {
            Some(at) => at,
            None => 0,
        };
        match words.get(at as usize) {
            Some(word) => word,
            None => "",
        }
    }
}

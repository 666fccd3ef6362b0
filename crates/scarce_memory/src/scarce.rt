//! Taking memory until none is left, so that allocations fail.

use std::alloc::{AllocError, Global};

/// All the memory that the process can get.
#[derive(Drop)]
pub struct Scarce {
    alloc: Global,
    rooms: Vec<Vec<u8>>,
    held: Vec<Vec<u8>>,
}

impl Scarce {
    // Bytes of one room, below the size from which the C library maps a block of its own.
    const ROOM: usize = 32768;

    /// Takes two rooms for each run, and then whatever else there is.
    pub fn new(alloc: Global, runs: u16) -> Result<Scarce, AllocError> {
        let mut rooms = Vec::new(alloc);
        for _ in 0..runs {
            rooms.push(Vec::with_capacity(alloc, Self::ROOM)?)?;
            rooms.push(Vec::with_capacity(alloc, Self::ROOM)?)?;
        }
        let held = Vec::with_capacity(alloc, 1 << 20)?;
        let mut scarce = Scarce { alloc, rooms, held };
        scarce.take_all();
        Ok(scarce)
    }

    /// Gives one room back, for what is beside the call.
    pub fn give_room(&mut self) {
        let _ = self.rooms.pop();
    }

    /// Leaves one free piece, of about this many bytes.
    pub fn leave(&mut self, bytes: usize) {
        self.take_all();
        self.give_room();
        self.take(Self::ROOM.saturating_sub(bytes));
    }

    fn take(&mut self, bytes: usize) -> bool {
        let Ok(piece) = Vec::with_capacity(self.alloc, bytes) else {
            return false;
        };
        self.held.push(piece).is_ok()
    }

    fn take_each(&mut self, bytes: usize) {
        for _ in 0..1000000 {
            if !self.take(bytes) {
                return;
            }
        }
    }

    // From the largest pieces down to the smallest.
    fn take_all(&mut self) {
        let mut bytes = 1usize << 46;
        for _ in 0..36 {
            self.take_each(bytes);
            bytes /= 2;
        }
        let mut small = 2040usize;
        for _ in 0..127 {
            self.take_each(small);
            small = small.saturating_sub(16);
        }
    }
}

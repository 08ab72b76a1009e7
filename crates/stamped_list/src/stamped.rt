ghost use Rattle.std.specs.Prelude.{◌≡◌, ◌<◌, ◌≤◌, ◌+◌, ℕ, List, Some, length, map, slice_get, slice_set, replicate, IfOk};
ghost use Rattle.stamped_list.specs.Stamps.{number_above, IsTop};

use std::alloc::{AllocError, Global};
use std::marker::Model;

/// A list of numbers of a fixed length. They are seen as a list; a new one has zeros alone.
#[derive(Drop)]
pub struct StampedList {
    // A number stands as its sum with `base`. An entry that is not above `base` is read as 0.
    entries: Vec<u32>,
    base: u32,
    // At least `base`, and no entry is greater.
    top: u32,
}

impl Model for StampedList {
    ghost Value = { List ℕ };

    ghost view = { λ s. map (number_above s.base) s.entries.items };

    ghost invariant = { λ s. IsTop s.top s.base s.entries.items };
}

impl StampedList {
    /// So many zeros.
    pub fn new(alloc: Global, count: usize) -> Result<StampedList, AllocError>
        ensures { IfOk result (λ s. s ≡ replicate count 0) }
    {
        Ok(StampedList {
            entries: vec![in alloc; 0; count]?,
            base: 0,
            top: 0,
        })
    }

    /// How many numbers there are.
    pub fn len(&self) -> usize
        ensures { result ≡ length self.now }
    {
        self.entries.len()
    }

    /// The number at a place.
    #[inline(always)]
    pub fn get(&self, place: usize) -> u32
        requires { place < length self.now }
        ensures { slice_get self.now place ≡ Some result }
    {
        self.entries[place].saturating_sub(self.base)
    }

    /// Writes the number at a place. It takes the same time for a list of any length, but the whole list is written over
    /// each time that clearings, each of at most twice the greatest number so far, have added up to 2 ^ 32.
    #[inline(always)]
    pub fn set(&mut self, place: usize, value: u32)
        requires { place < length self.old }
        ensures { self.new ≡ slice_set self.old place value }
    {
        if value > self.top - self.base {
            let room = room_for(self.entries.as_mut_slice(), self.base, self.top, value);
            self.base = room.base;
            self.top = room.top;
        }
        self.entries[place] = self.base + value;
    }

    /// All numbers are 0. It takes the same time for a list of any length.
    pub fn clear(&mut self)
        ensures { self.new ≡ replicate (length self.old) 0 }
    {
        // The numbers to come are likely to be no greater.
        let room = self.top - self.base;
        self.base = self.top;
        self.top = self.top.saturating_add(room);
    }
}

// A base, and a top that leaves room for a number above it.
#[derive(Clone, Copy)]
struct Room {
    base: u32,
    top: u32,
}

// Room for a number that has none, and for one twice as great where that is possible: then the numbers that follow seldom need
// more. Where their sum with the base is too great, the base goes back to 0, and each entry to its number.
#[cold]
#[inline(never)]
fn room_for(entries: &mut [u32], base: u32, top: u32, value: u32) -> Room
    requires top { IsTop top base entries.old }
    requires none { top < base + value }
    ensures same { map (number_above result.base) entries.new ≡ map (number_above base) entries.old }
    ensures top { IsTop result.top result.base entries.new }
    ensures room { result.base + value ≤ result.top }
{
    let room = value.saturating_mul(2);
    if value > u32::MAX - base {
        subtract_from_all(entries, base);
        return Room { base: 0, top: room };
    }
    Room {
        base,
        top: base.saturating_add(room),
    }
}

// Makes each entry the number that it is above the base.
fn subtract_from_all(entries: &mut [u32], base: u32)
    ensures { entries.new ≡ map (number_above base) entries.old }
{
    for entry in entries.iter_mut() {
        *entry = entry.saturating_sub(base);
    }
}

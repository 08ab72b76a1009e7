ghost use Rattle.std.specs.Prelude.{◌≡◌, ℕ, ◌<◌, ◌≤◌, Some, None, [], ◌∷◌, ◌++◌, IfSome, IfNone, OnOk, OnErr, length, slice_get, slice_set};
ghost use Rattle.std.specs.Bool.{OnTrue, OnFalse};

use std::alloc::AllocError;

// For how many ids a bucket keeps room once it is cleared: else each one would keep that of its fullest time. With more,
// searches are no faster.
const KEPT: usize = 256;

// The place of an id in the bucket of that number.
#[derive(Clone, Copy)]
pub(crate) struct Spot {
    pub(crate) key: usize,
    pub(crate) place: usize,
}

// The key of each id that is queued, and ids by their keys, in no order. An id whose key has changed stays in its old
// bucket until it comes up there, and is passed then.
#[derive(Drop)]
pub(crate) struct Buckets {
    pub(crate) by_key: Vec<Vec<u32>>,
    pub(crate) keys: Vec<Option<u32>>,
}

impl Buckets {
    ghost use Rattle.bucket_queue.specs.Held.{IsHeld, IsLast, IsFirst, HasNone};
    ghost use Rattle.bucket_queue.specs.Queue.{HasKey};

    // Gives an id that key, whether it has one or not.
    #[inline(always)]
    pub(crate) fn put(&mut self, id: usize, key: u32) -> Result<(), AllocError>
        requires held { IsHeld self.old }
        requires known { id < length self.old.keys.items }
        requires bound { key < length self.old.by_key.items }
        ensures held { IsHeld self.new }
        ensures count { length self.new.by_key.items ≡ length self.old.by_key.items }
        ensures ok { OnOk result (self.new.keys.items ≡ slice_set self.old.keys.items id (Some key)) }
        ensures err { OnErr result (self.new.keys.items ≡ self.old.keys.items) }
    {
        self.by_key[key as usize].push(id as u32)?;
        self.keys[id] = Some(key);
        Ok(())
    }

    // Adds the next id, with that key.
    #[inline(always)]
    pub(crate) fn add_at(&mut self, key: u32) -> Result<(), AllocError>
        requires held { IsHeld self.old }
        requires bound { key < length self.old.by_key.items }
        ensures held { IsHeld self.new }
        ensures count { length self.new.by_key.items ≡ length self.old.by_key.items }
        ensures ok { OnOk result (self.new.keys.items ≡ self.old.keys.items ++ Some key ∷ []) }
        ensures err { OnErr result (self.new.keys.items ≡ self.old.keys.items) }
    {
        let next = self.keys.len();
        // The buckets have numbers of 32 bits.
        if next >= u32::MAX as usize {
            return Err(AllocError);
        }
        // Where there is no room for its key, the number is left in the bucket, and is passed there.
        self.by_key[key as usize].push(next as u32)?;
        self.keys.push(Some(key))?;
        Ok(())
    }

    // Whether the id has that key.
    #[inline(always)]
    fn has_key(&self, id: u32, key: usize) -> bool
        ensures yes { OnTrue result (HasKey self.now.keys.items id key) }
        ensures no { OnFalse result (HasKey self.now.keys.items id key → ⊥) }
    {
        let id = id as usize;
        if id >= self.keys.len() {
            return false;
        }
        match self.keys[id] {
            Some(known) => known as usize == key,
            None => false,
        }
    }

    // The last place in the bucket of an id that has its key.
    #[inline(always)]
    fn last_place(&self, key: usize) -> Option<usize>
        requires held { IsHeld self.now }
        requires bound { key < length self.now.by_key.items }
        ensures some { IfSome result (IsLast self.now key) }
        ensures none { IfNone result (HasNone self.now.keys.items key) }
    {
        let bucket = &self.by_key[key];
        let count = bucket.len();
        for back in 0..count {
            let place = count - 1 - back;
            if self.has_key(bucket[place], key) {
                return Some(place);
            }
        }
        None
    }

    // The last spot of the first key from `from` up to `end` that an id has.
    #[inline(always)]
    pub(crate) fn first_spot(&self, from: usize, end: usize) -> Option<Spot>
        requires held { IsHeld self.now }
        requires within { end ≤ length self.now.by_key.items }
        ensures some { IfSome result (IsFirst self.now from end) }
        ensures none { IfNone result ((k : ℕ) → from ≤ k → k < end → HasNone self.now.keys.items k) }
    {
        for key in from..end {
            if let Some(place) = self.last_place(key) {
                return Some(Spot { key, place });
            }
        }
        None
    }

    // Takes the id of a spot, where none after it in its bucket has that key.
    #[inline(always)]
    pub(crate) fn take_out(&mut self, spot: Spot) -> usize
        requires held { IsHeld self.old }
        requires last { IsLast self.old spot.key spot.place }
        ensures held { IsHeld self.new }
        ensures count { length self.new.by_key.items ≡ length self.old.by_key.items }
        ensures queued { HasKey self.old.keys.items result spot.key }
        ensures keys { self.new.keys.items ≡ slice_set self.old.keys.items result None }
    {
        let id = self.by_key[spot.key][spot.place] as usize;
        self.by_key[spot.key].truncate(spot.place);
        self.keys[id] = None;
        id
    }

    // Forgets all ids. No bucket from `end` on was used.
    pub(crate) fn clear(&mut self, end: usize)
        requires { end ≤ length self.old.by_key.items }
        ensures count { length self.new.by_key.items ≡ length self.old.by_key.items }
        ensures none { self.new.keys.items ≡ [] }
    {
        for key in 0..end {
            self.by_key[key].clear();
            self.by_key[key].shrink_to(KEPT);
        }
        self.keys.clear();
    }
}

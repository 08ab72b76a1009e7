ghost use Rattle.std.specs.Prelude.{◌≡◌, ℕ, ◌<◌, ◌≤◌, Some, None, [], ◌∷◌, ◌++◌, length, slice_get, slice_set, IfOk, IfSome, IfNone, OnOk, OnErr};

use crate::buckets::Buckets;
use std::alloc::{AllocError, Global};
use std::marker::Model;

/// A queue of ids by keys from 0 to a bound, for keys that never fall below the one taken last.
#[derive(Drop)]
pub struct BucketQueue {
    buckets: Buckets,
    // The least key that an id may have.
    floor: usize,
    // Above each bucket that was used since the ids were last cleared.
    end: usize,
}

impl Model for BucketQueue {
    ghost use Rattle.std.specs.Prelude.{◌-◌, length};
    ghost use Rattle.bucket_queue.specs.Queue.{Queue};

    ghost Value = { Queue };

    ghost use Rattle.bucket_queue.specs.Held.{IsQueue};

    ghost view = { λ q. record { keys = q.buckets.keys.items; floor = q.floor; bound = length q.buckets.by_key.items - 1 } };

    ghost invariant = { λ q. IsQueue q.buckets q.floor q.end };
}

impl BucketQueue {
    ghost use Rattle.bucket_queue.specs.Queue.{HasKey, TakesLeast, TakesNone};

    /// A queue for keys up to `bound`, with no ids yet. It has one bucket for each key.
    pub fn new(alloc: Global, bound: u32) -> Result<BucketQueue, AllocError>
        ensures { IfOk result (λ q. q ≡ record { keys = []; floor = 0; bound = bound }) }
    {
        let count = bound as usize + 1;
        let mut by_key = Vec::with_capacity(alloc, count)?;
        for _ in 0..count {
            by_key.push(Vec::new(alloc))?;
        }
        Ok(BucketQueue {
            buckets: Buckets {
                by_key,
                keys: Vec::new(alloc),
            },
            floor: 0,
            end: 0,
        })
    }

    /// One id more, the next number. It isn't queued.
    pub fn add(&mut self) -> Result<(), AllocError>
        ensures ok { OnOk result (self.new ≡ record self.old { keys = self.old.keys ++ None ∷ [] }) }
        ensures err { OnErr result (self.new ≡ self.old) }
    {
        // The buckets have numbers of 32 bits.
        if self.buckets.keys.len() >= u32::MAX as usize {
            return Err(AllocError);
        }
        self.buckets.keys.push(None)?;
        Ok(())
    }

    /// One id more, the next number, queued with that key: what `add` and then `put` come to.
    #[inline(always)]
    pub fn add_at(&mut self, key: u32) -> Result<(), AllocError>
        requires low { self.old.floor ≤ key }
        requires high { key ≤ self.old.bound }
        ensures ok { OnOk result (self.new ≡ record self.old { keys = self.old.keys ++ Some key ∷ [] }) }
        ensures err { OnErr result (self.new ≡ self.old) }
    {
        // First, so that the bucket is cleared even where no key was added.
        self.end = self.end.max(key as usize + 1);
        self.buckets.add_at(key)?;
        Ok(())
    }

    /// The key of an id, or none where it isn't queued.
    pub fn key_of(&self, id: usize) -> Option<u32>
        requires { id < length self.now.keys }
        ensures value { slice_get self.now.keys id ≡ Some result }
        ensures range { IfSome result (λ key. (self.now.floor ≤ key) × (key ≤ self.now.bound)) }
    {
        self.buckets.keys[id]
    }

    /// The least key that an id may have: the one taken last.
    pub fn floor(&self) -> usize
        ensures value { result ≡ self.now.floor }
        ensures within { result ≤ self.now.bound }
    {
        self.floor
    }

    /// Ids in no order, among which are all that are queued with the floor for their key. Others may be among them: those
    /// that had this key, and numbers that are no ids.
    #[inline(always)]
    pub fn at_floor(&self) -> &[u32]
        ensures all { (id : ℕ) → HasKey self.now.keys id self.now.floor → (place : ℕ) × (slice_get result.now place ≡ Some id) }
    {
        self.buckets.by_key[self.floor].as_slice()
    }

    /// Queues an id with that key, or moves it there from the key that it has.
    #[inline(always)]
    pub fn put(&mut self, id: usize, key: u32) -> Result<(), AllocError>
        requires known { id < length self.old.keys }
        requires low { self.old.floor ≤ key }
        requires high { key ≤ self.old.bound }
        ensures ok { OnOk result (self.new ≡ record self.old { keys = slice_set self.old.keys id (Some key) }) }
        ensures err { OnErr result (self.new ≡ self.old) }
    {
        self.buckets.put(id, key)?;
        self.end = self.end.max(key as usize + 1);
        Ok(())
    }

    /// Takes an id of the least key, or none where that key is above the limit. Of several it takes any one.
    /// It allocates nothing.
    pub fn take(&mut self, limit: u32) -> Option<usize>
        ensures some { IfSome result (λ id. TakesLeast self.old self.new limit id) }
        ensures none { IfNone result (TakesNone self.old self.new limit) }
    {
        let end = self.end.min(limit as usize + 1);
        let spot = self.buckets.first_spot(self.floor, end)?;
        let id = self.buckets.take_out(spot);
        self.floor = spot.key;
        Some(id)
    }

    /// No ids any more, and the floor is 0 again. It passes the buckets up to the greatest key that was used since the last
    /// clearing, and keeps a little of their room.
    pub fn clear(&mut self)
        ensures { self.new ≡ record self.old { keys = []; floor = 0 } }
    {
        self.buckets.clear(self.end);
        self.floor = 0;
        self.end = 0;
    }
}

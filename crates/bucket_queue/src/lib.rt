// A monotone bucket queue: ids, numbered from 0, each with a key or none, taken in rising order of their keys.
// The contract, over the key of each id (`Queue`): `put` sets a key, also of an id that has one, `add_at` adds an id with one, and `take` gives an id of the least key
// and takes that key away, and `clear` forgets all ids. No key is below the floor, the key taken last, so the takes of all ids together pass an empty bucket once.
// `queue` has the queue, `buckets` the key of each id, and the ids by their keys.
#![tactic(auto)]

mod buckets;
mod queue;
#[cfg(test)]
mod tests;

pub use queue::BucketQueue;

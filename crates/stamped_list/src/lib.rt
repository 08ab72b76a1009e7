// A list of numbers that is set to zeros in constant time.
// The contract, over the list of the numbers: `set` writes one of them, and `clear` makes all of them 0.
// A number is stamped by a base: it stands as the sum of both, in 4 bytes. A clearing raises the base to the greatest
// sum, and what isn't above the base is read as 0.
#![tactic(auto)]

mod stamped;
#[cfg(test)]
mod tests;

pub use stamped::StampedList;

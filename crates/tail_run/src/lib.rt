// The rest of a run: the orders that several workers left are answered on one thread, in a book that goes on from the live
// routes of the answers.
//
// Its one contract: `finish` answers each order that was left, once, and all answers together are a journal (`IsFinished`).
// `leaving` has what the answers leave live, `ids` the routes that orders were given, `lane` the rest of one lane,
// `finishing` the whole.
#![tactic(auto)]

mod finishing;
mod ids;
mod lane;
mod leaving;
#[cfg(test)]
mod tests;

pub use finishing::finish;

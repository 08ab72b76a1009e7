// A book that several callers share, one at a time: a plain book behind one turn word.
// Its one contract: it is a `SharedBook`. A call takes the turn by a single exchange or is refused, nobody waits, and
// when a call returns its caller doesn't have the turn.
// Modules: `rule` (what holds of the turn word, the book in its slot and what each seat knows), `steps` (taking and
// giving the turn, notes, joining), `opening` (a book and its passes), `pass` (what a caller keeps), `calls` (planning
// and cancelling in one's turn), `shared` (the trait).
#![tactic(auto)]

mod calls;
mod opening;
mod pass;
mod rule;
mod shared;
mod steps;
#[cfg(test)]
mod tests;

pub use pass::{Turn, TurnJoined, TurnNote, TurnPass};
pub use rule::{Known, Layout, View};
pub use steps::TurnBook;

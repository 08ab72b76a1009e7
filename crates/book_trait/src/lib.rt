// What every book of live routes that several callers share promises each of them, whoever else calls it: one list of
// entries, each caller's calls there once, and a legal journal of whatever a caller has seen.
// Its one contract: the trait `SharedBook`, over what a pass, a note and a joined value stand for; `shared_law` says
// what the list that they have seen is good for.
// Modules: `reply` (what the calls answer), `book` (the trait), `law` (what follows of a list), `ended_book` (a book
// whose history is over, for tests).
#![tactic(auto)]

mod book;
mod ended_book;
mod law;
mod reply;
#[cfg(test)]
mod tests;

pub use book::SharedBook;
pub use ended_book::{EndedBook, EndedCallers, EndedNote, Onlooker, Over};
pub use law::{joined_law, shared_law};
pub use reply::{CancelStop, Cause, FullKind, NotesSpent, PlanStop, Reply};

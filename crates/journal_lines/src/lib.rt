// The text of a journal: a line for each answer of a run, and the last line with its totals.
//
// The definitions, in `specs/`: the lines (`Lines`), the totals (`Totals`), the order of the lines (`Printing`).
// The contract: `push_line` and `push_last_line` write exactly these lines, `print_order` and `journal_text` give
// the answers and the lines of a run in the order of the journal.
// `moves` has the letters of a walk, `line` one line, `totals` what is counted, `order` the answers as they are printed,
// `text` the lines of all.
#![tactic(auto)]

mod line;
mod moves;
mod order;
#[cfg(test)]
mod tests;
mod text;
mod totals;

pub use line::{push_last_line, push_line};
pub use moves::push_moves;
pub use order::{lend_each, print_order};
pub use text::{Line, journal_text};
pub use totals::Totals;

// The numbers below a count, drawn by several workers, each number once.
// Its one contract: a number that is drawn is below the count, no number is drawn twice, and once all tickets are
// gathered into one that was answered none, its numbers are those below the count, each once.
// Modules: `hand` (what a ticket has drawn, and the rule of the shared word), `line` (opening, drawing, gathering).
#![tactic(auto)]

mod hand;
mod line;
#[cfg(test)]
mod tests;

pub use hand::{Hand, Layout};
pub use line::{Ticket, TicketLine};

// A run over lanes by one worker, on a book of one thread.
//
// Its one contract: `run_alone` answers the orders by their numbers, each plan with the canonical walk where a walk is
// free then (`IsPlainRun`); its entries are a strong history that is its own journal.
// `order` answers one order, `run` all of them.
#![tactic(auto)]

mod order;
mod run;

pub use run::run_alone;

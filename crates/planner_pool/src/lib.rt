// Workers that answer lanes of orders over one shared book.
//
// Its one contract: `run_lanes` answers or leaves each order, once, and the book's list has the entries that were made
// and no others, those of each lane in the lane's order, in the list and in its journal (`IsPoolRun`).
// Modules: `gate` (who is told of the orders), `tries` (eight tries of one order), `lane` (the orders of one lane),
// `worker` (lanes that are drawn), `crew` (workers in threads), `pool` (the run).
#![tactic(auto)]

mod crew;
mod gate;
mod lane;
mod pool;
#[cfg(test)]
mod tests;
mod tries;
mod worker;

pub use gate::{Gate, OpenGate};
pub use lane_runs::{Answer, Answers, Left, LeftList};
pub use pool::{PoolResult, run_lanes};

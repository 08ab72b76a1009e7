// The search over cells and safe intervals (Phillips and Likhachev, 2011), directed by the static distance.
// Its one contract: `search` gives the canonical walk of a request, or says that no free walk exists, for every
// assignment of calendars that has the loaded ones, and the table of exactly the states that it settled.
// Modules: `searcher` and `sipp` (the search), `answer` (what it answers), `steps` (the counter of takes), `task` (what is asked), `states`
// (the arena), `chain`, `begin`, `enter`, `expand` and `run` (the search's parts), `back`, `ties`, `table` and `reply` (the answer's).
#![tactic(auto)]

mod answer;
mod around;
mod back;
mod begin;
mod chain;
mod enter;
mod expand;
mod reply;
mod run;
mod searcher;
mod sipp;
mod states;
mod steps;
mod table;
mod task;
#[cfg(test)]
mod tests;
mod ties;

pub use answer::{Found, Settled, Table};
pub use searcher::{Searcher, search};
pub use steps::Steps;

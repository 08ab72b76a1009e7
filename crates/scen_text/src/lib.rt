// The reader of scenarios: the movements that a benchmark asks of a map.
//
// The contract: `read_scen` gives what the grammar `scenario_of` gives of the lines of its text,
// the requests or the first fault. `fault` has the faults, `row` one row, `reading` the whole text.
#![tactic(auto)]

mod fault;
mod reading;
mod row;
#[cfg(test)]
mod tests;

pub use fault::{ScenFault, ScenKind};
pub use reading::read_scen;

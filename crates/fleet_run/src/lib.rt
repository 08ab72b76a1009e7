// The top call of the program behind `main`.
//
// The contract: `fleet` ends with an outcome that comes with its cause, with what went to `out` and to `err`; and good
// words and files are answered.
// `load` reads the files; `one`, `runs` and `shared` plan; `prepare` does so for a command; `job` is what there is to write, and
// `writing` writes it; `stop` and `report` are for a call that has nothing to write; `top` is the call.
#![tactic(auto)]

mod job;
mod load;
mod one;
mod outcome;
mod prepare;
mod report;
mod runs;
mod shared;
mod stop;
mod text;
mod top;
mod writing;

pub use outcome::{Ended, Outcome};
pub use planner_pool::{Gate, OpenGate};
pub use top::fleet;

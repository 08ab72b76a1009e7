// The worked rows: whole calls of the program with the texts and the statuses that they must give.
//
// They are tests, in a crate of their own above all others, so that no large crate is proved twice for its tests.
// `calling` runs the top call in memory, with threads and a gate; `workers` has the rows of several workers, `pool`
// runs workers over a shared book without the program, and `tail` finishes what they left; `layers` is a yardstick of the
// search, from the definitions alone, and `searches` compares the two; `distances` compares static distances with those of a
// full breadth-first search, and asks whether a cell is near enough; each other module is a group of rows.
#![tactic(auto)]

mod calling;
#[cfg(test)]
mod distances;
#[cfg(test)]
mod faults;
#[cfg(test)]
mod generated;
#[cfg(test)]
mod journals;
#[cfg(test)]
mod layers;
#[cfg(test)]
mod maps;
#[cfg(test)]
mod pool;
#[cfg(test)]
mod routes;
#[cfg(test)]
mod searches;
#[cfg(test)]
mod tail;
#[cfg(test)]
mod workers;

pub use calling::{CORRIDOR, Ended, Failing, Files, NOTHING_FAILS, ROOM, call, call_on, sink};

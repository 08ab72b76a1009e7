// The reader and the writer of maps.
//
// The contract: `read_map` gives what the grammar `map_of` gives of the lines of its text, a grid
// or the first fault; `write_map` gives the canonical text, of which the grammar gives the grid back.
// `fault` has the faults, `header` lines 1 to 4, `rows` the rows, `reading` the whole map,
// `writing` the writer.
#![tactic(auto)]

mod fault;
mod header;
mod reading;
mod rows;
#[cfg(test)]
mod tests;
mod writing;

pub use fault::{MapFault, MapKind};
pub use reading::read_map;
pub use writing::write_map;

// The outside of the fleet: files that are fetched by name, and sinks that bytes are written to.
// Its one contract: what was fetched or written where that can be told, and a count of faults
// that rises wherever a call fails.
// shelf and sink have the two traits; mem_shelf and mem_sink keep all in memory, and fail
// where they are told to; file_shelf and std_sink reach the system.
#![tactic(auto)]

mod failed_names;
mod failing_calls;
mod file_shelf;
mod mem_shelf;
mod mem_sink;
mod shelf;
mod sink;
mod std_sink;

pub use file_shelf::FileShelf;
pub use mem_shelf::MemShelf;
pub use mem_sink::MemSink;
pub use shelf::{Shelf, ShelfFault};
pub use sink::{Sink, SinkFailed};
pub use std_sink::{StdSink, Stream};

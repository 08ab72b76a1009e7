// The safe intervals of a cell (Phillips and Likhachev, 2011): the maximal ranges of times, up to a horizon, in which
// nobody is there.
// Its one contract: `intervals` gives exactly these ranges in rising order, and `next_gap` the first one of them that
// ends at a time or later, without taking memory; `gap_after` and `begun_by` give them all in one pass.
// Modules: `interval` (the type, and finding the range of a time), `gaps` (the ranges of a calendar).
#![tactic(auto)]

mod gaps;
mod interval;

pub use gaps::{begun_by, crossing_at, gap_after, gap_at, intervals, next_gap};
pub use interval::{Interval, interval_at};

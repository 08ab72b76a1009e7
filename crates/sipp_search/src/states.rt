ghost use Rattle.std.specs.Prelude.{IfOk};
ghost use Rattle.sipp_search.specs.Running.{Serves};

use bucket_queue::BucketQueue;
use fleet_base::{Cell, Memory};
use safe_intervals::Interval;
use stamped_list::StampedList;
use static_distance::Distances;
use std::alloc::Global;

/// A cell, one of its safe intervals, and the static distance from the cell to the goal.
#[derive(Clone, Copy)]
pub struct Spot {
    pub cell: Cell,
    pub interval: Interval,
    pub left: u32,
    // How many of the cell's records come before the interval.
    pub place: u32,
    // 1 plus the place of the cell's state that was added before this one, or 0.
    pub older: u32,
}

/// How far the search has come with a spot, and the arrival there that it knows.
#[derive(Clone, Copy)]
pub enum Mark {
    Unseen,
    Queued(u32),
    // Its arrival is the least one.
    Final(u32),
}

#[derive(Clone, Copy)]
pub struct State {
    pub spot: Spot,
    pub mark: Mark,
}

// A state for each safe interval that was entered, in the order in which that was first seen. The queue's ids are their
// places. `newest` has 1 plus the place of a cell's last one, by the cell's number, and 0 where it has none.
#[derive(Drop)]
pub struct Arena {
    pub states: Vec<State>,
    pub newest: StampedList,
    pub queue: BucketQueue,
    pub distances: Distances,
}

// An arena for grids of that many cells, up to the horizon.
pub fn new_arena(alloc: Global, cells: usize, horizon: u32) -> Result<Arena, Memory>
    ensures { IfOk result (Serves horizon cells) }
{
    Ok(Arena {
        states: Vec::new(alloc),
        newest: StampedList::new(alloc, cells)?,
        queue: BucketQueue::new(alloc, horizon)?,
        distances: Distances::new(alloc, cells)?,
    })
}

// A state that was taken from the queue, and its arrival.
#[derive(Clone, Copy)]
pub struct Taken {
    pub id: usize,
    pub spot: Spot,
    pub arrival: u32,
}

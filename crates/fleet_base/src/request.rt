use crate::grid::Cell;
use crate::walk::Walk;
use std::alloc::{AllocError, AllocFailed};

/// The end of a record that never ends. Times of walks are at most 8,000.
pub const FOREVER: u32 = 65_535;

/// A wish to go from `start` to `goal`, beginning at the time `depart`.
/// With `stay` the agent stands on its goal from its arrival on, else it is gone then.
#[derive(Clone, Copy, Debug, PartialEq, Eq, Hash)]
pub struct Request {
    pub start: Cell,
    pub goal: Cell,
    pub depart: u32,
    pub stay: bool,
}

/// The identity of a route: the stamp that its caller's reply had, and the number of that caller.
#[derive(Clone, Copy, Debug, PartialEq, Eq, Hash, PartialOrd, Ord)]
pub struct RouteId {
    pub stamp: u32,
    pub caller: u32,
}

/// The times from `from` to `to`, both included, at which a route has a cell.
/// A record whose `to` is `FOREVER` holds every time from `from` on.
#[derive(Clone, Copy, Debug, PartialEq, Eq, Hash)]
pub struct Record {
    pub from: u32,
    pub to: u32,
    pub id: RouteId,
}

/// A cell, and the times that a route is in it without leaving it.
#[derive(Clone, Copy, Debug, PartialEq, Eq, Hash)]
pub struct Stay {
    pub cell: Cell,
    pub span: Record,
}

/// A live route of a book: it was committed, and not cancelled since.
#[derive(Drop)]
pub struct Live {
    pub id: RouteId,
    pub walk: Walk,
}

/// One entry of a history. The era counts the cancels before it.
#[derive(Drop)]
pub enum Entry {
    Commit {
        id: RouteId,
        era: u64,
        request: Request,
        walk: Walk,
    },
    Cancel {
        id: RouteId,
        era: u64,
    },
    NoRoute {
        stamp: u32,
        caller: u32,
        era: u64,
        request: Request,
    },
}

/// Memory ran out.
#[derive(Clone, Copy, Debug, PartialEq, Eq, Hash)]
pub struct Memory;

impl From<AllocError> for Memory {
    fn from(_cause: AllocError) -> Memory {
        Memory
    }
}

// So that `push(x)?` converts.
impl<T> From<AllocFailed<T>> for Memory
where
    T: Drop,
{
    fn from(_refused: AllocFailed<T>) -> Memory {
        Memory
    }
}

ghost use Rattle.std.specs.Prelude.{◌≡◌, List};

use fleet_base::{Cell, Walk};
use safe_intervals::Interval;
use std::marker::Model;

/// A cell, one of its safe intervals, and the least time in that interval at which the cell is reachable.
#[derive(Clone, Copy, Debug, PartialEq, Eq, Hash)]
pub struct Settled {
    pub cell: Cell,
    pub interval: Interval,
    pub arrival: u32,
}

/// The states that a search settled, in no promised order.
#[derive(Drop)]
pub struct Table {
    settled: Vec<Settled>,
}

impl Model for Table {
    ghost use Rattle.std.specs.Prelude.{List};
    ghost use Rattle.sipp_search.specs.declared.answer.Settled.{Settled};

    ghost Value = { List Settled };

    ghost view = { λ t. t.settled.items };
}

impl Table {
    pub(crate) fn new(settled: Vec<Settled>) -> Table
        ensures { result ≡ settled.items }
    {
        Table { settled }
    }

    /// The settled states, each cell and interval once.
    pub fn as_slice(&self) -> &[Settled]
        ensures { result.now ≡ self.now }
    {
        self.settled.as_slice()
    }
}

/// The answer of a search: the canonical walk, or that no free walk exists within the horizon.
#[derive(Drop)]
pub enum Found {
    Route { walk: Walk, table: Table },
    NoRoute { table: Table },
}

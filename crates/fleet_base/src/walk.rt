ghost use Rattle.std.specs.Prelude.{◌≡◌, ℕ, ◌+◌, ◌-◌, ◌<◌, ◌≤◌, ◌↔◌, length, IsTrue};

use crate::grid::Cell;
use std::marker::Model;

/// A timed walk: one cell for each time step from its departure to its arrival, which is at most 8,000.
/// An agent is nowhere before its departure. After its arrival it is gone, or, where the walk stays, on its last cell.
#[derive(Drop)]
pub struct Walk {
    depart: u32,
    cells: Vec<Cell>,
    stay: bool,
}

impl Model for Walk {
    ghost use Rattle.std.specs.Prelude.{◌+◌, ◌<◌, ◌≤◌, length};
    ghost use Rattle.fleet_base.specs.TimedWalk.{TimedWalk};

    ghost Value = { TimedWalk };

    ghost view = { λ w. record { depart = w.depart; cells = w.cells.items; stay = w.stay } };

    ghost invariant = { λ w. (1 ≤ length w.cells.items) × (w.depart + length w.cells.items ≤ 8001) };
}

impl Walk {
    ghost use Rattle.std.specs.Prelude.{Some, true, false};
    ghost use Rattle.fleet_base.specs.TimedWalk.{arrival, place_after, position};

    /// A walk whose agent is gone after its arrival.
    pub fn new(depart: u32, cells: Vec<Cell>) -> Walk
        requires some { 1 ≤ length cells.items }
        requires in_time { depart + length cells.items ≤ 8001 }
        ensures { result ≡ record { depart = depart; cells = cells.items; stay = false } }
    {
        Walk {
            depart,
            cells,
            stay: false,
        }
    }

    /// A walk whose agent stays on its last cell.
    pub fn staying(depart: u32, cells: Vec<Cell>) -> Walk
        requires some { 1 ≤ length cells.items }
        requires in_time { depart + length cells.items ≤ 8001 }
        ensures { result ≡ record { depart = depart; cells = cells.items; stay = true } }
    {
        Walk {
            depart,
            cells,
            stay: true,
        }
    }

    /// The time of the first cell.
    pub fn depart(&self) -> u32
        ensures value { result ≡ self.now.depart }
        ensures in_time { result ≤ 8000 }
    {
        self.depart
    }

    /// One cell for each time from the departure to the arrival; there is at least one.
    pub fn cells(&self) -> &[Cell]
        ensures value { result.now ≡ self.now.cells }
        ensures some { 1 ≤ length self.now.cells }
    {
        &self.cells
    }

    /// The time of the last cell: the departure plus the number of cells less 1.
    pub fn arrival(&self) -> u32
        ensures value { result ≡ arrival self.now }
        ensures in_time { result ≤ 8000 }
    {
        self.depart + (self.cells.len() as u32 - 1)
    }

    /// Whether the agent stands on its last cell from its arrival on.
    pub fn stays(&self) -> bool
        ensures { result ≡ self.now.stay }
    {
        self.stay
    }

    // Which cell of the list the agent is on so many steps after its departure.
    fn place_after(&self, steps: usize) -> usize
        ensures { result ≡ place_after self.now steps }
    {
        if self.stay {
            steps.min(self.cells.len() - 1)
        } else {
            steps
        }
    }

    /// Where the agent is at that time, if it is anywhere.
    pub fn position(&self, time: u32) -> Option<Cell>
        ensures { result ≡ position self.now time }
    {
        if time < self.depart {
            None
        } else {
            let place = self.place_after((time - self.depart) as usize);
            self.cells.get(place).copied()
        }
    }

    // The cell at a time from the departure to the arrival.
    pub(crate) fn cell_at(&self, time: u32) -> Cell
        requires begun { self.now.depart ≤ time }
        requires not_over { time ≤ arrival self.now }
        ensures { position self.now time ≡ Some result }
    {
        self.cells[(time - self.depart) as usize]
    }
}

ghost use Rattle.fleet_base.specs.TimedWalk.{MeetAt, Meet};

// Whether the walks are in one cell at that time, or exchange two cells in the step that begins then.
fn meet_at(first: &Walk, second: &Walk, time: u32) -> bool
    requires { time < 8001 }
    ensures { IsTrue result ↔ MeetAt first.now second.now time }
{
    match (first.position(time), second.position(time)) {
        (Some(here), Some(there)) => {
            here == there
                || (first.position(time + 1) == Some(there)
                    && second.position(time + 1) == Some(here))
        }
        _ => false,
    }
}

/// Whether the walks are in one cell at one time, or exchange two neighbouring cells in one step.
/// To follow another agent closely is no meeting.
pub fn meets(first: &Walk, second: &Walk) -> bool
    ensures { IsTrue result ↔ Meet first.now second.now }
{
    // After both arrivals nobody moves.
    let last = first.arrival().max(second.arrival());
    for time in first.depart()..last + 1 {
        if meet_at(first, second, time) {
            return true;
        }
    }
    false
}

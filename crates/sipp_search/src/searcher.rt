ghost use Rattle.std.specs.Prelude.{◌≡◌, ℕ, ◌+◌, ◌<◌, ◌≤◌, ◌⊎◌, List, IsSome, IfOk, length};
ghost use Rattle.calendars.specs.Assignments.{Assignment, Agrees};
ghost use Rattle.safe_intervals.specs.declared.interval.Interval.{Interval};
ghost use Rattle.sipp_search.specs.Answer.{IsAnswerOf, IsFoundWalk, table_in, IsNeeded, AreListsOf, interval_count};

use crate::answer::Found;
use crate::sipp::{find_in, search_in};
use crate::states::{Arena, new_arena};
use crate::steps::Steps;
use crate::task::Task;
use crate::ties::{Ties, new_ties};
use calendars::CalendarView;
use fleet_base::{Grid, Memory, Request, Walk};
use std::alloc::Global;
use std::marker::Model;
use std::sync::ledger::Ledger;

/// What a search on grids of so many cells up to a horizon needs. It is kept from one search to the next, so that each one
/// costs what it touches.
#[derive(Drop)]
pub struct Searcher {
    alloc: Global,
    horizon: u32,
    arena: Arena,
    ties: Ties,
}

impl Model for Searcher {
    ghost use Rattle.std.specs.Prelude.{◌≤◌, length};
    ghost use Rattle.sipp_search.specs.Scratch.{Scratch};

    ghost Value = { Scratch };

    ghost view = { λ s. record { cells = length s.arena.newest; horizon = s.horizon } };

    ghost use Rattle.sipp_search.specs.Running.{Serves};
    ghost use Rattle.sipp_search.specs.Ties.{HaveRoom};

    ghost invariant = { λ s. (s.horizon ≤ 8000) × Serves s.horizon (length s.arena.newest) s.arena × HaveRoom (length s.arena.newest) s.ties };
}

impl Searcher {
    /// A searcher for grids of that many cells. The horizon is a time step; arrivals are at most it.
    pub fn new(alloc: Global, cells: usize, horizon: u32) -> Result<Searcher, Memory>
        requires { (1 ≤ horizon) × (horizon ≤ 8000) }
        ensures { IfOk result (λ s. s ≡ record { cells = cells; horizon = horizon }) }
    {
        Ok(Searcher {
            alloc,
            horizon,
            arena: new_arena(alloc, cells, horizon)?,
            ties: new_ties(alloc, cells)?,
        })
    }

    /// The canonical walk of a request from the cell `start` to `goal`, or that no free walk exists within the horizon; and
    /// the table of the states that were settled. The answer is right for every assignment of calendars that has the loaded
    /// ones. `steps` counts the takes from the queue.
    pub fn search<V: CalendarView, L: Ledger>(
        &mut self,
        view: &mut V,
        grid: &Grid,
        request: Request,
        steps: &mut Steps<L>,
    ) -> Result<Found, Memory>
        requires count { self.old.cells ≡ length grid.now.cells }
        requires start { request.start.0 < length grid.now.cells }
        requires goal { request.goal.0 < length grid.now.cells }
        requires cells { V.size view.old ≡ length grid.now.cells }

        ensures answer { IfOk result (λ found. (a : Assignment) → Agrees a (V.known view.new) → IsAnswerOf grid.now self.old.horizon a request found) }
        ensures loads { IfOk result (λ found. (c : ℕ) → IsSome (V.known view.new c) → IsSome (V.known view.old c) ⊎ IsNeeded grid.now request (table_in found) c) }

        ensures counted { IfOk result (λ found. steps.new ≡ steps.old + length (table_in found)) }
        ensures takes { (lists : ℕ → List Interval) → AreListsOf (V.known view.new) self.old.horizon lists → steps.new ≤ steps.old + interval_count (V.known view.new) lists (V.size view.new) }
        ensures rises { steps.old ≤ steps.new }

        ensures same { self.new ≡ self.old }
        ensures same_size { V.size view.new ≡ V.size view.old }
        ensures kept { (c : ℕ) → IsSome (V.known view.old c) → V.known view.new c ≡ V.known view.old c }
        ensures went { V.went view.old view.new }
    {
        let task = Task {
            grid,
            request,
            horizon: self.horizon,
        };
        search_in(self.alloc, &task, view, &mut self.arena, steps)
    }

    /// The same walk as that of `search`, or none where there is none, without the table.
    pub fn find_walk<V: CalendarView, L: Ledger>(
        &mut self,
        view: &mut V,
        grid: &Grid,
        request: Request,
        steps: &mut Steps<L>,
    ) -> Result<Option<Walk>, Memory>
        requires count { self.old.cells ≡ length grid.now.cells }
        requires start { request.start.0 < length grid.now.cells }
        requires goal { request.goal.0 < length grid.now.cells }
        requires cells { V.size view.old ≡ length grid.now.cells }

        ensures answer { IfOk result (λ w. (a : Assignment) → Agrees a (V.known view.new) → IsFoundWalk grid.now self.old.horizon a request w) }

        ensures takes { (lists : ℕ → List Interval) → AreListsOf (V.known view.new) self.old.horizon lists → steps.new ≤ steps.old + interval_count (V.known view.new) lists (V.size view.new) }
        ensures rises { steps.old ≤ steps.new }

        ensures same { self.new ≡ self.old }
        ensures same_size { V.size view.new ≡ V.size view.old }
        ensures kept { (c : ℕ) → IsSome (V.known view.old c) → V.known view.new c ≡ V.known view.old c }
        ensures went { V.went view.old view.new }
    {
        let task = Task {
            grid,
            request,
            horizon: self.horizon,
        };
        find_in(
            self.alloc,
            &task,
            view,
            &mut self.arena,
            &mut self.ties,
            steps,
        )
    }
}

/// The canonical walk of a request from the cell `start` to `goal`, or that no free walk exists within the horizon; and
/// the table of the states that were settled. The horizon is a time step; arrivals are at most it.
/// The answer is right for every assignment of calendars that has the loaded ones. `steps` counts the takes from the queue.
/// Who searches more than once keeps a `Searcher`.
pub fn search<V: CalendarView, L: Ledger>(
    alloc: Global,
    view: &mut V,
    grid: &Grid,
    request: Request,
    horizon: u32,
    steps: &mut Steps<L>,
) -> Result<Found, Memory>
    requires start { request.start.0 < length grid.now.cells }
    requires goal { request.goal.0 < length grid.now.cells }
    requires horizon { (1 ≤ horizon) × (horizon ≤ 8000) }
    requires cells { V.size view.old ≡ length grid.now.cells }

    ensures answer { IfOk result (λ found. (a : Assignment) → Agrees a (V.known view.new) → IsAnswerOf grid.now horizon a request found) }
    ensures loads { IfOk result (λ found. (c : ℕ) → IsSome (V.known view.new c) → IsSome (V.known view.old c) ⊎ IsNeeded grid.now request (table_in found) c) }

    ensures counted { IfOk result (λ found. steps.new ≡ steps.old + length (table_in found)) }
    ensures takes { (lists : ℕ → List Interval) → AreListsOf (V.known view.new) horizon lists → steps.new ≤ steps.old + interval_count (V.known view.new) lists (V.size view.new) }
    ensures rises { steps.old ≤ steps.new }

    ensures same_size { V.size view.new ≡ V.size view.old }
    ensures kept { (c : ℕ) → IsSome (V.known view.old c) → V.known view.new c ≡ V.known view.old c }
    ensures went { V.went view.old view.new }
{
    let mut searcher = Searcher::new(alloc, grid.cells().len(), horizon)?;
    searcher.search(view, grid, request, steps)
}

ghost use Rattle.std.specs.Prelude.{◌≡◌, ℕ, ◌+◌, ◌<◌, ◌≤◌, List, IfOk, length, unwrap_or};
ghost use Rattle.fleet_base.specs.Canonical.{ReadsBack};
ghost use Rattle.safe_intervals.specs.declared.interval.Interval.{Interval};
ghost use Rattle.calendars.specs.Assignments.{Assignment, Agrees, traffic_by};
ghost use Rattle.sipp_search.specs.Answer.{IsAnswerOf, IsRoute, IsBestWalk, AreListsOf, interval_count, table_in};
ghost use Rattle.sipp_search.specs.Running.{IsReady, IsSound, IsOver, EndsAt, Ends, Serves, KeepsKnown};
ghost use Rattle.sipp_search.specs.Marks.{final_count};
ghost use Rattle.sipp_search.specs.Tabled.{table_from};
ghost use Rattle.sipp_search.specs.Ties.{IsPaused, HaveRoom, IsFirstArrival};

use crate::answer::Found;
use crate::back::read_back;
use crate::run::settle_ties;
use crate::states::Arena;
use crate::steps::Steps;
use crate::table::table_of;
use crate::task::Task;
use crate::ties::{Ties, read_ties};
use calendars::CalendarView;
use fleet_base::{Cell, Memory, Request, Walk};
use std::alloc::Global;
use std::sync::ledger::Ledger;

fn walk_along(request: Request, cells: Vec<Cell>) -> Walk
    requires some { 1 ≤ length cells.items }
    requires in_time { request.depart + length cells.items ≤ 8001 }
    ensures { result ≡ record { depart = request.depart; cells = cells.items; stay = request.stay } }
{
    if request.stay {
        Walk::staying(request.depart, cells)
    } else {
        Walk::new(request.depart, cells)
    }
}

// The walk of a search that is over, and that found an end.
fn walk_to<V: CalendarView>(
    alloc: Global,
    task: &Task,
    view: &V,
    arena: &Arena,
    arrival: u32,
) -> Result<Walk, Memory>
    requires ready { IsReady task.now.grid.now task.now.request task.now.horizon (V.size view.now) }
    requires sound { IsSound task.now.grid.now task.now.request task.now.horizon (V.known view.now) (V.size view.now) arena.now }
    requires in_time { arrival ≤ task.now.horizon }
    requires over { (a : Assignment) → Agrees a (V.known view.now) → IsOver task.now.grid.now task.now.request task.now.horizon a arena.now.states.items arrival }
    requires ends { (a : Assignment) → Agrees a (V.known view.now) → EndsAt task.now.request a arena.now.states.items arrival }
    ensures { IfOk result (λ walk. (a : Assignment) → Agrees a (V.known view.now)
        → IsRoute task.now.grid.now task.now.horizon a task.now.request walk (table_from arena.now.states.items)) }
{
    let cells = read_back(alloc, task, view, arena, arrival)?;
    Ok(walk_along(task.request, cells))
}

// The answer of a search that is over.
pub fn answer<V: CalendarView>(
    alloc: Global,
    task: &Task,
    view: &V,
    arena: &Arena,
    found: Option<u32>,
) -> Result<Found, Memory>
    requires ready { IsReady task.now.grid.now task.now.request task.now.horizon (V.size view.now) }
    requires sound { IsSound task.now.grid.now task.now.request task.now.horizon (V.known view.now) (V.size view.now) arena.now }
    requires in_time { unwrap_or found task.now.horizon ≤ task.now.horizon }
    requires over { (a : Assignment) → Agrees a (V.known view.now) → IsOver task.now.grid.now task.now.request task.now.horizon a arena.now.states.items (unwrap_or found task.now.horizon) }
    requires ends { (a : Assignment) → Agrees a (V.known view.now) → Ends task.now.request a arena.now.states.items found }
    ensures answer { IfOk result (λ answer. (a : Assignment) → Agrees a (V.known view.now) → IsAnswerOf task.now.grid.now task.now.horizon a task.now.request answer) }
    ensures table { IfOk result (λ answer. table_in answer ≡ table_from arena.now.states.items) }
{
    let table = table_of(alloc, &arena.states)?;
    let Some(arrival) = found else {
        return Ok(Found::NoRoute { table });
    };
    let walk = walk_to(alloc, task, view, arena, arrival)?;
    Ok(Found::Route { walk, table })
}

// The cells of the canonical walk. What is left of the last key is settled only where the walk isn't clear without it.
fn cells_back<V: CalendarView, L: Ledger>(
    alloc: Global,
    task: &Task,
    view: &mut V,
    arena: &mut Arena,
    ties: &mut Ties,
    steps: &mut Steps<L>,
    arrival: u32,
) -> Result<Vec<Cell>, Memory>
    requires ready { IsReady task.now.grid.now task.now.request task.now.horizon (V.size view.old) }
    requires paused { IsPaused task.now.grid.now task.now.request task.now.horizon (V.known view.old) (V.size view.old) arena.old }
    requires fit { HaveRoom (length task.now.grid.now.cells) ties.old }
    requires arrival { arena.old.queue.floor ≡ arrival }
    requires start { task.now.request.start.0 < V.size view.old }
    requires goal { task.now.request.goal.0 < V.size view.old }
    ensures cells { V.size view.new ≡ V.size view.old }
    ensures went { V.went view.old view.new }
    ensures kept { KeepsKnown (V.known view.old) (V.known view.new) }
    ensures takes { (lists : ℕ → List Interval) → AreListsOf (V.known view.new) task.now.horizon lists → steps.new + final_count arena.old.states.items ≤ steps.old + interval_count (V.known view.new) lists (V.size view.new) }
    ensures rises { steps.old ≤ steps.new }
    ensures serves { Serves task.now.horizon (length task.now.grid.now.cells) arena.new }
    ensures fit { HaveRoom (length task.now.grid.now.cells) ties.new }
    ensures back { IfOk result (λ v. (a : Assignment) → Agrees a (V.known view.new) → ReadsBack task.now.grid.now (traffic_by a) task.now.request task.now.request.goal arrival v.items) }
{
    if let Some(cells) = read_ties(alloc, task, view, arena, ties, arrival)? {
        return Ok(cells);
    }
    settle_ties(task, view, arena, steps, arrival)?;
    let cells = read_back(alloc, task, &*view, &*arena, arrival)?;
    Ok(cells)
}

// The walk of a search that has come to its first arrival.
pub fn first_walk<V: CalendarView, L: Ledger>(
    alloc: Global,
    task: &Task,
    view: &mut V,
    arena: &mut Arena,
    ties: &mut Ties,
    steps: &mut Steps<L>,
    arrival: u32,
) -> Result<Walk, Memory>
    requires ready { IsReady task.now.grid.now task.now.request task.now.horizon (V.size view.old) }
    requires paused { IsPaused task.now.grid.now task.now.request task.now.horizon (V.known view.old) (V.size view.old) arena.old }
    requires first { (a : Assignment) → Agrees a (V.known view.old) → IsFirstArrival task.now.grid.now task.now.request a arrival }
    requires fit { HaveRoom (length task.now.grid.now.cells) ties.old }
    requires arrival { arena.old.queue.floor ≡ arrival }
    requires start { task.now.request.start.0 < V.size view.old }
    requires goal { task.now.request.goal.0 < V.size view.old }
    ensures cells { V.size view.new ≡ V.size view.old }
    ensures went { V.went view.old view.new }
    ensures kept { KeepsKnown (V.known view.old) (V.known view.new) }
    ensures takes { (lists : ℕ → List Interval) → AreListsOf (V.known view.new) task.now.horizon lists → steps.new + final_count arena.old.states.items ≤ steps.old + interval_count (V.known view.new) lists (V.size view.new) }
    ensures rises { steps.old ≤ steps.new }
    ensures serves { Serves task.now.horizon (length task.now.grid.now.cells) arena.new }
    ensures fit { HaveRoom (length task.now.grid.now.cells) ties.new }
    ensures best { IfOk result (λ walk. (a : Assignment) → Agrees a (V.known view.new) → IsBestWalk task.now.grid.now task.now.horizon a task.now.request walk) }
{
    let cells = cells_back(alloc, task, view, arena, ties, steps, arrival)?;
    Ok(walk_along(task.request, cells))
}

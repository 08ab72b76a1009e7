ghost use Rattle.std.specs.Prelude.{◌≡◌, ℕ, ◌<◌, ◌≤◌, ◌++◌, ◌∷◌, [], List, Option, OnOk, IfOk, IfSome, IfNone, length, replicate};
ghost use Rattle.fleet_base.specs.declared.request.Record.{Record};
ghost use Rattle.fleet_base.specs.Canonical.{ReadsBack};
ghost use Rattle.calendars.specs.Assignments.{Assignment, Agrees, traffic_by};
ghost use Rattle.safe_intervals.specs.Safe.{IsIn};
ghost use Rattle.sipp_search.specs.Arena.{AreChained};
ghost use Rattle.sipp_search.specs.Marks.{spots_of, final};
ghost use Rattle.sipp_search.specs.Progress.{HasFinal};
ghost use Rattle.sipp_search.specs.Running.{IsReady, IsSound, IsOver};
ghost use Rattle.sipp_search.specs.Back.{IsOn, IsHopFrom, NoneFrom, IsHop};

use crate::chain::place_at;
use crate::expand::side_at;
use crate::states::{Arena, Mark, State};
use crate::task::Task;
use calendars::{CalendarView, crossing};
use fleet_base::{Cell, Memory, Side};
use std::alloc::Global;

// A cell, and the time from which the agent is there.
#[derive(Clone, Copy)]
pub struct Hop {
    pub cell: Cell,
    pub time: u32,
}

// The final arrival of a state, where its agent can wait there until that time.
fn arrival_until(state: State, time: u32) -> Option<u32>
    ensures some { IfSome result (λ r. (state ≡ final state.spot r) × IsIn time state.spot.interval × (r ≤ time)) }
    ensures none { IfNone result ((r : ℕ) → state ≡ final state.spot r → IsIn time state.spot.interval → r ≤ time → ⊥) }
{
    let Mark::Final(arrival) = state.mark else {
        return None;
    };
    if time < state.spot.interval.from {
        return None;
    }
    if state.spot.interval.to < time {
        return None;
    }
    if time < arrival {
        return None;
    }
    Some(arrival)
}

// The arrival in the interval of the cell that holds the time, where the cell is reached in it by then.
fn last_arrival(task: &Task, arena: &Arena, cell: Cell, time: u32) -> Option<u32>
    requires cell { cell.0 < length arena.now.newest }
    requires chained { AreChained (spots_of arena.now.states.items) arena.now.newest }
    ensures some { IfSome result (λ r. (has : HasFinal arena.now.states.items cell time) × (has.arrival ≡ r)) }
    ensures none { IfNone result ((known : ℕ → Option (List Record)) (size : ℕ) → IsSound task.now.grid.now task.now.request task.now.horizon known size arena.now
        → HasFinal arena.now.states.items cell time → ⊥) }
{
    let place = place_at(arena, cell, time)?;
    arrival_until(arena.states[place], time)
}

// Where the agent came from on that side, if the cell that is entered at that time can be reached from there.
fn hop_from<V: CalendarView>(
    task: &Task,
    view: &V,
    arena: &Arena,
    at: Cell,
    entered: u32,
    side: Side,
) -> Option<Hop>
    requires ready { IsReady task.now.grid.now task.now.request task.now.horizon (V.size view.now) }
    requires sound { IsSound task.now.grid.now task.now.request task.now.horizon (V.known view.now) (V.size view.now) arena.now }
    requires on { IsOn arena.now.states.items at entered }
    requires time { entered ≤ 8000 }
    ensures earlier { IfSome result (λ hop. hop.time < entered) }
    ensures hop { IfSome result (λ hop. (a : Assignment) (limit : ℕ) → Agrees a (V.known view.now)
        → IsOver task.now.grid.now task.now.request task.now.horizon a arena.now.states.items limit
        → IsHopFrom task.now.grid.now task.now.request a arena.now.states.items at entered side hop.cell hop.time) }
    ensures none { IfNone result ((a : Assignment) (limit : ℕ) → Agrees a (V.known view.now)
        → IsOver task.now.grid.now task.now.request task.now.horizon a arena.now.states.items limit
        → NoneFrom task.now.grid.now task.now.request a at entered side) }
{
    if entered == 0 {
        return None;
    }
    let Some(cell) = task.grid.neighbour(at, side) else {
        return None;
    };
    let Some(time) = last_arrival(task, arena, cell, entered - 1) else {
        return None;
    };
    if crossing(view.calendar(cell), view.calendar(at), entered - 1) {
        return None;
    }
    Some(Hop { cell, time })
}

// The first neighbour, in the order up, left, right, down, from which the cell can be entered at that time.
fn before<V: CalendarView>(
    task: &Task,
    view: &V,
    arena: &Arena,
    at: Cell,
    entered: u32,
) -> Option<Hop>
    requires ready { IsReady task.now.grid.now task.now.request task.now.horizon (V.size view.now) }
    requires sound { IsSound task.now.grid.now task.now.request task.now.horizon (V.known view.now) (V.size view.now) arena.now }
    requires on { IsOn arena.now.states.items at entered }
    requires time { entered ≤ 8000 }
    ensures earlier { IfSome result (λ hop. hop.time < entered) }
    ensures hop { IfSome result (λ hop. (a : Assignment) (limit : ℕ) → Agrees a (V.known view.now)
        → IsOver task.now.grid.now task.now.request task.now.horizon a arena.now.states.items limit
        → IsHop task.now.grid.now task.now.request a arena.now.states.items at entered hop.cell hop.time) }
    ensures none { IfNone result ((a : Assignment) (limit : ℕ) → Agrees a (V.known view.now)
        → IsOver task.now.grid.now task.now.request task.now.horizon a arena.now.states.items limit
        → (at ≡ task.now.request.start) × (entered ≡ task.now.request.depart)) }
{
    for rank in 0..4 {
        if let Some(hop) = hop_from(task, view, arena, at, entered, side_at(rank)) {
            return Some(hop);
        }
    }
    None
}

// One cell more, and another one so many times.
pub fn push_hop(cells: &mut Vec<Cell>, entered: Cell, from: Cell, waits: u32) -> Result<(), Memory>
    ensures { OnOk result (cells.new.items ≡ cells.old.items ++ entered ∷ [] ++ replicate waits from) }
{
    cells.push(entered)?;
    'waits: for _step in 0..waits {
        cells.push(from)?;
    }
    Ok(())
}

// The cells of the canonical walk, read back from the goal at its arrival.
pub fn read_back<V: CalendarView>(
    alloc: Global,
    task: &Task,
    view: &V,
    arena: &Arena,
    arrival: u32,
) -> Result<Vec<Cell>, Memory>
    requires ready { IsReady task.now.grid.now task.now.request task.now.horizon (V.size view.now) }
    requires sound { IsSound task.now.grid.now task.now.request task.now.horizon (V.known view.now) (V.size view.now) arena.now }
    requires on { IsOn arena.now.states.items task.now.request.goal arrival }
    requires time { arrival ≤ 8000 }
    requires over { (a : Assignment) → Agrees a (V.known view.now) → IsOver task.now.grid.now task.now.request task.now.horizon a arena.now.states.items arrival }
    ensures { IfOk result (λ v. (a : Assignment) → Agrees a (V.known view.now) → ReadsBack task.now.grid.now (traffic_by a) task.now.request task.now.request.goal arrival v.items) }
{
    let room = arrival.saturating_sub(task.request.depart) as usize + 1;
    let mut cells = Vec::with_capacity(alloc, room)?;
    let mut at = task.request.goal;
    let mut time = arrival;
    while let Some(hop) = before(task, view, arena, at, time) {
        push_hop(&mut cells, at, hop.cell, time - 1 - hop.time)?;
        at = hop.cell;
        time = hop.time;
    }
    cells.push(at)?;
    cells.reverse();
    Ok(cells)
}

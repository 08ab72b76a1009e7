ghost use Rattle.std.specs.Prelude.{◌≡◌, ◌≢◌, ℕ, ◌+◌, ◌<◌, ◌≤◌, ◌⊎◌, [], List, Option, Some, IsSome, OnOk, length, slice_get};
ghost use Rattle.fleet_base.specs.declared.request.Record.{Record};
ghost use Rattle.calendars.specs.Places.{place_in};
ghost use Rattle.calendars.specs.Assignments.{Assignment, Agrees};
ghost use Rattle.safe_intervals.specs.Safe.{IsIn, IsSafeInterval};
ghost use Rattle.static_distance.specs.Distance.{IsDistance};
ghost use Rattle.sipp_search.specs.declared.states.Spot.{Spot as ASpot};
ghost use Rattle.sipp_search.specs.Marks.{final, final_count};
ghost use Rattle.sipp_search.specs.Progress.{IsUnderWay};
ghost use Rattle.sipp_search.specs.Running.{IsReady, IsSound, Serves, KeepsKnown};

use crate::chain::{add_state, way_left};
use crate::enter::offer;
use crate::states::{Arena, Spot};
use crate::task::Task;
use calendars::CalendarView;
use fleet_base::Memory;
use safe_intervals::{Interval, gap_at};
use static_distance::place_of;

// Forgets what an earlier search touched, also one that ended for want of memory, and aims at the goal.
pub fn prepare(task: &Task, arena: &mut Arena) -> Result<(), Memory>
    requires serves { Serves task.now.horizon (length task.now.grid.now.cells) arena.old }
    requires start { task.now.request.start.0 < length task.now.grid.now.cells }
    requires goal { task.now.request.goal.0 < length task.now.grid.now.cells }
    ensures serves { Serves task.now.horizon (length task.now.grid.now.cells) arena.new }
    ensures sound { OnOk result ((known : ℕ → Option (List Record)) → IsSound task.now.grid.now task.now.request task.now.horizon known (length task.now.grid.now.cells) arena.new) }
    ensures none { arena.new.states.items ≡ [] }
    ensures floor { arena.new.queue.floor ≡ 0 }
{
    arena.states.clear();
    arena.queue.clear();
    arena.newest.clear();
    arena
        .distances
        .aim(task.grid, task.request.goal, task.request.start)?;
    Ok(())
}

// Queues the start at the departure, which that interval holds.
fn begin_in<V: CalendarView>(
    task: &Task,
    view: &V,
    arena: &mut Arena,
    interval: Interval,
    left: u32,
    place: u32,
) -> Result<(), Memory>
    requires ready { IsReady task.now.grid.now task.now.request task.now.horizon (V.size view.now) }
    requires sound { IsSound task.now.grid.now task.now.request task.now.horizon (V.known view.now) (V.size view.now) arena.old }
    requires start { task.now.request.start.0 < V.size view.now }
    requires known { IsSome (V.known view.now task.now.request.start.0) }
    requires safe { (records : List Record) → V.known view.now task.now.request.start.0 ≡ Some records → IsSafeInterval records task.now.horizon interval }
    requires inside { IsIn task.now.request.depart interval }
    requires place { (records : List Record) (t : ℕ) → V.known view.now task.now.request.start.0 ≡ Some records → IsIn t interval → place_in t records ≡ place }
    requires distance { IsDistance task.now.grid.now task.now.request.goal task.now.request.start left }
    requires in_time { task.now.request.depart + left ≤ task.now.horizon }
    requires none { arena.old.states.items ≡ [] }
    requires floor { arena.old.queue.floor ≡ 0 }
    ensures serves { Serves task.now.horizon (length task.now.grid.now.cells) arena.new }
    ensures sound { OnOk result (IsSound task.now.grid.now task.now.request task.now.horizon (V.known view.now) (V.size view.now) arena.new) }
    ensures floor { OnOk result (arena.new.queue.floor ≡ 0) }
    ensures none_final { OnOk result ((i r : ℕ) (p : ASpot) → slice_get arena.new.states.items i ≢ Some (final p r)) }
    ensures none_counted { OnOk result (final_count arena.new.states.items ≡ 0) }
    ensures way { OnOk result ((a : Assignment) (x : ℕ) → Agrees a (V.known view.now) → IsUnderWay task.now.grid.now task.now.request task.now.horizon a arena.new.states.items 0 x) }
{
    let request = task.request;
    let id = add_state(
        arena,
        Spot {
            cell: request.start,
            interval,
            left,
            place,
            older: 0,
        },
    )?;
    let key = request.depart + left;
    offer(&mut arena.states, &mut arena.queue, id, request.depart, key)?;
    Ok(())
}

// Queues the start at the departure, where it is free then and the goal could be reached from it by the horizon.
pub fn begin<V: CalendarView>(task: &Task, view: &mut V, arena: &mut Arena) -> Result<(), Memory>
    requires ready { IsReady task.now.grid.now task.now.request task.now.horizon (V.size view.old) }
    requires sound { IsSound task.now.grid.now task.now.request task.now.horizon (V.known view.old) (V.size view.old) arena.old }
    requires start { task.now.request.start.0 < V.size view.old }
    requires goal { task.now.request.goal.0 < V.size view.old }
    requires none { arena.old.states.items ≡ [] }
    requires floor { arena.old.queue.floor ≡ 0 }
    ensures cells { V.size view.new ≡ V.size view.old }
    ensures went { V.went view.old view.new }
    ensures kept { KeepsKnown (V.known view.old) (V.known view.new) }
    ensures loads { (n : ℕ) → IsSome (V.known view.new n) → IsSome (V.known view.old n) ⊎ ((n ≡ task.now.request.start.0) ⊎ (n ≡ task.now.request.goal.0)) }
    ensures serves { Serves task.now.horizon (length task.now.grid.now.cells) arena.new }
    ensures sound { OnOk result (IsSound task.now.grid.now task.now.request task.now.horizon (V.known view.new) (V.size view.new) arena.new) }
    ensures floor { OnOk result (arena.new.queue.floor ≡ 0) }
    ensures none_final { OnOk result ((i r : ℕ) (p : ASpot) → slice_get arena.new.states.items i ≢ Some (final p r)) }
    ensures none_counted { OnOk result (final_count arena.new.states.items ≡ 0) }
    ensures way { OnOk result ((a : Assignment) (x : ℕ) → Agrees a (V.known view.new) → IsUnderWay task.now.grid.now task.now.request task.now.horizon a arena.new.states.items 0 x) }
{
    let request = task.request;
    view.load(request.start)?;
    let calendar = view.calendar(request.start);
    let _in_order = calendar.records();
    let place = calendar.place_of(request.depart);
    let Some(interval) = gap_at(calendar, place, task.horizon) else {
        return Ok(());
    };
    if request.depart < interval.from {
        return Ok(());
    }
    let at = place_of(task.grid, request.start);
    let Some(left) = way_left(task, &*view, arena, request.start, at)? else {
        return Ok(());
    };
    let Some(room) = task.horizon.checked_sub(request.depart) else {
        return Ok(());
    };
    if left > room {
        return Ok(());
    }
    begin_in(task, &*view, arena, interval, left, place as u32)?;
    Ok(())
}

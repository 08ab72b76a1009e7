ghost use Rattle.std.specs.Prelude.{◌≡◌, ℕ, ◌+◌, ◌<◌, Some, OnOk, length, slice_get};
ghost use Rattle.fleet_base.specs.Terrain.{IsBeside};
ghost use Rattle.fleet_base.specs.declared.grid.Cell.{Cell as ACell};
ghost use Rattle.fleet_base.specs.Canonical.{rank_of};
ghost use Rattle.sipp_search.specs.Running.{IsReady, IsSound, Serves, IsTaken, KeepsKnown, KeepsSpots, LoadsBeside, LoadsAround};
ghost use Rattle.calendars.specs.Assignments.{Assignment, Agrees};
ghost use Rattle.safe_intervals.specs.Safe.{IsIn};
ghost use Rattle.sipp_search.specs.Marks.{spots_of};
ghost use Rattle.sipp_search.specs.Progress.{IsArrived, IsUnderWay, Improves};
ghost use Rattle.sipp_search.specs.Visiting.{HasLed};
ghost use Rattle.static_distance.specs.Levels.{IsPlaceOf};

use crate::chain::way_beside;
use crate::enter::{enter_first, move_into};
use crate::states::{Arena, Spot, Taken};
use crate::task::Task;
use calendars::CalendarView;
use fleet_base::{Cell, Memory, Side};
use static_distance::{Place, beside, neighbour_at, place_of};

// Makes the moves out of the spot, where the agent is since `arrival`, into a cell on that side that has no state yet.
#[inline(always)]
fn move_first<V: CalendarView>(
    task: &Task,
    view: &mut V,
    arena: &mut Arena,
    from: Spot,
    arrival: u32,
    place: Place,
    side: Side,
    to: Cell,
) -> Result<(), Memory>
    requires ready { IsReady task.now.grid.now task.now.request task.now.horizon (V.size view.old) }
    requires sound { IsSound task.now.grid.now task.now.request task.now.horizon (V.known view.old) (V.size view.old) arena.old }
    requires placed { (i : ℕ) × (slice_get (spots_of arena.old.states.items) i ≡ Some from) }
    requires arrived { IsIn arrival from.interval }
    requires place { IsPlaceOf task.now.grid.now from.cell place }
    requires taken { arena.old.queue.floor ≡ arrival + from.left }
    requires beside { IsBeside task.now.grid.now side from.cell to }
    requires inside { to.0 < length task.now.grid.now.cells }
    requires fresh { slice_get arena.old.newest to.0 ≡ Some 0 }
    ensures cells { V.size view.new ≡ V.size view.old }
    ensures went { V.went view.old view.new }
    ensures kept { KeepsKnown (V.known view.old) (V.known view.new) }
    ensures loads { LoadsBeside task.now.grid.now side from.cell (V.known view.old) (V.known view.new) }
    ensures serves { Serves task.now.horizon (length task.now.grid.now.cells) arena.new }
    ensures sound { OnOk result (IsSound task.now.grid.now task.now.request task.now.horizon (V.known view.new) (V.size view.new) arena.new) }
    ensures floor { OnOk result (arena.new.queue.floor ≡ arena.old.queue.floor) }
    ensures spots { OnOk result (KeepsSpots arena.old.states.items arena.new.states.items) }
    ensures improves { OnOk result (Improves arena.old.states.items arena.new.states.items) }
    ensures led { OnOk result ((a : Assignment) (x : ℕ) → Agrees a (V.known view.new) → IsArrived task.now.grid.now task.now.request a from arrival
        → IsUnderWay task.now.grid.now task.now.request task.now.horizon a arena.old.states.items arena.old.queue.floor x
        → IsUnderWay task.now.grid.now task.now.request task.now.horizon a arena.new.states.items arena.old.queue.floor x
        × ((c : ACell) → IsBeside task.now.grid.now side from.cell c → HasLed task.now.grid.now task.now.request task.now.horizon a arena.new.states.items from arrival c)) }
{
    let next = beside(place, side);
    let Some(left) = way_beside(task, &*view, arena, to, next, place, from.left)? else {
        return Ok(());
    };
    view.load(to)?;
    enter_first(task, &*view, arena, from, arrival, to, left)?;
    Ok(())
}

// Makes the moves out of the spot, where the agent is since `arrival`, into the cell on that side, if one is there.
#[inline(always)]
fn move_to<V: CalendarView>(
    task: &Task,
    view: &mut V,
    arena: &mut Arena,
    from: Spot,
    arrival: u32,
    place: Place,
    side: Side,
) -> Result<(), Memory>
    requires ready { IsReady task.now.grid.now task.now.request task.now.horizon (V.size view.old) }
    requires sound { IsSound task.now.grid.now task.now.request task.now.horizon (V.known view.old) (V.size view.old) arena.old }
    requires placed { (i : ℕ) × (slice_get (spots_of arena.old.states.items) i ≡ Some from) }
    requires arrived { IsIn arrival from.interval }
    requires place { IsPlaceOf task.now.grid.now from.cell place }
    requires taken { arena.old.queue.floor ≡ arrival + from.left }
    ensures cells { V.size view.new ≡ V.size view.old }
    ensures went { V.went view.old view.new }
    ensures kept { KeepsKnown (V.known view.old) (V.known view.new) }
    ensures loads { LoadsBeside task.now.grid.now side from.cell (V.known view.old) (V.known view.new) }
    ensures serves { Serves task.now.horizon (length task.now.grid.now.cells) arena.new }
    ensures sound { OnOk result (IsSound task.now.grid.now task.now.request task.now.horizon (V.known view.new) (V.size view.new) arena.new) }
    ensures floor { OnOk result (arena.new.queue.floor ≡ arena.old.queue.floor) }
    ensures spots { OnOk result (KeepsSpots arena.old.states.items arena.new.states.items) }
    ensures improves { OnOk result (Improves arena.old.states.items arena.new.states.items) }
    ensures led { OnOk result ((a : Assignment) (x : ℕ) → Agrees a (V.known view.new) → IsArrived task.now.grid.now task.now.request a from arrival
        → IsUnderWay task.now.grid.now task.now.request task.now.horizon a arena.old.states.items arena.old.queue.floor x
        → IsUnderWay task.now.grid.now task.now.request task.now.horizon a arena.new.states.items arena.old.queue.floor x
        × ((c : ACell) → IsBeside task.now.grid.now side from.cell c → HasLed task.now.grid.now task.now.request task.now.horizon a arena.new.states.items from arrival c)) }
{
    let Some(to) = neighbour_at(task.grid, from.cell, place, side) else {
        return Ok(());
    };
    let newest = arena.newest.get(to.0 as usize) as usize;
    if newest == 0 {
        return move_first(task, view, arena, from, arrival, place, side, to);
    }
    let known = arena.states[newest - 1].spot;
    view.load(to)?;
    move_into(
        task,
        &*view,
        arena,
        from,
        arrival,
        to,
        known.left,
        known.place as usize,
    )?;
    Ok(())
}

pub fn side_at(rank: u32) -> Side
    requires { rank < 4 }
    ensures { rank_of result ≡ rank }
{
    match rank {
        0 => Side::Up,
        1 => Side::Left,
        2 => Side::Right,
        _ => Side::Down,
    }
}

// Makes the moves out of a state that has become final.
pub fn expand<V: CalendarView>(
    task: &Task,
    view: &mut V,
    arena: &mut Arena,
    taken: Taken,
) -> Result<(), Memory>
    requires ready { IsReady task.now.grid.now task.now.request task.now.horizon (V.size view.old) }
    requires sound { IsSound task.now.grid.now task.now.request task.now.horizon (V.known view.old) (V.size view.old) arena.old }
    requires taken { IsTaken arena.old taken }
    ensures cells { V.size view.new ≡ V.size view.old }
    ensures went { V.went view.old view.new }
    ensures kept { KeepsKnown (V.known view.old) (V.known view.new) }
    ensures loads { LoadsAround task.now.grid.now taken.spot.cell (V.known view.old) (V.known view.new) }
    ensures serves { Serves task.now.horizon (length task.now.grid.now.cells) arena.new }
    ensures sound { OnOk result (IsSound task.now.grid.now task.now.request task.now.horizon (V.known view.new) (V.size view.new) arena.new) }
    ensures floor { OnOk result (arena.new.queue.floor ≡ arena.old.queue.floor) }
    ensures spots { OnOk result (KeepsSpots arena.old.states.items arena.new.states.items) }
    ensures improves { OnOk result (Improves arena.old.states.items arena.new.states.items) }
    ensures led { OnOk result ((a : Assignment) (x : ℕ) → Agrees a (V.known view.new)
        → IsUnderWay task.now.grid.now task.now.request task.now.horizon a arena.old.states.items arena.old.queue.floor taken.id
        → IsUnderWay task.now.grid.now task.now.request task.now.horizon a arena.new.states.items arena.old.queue.floor x) }
{
    let place = place_of(task.grid, taken.spot.cell);
    let from = taken.spot;
    let arrival = taken.arrival;
    // Those whose moves are made last are taken first: that is how a walk is read back.
    move_to(task, view, arena, from, arrival, place, Side::Down)?;
    move_to(task, view, arena, from, arrival, place, Side::Right)?;
    move_to(task, view, arena, from, arrival, place, Side::Left)?;
    move_to(task, view, arena, from, arrival, place, Side::Up)?;
    Ok(())
}

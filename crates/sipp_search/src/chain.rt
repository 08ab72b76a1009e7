ghost use Rattle.std.specs.Prelude.{◌≡◌, ◌≢◌, ℕ, suc, ◌+◌, ◌<◌, ◌≤◌, ◌++◌, ◌∷◌, [], List, Option, Some, IsSome, OnOk, IfOk, IfSome, IfNone, length, slice_get, slice_set};
ghost use Rattle.std.specs.Bool.{OnTrue, OnFalse};
ghost use Rattle.fleet_base.specs.Terrain.{IsBeside};
ghost use Rattle.fleet_base.specs.declared.grid.Cell.{Cell as ACell};
ghost use Rattle.fleet_base.specs.declared.grid.Side.{Side};
ghost use Rattle.safe_intervals.specs.Safe.{IsIn};
ghost use Rattle.static_distance.specs.Distance.{IsWay, IsDistance};
ghost use Rattle.static_distance.specs.Levels.{IsPlaceOf};
ghost use Rattle.sipp_search.specs.declared.states.State.{State as AState};
ghost use Rattle.sipp_search.specs.declared.states.Spot.{Spot as ASpot};
ghost use Rattle.sipp_search.specs.Marks.{spots_of, keys_of, unseen, queued};
ghost use Rattle.sipp_search.specs.Arena.{AreChained};
ghost use Rattle.sipp_search.specs.Running.{IsReady, IsSound, Serves};

use crate::states::{Arena, Mark, Spot, State};
use crate::task::Task;
use calendars::CalendarView;
use fleet_base::{Cell, Memory};
use safe_intervals::Interval;
use static_distance::Place;

fn holds(interval: Interval, time: u32) -> bool
    ensures yes { OnTrue result (IsIn time interval) }
    ensures no { OnFalse result (IsIn time interval → ⊥) }
{
    interval.from <= time && time <= interval.to
}

// The place of the state of the cell whose interval holds the time.
#[inline(always)]
pub fn place_at(arena: &Arena, cell: Cell, time: u32) -> Option<usize>
    requires cell { cell.0 < length arena.now.newest }
    requires chained { AreChained (spots_of arena.now.states.items) arena.now.newest }
    ensures some { IfSome result (λ j. (s : AState) × (slice_get arena.now.states.items j ≡ Some s) × (s.spot.cell ≡ cell) × IsIn time s.spot.interval) }
    ensures none { IfNone result ((i : ℕ) (p : ASpot) → slice_get (spots_of arena.now.states.items) i ≡ Some p → p.cell ≡ cell → IsIn time p.interval → ⊥) }
{
    let mut next = arena.newest.get(cell.0 as usize) as usize;
    while next != 0 {
        let state = arena.states[next - 1];
        if holds(state.spot.interval, time) {
            return Some(next - 1);
        }
        next = state.spot.older as usize;
    }
    None
}

// The place of the state of the cell whose interval comes after so many records.
pub fn known_at(arena: &Arena, cell: Cell, place: u32) -> Option<usize>
    requires cell { cell.0 < length arena.now.newest }
    requires chained { AreChained (spots_of arena.now.states.items) arena.now.newest }
    ensures some { IfSome result (λ j. (s : AState) × (slice_get arena.now.states.items j ≡ Some s) × (s.spot.cell ≡ cell) × (s.spot.place ≡ place)) }
    ensures none { IfNone result ((i : ℕ) (s : AState) → slice_get arena.now.states.items i ≡ Some s → s.spot.cell ≡ cell → s.spot.place ≢ place) }
{
    let mut next = arena.newest.get(cell.0 as usize) as usize;
    while next != 0 {
        let state = arena.states[next - 1];
        if state.spot.place == place {
            return Some(next - 1);
        }
        next = state.spot.older as usize;
    }
    None
}

// Adds an unseen state. Gives its place.
#[inline(always)]
pub fn add_state(arena: &mut Arena, spot: Spot) -> Result<usize, Memory>
    requires cell { spot.cell.0 < length arena.old.newest }
    requires paired { arena.old.queue.keys ≡ keys_of arena.old.states.items }
    ensures place { IfOk result (λ id. id ≡ length arena.old.states.items) }
    ensures states { OnOk result ((older : ℕ) × (slice_get arena.old.newest spot.cell.0 ≡ Some older) × (arena.new.states.items ≡ arena.old.states.items ++ unseen (record spot { older = older }) ∷ [])) }
    ensures newest { OnOk result (arena.new.newest ≡ slice_set arena.old.newest spot.cell.0 (suc (length arena.old.states.items))) }
    ensures queue { OnOk result (arena.new.queue ≡ record arena.old.queue { keys = keys_of arena.new.states.items }) }
    ensures bound { arena.new.queue.bound ≡ arena.old.queue.bound }
    ensures count { length arena.new.newest ≡ length arena.old.newest }
    ensures distances { arena.new.distances ≡ arena.old.distances }
{
    let id = arena.states.len();
    // The places of more states have no room in `newest`.
    if id >= u32::MAX as usize {
        return Err(Memory);
    }
    let older = arena.newest.get(spot.cell.0 as usize);
    arena.queue.add()?;
    arena.states.push(State {
        spot: Spot { older, ..spot },
        mark: Mark::Unseen,
    })?;
    arena.newest.set(spot.cell.0 as usize, id as u32 + 1);
    Ok(id)
}

// Adds a state that is queued at an arrival, with that key.
#[inline(always)]
pub fn add_queued(arena: &mut Arena, spot: Spot, arrival: u32, key: u32) -> Result<(), Memory>
    requires cell { spot.cell.0 < length arena.old.newest }
    requires paired { arena.old.queue.keys ≡ keys_of arena.old.states.items }
    requires key { key ≡ arrival + spot.left }
    requires low { arena.old.queue.floor ≤ key }
    requires high { key ≤ arena.old.queue.bound }
    ensures states { OnOk result ((older : ℕ) × (slice_get arena.old.newest spot.cell.0 ≡ Some older) × (arena.new.states.items ≡ arena.old.states.items ++ queued (record spot { older = older }) arrival ∷ [])) }
    ensures newest { OnOk result (arena.new.newest ≡ slice_set arena.old.newest spot.cell.0 (suc (length arena.old.states.items))) }
    ensures queue { OnOk result (arena.new.queue ≡ record arena.old.queue { keys = keys_of arena.new.states.items }) }
    ensures bound { arena.new.queue.bound ≡ arena.old.queue.bound }
    ensures count { length arena.new.newest ≡ length arena.old.newest }
    ensures distances { arena.new.distances ≡ arena.old.distances }
{
    let id = arena.states.len();
    // The places of more states have no room in `newest`.
    if id >= u32::MAX as usize {
        return Err(Memory);
    }
    let older = arena.newest.get(spot.cell.0 as usize);
    arena.queue.add_at(key)?;
    arena.states.push(State {
        spot: Spot { older, ..spot },
        mark: Mark::Queued(arrival),
    })?;
    arena.newest.set(spot.cell.0 as usize, id as u32 + 1);
    Ok(())
}

// The static distance from a cell to the goal; none where no way leads there.
#[inline(always)]
pub fn way_counted<V: CalendarView>(
    task: &Task,
    view: &V,
    arena: &mut Arena,
    cell: Cell,
    place: Place,
) -> Result<Option<u32>, Memory>
    requires ready { IsReady task.now.grid.now task.now.request task.now.horizon (V.size view.now) }
    requires sound { IsSound task.now.grid.now task.now.request task.now.horizon (V.known view.now) (V.size view.now) arena.old }
    requires cell { cell.0 < V.size view.now }
    requires place { IsPlaceOf task.now.grid.now cell place }
    ensures serves { Serves task.now.horizon (length task.now.grid.now.cells) arena.new }
    ensures sound { OnOk result (IsSound task.now.grid.now task.now.request task.now.horizon (V.known view.now) (V.size view.now) arena.new) }
    ensures states { arena.new.states ≡ arena.old.states }
    ensures newest { arena.new.newest ≡ arena.old.newest }
    ensures queue { arena.new.queue ≡ arena.old.queue }
    ensures some { IfOk result (λ o. IfSome o (λ left. IsDistance task.now.grid.now task.now.request.goal cell left)) }
    ensures none { IfOk result (λ o. IfNone o ((k : ℕ) → ¬ (IsWay task.now.grid.now task.now.request.goal cell k))) }
{
    let left = arena.distances.to_goal_at(task.grid, cell, place)?;
    Ok(left)
}

// The same. It is known where the cell has a state.
#[inline(always)]
pub fn way_left<V: CalendarView>(
    task: &Task,
    view: &V,
    arena: &mut Arena,
    cell: Cell,
    place: Place,
) -> Result<Option<u32>, Memory>
    requires ready { IsReady task.now.grid.now task.now.request task.now.horizon (V.size view.now) }
    requires sound { IsSound task.now.grid.now task.now.request task.now.horizon (V.known view.now) (V.size view.now) arena.old }
    requires cell { cell.0 < V.size view.now }
    requires place { IsPlaceOf task.now.grid.now cell place }
    ensures serves { Serves task.now.horizon (length task.now.grid.now.cells) arena.new }
    ensures sound { OnOk result (IsSound task.now.grid.now task.now.request task.now.horizon (V.known view.now) (V.size view.now) arena.new) }
    ensures states { arena.new.states ≡ arena.old.states }
    ensures newest { arena.new.newest ≡ arena.old.newest }
    ensures queue { arena.new.queue ≡ arena.old.queue }
    ensures some { IfOk result (λ o. IfSome o (λ left. IsDistance task.now.grid.now task.now.request.goal cell left)) }
    ensures none { IfOk result (λ o. IfNone o ((k : ℕ) → ¬ (IsWay task.now.grid.now task.now.request.goal cell k))) }
{
    let newest = arena.newest.get(cell.0 as usize);
    if newest != 0 {
        return Ok(Some(arena.states[newest as usize - 1].spot.left));
    }
    way_counted(task, view, arena, cell, place)
}

// The same as `way_counted` for a cell beside one whose distance is known: it is counted no farther than the level of that one.
#[inline(always)]
pub fn way_beside<V: CalendarView>(
    task: &Task,
    view: &V,
    arena: &mut Arena,
    cell: Cell,
    place: Place,
    from: Place,
    known: u32,
) -> Result<Option<u32>, Memory>
    requires ready { IsReady task.now.grid.now task.now.request task.now.horizon (V.size view.now) }
    requires sound { IsSound task.now.grid.now task.now.request task.now.horizon (V.known view.now) (V.size view.now) arena.old }
    requires cell { cell.0 < V.size view.now }
    requires place { IsPlaceOf task.now.grid.now cell place }
    requires from { (c : ACell) × (side : Side) × IsPlaceOf task.now.grid.now c from × IsBeside task.now.grid.now side c cell × IsDistance task.now.grid.now task.now.request.goal c known }
    ensures serves { Serves task.now.horizon (length task.now.grid.now.cells) arena.new }
    ensures sound { OnOk result (IsSound task.now.grid.now task.now.request task.now.horizon (V.known view.now) (V.size view.now) arena.new) }
    ensures states { arena.new.states ≡ arena.old.states }
    ensures newest { arena.new.newest ≡ arena.old.newest }
    ensures queue { arena.new.queue ≡ arena.old.queue }
    ensures some { IfOk result (λ o. IfSome o (λ left. IsDistance task.now.grid.now task.now.request.goal cell left)) }
    ensures none { IfOk result (λ o. IfNone o ((k : ℕ) → ¬ (IsWay task.now.grid.now task.now.request.goal cell k))) }
{
    let left = arena
        .distances
        .beside_at(task.grid, cell, place, from, known)?;
    Ok(left)
}

ghost use Rattle.std.specs.Prelude.{◌≡◌, ◌≢◌, ℕ, suc, ◌+◌, ◌-◌, ◌<◌, ◌≤◌, ◌⊎◌, false, List, Option, Some, None, IsSome, OnOk, IfOk, IfSome, IfNone, length, slice_get};
ghost use Rattle.std.specs.Bool.{OnTrue, OnFalse};
ghost use Rattle.fleet_base.specs.declared.request.Record.{Record};
ghost use Rattle.fleet_base.specs.Canonical.{ReadsBack};
ghost use Rattle.fleet_base.specs.Reach.{Reached};
ghost use Rattle.calendars.specs.Records.{covers, is_exchange};
ghost use Rattle.calendars.specs.Assignments.{Assignment, Agrees, traffic_by};
ghost use Rattle.sipp_search.specs.Marks.{final_count, final, queued, spots_of};
ghost use Rattle.sipp_search.specs.Arena.{IsArena, AreChained};
ghost use Rattle.sipp_search.specs.declared.states.Spot.{Spot as ASpot};
ghost use Rattle.sipp_search.specs.Progress.{HasSeen};
ghost use Rattle.static_distance.specs.Levels.{IsPlaceOf};
ghost use Rattle.fleet_base.specs.Terrain.{Terrain};
ghost use Rattle.fleet_base.specs.declared.grid.Cell.{Cell as ACell};
ghost use Rattle.fleet_base.specs.declared.request.Request.{Request};
ghost use Rattle.sipp_search.specs.Around.{IsNeighbour};
ghost use Rattle.sipp_search.specs.Running.{IsReady, IsSound, Serves, KeepsKnown};
ghost use Rattle.sipp_search.specs.Ties.{IsPaused, HaveRoom, AreTies, TellsArrival, TellsSide, TellsStep, IsUnseenAt, LoadedWhereSince, EarlierThan, IsFirstArrival, IsNear, HasNear, AreInGrid, IsWaiting, AreWaiting, ListsWaiting, AreQueued};

use crate::around::{Neighbour, around};
use crate::back::{Hop, push_hop};
use crate::chain::{place_at, way_left};
use crate::expand::side_at;
use crate::states::{Arena, Mark, State};
use crate::task::Task;
use calendars::{CalendarView, crossing};
use fleet_base::{Cell, Memory, Side};
use stamped_list::StampedList;
use static_distance::{Distances, Place, moves_between, place_of};
use std::alloc::Global;

// So many moves back it is asked whether a state is reached, before the rest of its key is settled instead.
const DEPTH: u32 = 1000;

// So many states are looked into that might be reached if all cells were open, before moves from the start are counted: on a
// small map, where a look costs little and few searches come to that, and on one of more cells than `SMALL`, where each look
// waits for lists that the cache doesn't hold.
const EASY: u32 = 1000;

const EASY_ON_LARGE: u32 = 100;

const SMALL: usize = 32768;

// The queued states of the last key are listed where they are at most so many: going through a longer list takes longer than
// it saves.
const SHORT: usize = 32;

// Where a queued state of the last key is, and since when.
#[derive(Clone, Copy)]
pub struct Waiting {
    pub place: Place,
    pub arrival: u32,
}

// What reading back keeps of earlier questions: where the start is and the moves from it, by the cell's number what was told
// of the cell (twice the time and 1 where it isn't reached then, and 2 where it is reached then first), how many states
// were looked into without counting moves, queued states of the last key, and whether these are all of them.
#[derive(Drop)]
pub struct Ties {
    pub start: Place,
    pub from_start: Distances,
    pub asked: StampedList,
    pub looked: u32,
    pub waiting: Vec<Waiting>,
    pub few: bool,
}

// What is told of a cell at a time: since when it is reached, that it never is, or that it wasn't found out.
#[derive(Clone, Copy)]
pub enum Told {
    Since(Hop),
    Never,
    Unclear,
}

// For grids of that many cells.
pub fn new_ties(alloc: Global, cells: usize) -> Result<Ties, Memory>
    ensures { IfOk result (HaveRoom cells) }
{
    Ok(Ties {
        start: Place { column: 0, row: 0 },
        from_start: Distances::new(alloc, cells)?,
        asked: StampedList::new(alloc, cells)?,
        looked: 0,
        waiting: Vec::new(alloc),
        few: false,
    })
}

// The arrival of a queued state, where its key is that one.
fn arrival_with(state: State, key: usize) -> Option<u32>
    ensures some { IfSome result (λ r. (state ≡ queued state.spot r) × (r + state.spot.left ≡ key)) }
    ensures none { IfNone result ((r : ℕ) → state ≡ queued state.spot r → r + state.spot.left ≢ key) }
{
    let Mark::Queued(arrival) = state.mark else {
        return None;
    };
    if arrival as usize + state.spot.left as usize != key {
        return None;
    }
    Some(arrival)
}

// The state with that id, where it is queued with that key.
fn waiting_with(task: &Task, arena: &Arena, id: u32, key: usize) -> Option<Waiting>
    requires sound { (known : ℕ → Option (List Record)) × (size : ℕ) × IsSound task.now.grid.now task.now.request task.now.horizon known size arena.now }
    ensures some { IfSome result (IsWaiting task.now.grid.now arena.now.states.items key id) }
    ensures none { IfNone result ((p : ASpot) (r : ℕ) → slice_get arena.now.states.items id ≡ Some (queued p r) → r + p.left ≢ key) }
{
    let id = id as usize;
    if id >= arena.states.len() {
        return None;
    }
    let state = arena.states[id];
    let arrival = arrival_with(state, key)?;
    Some(Waiting {
        place: place_of(task.grid, state.spot.cell),
        arrival,
    })
}

// Lists the queued states whose key is the floor. Whether the list has all of them: it ends where it would get long.
fn list_waiting(task: &Task, arena: &Arena, waiting: &mut Vec<Waiting>) -> Result<bool, Memory>
    requires sound { (known : ℕ → Option (List Record)) × (size : ℕ) × IsSound task.now.grid.now task.now.request task.now.horizon known size arena.now }
    ensures all { IfOk result (λ few. OnTrue few (AreWaiting task.now.grid.now arena.now.states.items arena.now.queue.floor waiting.new.items)) }
    ensures only { OnOk result (AreQueued task.now.grid.now arena.now.states.items arena.now.queue.floor waiting.new.items) }
{
    waiting.clear();
    let floor = arena.queue.floor();
    for id in arena.queue.at_floor() {
        if let Some(one) = waiting_with(task, arena, *id, floor) {
            if waiting.len() == SHORT {
                return Ok(false);
            }
            waiting.push(one)?;
        }
    }
    Ok(true)
}

// Forgets earlier questions, lists who waits, and counts moves from the start.
fn forget(task: &Task, arena: &Arena, ties: &mut Ties) -> Result<(), Memory>
    requires sound { (known : ℕ → Option (List Record)) × (size : ℕ) × IsSound task.now.grid.now task.now.request task.now.horizon known size arena.now }
    requires fit { HaveRoom (length task.now.grid.now.cells) ties.old }
    requires start { task.now.request.start.0 < length task.now.grid.now.cells }
    requires goal { task.now.request.goal.0 < length task.now.grid.now.cells }
    ensures fit { HaveRoom (length task.now.grid.now.cells) ties.new }
    ensures ties { OnOk result ((known : ℕ → Option (List Record)) → AreTies task.now.grid.now task.now.request known ties.new) }
    ensures waiting { OnOk result (ListsWaiting task.now.grid.now arena.now.states.items arena.now.queue.floor ties.new) }
{
    ties.few = list_waiting(task, arena, &mut ties.waiting)?;
    ties.asked.clear();
    ties.looked = 0;
    ties.start = place_of(task.grid, task.request.start);
    ties.from_start
        .aim(task.grid, task.request.start, task.request.goal)?;
    Ok(())
}

// Whether the place is too far from the start for its cell to be reached by that time, also where all cells are open.
fn is_far_apart(task: &Task, ties: &Ties, place: Place, time: u32) -> bool
    requires place { (c : ACell) × (c.0 < length task.now.grid.now.cells) × IsPlaceOf task.now.grid.now c place }
    requires ties { (known : ℕ → Option (List Record)) × AreTies task.now.grid.now task.now.request known ties.now }
    ensures far { OnTrue result ((a : Assignment) (c : ACell) → IsPlaceOf task.now.grid.now c place → Reached task.now.grid.now (traffic_by a) task.now.request.start task.now.request.depart c time → ⊥) }
{
    let _limits = task.grid.cells();
    let Some(since) = time.checked_sub(task.request.depart) else {
        return true;
    };
    since < moves_between(place, ties.start)
}

fn is_near(one: Waiting, place: Place, time: u32) -> bool
    requires from { (one.place.column < 2048) × (one.place.row < 2048) }
    requires to { (place.column < 2048) × (place.row < 2048) }
    ensures yes { OnTrue result (IsNear one place time) }
    ensures no { OnFalse result (IsNear one place time → ⊥) }
{
    let Some(since) = time.checked_sub(one.arrival) else {
        return false;
    };
    moves_between(one.place, place) <= since
}

// Whether a queued state of the last key is near enough to the place for its cell to be reached from there by that time, also
// if all cells were open. Where none is, and the list has them all, a cell that no move was seen to reach isn't reached.
fn is_near_waiting(task: &Task, ties: &Ties, place: Place, time: u32) -> bool
    requires place { (c : ACell) × (c.0 < length task.now.grid.now.cells) × IsPlaceOf task.now.grid.now c place }
    requires in_grid { AreInGrid ties.now.waiting.items }
    ensures some { OnTrue result (HasNear ties.now.waiting.items place time) }
    ensures none { OnFalse result (HasNear ties.now.waiting.items place time → ⊥) }
{
    let _limits = task.grid.cells();
    for one in &ties.waiting {
        if is_near(*one, place, time) {
            return true;
        }
    }
    false
}

// How many states are looked into before moves from the start are counted.
fn easy_looks(task: &Task) -> u32 {
    if task.grid.cells().len() > SMALL {
        EASY_ON_LARGE
    } else {
        EASY
    }
}

// The same over the cells that are open. Moves are counted once many cells were looked into.
fn is_too_far(task: &Task, ties: &mut Ties, cell: Cell, time: u32) -> Result<bool, Memory>
    requires cell { cell.0 < length task.now.grid.now.cells }
    requires fit { HaveRoom (length task.now.grid.now.cells) ties.old }
    requires ties { (known : ℕ → Option (List Record)) × AreTies task.now.grid.now task.now.request known ties.old }
    ensures fit { HaveRoom (length task.now.grid.now.cells) ties.new }
    ensures ties { OnOk result ((known : ℕ → Option (List Record)) → AreTies task.now.grid.now task.now.request known ties.old → AreTies task.now.grid.now task.now.request known ties.new) }
    ensures asked { OnOk result (ties.new.asked ≡ ties.old.asked) }
    ensures waiting { ties.new.waiting ≡ ties.old.waiting }
    ensures few { ties.new.few ≡ ties.old.few }
    ensures far { IfOk result (λ far. OnTrue far ((a : Assignment) → Reached task.now.grid.now (traffic_by a) task.now.request.start task.now.request.depart cell time → ⊥)) }
{
    let Some(since) = time.checked_sub(task.request.depart) else {
        return Ok(true);
    };
    if ties.looked < easy_looks(task) {
        ties.looked += 1;
        return Ok(false);
    }
    let near = ties.from_start.is_within(task.grid, cell, since)?;
    Ok(!near)
}

// The arrival that is known of a state, where it isn't after the time.
fn seen_by(state: State, time: u32) -> Option<u32>
    ensures some { IfSome result (λ r. ((state ≡ queued state.spot r) ⊎ (state ≡ final state.spot r)) × (r ≤ time)) }
    ensures not_queued { IfNone result ((r : ℕ) → state ≡ queued state.spot r → time < r) }
    ensures not_final { IfNone result ((r : ℕ) → state ≡ final state.spot r → time < r) }
{
    let arrival = match state.mark {
        Mark::Unseen => return None,
        Mark::Queued(arrival) => arrival,
        Mark::Final(arrival) => arrival,
    };
    if time < arrival {
        return None;
    }
    Some(arrival)
}

// The arrival that is known of the cell in its safe interval that holds the time, where it isn't after the time.
fn seen_at(arena: &Arena, cell: Cell, time: u32) -> Option<u32>
    requires cell { cell.0 < length arena.now.newest }
    requires chained { AreChained (spots_of arena.now.states.items) arena.now.newest }
    ensures some { IfSome result (λ r. (seen : HasSeen arena.now.states.items cell time) × (seen.arrival ≡ r)) }
    ensures none { IfNone result ((g : Terrain) (q : Request) (horizon : ℕ) (known : ℕ → Option (List Record)) → IsArena g q.goal horizon known (spots_of arena.now.states.items) arena.now.newest
        → HasSeen arena.now.states.items cell time → ⊥) }
{
    let place = place_at(arena, cell, time)?;
    seen_by(arena.states[place], time)
}

// Loads a cell while the search pauses. Whether it is taken at that time.
fn is_taken<V: CalendarView>(
    task: &Task,
    view: &mut V,
    arena: &Arena,
    ties: &Ties,
    cell: Cell,
    time: u32,
) -> Result<bool, Memory>
    requires ready { IsReady task.now.grid.now task.now.request task.now.horizon (V.size view.old) }
    requires paused { IsPaused task.now.grid.now task.now.request task.now.horizon (V.known view.old) (V.size view.old) arena.now }
    requires ties { AreTies task.now.grid.now task.now.request (V.known view.old) ties.now }
    requires cell { cell.0 < V.size view.old }
    ensures cells { V.size view.new ≡ V.size view.old }
    ensures went { V.went view.old view.new }
    ensures kept { KeepsKnown (V.known view.old) (V.known view.new) }
    ensures loaded { OnOk result (IsSome (V.known view.new cell.0)) }
    ensures paused { OnOk result (IsPaused task.now.grid.now task.now.request task.now.horizon (V.known view.new) (V.size view.new) arena.now) }
    ensures ties { OnOk result (AreTies task.now.grid.now task.now.request (V.known view.new) ties.now) }
    ensures taken { IfOk result (λ taken. (a : Assignment) → Agrees a (V.known view.new) → covers (a cell.0) time ≡ taken) }
{
    view.load(cell)?;
    Ok(view.calendar(cell).covers(time))
}

// Since when the cell is reached in its safe interval that holds the time.
#[cycle(arriving)]
fn arrival_at<V: CalendarView>(
    task: &Task,
    view: &mut V,
    arena: &mut Arena,
    ties: &mut Ties,
    cell: Cell,
    place: Place,
    time: u32,
    depth: u32,
) -> Result<Told, Memory>
    requires ready { IsReady task.now.grid.now task.now.request task.now.horizon (V.size view.old) }
    requires paused { IsPaused task.now.grid.now task.now.request task.now.horizon (V.known view.old) (V.size view.old) arena.old }
    requires ties { AreTies task.now.grid.now task.now.request (V.known view.old) ties.old }
    requires waiting { ListsWaiting task.now.grid.now arena.old.states.items arena.old.queue.floor ties.old }
    requires cell { cell.0 < V.size view.old }
    requires place { IsPlaceOf task.now.grid.now cell place }
    requires time { time ≤ task.now.horizon }
    ensures cells { V.size view.new ≡ V.size view.old }
    ensures went { V.went view.old view.new }
    ensures kept { KeepsKnown (V.known view.old) (V.known view.new) }
    ensures serves { Serves task.now.horizon (length task.now.grid.now.cells) arena.new }
    ensures fit { HaveRoom (length task.now.grid.now.cells) ties.new }
    ensures paused { OnOk result (IsPaused task.now.grid.now task.now.request task.now.horizon (V.known view.new) (V.size view.new) arena.new) }
    ensures ties { OnOk result (AreTies task.now.grid.now task.now.request (V.known view.new) ties.new) }
    ensures waiting { OnOk result (ListsWaiting task.now.grid.now arena.new.states.items arena.new.queue.floor ties.new) }
    ensures floor { OnOk result (arena.new.queue.floor ≡ arena.old.queue.floor) }
    ensures count { OnOk result (final_count arena.new.states.items ≡ final_count arena.old.states.items) }
    ensures loaded { IfOk result (LoadedWhereSince (V.known view.new)) }
    ensures early { IfOk result (EarlierThan (time + 1)) }
    ensures told { IfOk result (λ told. (a : Assignment) → Agrees a (V.known view.new) → TellsArrival task.now.grid.now task.now.request a cell time told) }
{
    let Some(left) = way_left(task, &*view, arena, cell, place)? else {
        return Ok(Told::Unclear);
    };
    let Some(room) = arena.queue.floor().checked_sub(time as usize) else {
        return Ok(Told::Unclear);
    };
    if room < left as usize {
        return Ok(Told::Unclear);
    }
    if let Some(arrival) = seen_at(&*arena, cell, time) {
        return Ok(Told::Since(Hop {
            cell,
            time: arrival,
        }));
    }
    if (left as usize) < room {
        return Ok(Told::Never);
    }
    let told = ask(task, view, arena, ties, cell, place, time, left, depth)?;
    Ok(told)
}

// The same for a state of the last key that no move was seen to reach: it is entered then, or it isn't reached.
#[cycle(arriving)]
fn ask<V: CalendarView>(
    task: &Task,
    view: &mut V,
    arena: &mut Arena,
    ties: &mut Ties,
    cell: Cell,
    place: Place,
    time: u32,
    left: u32,
    depth: u32,
) -> Result<Told, Memory>
    requires ready { IsReady task.now.grid.now task.now.request task.now.horizon (V.size view.old) }
    requires paused { IsPaused task.now.grid.now task.now.request task.now.horizon (V.known view.old) (V.size view.old) arena.old }
    requires ties { AreTies task.now.grid.now task.now.request (V.known view.old) ties.old }
    requires waiting { ListsWaiting task.now.grid.now arena.old.states.items arena.old.queue.floor ties.old }
    requires cell { cell.0 < V.size view.old }
    requires place { IsPlaceOf task.now.grid.now cell place }
    requires time { time ≤ task.now.horizon }
    requires unseen { IsUnseenAt task.now.grid.now task.now.request arena.old.states.items arena.old.queue.floor cell time left }
    ensures cells { V.size view.new ≡ V.size view.old }
    ensures went { V.went view.old view.new }
    ensures kept { KeepsKnown (V.known view.old) (V.known view.new) }
    ensures serves { Serves task.now.horizon (length task.now.grid.now.cells) arena.new }
    ensures fit { HaveRoom (length task.now.grid.now.cells) ties.new }
    ensures paused { OnOk result (IsPaused task.now.grid.now task.now.request task.now.horizon (V.known view.new) (V.size view.new) arena.new) }
    ensures ties { OnOk result (AreTies task.now.grid.now task.now.request (V.known view.new) ties.new) }
    ensures waiting { OnOk result (ListsWaiting task.now.grid.now arena.new.states.items arena.new.queue.floor ties.new) }
    ensures floor { OnOk result (arena.new.queue.floor ≡ arena.old.queue.floor) }
    ensures count { OnOk result (final_count arena.new.states.items ≡ final_count arena.old.states.items) }
    ensures loaded { IfOk result (LoadedWhereSince (V.known view.new)) }
    ensures early { IfOk result (EarlierThan (time + 1)) }
    ensures told { IfOk result (λ told. (a : Assignment) → Agrees a (V.known view.new) → TellsArrival task.now.grid.now task.now.request a cell time told) }
{
    // On a large map a look at what was told costs more than these two tests, which look at no cell.
    if is_far_apart(task, &*ties, place, time) {
        return Ok(Told::Never);
    }
    if ties.few && !is_near_waiting(task, &*ties, place, time) {
        return Ok(Told::Never);
    }
    let told = ties.asked.get(cell.0 as usize);
    if told == 2 * time + 1 {
        return Ok(Told::Never);
    }
    if told == 2 * time + 2 {
        return Ok(Told::Since(Hop { cell, time }));
    }
    if is_too_far(task, ties, cell, time)? {
        return Ok(Told::Never);
    }
    let taken = is_taken(task, view, &*arena, &*ties, cell, time)?;
    if taken {
        return Ok(Told::Never);
    }
    if depth == 0 {
        return Ok(Told::Unclear);
    }
    let before = step_back(task, view, arena, ties, cell, place, time, depth - 1)?;
    match before {
        Told::Since(_) => {
            ties.asked.set(cell.0 as usize, 2 * time + 2);
            Ok(Told::Since(Hop { cell, time }))
        }
        Told::Never => {
            ties.asked.set(cell.0 as usize, 2 * time + 1);
            Ok(Told::Never)
        }
        Told::Unclear => Ok(Told::Unclear),
    }
}

// Whether the move from the one cell to the other that arrives at that time is an exchange. Who takes part in one stands then in
// the cell that is left, so none is where a state of that cell holds the time.
fn is_barred_from<V: CalendarView>(
    task: &Task,
    view: &V,
    arena: &Arena,
    from: Cell,
    to: Cell,
    entered: u32,
) -> bool
    requires ready { IsReady task.now.grid.now task.now.request task.now.horizon (V.size view.now) }
    requires paused { IsPaused task.now.grid.now task.now.request task.now.horizon (V.known view.now) (V.size view.now) arena.now }
    requires from { IsSome (V.known view.now from.0) }
    requires to { IsSome (V.known view.now to.0) }
    requires later { 0 < entered }
    requires time { entered ≤ task.now.horizon }
    ensures barred { (a : Assignment) → Agrees a (V.known view.now) → is_exchange (a from.0) (a to.0) (entered - 1) ≡ result }
{
    let here = view.calendar(from);
    let _in_order = here.records();
    if place_at(arena, from, entered).is_some() {
        return false;
    }
    crossing(here, view.calendar(to), entered - 1)
}

// Where the agent came from on that side, if the cell that is entered at that time can be reached from there.
#[cycle(arriving)]
fn side_back<V: CalendarView>(
    task: &Task,
    view: &mut V,
    arena: &mut Arena,
    ties: &mut Ties,
    at: Cell,
    neighbour: Option<Neighbour>,
    entered: u32,
    side: Side,
    depth: u32,
) -> Result<Told, Memory>
    requires ready { IsReady task.now.grid.now task.now.request task.now.horizon (V.size view.old) }
    requires paused { IsPaused task.now.grid.now task.now.request task.now.horizon (V.known view.old) (V.size view.old) arena.old }
    requires ties { AreTies task.now.grid.now task.now.request (V.known view.old) ties.old }
    requires waiting { ListsWaiting task.now.grid.now arena.old.states.items arena.old.queue.floor ties.old }
    requires known { IsSome (V.known view.old at.0) }
    requires neighbour { IsNeighbour task.now.grid.now side at neighbour }
    requires cell { at.0 < V.size view.old }
    requires time { entered ≤ task.now.horizon }
    requires free { (a : Assignment) → Agrees a (V.known view.old) → covers (a at.0) entered ≡ false }
    ensures cells { V.size view.new ≡ V.size view.old }
    ensures went { V.went view.old view.new }
    ensures kept { KeepsKnown (V.known view.old) (V.known view.new) }
    ensures serves { Serves task.now.horizon (length task.now.grid.now.cells) arena.new }
    ensures fit { HaveRoom (length task.now.grid.now.cells) ties.new }
    ensures paused { OnOk result (IsPaused task.now.grid.now task.now.request task.now.horizon (V.known view.new) (V.size view.new) arena.new) }
    ensures ties { OnOk result (AreTies task.now.grid.now task.now.request (V.known view.new) ties.new) }
    ensures waiting { OnOk result (ListsWaiting task.now.grid.now arena.new.states.items arena.new.queue.floor ties.new) }
    ensures floor { OnOk result (arena.new.queue.floor ≡ arena.old.queue.floor) }
    ensures count { OnOk result (final_count arena.new.states.items ≡ final_count arena.old.states.items) }
    ensures loaded { IfOk result (LoadedWhereSince (V.known view.new)) }
    ensures early { IfOk result (EarlierThan entered) }
    ensures told { IfOk result (λ told. (a : Assignment) → Agrees a (V.known view.new) → TellsSide task.now.grid.now task.now.request a at entered side told) }
{
    if entered == 0 {
        return Ok(Told::Never);
    }
    let Some(next) = neighbour else {
        return Ok(Told::Never);
    };
    if !task.grid.is_open(next.cell) {
        return Ok(Told::Never);
    }
    let told = arrival_at(
        task,
        view,
        arena,
        ties,
        next.cell,
        next.place,
        entered - 1,
        depth,
    )?;
    let hop = match told {
        Told::Since(hop) => hop,
        Told::Never => return Ok(Told::Never),
        Told::Unclear => return Ok(Told::Unclear),
    };
    if is_barred_from(task, &*view, &*arena, hop.cell, at, entered) {
        return Ok(Told::Never);
    }
    Ok(Told::Since(hop))
}

// The first neighbour, in the order up, left, right, down, from which the cell can be entered at that time.
#[cycle(arriving)]
fn step_back<V: CalendarView>(
    task: &Task,
    view: &mut V,
    arena: &mut Arena,
    ties: &mut Ties,
    at: Cell,
    place: Place,
    entered: u32,
    depth: u32,
) -> Result<Told, Memory>
    requires ready { IsReady task.now.grid.now task.now.request task.now.horizon (V.size view.old) }
    requires paused { IsPaused task.now.grid.now task.now.request task.now.horizon (V.known view.old) (V.size view.old) arena.old }
    requires ties { AreTies task.now.grid.now task.now.request (V.known view.old) ties.old }
    requires waiting { ListsWaiting task.now.grid.now arena.old.states.items arena.old.queue.floor ties.old }
    requires known { IsSome (V.known view.old at.0) }
    requires cell { at.0 < V.size view.old }
    requires place { IsPlaceOf task.now.grid.now at place }
    requires time { entered ≤ task.now.horizon }
    requires free { (a : Assignment) → Agrees a (V.known view.old) → covers (a at.0) entered ≡ false }
    ensures cells { V.size view.new ≡ V.size view.old }
    ensures went { V.went view.old view.new }
    ensures kept { KeepsKnown (V.known view.old) (V.known view.new) }
    ensures serves { Serves task.now.horizon (length task.now.grid.now.cells) arena.new }
    ensures fit { HaveRoom (length task.now.grid.now.cells) ties.new }
    ensures paused { OnOk result (IsPaused task.now.grid.now task.now.request task.now.horizon (V.known view.new) (V.size view.new) arena.new) }
    ensures ties { OnOk result (AreTies task.now.grid.now task.now.request (V.known view.new) ties.new) }
    ensures waiting { OnOk result (ListsWaiting task.now.grid.now arena.new.states.items arena.new.queue.floor ties.new) }
    ensures floor { OnOk result (arena.new.queue.floor ≡ arena.old.queue.floor) }
    ensures count { OnOk result (final_count arena.new.states.items ≡ final_count arena.old.states.items) }
    ensures loaded { IfOk result (LoadedWhereSince (V.known view.new)) }
    ensures early { IfOk result (EarlierThan entered) }
    ensures told { IfOk result (λ told. (a : Assignment) → Agrees a (V.known view.new) → TellsStep task.now.grid.now task.now.request a at entered told) }
{
    let all = around(task.grid, at, place);
    for rank in 0..4 {
        let side = side_at(rank);
        let next = all[rank as usize];
        let told = side_back(task, view, arena, ties, at, next, entered, side, depth)?;
        match told {
            Told::Since(hop) => return Ok(Told::Since(hop)),
            Told::Never => {}
            Told::Unclear => return Ok(Told::Unclear),
        }
    }
    Ok(Told::Never)
}

// The cells of the canonical walk, read back from the goal at its first arrival; none where that isn't clear.
pub fn read_ties<V: CalendarView>(
    alloc: Global,
    task: &Task,
    view: &mut V,
    arena: &mut Arena,
    ties: &mut Ties,
    arrival: u32,
) -> Result<Option<Vec<Cell>>, Memory>
    requires ready { IsReady task.now.grid.now task.now.request task.now.horizon (V.size view.old) }
    requires paused { IsPaused task.now.grid.now task.now.request task.now.horizon (V.known view.old) (V.size view.old) arena.old }
    requires fit { HaveRoom (length task.now.grid.now.cells) ties.old }
    requires arrival { arena.old.queue.floor ≡ arrival }
    requires start { task.now.request.start.0 < V.size view.old }
    requires goal { task.now.request.goal.0 < V.size view.old }
    ensures cells { V.size view.new ≡ V.size view.old }
    ensures went { V.went view.old view.new }
    ensures kept { KeepsKnown (V.known view.old) (V.known view.new) }
    ensures serves { Serves task.now.horizon (length task.now.grid.now.cells) arena.new }
    ensures fit { HaveRoom (length task.now.grid.now.cells) ties.new }
    ensures paused { OnOk result (IsPaused task.now.grid.now task.now.request task.now.horizon (V.known view.new) (V.size view.new) arena.new) }
    ensures floor { OnOk result (arena.new.queue.floor ≡ arena.old.queue.floor) }
    ensures count { OnOk result (final_count arena.new.states.items ≡ final_count arena.old.states.items) }
    ensures cells_back { IfOk result (λ o. IfSome o (λ v. (a : Assignment) → Agrees a (V.known view.new) → ReadsBack task.now.grid.now (traffic_by a) task.now.request task.now.request.goal arrival v.items)) }
{
    forget(task, &*arena, ties)?;
    let room = arrival.saturating_sub(task.request.depart) as usize + 1;
    let mut cells = Vec::with_capacity(alloc, room)?;
    let mut at = task.request.goal;
    let mut time = arrival;
    let place = place_of(task.grid, at);
    let mut told = step_back(task, view, arena, ties, at, place, time, DEPTH)?;
    while let Told::Since(hop) = told {
        push_hop(&mut cells, at, hop.cell, time - 1 - hop.time)?;
        at = hop.cell;
        time = hop.time;
        let place = place_of(task.grid, at);
        told = step_back(task, view, arena, ties, at, place, time, DEPTH)?;
    }
    let Told::Never = told else {
        return Ok(None);
    };
    cells.push(at)?;
    cells.reverse();
    Ok(Some(cells))
}

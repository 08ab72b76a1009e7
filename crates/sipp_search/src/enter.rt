ghost use Rattle.std.specs.Prelude.{◌≡◌, ◌≢◌, ℕ, ◌+◌, ◌-◌, ◌<◌, ◌≤◌, false, List, Option, Some, None, IsSome, OnOk, IfOk, IfSome, IfNone, length, slice_get, slice_set, max, min};
ghost use Rattle.std.specs.Bool.{OnTrue, OnFalse};
ghost use Rattle.fleet_base.specs.declared.request.Record.{Record as ARecord};
ghost use Rattle.calendars.specs.Places.{place_in};
ghost use Rattle.calendars.specs.Records.{covers, is_exchange, InOrder};
ghost use Rattle.calendars.specs.Assignments.{Assignment, Agrees};
ghost use Rattle.safe_intervals.specs.Safe.{IsIn, AnswersAt};
ghost use Rattle.static_distance.specs.Distance.{IsDistance};
ghost use Rattle.sipp_search.specs.declared.states.Spot.{Spot as ASpot};
ghost use Rattle.sipp_search.specs.declared.states.State.{State as AState};
ghost use Rattle.sipp_search.specs.declared.states.Mark.TheVariants.{Queued, Final};
ghost use Rattle.sipp_search.specs.Marks.{spots_of, keys_of, offered, offered_mark};
ghost use Rattle.sipp_search.specs.Entry.{CanEnter};
ghost use Rattle.sipp_search.specs.Gaps.{BeginsAfter};
ghost use Rattle.sipp_search.specs.Arena.{IsOfArena, ComeBefore};
ghost use Rattle.sipp_search.specs.Progress.{IsUnderWay, Improves};
ghost use Rattle.sipp_search.specs.Running.{IsReady, IsSound, Serves, KeepsSpots};
ghost use Rattle.sipp_search.specs.Visiting.{IsSource, HasLed, HasLedPast, HasLedInto};

use crate::chain::{add_queued, known_at, place_at};
use crate::states::{Arena, Mark, Spot, State};
use crate::task::Task;
use bucket_queue::BucketQueue;
use calendars::{Calendar, CalendarView};
use fleet_base::{Cell, Memory, Record};
use safe_intervals::{Interval, begun_by, crossing_at};

// The least time at which an agent that is in the first interval since that time could be in the second, if no move were an
// exchange.
fn first_entry(from: Interval, to: Interval, since: u32) -> Option<u32>
    requires until { since ≤ from.to }
    requires times { from.to ≤ 8000 }
    ensures some { IfSome result (λ e. (e ≡ max to.from (since + 1)) × (e ≤ from.to + 1) × (e ≤ to.to)) }
    ensures none { IfNone result ((here there : List ARecord) (t : ℕ) → ¬ (CanEnter here there from to since t)) }
{
    let entry = to.from.max(since + 1);
    if entry > to.to.min(from.to + 1) {
        return None;
    }
    Some(entry)
}

// Whether the move out of that spot into the other one that arrives at that time is an exchange.
#[inline(always)]
fn is_barred(here: &Calendar, there: &Calendar, from: Spot, to: Spot, entry: u32) -> bool
    requires begun { from.interval.from < entry }
    requires until { entry ≤ from.interval.to + 1 }
    requires times { from.interval.to ≤ 8000 }
    requires lands { IsIn entry to.interval }
    requires here { (t : ℕ) → IsIn t from.interval → (covers here.now t ≡ false) × (place_in t here.now ≡ from.place) }
    requires there { (t : ℕ) → IsIn t to.interval → (covers there.now t ≡ false) × (place_in t there.now ≡ to.place) }
    ensures barred { result ≡ is_exchange here.now there.now (entry - 1) }
    ensures ordered { InOrder here.now }
{
    let _in_order = here.records();
    let _there_too = there.records();
    // Who takes part in an exchange leaves at the end of the interval.
    if entry <= from.interval.to {
        return false;
    }
    crossing_at(
        here,
        from.place as usize,
        there,
        to.place as usize,
        entry - 1,
    )
}

// Whether the mark is that of a final state.
fn is_final(mark: Mark) -> bool
    ensures yes { OnTrue result ((f : ℕ) × (mark ≡ Final f)) }
    ensures no { OnFalse result ((f : ℕ) → mark ≢ Final f) }
{
    matches!(mark, Mark::Final(_))
}

// Whether an offered arrival is earlier than the one that the mark has.
fn is_better(mark: Mark, arrival: u32) -> bool
    ensures better { OnTrue result (offered_mark mark arrival ≡ Queued arrival) }
    ensures worse { OnFalse result (offered_mark mark arrival ≡ mark) }
{
    match mark {
        Mark::Unseen => true,
        Mark::Queued(known) => arrival < known,
        Mark::Final(_) => false,
    }
}

// Queues a state at an arrival, or moves it there where it was queued at a later one.
#[inline(always)]
pub fn offer(
    states: &mut Vec<State>,
    queue: &mut BucketQueue,
    id: usize,
    arrival: u32,
    key: u32,
) -> Result<(), Memory>
    requires known { id < length states.old.items }
    requires paired { queue.old.keys ≡ keys_of states.old.items }
    requires key { (s : AState) → slice_get states.old.items id ≡ Some s → key ≡ arrival + s.spot.left }
    requires low { queue.old.floor ≤ key }
    requires high { key ≤ queue.old.bound }
    ensures states { OnOk result ((s : AState) → slice_get states.old.items id ≡ Some s → states.new.items ≡ slice_set states.old.items id (offered s arrival)) }
    ensures queue { OnOk result (queue.new ≡ record queue.old { keys = keys_of states.new.items }) }
    ensures bound { queue.new.bound ≡ queue.old.bound }
{
    if is_better(states[id].mark, arrival) {
        queue.put(id, key)?;
        states[id].mark = Mark::Queued(arrival);
    }
    Ok(())
}

// Makes the move out of the spot into another one, which has no state yet, that arrives at `entry`, the earliest time that there
// could be.
#[inline(always)]
fn enter_new<V: CalendarView>(
    task: &Task,
    view: &V,
    arena: &mut Arena,
    here: &Calendar,
    there: &Calendar,
    from: Spot,
    to: Spot,
    entry: u32,
) -> Result<(), Memory>
    requires ready { IsReady task.now.grid.now task.now.request task.now.horizon (V.size view.now) }
    requires sound { IsSound task.now.grid.now task.now.request task.now.horizon (V.known view.now) (V.size view.now) arena.old }
    requires here { V.known view.now from.cell.0 ≡ Some here.now }
    requires there { V.known view.now to.cell.0 ≡ Some there.now }
    requires placed { (i : ℕ) × (slice_get (spots_of arena.old.states.items) i ≡ Some from) }
    requires to { IsOfArena task.now.grid.now task.now.request.goal task.now.horizon (V.known view.now) to }
    requires new { (i : ℕ) (p : ASpot) → slice_get (spots_of arena.old.states.items) i ≡ Some p → p.cell ≡ to.cell → p.interval ≢ to.interval }
    requires begun { from.interval.from < entry }
    requires until { entry ≤ from.interval.to + 1 }
    requires lands { IsIn entry to.interval }
    requires low { arena.old.queue.floor ≤ entry + to.left }
    requires in_time { entry + to.left ≤ task.now.horizon }
    ensures serves { Serves task.now.horizon (length task.now.grid.now.cells) arena.new }
    ensures sound { OnOk result (IsSound task.now.grid.now task.now.request task.now.horizon (V.known view.now) (V.size view.now) arena.new) }
    ensures floor { OnOk result (arena.new.queue.floor ≡ arena.old.queue.floor) }
    ensures spots { OnOk result (KeepsSpots arena.old.states.items arena.new.states.items) }
    ensures improves { OnOk result (Improves arena.old.states.items arena.new.states.items) }
    ensures led { OnOk result ((a : Assignment) (x r : ℕ) → Agrees a (V.known view.now) → IsSource task.now.grid.now task.now.request task.now.horizon a from r to.cell
        → entry ≡ max to.interval.from (r + 1)
        → IsUnderWay task.now.grid.now task.now.request task.now.horizon a arena.old.states.items arena.old.queue.floor x
        → IsUnderWay task.now.grid.now task.now.request task.now.horizon a arena.new.states.items arena.old.queue.floor x
        × HasLedInto task.now.grid.now task.now.request task.now.horizon a arena.new.states.items from r to.cell to.interval) }
    ensures before { OnOk result ((n : ℕ) → ComeBefore (spots_of arena.old.states.items) to.cell n → to.place < n → ComeBefore (spots_of arena.new.states.items) to.cell n) }
{
    // Where the earliest move is an exchange, no later one is free.
    if is_barred(here, there, from, to, entry) {
        return Ok(());
    }
    add_queued(arena, to, entry, entry + to.left)?;
    Ok(())
}

// Makes the move out of the spot into another one that arrives at `entry`, the earliest time that there could be.
#[inline(always)]
fn enter_at<V: CalendarView>(
    task: &Task,
    view: &V,
    arena: &mut Arena,
    here: &Calendar,
    there: &Calendar,
    from: Spot,
    to: Spot,
    entry: u32,
) -> Result<(), Memory>
    requires ready { IsReady task.now.grid.now task.now.request task.now.horizon (V.size view.now) }
    requires sound { IsSound task.now.grid.now task.now.request task.now.horizon (V.known view.now) (V.size view.now) arena.old }
    requires here { V.known view.now from.cell.0 ≡ Some here.now }
    requires there { V.known view.now to.cell.0 ≡ Some there.now }
    requires placed { (i : ℕ) × (slice_get (spots_of arena.old.states.items) i ≡ Some from) }
    requires to { IsOfArena task.now.grid.now task.now.request.goal task.now.horizon (V.known view.now) to }
    requires begun { from.interval.from < entry }
    requires until { entry ≤ from.interval.to + 1 }
    requires lands { IsIn entry to.interval }
    requires low { arena.old.queue.floor ≤ entry + to.left }
    requires in_time { entry + to.left ≤ task.now.horizon }
    ensures serves { Serves task.now.horizon (length task.now.grid.now.cells) arena.new }
    ensures sound { OnOk result (IsSound task.now.grid.now task.now.request task.now.horizon (V.known view.now) (V.size view.now) arena.new) }
    ensures floor { OnOk result (arena.new.queue.floor ≡ arena.old.queue.floor) }
    ensures spots { OnOk result (KeepsSpots arena.old.states.items arena.new.states.items) }
    ensures improves { OnOk result (Improves arena.old.states.items arena.new.states.items) }
    ensures led { OnOk result ((a : Assignment) (x r : ℕ) → Agrees a (V.known view.now) → IsSource task.now.grid.now task.now.request task.now.horizon a from r to.cell
        → entry ≡ max to.interval.from (r + 1)
        → IsUnderWay task.now.grid.now task.now.request task.now.horizon a arena.old.states.items arena.old.queue.floor x
        → IsUnderWay task.now.grid.now task.now.request task.now.horizon a arena.new.states.items arena.old.queue.floor x
        × HasLedInto task.now.grid.now task.now.request task.now.horizon a arena.new.states.items from r to.cell to.interval) }
{
    // Where the earliest move is an exchange, no later one is free. That is asked first, since most such moves in a warehouse are.
    if is_barred(here, there, from, to, entry) {
        return Ok(());
    }
    let _in_order = there.records();
    let key = entry + to.left;
    let Some(id) = known_at(&*arena, to.cell, to.place) else {
        add_queued(arena, to, entry, key)?;
        return Ok(());
    };
    offer(&mut arena.states, &mut arena.queue, id, entry, key)?;
    Ok(())
}

// The latest arrival that is of use: who leaves has left by then, and the way that is left ends by the horizon. None where
// that isn't after the arrival in the spot.
#[inline(always)]
fn last_entry(task: &Task, from: Spot, arrival: u32, left: u32) -> Option<u32>
    requires times { from.interval.to ≤ 8000 }
    requires until { arrival ≤ from.interval.to }
    ensures some { IfSome result (λ last. (last ≡ min (task.now.horizon - left) (from.interval.to + 1)) × (left ≤ task.now.horizon) × (arrival < last)) }
    ensures none { IfNone result (task.now.horizon ≤ arrival + left) }
{
    let room = task.horizon.checked_sub(left)?;
    let last = room.min(from.interval.to + 1);
    if last <= arrival {
        return None;
    }
    Some(last)
}

// When the gap after so many records begins, where that is by `last`.
#[inline(always)]
fn begin_by(records: &[Record], place: usize, last: u32) -> Option<u32>
    requires place { place ≤ length records.now }
    ensures some { IfSome result (λ begin. (begin ≤ last) × BeginsAfter records.now place begin) }
    ensures none { IfNone result ((0 < place) × ((r : ARecord) × (slice_get records.now (place - 1) ≡ Some r) × (last ≤ r.to))) }
{
    if place == 0 {
        return Some(0);
    }
    let gone = records[place - 1].to;
    if gone >= last {
        return None;
    }
    Some(gone + 1)
}

// The gap after so many records, as `gap_at` gives it, where it is known when it begins.
#[inline(always)]
fn gap_since(records: &[Record], place: usize, begin: u32, horizon: u32) -> Option<Interval>
    requires horizon { horizon ≤ 8000 }
    requires ordered { InOrder records.now }
    requires place { place ≤ length records.now }
    requires begin { BeginsAfter records.now place begin }
    requires within { begin ≤ horizon }
    ensures gap { AnswersAt records.now horizon place result }
    ensures from { IfSome result (λ i. i.from ≡ begin) }
{
    let mut to = horizon;
    if place < records.len() {
        let next = records[place].from;
        if next <= begin {
            return None;
        }
        to = to.min(next - 1);
    }
    Some(Interval { from: begin, to })
}

// Makes the moves out of the spot, where the agent is since `arrival`, into the safe intervals of the cell that come after
// so many of its records or more.
fn enter_later<V: CalendarView>(
    task: &Task,
    view: &V,
    arena: &mut Arena,
    from: Spot,
    arrival: u32,
    to: Cell,
    left: u32,
    first: usize,
) -> Result<(), Memory>
    requires ready { IsReady task.now.grid.now task.now.request task.now.horizon (V.size view.now) }
    requires sound { IsSound task.now.grid.now task.now.request task.now.horizon (V.known view.now) (V.size view.now) arena.old }
    requires placed { (i : ℕ) × (slice_get (spots_of arena.old.states.items) i ≡ Some from) }
    requires arrived { IsIn arrival from.interval }
    requires cell { to.0 < V.size view.now }
    requires there { IsSome (V.known view.now to.0) }
    requires distance { IsDistance task.now.grid.now task.now.request.goal to left }
    requires low { arena.old.queue.floor ≤ arrival + 1 + left }
    ensures serves { Serves task.now.horizon (length task.now.grid.now.cells) arena.new }
    ensures sound { OnOk result (IsSound task.now.grid.now task.now.request task.now.horizon (V.known view.now) (V.size view.now) arena.new) }
    ensures floor { OnOk result (arena.new.queue.floor ≡ arena.old.queue.floor) }
    ensures spots { OnOk result (KeepsSpots arena.old.states.items arena.new.states.items) }
    ensures improves { OnOk result (Improves arena.old.states.items arena.new.states.items) }
    ensures led { OnOk result ((a : Assignment) (x : ℕ) → Agrees a (V.known view.now) → IsSource task.now.grid.now task.now.request task.now.horizon a from arrival to
        → IsUnderWay task.now.grid.now task.now.request task.now.horizon a arena.old.states.items arena.old.queue.floor x
        → IsUnderWay task.now.grid.now task.now.request task.now.horizon a arena.new.states.items arena.old.queue.floor x
        × HasLedPast task.now.grid.now task.now.request task.now.horizon a arena.new.states.items from arrival to first) }
{
    let Some(last) = last_entry(task, from, arrival, left) else {
        return Ok(());
    };
    let here = view.calendar(from.cell);
    let there = view.calendar(to);
    let records = there.records();
    for place in first..records.len() + 1 {
        let Some(begin) = begin_by(records, place, last) else {
            return Ok(());
        };
        if let Some(interval) = gap_since(records, place, begin, task.horizon) {
            let entry = begin.max(arrival + 1);
            if entry <= interval.to {
                let spot = Spot {
                    cell: to,
                    interval,
                    left,
                    place: place as u32,
                    older: 0,
                };
                enter_at(task, view, arena, here, there, from, spot, entry)?;
            }
        }
    }
    Ok(())
}

// Makes the moves out of the spot, where the agent is since `arrival`, into the safe intervals of the cell that come after
// so many of its records or more. The cell has no state of any of them yet, so none is looked for.
fn enter_fresh<V: CalendarView>(
    task: &Task,
    view: &V,
    arena: &mut Arena,
    from: Spot,
    arrival: u32,
    to: Cell,
    left: u32,
    first: usize,
) -> Result<(), Memory>
    requires ready { IsReady task.now.grid.now task.now.request task.now.horizon (V.size view.now) }
    requires sound { IsSound task.now.grid.now task.now.request task.now.horizon (V.known view.now) (V.size view.now) arena.old }
    requires placed { (i : ℕ) × (slice_get (spots_of arena.old.states.items) i ≡ Some from) }
    requires arrived { IsIn arrival from.interval }
    requires cell { to.0 < V.size view.now }
    requires there { IsSome (V.known view.now to.0) }
    requires distance { IsDistance task.now.grid.now task.now.request.goal to left }
    requires low { arena.old.queue.floor ≤ arrival + 1 + left }
    requires fresh { ComeBefore (spots_of arena.old.states.items) to first }
    ensures serves { Serves task.now.horizon (length task.now.grid.now.cells) arena.new }
    ensures sound { OnOk result (IsSound task.now.grid.now task.now.request task.now.horizon (V.known view.now) (V.size view.now) arena.new) }
    ensures floor { OnOk result (arena.new.queue.floor ≡ arena.old.queue.floor) }
    ensures spots { OnOk result (KeepsSpots arena.old.states.items arena.new.states.items) }
    ensures improves { OnOk result (Improves arena.old.states.items arena.new.states.items) }
    ensures led { OnOk result ((a : Assignment) (x : ℕ) → Agrees a (V.known view.now) → IsSource task.now.grid.now task.now.request task.now.horizon a from arrival to
        → IsUnderWay task.now.grid.now task.now.request task.now.horizon a arena.old.states.items arena.old.queue.floor x
        → IsUnderWay task.now.grid.now task.now.request task.now.horizon a arena.new.states.items arena.old.queue.floor x
        × HasLedPast task.now.grid.now task.now.request task.now.horizon a arena.new.states.items from arrival to first) }
{
    let Some(last) = last_entry(task, from, arrival, left) else {
        return Ok(());
    };
    let here = view.calendar(from.cell);
    let there = view.calendar(to);
    let records = there.records();
    for place in first..records.len() + 1 {
        let Some(begin) = begin_by(records, place, last) else {
            return Ok(());
        };
        if let Some(interval) = gap_since(records, place, begin, task.horizon) {
            let entry = begin.max(arrival + 1);
            if entry <= interval.to {
                let spot = Spot {
                    cell: to,
                    interval,
                    left,
                    place: place as u32,
                    older: 0,
                };
                enter_new(task, view, arena, here, there, from, spot, entry)?;
            }
        }
    }
    Ok(())
}

// Makes the moves out of the spot, where the agent is since `arrival`, into the safe intervals of a known cell beside it that
// has no state yet.
#[inline(always)]
pub fn enter_first<V: CalendarView>(
    task: &Task,
    view: &V,
    arena: &mut Arena,
    from: Spot,
    arrival: u32,
    to: Cell,
    left: u32,
) -> Result<(), Memory>
    requires ready { IsReady task.now.grid.now task.now.request task.now.horizon (V.size view.now) }
    requires sound { IsSound task.now.grid.now task.now.request task.now.horizon (V.known view.now) (V.size view.now) arena.old }
    requires placed { (i : ℕ) × (slice_get (spots_of arena.old.states.items) i ≡ Some from) }
    requires arrived { IsIn arrival from.interval }
    requires cell { to.0 < V.size view.now }
    requires there { IsSome (V.known view.now to.0) }
    requires distance { IsDistance task.now.grid.now task.now.request.goal to left }
    requires low { arena.old.queue.floor ≤ arrival + 1 + left }
    requires fresh { slice_get arena.old.newest to.0 ≡ Some 0 }
    ensures serves { Serves task.now.horizon (length task.now.grid.now.cells) arena.new }
    ensures sound { OnOk result (IsSound task.now.grid.now task.now.request task.now.horizon (V.known view.now) (V.size view.now) arena.new) }
    ensures floor { OnOk result (arena.new.queue.floor ≡ arena.old.queue.floor) }
    ensures spots { OnOk result (KeepsSpots arena.old.states.items arena.new.states.items) }
    ensures improves { OnOk result (Improves arena.old.states.items arena.new.states.items) }
    ensures led { OnOk result ((a : Assignment) (x : ℕ) → Agrees a (V.known view.now) → IsSource task.now.grid.now task.now.request task.now.horizon a from arrival to
        → IsUnderWay task.now.grid.now task.now.request task.now.horizon a arena.old.states.items arena.old.queue.floor x
        → IsUnderWay task.now.grid.now task.now.request task.now.horizon a arena.new.states.items arena.old.queue.floor x
        × HasLed task.now.grid.now task.now.request task.now.horizon a arena.new.states.items from arrival to) }
{
    let first = begun_by(view.calendar(to), from.place as usize, arrival + 1);
    enter_fresh(task, view, arena, from, arrival, to, left, first)?;
    Ok(())
}

// Makes the earliest move out of the spot, where the agent is since `arrival`, into the one of that state.
#[inline(always)]
fn enter_known<V: CalendarView>(
    task: &Task,
    view: &V,
    arena: &mut Arena,
    from: Spot,
    arrival: u32,
    id: usize,
    state: State,
) -> Result<(), Memory>
    requires ready { IsReady task.now.grid.now task.now.request task.now.horizon (V.size view.now) }
    requires sound { IsSound task.now.grid.now task.now.request task.now.horizon (V.known view.now) (V.size view.now) arena.old }
    requires placed { (i : ℕ) × (slice_get (spots_of arena.old.states.items) i ≡ Some from) }
    requires arrived { IsIn arrival from.interval }
    requires known { slice_get arena.old.states.items id ≡ Some state }
    requires low { arena.old.queue.floor ≤ arrival + 1 + state.spot.left }
    ensures serves { Serves task.now.horizon (length task.now.grid.now.cells) arena.new }
    ensures sound { OnOk result (IsSound task.now.grid.now task.now.request task.now.horizon (V.known view.now) (V.size view.now) arena.new) }
    ensures floor { OnOk result (arena.new.queue.floor ≡ arena.old.queue.floor) }
    ensures spots { OnOk result (KeepsSpots arena.old.states.items arena.new.states.items) }
    ensures improves { OnOk result (Improves arena.old.states.items arena.new.states.items) }
    ensures led { OnOk result ((a : Assignment) (x : ℕ) → Agrees a (V.known view.now)
        → IsSource task.now.grid.now task.now.request task.now.horizon a from arrival state.spot.cell
        → IsUnderWay task.now.grid.now task.now.request task.now.horizon a arena.old.states.items arena.old.queue.floor x
        → IsUnderWay task.now.grid.now task.now.request task.now.horizon a arena.new.states.items arena.old.queue.floor x
        × HasLedInto task.now.grid.now task.now.request task.now.horizon a arena.new.states.items from arrival state.spot.cell state.spot.interval) }
{
    // A final state has the least arrival, so none is news there.
    if is_final(state.mark) {
        return Ok(());
    }
    let to = state.spot;
    let Some(entry) = first_entry(from.interval, to.interval, arrival) else {
        return Ok(());
    };
    let Some(room) = task.horizon.checked_sub(entry) else {
        return Ok(());
    };
    if to.left > room {
        return Ok(());
    }
    if !is_better(state.mark, entry) {
        return Ok(());
    }
    // Where the earliest move is an exchange, no later one is free.
    let here = view.calendar(from.cell);
    if is_barred(here, view.calendar(to.cell), from, to, entry) {
        return Ok(());
    }
    offer(
        &mut arena.states,
        &mut arena.queue,
        id,
        entry,
        entry + to.left,
    )?;
    Ok(())
}

// Makes the moves out of the spot, where the agent is since `arrival`, into the safe intervals of a known cell beside it.
#[inline(always)]
fn enter_each<V: CalendarView>(
    task: &Task,
    view: &V,
    arena: &mut Arena,
    from: Spot,
    arrival: u32,
    to: Cell,
    left: u32,
    guess: usize,
) -> Result<(), Memory>
    requires ready { IsReady task.now.grid.now task.now.request task.now.horizon (V.size view.now) }
    requires sound { IsSound task.now.grid.now task.now.request task.now.horizon (V.known view.now) (V.size view.now) arena.old }
    requires placed { (i : ℕ) × (slice_get (spots_of arena.old.states.items) i ≡ Some from) }
    requires arrived { IsIn arrival from.interval }
    requires cell { to.0 < V.size view.now }
    requires there { IsSome (V.known view.now to.0) }
    requires distance { IsDistance task.now.grid.now task.now.request.goal to left }
    requires low { arena.old.queue.floor ≤ arrival + 1 + left }
    ensures serves { Serves task.now.horizon (length task.now.grid.now.cells) arena.new }
    ensures sound { OnOk result (IsSound task.now.grid.now task.now.request task.now.horizon (V.known view.now) (V.size view.now) arena.new) }
    ensures floor { OnOk result (arena.new.queue.floor ≡ arena.old.queue.floor) }
    ensures spots { OnOk result (KeepsSpots arena.old.states.items arena.new.states.items) }
    ensures improves { OnOk result (Improves arena.old.states.items arena.new.states.items) }
    ensures led { OnOk result ((a : Assignment) (x : ℕ) → Agrees a (V.known view.now) → IsSource task.now.grid.now task.now.request task.now.horizon a from arrival to
        → IsUnderWay task.now.grid.now task.now.request task.now.horizon a arena.old.states.items arena.old.queue.floor x
        → IsUnderWay task.now.grid.now task.now.request task.now.horizon a arena.new.states.items arena.old.queue.floor x
        × HasLed task.now.grid.now task.now.request task.now.horizon a arena.new.states.items from arrival to) }
{
    let first = begun_by(view.calendar(to), guess, arrival + 1);
    enter_later(task, view, arena, from, arrival, to, left, first)?;
    Ok(())
}

// The same. Where a state of the cell holds the time of the earliest arrival, its interval needs no search.
#[inline(always)]
pub fn move_into<V: CalendarView>(
    task: &Task,
    view: &V,
    arena: &mut Arena,
    from: Spot,
    arrival: u32,
    to: Cell,
    left: u32,
    guess: usize,
) -> Result<(), Memory>
    requires ready { IsReady task.now.grid.now task.now.request task.now.horizon (V.size view.now) }
    requires sound { IsSound task.now.grid.now task.now.request task.now.horizon (V.known view.now) (V.size view.now) arena.old }
    requires placed { (i : ℕ) × (slice_get (spots_of arena.old.states.items) i ≡ Some from) }
    requires arrived { IsIn arrival from.interval }
    requires cell { to.0 < V.size view.now }
    requires there { IsSome (V.known view.now to.0) }
    requires distance { IsDistance task.now.grid.now task.now.request.goal to left }
    requires low { arena.old.queue.floor ≤ arrival + 1 + left }
    ensures serves { Serves task.now.horizon (length task.now.grid.now.cells) arena.new }
    ensures sound { OnOk result (IsSound task.now.grid.now task.now.request task.now.horizon (V.known view.now) (V.size view.now) arena.new) }
    ensures floor { OnOk result (arena.new.queue.floor ≡ arena.old.queue.floor) }
    ensures spots { OnOk result (KeepsSpots arena.old.states.items arena.new.states.items) }
    ensures improves { OnOk result (Improves arena.old.states.items arena.new.states.items) }
    ensures led { OnOk result ((a : Assignment) (x : ℕ) → Agrees a (V.known view.now) → IsSource task.now.grid.now task.now.request task.now.horizon a from arrival to
        → IsUnderWay task.now.grid.now task.now.request task.now.horizon a arena.old.states.items arena.old.queue.floor x
        → IsUnderWay task.now.grid.now task.now.request task.now.horizon a arena.new.states.items arena.old.queue.floor x
        × HasLed task.now.grid.now task.now.request task.now.horizon a arena.new.states.items from arrival to) }
{
    let Some(id) = place_at(&*arena, to, arrival + 1) else {
        return enter_each(task, view, arena, from, arrival, to, left, guess);
    };
    let there = view.calendar(to);
    let _in_order = there.records();
    let state = arena.states[id];
    let spot = state.spot;
    enter_known(task, view, arena, from, arrival, id, state)?;
    if from.interval.to <= spot.interval.to {
        return Ok(());
    }
    enter_later(
        task,
        view,
        arena,
        from,
        arrival,
        to,
        left,
        spot.place as usize + 1,
    )?;
    Ok(())
}

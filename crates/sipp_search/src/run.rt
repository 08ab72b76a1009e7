ghost use Rattle.std.specs.Prelude.{◌≡◌, ◌≢◌, ℕ, ◌+◌, ◌<◌, ◌≤◌, List, Option, Some, None, IsSome, OnOk, IfOk, IfSome, IfNone, length, slice_get, unwrap_or};
ghost use Rattle.std.specs.Bool.{OnTrue, OnFalse};
ghost use Rattle.fleet_base.specs.declared.request.Record.{Record};
ghost use Rattle.calendars.specs.Assignments.{Assignment, Agrees};
ghost use Rattle.safe_intervals.specs.declared.interval.Interval.{Interval};
ghost use Rattle.safe_intervals.specs.Safe.{IsSafeInterval};
ghost use Rattle.sipp_search.specs.declared.states.Spot.{Spot as ASpot};
ghost use Rattle.sipp_search.specs.Marks.{keys_of, final, final_count};
ghost use Rattle.sipp_search.specs.Answer.{AreListsOf, IsFoundWalk, interval_count};
ghost use Rattle.sipp_search.specs.Back.{IsOn};
ghost use Rattle.sipp_search.specs.Ties.{IsPaused, IsFirstArrival};
ghost use Rattle.sipp_search.specs.Progress.{IsUnderWay};
ghost use Rattle.sipp_search.specs.Running.{IsReady, IsSound, Serves, KeepsKnown, SettlesNext, AreAbove, IsOver, Ends, MayEndIn, NeverEndsIn, LoadsFor, LoadsInAll};

use crate::begin::{begin, prepare};
use crate::expand::expand;
use crate::states::{Arena, Mark, Spot, State, Taken};
use crate::steps::Steps;
use crate::task::Task;
use calendars::CalendarView;
use fleet_base::Memory;
use std::sync::ledger::Ledger;

// Takes the queued state of the least key, where that is at most the limit: its arrival is final then.
fn settle_next(arena: &mut Arena, limit: u32) -> Option<Taken>
    requires { arena.old.queue.keys ≡ keys_of arena.old.states.items }
    ensures some { IfSome result (λ taken. SettlesNext arena.old arena.new limit taken) }
    ensures above { IfNone result (AreAbove arena.old.states.items limit) }
    ensures none { IfNone result (arena.new ≡ arena.old) }
{
    let Some(id) = arena.queue.take(limit) else {
        return None;
    };
    let state = arena.states[id];
    let Mark::Queued(arrival) = state.mark else {
        unreachable!();
    };
    arena.states[id] = State {
        spot: state.spot,
        mark: Mark::Final(arrival),
    };
    Some(Taken {
        id,
        spot: state.spot,
        arrival,
    })
}

// Whether an agent of the request may end in the spot: who stays needs an interval that is followed by no record.
fn may_end<V: CalendarView>(task: &Task, view: &V, spot: Spot) -> bool
    requires horizon { task.now.horizon ≤ 8000 }
    requires known { IsSome (V.known view.now spot.cell.0) }
    requires safe { (records : List Record) → V.known view.now spot.cell.0 ≡ Some records → IsSafeInterval records task.now.horizon spot.interval }
    ensures yes { OnTrue result (MayEndIn task.now.request (V.known view.now) spot) }
    ensures no { OnFalse result (NeverEndsIn task.now.request (V.known view.now) spot) }
{
    if spot.cell.0 != task.request.goal.0 {
        return false;
    }
    if !task.request.stay {
        return true;
    }
    if spot.interval.to != task.horizon {
        return false;
    }
    let calendar = view.calendar(spot.cell);
    if calendar.place_of(task.horizon) != calendar.records().len() {
        return false;
    }
    true
}

// The first arrival at which an agent may end, after one more state.
fn first_end<V: CalendarView>(
    task: &Task,
    view: &V,
    taken: Taken,
    found: Option<u32>,
) -> Option<u32>
    requires horizon { task.now.horizon ≤ 8000 }
    requires known { IsSome (V.known view.now taken.spot.cell.0) }
    requires safe { (records : List Record) → V.known view.now taken.spot.cell.0 ≡ Some records → IsSafeInterval records task.now.horizon taken.spot.interval }
    ensures kept { IfSome found (λ t. result ≡ Some t) }
    ensures ends { found ≡ None → IfSome result (λ t. (t ≡ taken.arrival) × MayEndIn task.now.request (V.known view.now) taken.spot) }
    ensures never { found ≡ None → IfNone result (NeverEndsIn task.now.request (V.known view.now) taken.spot) }
{
    if found.is_some() {
        return found;
    }
    if may_end(task, view, taken.spot) {
        return Some(taken.arrival);
    }
    None
}

// Settles the queued states in the order of their keys: all up to the arrival at the goal, or up to the horizon where the
// goal isn't reached. Gives that arrival.
fn run<V: CalendarView, L: Ledger>(
    task: &Task,
    view: &mut V,
    arena: &mut Arena,
    steps: &mut Steps<L>,
) -> Result<Option<u32>, Memory>
    requires ready { IsReady task.now.grid.now task.now.request task.now.horizon (V.size view.old) }
    requires sound { IsSound task.now.grid.now task.now.request task.now.horizon (V.known view.old) (V.size view.old) arena.old }
    requires floor { arena.old.queue.floor ≤ task.now.horizon }
    requires none_final { (i r : ℕ) (p : ASpot) → slice_get arena.old.states.items i ≢ Some (final p r) }
    requires none_counted { final_count arena.old.states.items ≡ 0 }
    requires way { (a : Assignment) (x : ℕ) → Agrees a (V.known view.old) → IsUnderWay task.now.grid.now task.now.request task.now.horizon a arena.old.states.items arena.old.queue.floor x }
    ensures cells { V.size view.new ≡ V.size view.old }
    ensures went { V.went view.old view.new }
    ensures kept { KeepsKnown (V.known view.old) (V.known view.new) }
    ensures takes { (lists : ℕ → List Interval) → AreListsOf (V.known view.new) task.now.horizon lists → steps.new ≤ steps.old + interval_count (V.known view.new) lists (V.size view.new) }
    ensures rises { steps.old ≤ steps.new }
    ensures counted { OnOk result (steps.new ≡ steps.old + final_count arena.new.states.items) }
    ensures serves { Serves task.now.horizon (length task.now.grid.now.cells) arena.new }
    ensures sound { OnOk result (IsSound task.now.grid.now task.now.request task.now.horizon (V.known view.new) (V.size view.new) arena.new) }
    ensures loads { OnOk result (LoadsFor task.now.grid.now (V.known view.old) (V.known view.new) arena.new.states.items) }
    ensures in_time { IfOk result (λ found. unwrap_or found task.now.horizon ≤ task.now.horizon) }
    ensures over { IfOk result (λ found. (a : Assignment) → Agrees a (V.known view.new)
        → IsOver task.now.grid.now task.now.request task.now.horizon a arena.new.states.items (unwrap_or found task.now.horizon)) }
    ensures ends { IfOk result (λ found. (a : Assignment) → Agrees a (V.known view.new) → Ends task.now.request a arena.new.states.items found) }
{
    let mut found = None;
    while let Some(taken) = settle_next(arena, found.unwrap_or(task.horizon)) {
        steps.tick();
        expand(task, view, arena, taken)?;
        found = first_end(task, &*view, taken, found);
    }
    Ok(found)
}

// Settles the queued states in the order of their keys up to the first one in which an agent may end. Gives its arrival.
fn run_first<V: CalendarView, L: Ledger>(
    task: &Task,
    view: &mut V,
    arena: &mut Arena,
    steps: &mut Steps<L>,
) -> Result<Option<u32>, Memory>
    requires ready { IsReady task.now.grid.now task.now.request task.now.horizon (V.size view.old) }
    requires sound { IsSound task.now.grid.now task.now.request task.now.horizon (V.known view.old) (V.size view.old) arena.old }
    requires floor { arena.old.queue.floor ≤ task.now.horizon }
    requires none_final { (i r : ℕ) (p : ASpot) → slice_get arena.old.states.items i ≢ Some (final p r) }
    requires none_counted { final_count arena.old.states.items ≡ 0 }
    requires way { (a : Assignment) (x : ℕ) → Agrees a (V.known view.old) → IsUnderWay task.now.grid.now task.now.request task.now.horizon a arena.old.states.items arena.old.queue.floor x }
    ensures cells { V.size view.new ≡ V.size view.old }
    ensures went { V.went view.old view.new }
    ensures kept { KeepsKnown (V.known view.old) (V.known view.new) }
    ensures takes { (lists : ℕ → List Interval) → AreListsOf (V.known view.new) task.now.horizon lists → steps.new ≤ steps.old + interval_count (V.known view.new) lists (V.size view.new) }
    ensures rises { steps.old ≤ steps.new }
    ensures counted { OnOk result (steps.new ≡ steps.old + final_count arena.new.states.items) }
    ensures serves { Serves task.now.horizon (length task.now.grid.now.cells) arena.new }
    ensures paused { IfOk result (λ o. IfSome o (λ t. IsPaused task.now.grid.now task.now.request task.now.horizon (V.known view.new) (V.size view.new) arena.new × (arena.new.queue.floor ≡ t))) }
    ensures first { IfOk result (λ o. IfSome o (λ t. (a : Assignment) → Agrees a (V.known view.new) → IsFirstArrival task.now.grid.now task.now.request a t)) }
    ensures none { IfOk result (λ o. IfNone o ((a : Assignment) → Agrees a (V.known view.new) → IsFoundWalk task.now.grid.now task.now.horizon a task.now.request None)) }
{
    while let Some(taken) = settle_next(arena, task.horizon) {
        steps.tick();
        expand(task, view, arena, taken)?;
        if may_end(task, &*view, taken.spot) {
            return Ok(Some(taken.arrival));
        }
    }
    Ok(None)
}

// Settles the rest of the states whose key is the limit, which is the last key that was taken.
pub fn settle_ties<V: CalendarView, L: Ledger>(
    task: &Task,
    view: &mut V,
    arena: &mut Arena,
    steps: &mut Steps<L>,
    limit: u32,
) -> Result<(), Memory>
    requires ready { IsReady task.now.grid.now task.now.request task.now.horizon (V.size view.old) }
    requires paused { IsPaused task.now.grid.now task.now.request task.now.horizon (V.known view.old) (V.size view.old) arena.old }
    requires limit { arena.old.queue.floor ≡ limit }
    ensures cells { V.size view.new ≡ V.size view.old }
    ensures went { V.went view.old view.new }
    ensures kept { KeepsKnown (V.known view.old) (V.known view.new) }
    ensures takes { (lists : ℕ → List Interval) → AreListsOf (V.known view.new) task.now.horizon lists → steps.new + final_count arena.old.states.items ≤ steps.old + interval_count (V.known view.new) lists (V.size view.new) }
    ensures rises { steps.old ≤ steps.new }
    ensures serves { Serves task.now.horizon (length task.now.grid.now.cells) arena.new }
    ensures sound { OnOk result (IsSound task.now.grid.now task.now.request task.now.horizon (V.known view.new) (V.size view.new) arena.new) }
    ensures on { OnOk result (IsOn arena.new.states.items task.now.request.goal limit) }
    ensures over { OnOk result ((a : Assignment) → Agrees a (V.known view.new) → IsOver task.now.grid.now task.now.request task.now.horizon a arena.new.states.items limit) }
{
    while let Some(taken) = settle_next(arena, limit) {
        steps.tick();
        expand(task, view, arena, taken)?;
    }
    Ok(())
}

// A whole search. It begins with nothing touched, whatever is in the arena.
pub fn settle<V: CalendarView, L: Ledger>(
    task: &Task,
    view: &mut V,
    arena: &mut Arena,
    steps: &mut Steps<L>,
) -> Result<Option<u32>, Memory>
    requires ready { IsReady task.now.grid.now task.now.request task.now.horizon (V.size view.old) }
    requires serves { Serves task.now.horizon (length task.now.grid.now.cells) arena.old }
    requires start { task.now.request.start.0 < V.size view.old }
    requires goal { task.now.request.goal.0 < V.size view.old }
    ensures cells { V.size view.new ≡ V.size view.old }
    ensures went { V.went view.old view.new }
    ensures kept { KeepsKnown (V.known view.old) (V.known view.new) }
    ensures takes { (lists : ℕ → List Interval) → AreListsOf (V.known view.new) task.now.horizon lists → steps.new ≤ steps.old + interval_count (V.known view.new) lists (V.size view.new) }
    ensures rises { steps.old ≤ steps.new }
    ensures counted { OnOk result (steps.new ≡ steps.old + final_count arena.new.states.items) }
    ensures serves { Serves task.now.horizon (length task.now.grid.now.cells) arena.new }
    ensures sound { OnOk result (IsSound task.now.grid.now task.now.request task.now.horizon (V.known view.new) (V.size view.new) arena.new) }
    ensures loads { OnOk result (LoadsInAll task.now.grid.now task.now.request (V.known view.old) (V.known view.new) arena.new.states.items) }
    ensures in_time { IfOk result (λ found. unwrap_or found task.now.horizon ≤ task.now.horizon) }
    ensures over { IfOk result (λ found. (a : Assignment) → Agrees a (V.known view.new)
        → IsOver task.now.grid.now task.now.request task.now.horizon a arena.new.states.items (unwrap_or found task.now.horizon)) }
    ensures ends { IfOk result (λ found. (a : Assignment) → Agrees a (V.known view.new) → Ends task.now.request a arena.new.states.items found) }
{
    prepare(task, arena)?;
    begin(task, view, arena)?;
    let found = run(task, view, arena, steps)?;
    Ok(found)
}

// The same up to the first arrival at the goal.
pub fn settle_first<V: CalendarView, L: Ledger>(
    task: &Task,
    view: &mut V,
    arena: &mut Arena,
    steps: &mut Steps<L>,
) -> Result<Option<u32>, Memory>
    requires ready { IsReady task.now.grid.now task.now.request task.now.horizon (V.size view.old) }
    requires serves { Serves task.now.horizon (length task.now.grid.now.cells) arena.old }
    requires start { task.now.request.start.0 < V.size view.old }
    requires goal { task.now.request.goal.0 < V.size view.old }
    ensures cells { V.size view.new ≡ V.size view.old }
    ensures went { V.went view.old view.new }
    ensures kept { KeepsKnown (V.known view.old) (V.known view.new) }
    ensures takes { (lists : ℕ → List Interval) → AreListsOf (V.known view.new) task.now.horizon lists → steps.new ≤ steps.old + interval_count (V.known view.new) lists (V.size view.new) }
    ensures rises { steps.old ≤ steps.new }
    ensures counted { OnOk result (steps.new ≡ steps.old + final_count arena.new.states.items) }
    ensures serves { Serves task.now.horizon (length task.now.grid.now.cells) arena.new }
    ensures paused { IfOk result (λ o. IfSome o (λ t. IsPaused task.now.grid.now task.now.request task.now.horizon (V.known view.new) (V.size view.new) arena.new × (arena.new.queue.floor ≡ t))) }
    ensures first { IfOk result (λ o. IfSome o (λ t. (a : Assignment) → Agrees a (V.known view.new) → IsFirstArrival task.now.grid.now task.now.request a t)) }
    ensures none { IfOk result (λ o. IfNone o ((a : Assignment) → Agrees a (V.known view.new) → IsFoundWalk task.now.grid.now task.now.horizon a task.now.request None)) }
{
    prepare(task, arena)?;
    begin(task, view, arena)?;
    let found = run_first(task, view, arena, steps)?;
    Ok(found)
}

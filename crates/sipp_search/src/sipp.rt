ghost use Rattle.std.specs.Prelude.{◌≡◌, ℕ, ◌+◌, ◌<◌, ◌≤◌, ◌⊎◌, List, IsSome, IfOk, length};
ghost use Rattle.calendars.specs.Assignments.{Assignment, Agrees};
ghost use Rattle.safe_intervals.specs.declared.interval.Interval.{Interval};
ghost use Rattle.sipp_search.specs.Answer.{IsAnswerOf, IsFoundWalk, table_in, IsNeeded, AreListsOf, interval_count};
ghost use Rattle.sipp_search.specs.Running.{Serves, KeepsKnown};
ghost use Rattle.sipp_search.specs.Ties.{HaveRoom};

use crate::answer::Found;
use crate::reply::{answer, first_walk};
use crate::run::{settle, settle_first};
use crate::states::Arena;
use crate::steps::Steps;
use crate::task::Task;
use crate::ties::Ties;
use calendars::CalendarView;
use fleet_base::{Memory, Walk};
use std::alloc::Global;
use std::sync::ledger::Ledger;

// Searches in an arena, whatever is in it.
pub fn search_in<V: CalendarView, L: Ledger>(
    alloc: Global,
    task: &Task,
    view: &mut V,
    arena: &mut Arena,
    steps: &mut Steps<L>,
) -> Result<Found, Memory>
    requires start { task.now.request.start.0 < length task.now.grid.now.cells }
    requires goal { task.now.request.goal.0 < length task.now.grid.now.cells }
    requires horizon { task.now.horizon ≤ 8000 }
    requires cells { V.size view.old ≡ length task.now.grid.now.cells }
    requires serves { Serves task.now.horizon (length task.now.grid.now.cells) arena.old }

    ensures answer { IfOk result (λ found. (a : Assignment) → Agrees a (V.known view.new) → IsAnswerOf task.now.grid.now task.now.horizon a task.now.request found) }
    ensures loads { IfOk result (λ found. (c : ℕ) → IsSome (V.known view.new c) → IsSome (V.known view.old c) ⊎ IsNeeded task.now.grid.now task.now.request (table_in found) c) }
    ensures counted { IfOk result (λ found. steps.new ≡ steps.old + length (table_in found)) }
    ensures takes { (lists : ℕ → List Interval) → AreListsOf (V.known view.new) task.now.horizon lists → steps.new ≤ steps.old + interval_count (V.known view.new) lists (V.size view.new) }
    ensures rises { steps.old ≤ steps.new }

    ensures serves { Serves task.now.horizon (length task.now.grid.now.cells) arena.new }
    ensures same_size { V.size view.new ≡ V.size view.old }
    ensures kept { KeepsKnown (V.known view.old) (V.known view.new) }
    ensures went { V.went view.old view.new }
{
    let found = settle(task, view, arena, steps)?;
    let found = answer(alloc, task, &*view, &*arena, found)?;
    Ok(found)
}

// The same without the table.
pub fn find_in<V: CalendarView, L: Ledger>(
    alloc: Global,
    task: &Task,
    view: &mut V,
    arena: &mut Arena,
    ties: &mut Ties,
    steps: &mut Steps<L>,
) -> Result<Option<Walk>, Memory>
    requires start { task.now.request.start.0 < length task.now.grid.now.cells }
    requires goal { task.now.request.goal.0 < length task.now.grid.now.cells }
    requires horizon { task.now.horizon ≤ 8000 }
    requires cells { V.size view.old ≡ length task.now.grid.now.cells }
    requires serves { Serves task.now.horizon (length task.now.grid.now.cells) arena.old }
    requires fit { HaveRoom (length task.now.grid.now.cells) ties.old }

    ensures answer { IfOk result (λ w. (a : Assignment) → Agrees a (V.known view.new) → IsFoundWalk task.now.grid.now task.now.horizon a task.now.request w) }
    ensures takes { (lists : ℕ → List Interval) → AreListsOf (V.known view.new) task.now.horizon lists → steps.new ≤ steps.old + interval_count (V.known view.new) lists (V.size view.new) }
    ensures rises { steps.old ≤ steps.new }

    ensures serves { Serves task.now.horizon (length task.now.grid.now.cells) arena.new }
    ensures fit { HaveRoom (length task.now.grid.now.cells) ties.new }
    ensures same_size { V.size view.new ≡ V.size view.old }
    ensures kept { KeepsKnown (V.known view.old) (V.known view.new) }
    ensures went { V.went view.old view.new }
{
    let Some(arrival) = settle_first(task, view, arena, steps)? else {
        return Ok(None);
    };
    let walk = first_walk(alloc, task, view, arena, ties, steps, arrival)?;
    Ok(Some(walk))
}

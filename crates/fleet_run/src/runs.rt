ghost use Rattle.std.specs.Prelude.{◌≡◌, ◌≤◌, List, ℕ, length, map, IfOk};
ghost use Rattle.order_text.specs.Lanes.{AreLanes};
ghost use Rattle.journal_lines.specs.Totals.{totals_of};
ghost use Rattle.fleet_run.specs.Due.{IsRunText, IsLastLine};
ghost use Rattle.fleet_run.specs.Jobs.{Says, joined_in, CanBeWritten};

use crate::job::Job;
use crate::shared::{journal_shared, last_line_shared};
use fleet_base::{Grid, Memory};
use journal_lines::{Totals, lend_each};
use lane_runs::Answer;
use order_text::Lane;
use plain_book::PlainBook;
use plain_run::run_alone;
use planner_pool::Gate;
use std::alloc::Global;
use std::thread::Threads;

// The journal of a run over the lanes by one worker.
fn journal_alone(alloc: Global, grid: Grid, horizon: u32, lanes: Vec<Lane>) -> Result<Job, Memory>
    requires horizon { (1 ≤ horizon) × (horizon ≤ 8000) }
    requires lanes { AreLanes (length grid.cells) lanes.items }
    ensures text { IfOk result (λ job. (text : List ℕ) → Says job text → IsRunText grid horizon lanes.items 1 text (joined_in job)) }
    ensures right { IfOk result CanBeWritten }
{
    let mut book = PlainBook::new(alloc, grid, horizon)?;
    let answers = run_alone(alloc, &mut book, &lanes)?;
    Ok(Job::Journal {
        book,
        lanes,
        answers,
    })
}

// What the last line of a journal tells of these answers.
pub fn count_all(answers: &[&Answer]) -> Totals
    requires { length answers.now ≤ 32767 }
    ensures { result ≡ totals_of (map (λ a. a.now) answers.now) }
{
    let mut totals = Totals::none();
    for answer in answers {
        totals.count(answer);
    }
    totals
}

// The last line of the journal of a run over the lanes by one worker.
fn last_line_alone(alloc: Global, grid: Grid, horizon: u32, lanes: &[Lane]) -> Result<Job, Memory>
    requires horizon { (1 ≤ horizon) × (horizon ≤ 8000) }
    requires lanes { AreLanes (length grid.cells) lanes.now }
    ensures text { IfOk result (λ job. (text : List ℕ) → Says job text → IsLastLine grid horizon lanes.now 1 text (joined_in job)) }
    ensures right { IfOk result CanBeWritten }
{
    let mut book = PlainBook::new(alloc, grid, horizon)?;
    let answers = run_alone(alloc, &mut book, lanes)?;
    let totals = count_all(&lend_each(alloc, &answers)?);
    Ok(Job::LastLine {
        totals,
        joined: None,
    })
}

// The journal of a run over the lanes by so many workers.
pub fn journal_by<R: Threads + Sync, G: Gate>(
    rt: &R,
    alloc: Global,
    grid: Grid,
    horizon: u32,
    workers: u32,
    lanes: Vec<Lane>,
    gate: &G,
) -> Result<Job, Memory>
    requires horizon { (1 ≤ horizon) × (horizon ≤ 8000) }
    requires workers { (1 ≤ workers) × (workers ≤ 16) }
    requires lanes { AreLanes (length grid.cells) lanes.items }
    ensures text { IfOk result (λ job. (text : List ℕ) → Says job text → IsRunText grid horizon lanes.items workers text (joined_in job)) }
    ensures right { IfOk result CanBeWritten }
{
    if workers == 1 {
        return journal_alone(alloc, grid, horizon, lanes);
    }
    journal_shared(rt, alloc, grid, horizon, workers, lanes, gate)
}

// The last line of the journal of a run over the lanes by so many workers.
pub fn last_line_by<R: Threads + Sync, G: Gate>(
    rt: &R,
    alloc: Global,
    grid: Grid,
    horizon: u32,
    workers: u32,
    lanes: &[Lane],
    gate: &G,
) -> Result<Job, Memory>
    requires horizon { (1 ≤ horizon) × (horizon ≤ 8000) }
    requires workers { (1 ≤ workers) × (workers ≤ 16) }
    requires lanes { AreLanes (length grid.cells) lanes.now }
    ensures text { IfOk result (λ job. (text : List ℕ) → Says job text → IsLastLine grid horizon lanes.now workers text (joined_in job)) }
    ensures right { IfOk result CanBeWritten }
{
    if workers == 1 {
        return last_line_alone(alloc, grid, horizon, lanes);
    }
    last_line_shared(rt, alloc, &grid, horizon, workers, lanes, gate)
}

ghost use Rattle.std.specs.Prelude.{◌≡◌, ◌≤◌, ℕ, IfOk, length, List};
ghost use Rattle.fleet_base.specs.Terrain.{Terrain};
ghost use Rattle.lane_runs.specs.declared.answer.Answer.{Answer as AnAnswer};
ghost use Rattle.order_text.specs.Lanes.{AreLanes};
ghost use Rattle.turn_book.specs.Passes.{joined_view};
ghost use Rattle.fleet_run.specs.Due.{IsRunText, IsLastLine};
ghost use Rattle.fleet_run.specs.Jobs.{Says, joined_in, CanBeWritten};
ghost use Rattle.fleet_run.specs.Workers.{IsFromWorkers};

use crate::job::Job;
use crate::runs::count_all;
use fleet_base::{Grid, Memory};
use journal_lines::print_order;
use lane_runs::Answer;
use order_text::Lane;
use planner_pool::{Gate, PoolResult, run_lanes};
use std::alloc::Global;
use std::thread::Threads;
use tail_run::finish;
use turn_book::{TurnBook, TurnJoined};

// The same grid once more.
fn copy_of(alloc: Global, grid: &Grid) -> Result<Grid, Memory>
    ensures { IfOk result (λ copy. copy ≡ grid.now) }
{
    let cells = grid.cells().to_vec(alloc)?;
    Ok(Grid::new(grid.width(), grid.height(), cells))
}

// All answers of a run by so many workers, with a tail on this thread for what they left, and what the workers joined.
#[derive(Drop)]
struct SharedRun {
    answers: Vec<Answer>,
    joined: TurnJoined,
}

fn run_shared<R: Threads + Sync, G: Gate>(
    rt: &R,
    alloc: Global,
    grid: &Grid,
    horizon: u32,
    workers: u32,
    lanes: &[Lane],
    gate: &G,
) -> Result<SharedRun, Memory>
    requires horizon { (1 ≤ horizon) × (horizon ≤ 8000) }
    requires workers { (2 ≤ workers) × (workers ≤ 16) }
    requires lanes { AreLanes (length grid.now.cells) lanes.now }
    ensures { IfOk result (λ r. IsFromWorkers grid.now horizon workers lanes.now (joined_view r.joined) r.answers.items) }
{
    let (book, passes) = TurnBook::open(alloc, copy_of(alloc, grid)?, horizon, workers)?;
    let PoolResult {
        answers,
        left,
        joined,
    } = run_lanes(rt, alloc, &book, passes, lanes, gate)?;
    let grid = copy_of(alloc, grid)?;
    let answers = finish(
        alloc,
        grid,
        horizon,
        workers,
        lanes,
        answers.into_vec(),
        left.as_slice(),
    )?;
    Ok(SharedRun { answers, joined })
}

// The journal of a run by several workers.
pub fn journal_shared<R: Threads + Sync, G: Gate>(
    rt: &R,
    alloc: Global,
    grid: Grid,
    horizon: u32,
    workers: u32,
    lanes: Vec<Lane>,
    gate: &G,
) -> Result<Job, Memory>
    requires horizon { (1 ≤ horizon) × (horizon ≤ 8000) }
    requires workers { (2 ≤ workers) × (workers ≤ 16) }
    requires lanes { AreLanes (length grid.cells) lanes.items }
    ensures text { IfOk result (λ job. (text : List ℕ) → Says job text → IsRunText grid horizon lanes.items workers text (joined_in job)) }
    ensures right { IfOk result CanBeWritten }
{
    let SharedRun { answers, joined } = run_shared(
        rt, alloc, &grid, horizon, workers, &lanes, gate,
    )?;
    Ok(Job::Shared {
        grid,
        lanes,
        answers,
        joined,
    })
}

// The last line of the journal of a run by several workers.
pub fn last_line_shared<R: Threads + Sync, G: Gate>(
    rt: &R,
    alloc: Global,
    grid: &Grid,
    horizon: u32,
    workers: u32,
    lanes: &[Lane],
    gate: &G,
) -> Result<Job, Memory>
    requires horizon { (1 ≤ horizon) × (horizon ≤ 8000) }
    requires workers { (2 ≤ workers) × (workers ≤ 16) }
    requires lanes { AreLanes (length grid.now.cells) lanes.now }
    ensures text { IfOk result (λ job. (text : List ℕ) → Says job text → IsLastLine grid.now horizon lanes.now workers text (joined_in job)) }
    ensures right { IfOk result CanBeWritten }
{
    let SharedRun { answers, joined } = run_shared(rt, alloc, grid, horizon, workers, lanes, gate)?;
    let totals = count_all(&print_order(alloc, &answers)?);
    Ok(Job::LastLine {
        totals,
        joined: Some(joined),
    })
}

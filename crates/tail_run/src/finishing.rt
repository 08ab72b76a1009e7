ghost use Rattle.std.specs.Prelude.{◌≤◌, List, length, IfOk, IsPermutation};
ghost use Rattle.order_text.specs.Lanes.{AreLanes};
ghost use Rattle.lane_runs.specs.declared.answer.Left.{Left as ALeft};
ghost use Rattle.tail_run.specs.Finished.{HasBegun, IsFinished};
ghost use Rattle.tail_run.specs.Tails.{IsBeginning, IsGoingOn, ComesToEnd};

use crate::ids::ids_given;
use crate::lane::{Tail, finish_lane};
use crate::leaving::{ended_count, live_after, top_stamp};
use fleet_base::{Grid, Memory};
use lane_runs::{Answer, Left, count_orders};
use order_text::Lane;
use plain_book::PlainBook;
use std::alloc::Global;

// A book that goes on from the live routes of the answers, with the ids that they gave.
fn begin(
    alloc: Global,
    grid: Grid,
    horizon: u32,
    lanes: &[Lane],
    made: Vec<Answer>,
) -> Result<Tail, Memory>
    requires horizon { (1 ≤ horizon) × (horizon ≤ 8000) }
    requires lanes { AreLanes (length grid.cells) lanes.now }
    requires begun { (left : List ALeft) × HasBegun grid horizon lanes.now made.items left }
    ensures { IfOk result (λ tail. IsBeginning grid horizon lanes.now made.items tail) }
{
    let routes = live_after(alloc, &made)?;
    let (stamp, era) = (top_stamp(&made), ended_count(&made));
    let book = PlainBook::resume(alloc, grid, horizon, routes, stamp, era)?;
    let ids = ids_given(alloc, count_orders(lanes), &made)?;
    Ok(Tail {
        book,
        ids,
        answers: made,
    })
}

// The lanes that were left, in their order.
fn in_order(alloc: Global, left: &[Left]) -> Result<Vec<Left>, Memory>
    ensures { IfOk result (λ sorted. IsPermutation left.now sorted.items) }
{
    let mut sorted = left.to_vec(alloc)?;
    sorted.sort_unstable_by_key(|one| one.lane);
    Ok(sorted)
}

// Answers all orders of the lanes that were left.
fn finish_lanes(
    mut tail: Tail,
    caller: u32,
    lanes: &[Lane],
    left: &[Left],
) -> Result<Vec<Answer>, Memory>
    requires lanes { AreLanes (length tail.book.grid.cells) lanes.now }
    requires going { IsGoingOn caller lanes.now left.now tail }
    ensures { IfOk result (λ answers. ComesToEnd caller lanes.now left.now tail answers.items) }
{
    for one in left {
        finish_lane(&mut tail, caller, &lanes[one.lane as usize], one.from)?;
    }
    Ok(tail.answers)
}

/// Answers the orders that were left, lane by lane in the order of the lanes, in a book that goes on from the live routes
/// of the answers that were made. The replies have the number `caller`. Gives all answers, those that were made first.
pub fn finish(
    alloc: Global,
    grid: Grid,
    horizon: u32,
    caller: u32,
    lanes: &[Lane],
    made: Vec<Answer>,
    left: &[Left],
) -> Result<Vec<Answer>, Memory>
    requires horizon { (1 ≤ horizon) × (horizon ≤ 8000) }
    requires lanes { AreLanes (length grid.cells) lanes.now }
    requires begun { HasBegun grid horizon lanes.now made.items left.now }
    ensures { IfOk result (λ all. IsFinished grid horizon caller lanes.now made.items left.now all.items) }
{
    if left.is_empty() {
        return Ok(made);
    }
    let tail = begin(alloc, grid, horizon, lanes, made)?;
    let left = in_order(alloc, left)?;
    finish_lanes(tail, caller, lanes, &left)
}

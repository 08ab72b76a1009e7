ghost use Rattle.std.specs.Prelude.{◌≡◌, [], ◌∷◌, true, IfOk, length};
ghost use Rattle.order_text.specs.Lanes.{AreLanes};
ghost use Rattle.lane_runs.specs.Runs.{IsRun};

use crate::pool::count_for;
use book_trait::EndedBook;
use fleet_base::{Entry, Grid, Memory};
use journal_lines::journal_text;
use lane_runs::Answer;
use order_text::{Lane, read_orders};
use planner_pool::{OpenGate, run_lanes};
use std::alloc::Global;
use std::test::Fail;
use tail_run::finish;
use turn_book::TurnBook;

// Two lanes on two cells: there and cancelled, and back.
const ORDERS: &[u8] = b"plan 0 0 1 0 0\ncancel 0\nlane\nplan 1 0 0 0 0\n";

const JOURNAL: &[u8] =
    b"0 1 0 route 1 R\n0 - 1 cancel 0\n1 2 2 route 1 L\nroutes 2 none 0 cancelled 1 sum 2 last 1\n";

fn two_cells(alloc: Global) -> Result<Grid, Memory>
    ensures { IfOk result (λ grid. grid ≡ record { width = 2; height = 1; cells = true ∷ true ∷ [] }) }
{
    let cells = vec![in alloc; true, true]?;
    Ok(Grid::new(2, 1, cells))
}

// Whether the answer is an entry of this caller.
fn is_of(caller: u32, answer: &Answer) -> bool {
    match answer {
        Answer::Made { entry, .. } => match entry {
            Entry::Commit { id, .. } => id.caller == caller,
            Entry::Cancel { id, .. } => id.caller == caller,
            Entry::NoRoute { caller: other, .. } => *other == caller,
        },
        Answer::Gone { .. } => false,
    }
}

fn count_of(caller: u32, answers: &[Answer]) -> usize {
    answers
        .iter()
        .filter(|answer| is_of(caller, answer))
        .count()
}

fn journal_of(
    alloc: Global,
    grid: &Grid,
    lanes: &[Lane],
    answers: &[Answer],
) -> Result<Vec<u8>, Memory>
    requires lanes { AreLanes (length grid.now.cells) lanes.now }
    requires run { IsRun lanes.now answers.now }
{
    let mut text = Vec::new(alloc);
    let lines = journal_text(alloc, grid, lanes, answers)?;
    for line in &lines {
        text.extend_from_slice(line.as_bytes())?;
    }
    Ok(text)
}

// Two workers leave both lanes, since their book refuses each plan. The tail plans, cancels and plans again, and its
// entries have the number that it was given.
#[test]
fn orders_that_were_left_are_answered(rt: HostRuntime) -> Result<(), Fail> {
    let grid = two_cells(rt.alloc())?;
    let lanes = read_orders(rt.alloc(), ORDERS, &grid)?;
    let book = EndedBook::new(&grid, 10, 2, &[]);
    let passes = vec![in rt.alloc(); book.look_on(rt.alloc(), 0)?, book.look_on(rt.alloc(), 1)?]?;
    let run = run_lanes(&rt, rt.alloc(), &book, passes, lanes.as_slice(), &OpenGate)?;
    let made = run.answers.into_vec();
    let left = run.left.as_slice();
    assert_eq!(rt; (made.len(), left.len()), (0, 2));
    let again = two_cells(rt.alloc())?;
    let all = finish(rt.alloc(), again, 10, 2, lanes.as_slice(), made, left)?;
    assert_eq!(rt; (all.len(), count_of(2, all.as_slice())), (3, 3));
    let text = journal_of(rt.alloc(), &grid, lanes.as_slice(), all.as_slice())?;
    assert_eq!(rt; text.as_slice(), JOURNAL);
    Ok(())
}

// One worker answers all orders. Where nothing was left, its answers come back as they were: none has the tail's number.
#[test]
fn answers_stay_where_nothing_was_left(rt: HostRuntime) -> Result<(), Fail> {
    let grid = two_cells(rt.alloc())?;
    let lanes = read_orders(rt.alloc(), ORDERS, &grid)?;
    let (book, passes) = TurnBook::open(rt.alloc(), grid, 10, 1)?;
    let run = run_lanes(&rt, rt.alloc(), &book, passes, lanes.as_slice(), &OpenGate)?;
    let made = run.answers.into_vec();
    let left = run.left.as_slice();
    assert_eq!(rt; (made.len(), left.len()), (3, 0));
    let again = two_cells(rt.alloc())?;
    let all = finish(rt.alloc(), again, 10, 1, lanes.as_slice(), made, left)?;
    assert_eq!(rt; (all.len(), count_of(0, all.as_slice())), (3, 3));
    for order in 0..3 {
        assert_eq!(rt;
            count_for(lanes.as_slice(), all.as_slice(), left, order),
            1,
            "at {order}"
        );
    }
    Ok(())
}

ghost use Rattle.std.specs.Prelude.{◌≡◌, ◌≤◌, [], ◌∷◌, IfOk, length, reverse};
ghost use Rattle.fleet_base.specs.TimedWalk.{TimedWalk};
ghost use Rattle.lane_runs.specs.Answers.{AreAnswers};

use crate::text::journal_text;
use fleet_base::{Cell, Entry, Grid, Memory, Request, RouteId, Walk};
use lane_runs::Answer;
use order_text::{Lane, Order, Orders};
use std::alloc::Global;
use std::test::Fail;

const ACROSS: Request = Request {
    start: Cell(0),
    goal: Cell(1),
    depart: 0,
    stay: false,
};

const FIRST: RouteId = RouteId {
    stamp: 1,
    caller: 1,
};

const SECOND: RouteId = RouteId {
    stamp: 2,
    caller: 2,
};

fn two_cells(alloc: Global) -> Result<Grid, Memory>
    ensures { IfOk result (λ grid. length grid.cells ≡ 2) }
{
    let cells = vec![in alloc; true, true]?;
    Ok(Grid::new(2, 1, cells))
}

fn lane_of(alloc: Global, first: u32, orders: &[Order]) -> Result<Lane, Memory>
    ensures { IfOk result (λ lane. lane ≡ record { first = first; orders = orders.now }) }
{
    let list = orders.to_vec(alloc)?;
    let orders = Orders::new(list);
    Ok(Lane { first, orders })
}

fn plan_and_cancel(alloc: Global, first: u32) -> Result<Lane, Memory>
    ensures { IfOk result (λ lane. lane ≡ record { first = first; orders = Order.Plan ACROSS ∷ Order.Cancel first ∷ [] }) }
{
    let plan = Order::Plan { request: ACROSS };
    let cancel = Order::Cancel { target: first };
    lane_of(alloc, first, &[plan, cancel])
}

fn three_lanes(alloc: Global) -> Result<Vec<Lane>, Memory>
    ensures { IfOk result (λ lanes. lanes.items ≡ record { first = 0; orders = Order.Plan ACROSS ∷ Order.Cancel 0 ∷ [] } ∷ record { first = 2; orders = Order.Plan ACROSS ∷ Order.Cancel 2 ∷ [] } ∷ record { first = 4; orders = Order.Plan ACROSS ∷ [] } ∷ []) }
{
    let mut lanes = Vec::with_capacity(alloc, 3)?;
    lanes.push(plan_and_cancel(alloc, 0)?)?;
    lanes.push(plan_and_cancel(alloc, 2)?)?;
    let plan = Order::Plan { request: ACROSS };
    lanes.push(lane_of(alloc, 4, &[plan])?)?;
    Ok(lanes)
}

fn committed(alloc: Global, order: u32, id: RouteId, cells: &[Cell]) -> Result<Answer, Memory>
    requires some { 1 ≤ length cells.now }
    requires few { length cells.now ≤ 8001 }
    ensures { IfOk result (λ answer. (w : TimedWalk) × (answer ≡ Answer.Made order (Entry.Commit id 0 ACROSS w))) }
{
    let cells = cells.to_vec(alloc)?;
    let entry = Entry::Commit {
        id,
        era: 0,
        request: ACROSS,
        walk: Walk::new(0, cells),
    };
    Ok(Answer::Made { order, entry })
}

// The answers to the orders of the three lanes, the last one first.
fn five_answers(alloc: Global) -> Result<Vec<Answer>, Memory>
    ensures five { IfOk result (λ answers. length answers.items ≡ 5) }
    ensures right { IfOk result (λ answers. AreAnswers 0 (Order.Plan ACROSS ∷ Order.Cancel 0 ∷ Order.Plan ACROSS ∷ Order.Cancel 2 ∷ Order.Plan ACROSS ∷ []) (reverse answers.items)) }
{
    let mut answers = Vec::with_capacity(alloc, 5)?;
    answers.push(committed(alloc, 4, SECOND, &[Cell(0), Cell(0), Cell(1)])?)?;
    answers.push(Answer::Gone {
        order: 3,
        target: 2,
    })?;
    answers.push(Answer::Made {
        order: 2,
        entry: Entry::NoRoute {
            stamp: 1,
            caller: 0,
            era: 0,
            request: ACROSS,
        },
    })?;
    answers.push(Answer::Made {
        order: 1,
        entry: Entry::Cancel { id: FIRST, era: 0 },
    })?;
    answers.push(committed(alloc, 0, FIRST, &[Cell(0), Cell(1)])?)?;
    Ok(answers)
}

// Two callers reply at the stamp 1. A cancel that is gone follows the refusal of its plan, and the other cancel is the
// last of its era.
#[test]
fn lines_stand_in_the_order_of_the_journal(rt: HostRuntime) -> Result<(), Fail> {
    let grid = two_cells(rt.alloc())?;
    let lanes = three_lanes(rt.alloc())?;
    let answers = five_answers(rt.alloc())?;
    let lines = journal_text(rt.alloc(), &grid, lanes.as_slice(), answers.as_slice())?;
    let mut text = Vec::new(rt.alloc());
    for line in &lines {
        text.extend_from_slice(line.as_bytes())?;
    }
    assert_eq!(rt;
        text.as_slice(),
        b"0 1 2 none\n0 - 3 cancel 2 gone\n0 1 0 route 1 R\n0 2 4 route 2 WR\n0 - 1 cancel 0\nroutes 2 none 1 cancelled 1 sum 3 last 2\n".as_slice()
    );
    Ok(())
}

ghost use Rattle.std.specs.Prelude.{◌≡◌};

use fleet_base::{Cell, Grid, Request};
use lane_runs::{Answer, Left};
use order_text::{Lane, lanes_of};
use planner_pool::{OpenGate, run_lanes};
use std::test::Fail;
use turn_book::TurnBook;

const fn wish(start: u32, goal: u32, depart: u32) -> Request
    ensures { (result.start.0 ≡ start) × (result.goal.0 ≡ goal) }
{
    Request {
        start: Cell(start),
        goal: Cell(goal),
        depart,
        stay: false,
    }
}

// Whether the order is one of those that were left with this lane.
fn is_left_with(lanes: &[Lane], left: &Left, order: u32) -> bool {
    match lanes.get(left.lane as usize) {
        Some(lane) => left.from <= order
            && (order.saturating_sub(lane.first) as usize) < lane.orders.as_slice().len(),
        None => false,
    }
}

// How many answers the order has, and how many of the left lanes have it.
pub fn count_for(lanes: &[Lane], answers: &[Answer], left: &[Left], order: u32) -> usize {
    let answered = answers
        .iter()
        .filter(|answer| answer.order() == order)
        .count();
    let kept = left
        .iter()
        .filter(|left| is_left_with(lanes, left, order))
        .count();
    answered.saturating_add(kept)
}

// Two passes of a book on a row of four cells, on which the three requests cross.
#[test]
fn each_order_is_answered_or_left(rt: HostRuntime) -> Result<(), Fail> {
    let grid = Grid::new(4, 1, vec![in rt.alloc(); true; 4]?);
    let (book, passes) = TurnBook::open(rt.alloc(), grid, 100, 2)?;
    let lanes = lanes_of(rt.alloc(), &[wish(0, 3, 0), wish(3, 0, 0), wish(1, 2, 5)])?;
    let result = run_lanes(&rt, rt.alloc(), &book, passes, lanes.as_slice(), &OpenGate)?;
    let answers = result.answers.as_slice();
    let left = result.left.as_slice();
    for order in 0..3 {
        assert_eq!(rt; count_for(&lanes, answers, left, order), 1, "at {order}");
    }
    assert!(rt; answers.len() + left.len() == 3);
    Ok(())
}

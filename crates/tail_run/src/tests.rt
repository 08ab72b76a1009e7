ghost use Rattle.std.specs.Prelude.{◌≡◌, ◌≤◌, ◌<◌, All, IfOk, length};
ghost use Rattle.lane_runs.specs.Answers.{order_of};

use crate::ids::ids_given;
use crate::leaving::{ended_count, live_after, top_stamp};
use fleet_base::{Cell, Entry, Memory, Request, RouteId, Walk};
use lane_runs::Answer;
use std::alloc::Global;
use std::test::Fail;

const ACROSS: Request = Request {
    start: Cell(0),
    goal: Cell(1),
    depart: 0,
    stay: false,
};

const FIRST: RouteId = RouteId {
    stamp: 1,
    caller: 0,
};

const SECOND: RouteId = RouteId {
    stamp: 2,
    caller: 1,
};

fn committed(alloc: Global, order: u32, id: RouteId, cells: &[Cell]) -> Result<Answer, Memory>
    requires some { 1 ≤ length cells.now }
    requires few { length cells.now ≤ 8001 }
    ensures { IfOk result (λ answer. order_of answer ≡ order) }
{
    let cells = cells.to_vec(alloc)?;
    let entry = Entry::Commit {
        id,
        era: 0,
        request: ACROSS,
        walk: Walk::new(0, cells),
    };
    Ok(Answer::Made { order, entry })
}

// Two commits, a cancel of the first, a plan without a route, and a cancel that is gone.
fn five_answers(alloc: Global) -> Result<Vec<Answer>, Memory>
    ensures { IfOk result (λ answers. All (λ a. order_of a < 5) answers.items) }
{
    let mut answers = Vec::with_capacity(alloc, 5)?;
    answers.push(committed(alloc, 0, FIRST, &[Cell(0), Cell(1)])?)?;
    answers.push(committed(alloc, 2, SECOND, &[Cell(0), Cell(0), Cell(1)])?)?;
    answers.push(Answer::Made {
        order: 1,
        entry: Entry::Cancel { id: FIRST, era: 0 },
    })?;
    answers.push(Answer::Made {
        order: 3,
        entry: Entry::NoRoute {
            stamp: 3,
            caller: 1,
            era: 1,
            request: ACROSS,
        },
    })?;
    answers.push(Answer::Gone {
        order: 4,
        target: 3,
    })?;
    Ok(answers)
}

#[test]
fn a_cancelled_route_is_not_live(rt: HostRuntime) -> Result<(), Fail> {
    let answers = five_answers(rt.alloc())?;
    let routes = live_after(rt.alloc(), answers.as_slice())?;
    assert!(rt; routes.len() == 1);
    for live in &routes {
        assert!(rt; live.id == SECOND);
        assert_eq!(rt; live.walk.cells(), [Cell(0), Cell(0), Cell(1)].as_slice());
    }
    Ok(())
}

// The greatest stamp is that of the reply without a route.
#[test]
fn stamps_and_cancels_are_counted(rt: HostRuntime) -> Result<(), Fail> {
    let answers = five_answers(rt.alloc())?;
    assert!(rt; top_stamp(answers.as_slice()) == 3);
    assert!(rt; ended_count(answers.as_slice()) == 1);
    assert!(rt; top_stamp(&[]) == 0);
    assert!(rt; ended_count(&[]) == 0);
    Ok(())
}

// An order keeps the id that it was given, also when its route was cancelled.
#[test]
fn ids_stand_at_the_numbers_of_their_orders(rt: HostRuntime) -> Result<(), Fail> {
    let answers = five_answers(rt.alloc())?;
    let ids = ids_given(rt.alloc(), 5, answers.as_slice())?;
    assert_eq!(rt;
        ids.as_slice(),
        [Some(FIRST), None, Some(SECOND), None, None].as_slice()
    );
    Ok(())
}

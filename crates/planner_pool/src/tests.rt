use super::*;
use book_trait::EndedBook;
use fleet_base::{Cell, Grid, Request};
use order_text::lanes_of;
use std::sync::atomic::{AtomicU32, Ordering};
use std::test::Fail;

const ALONG: Request = Request {
    start: Cell(0),
    goal: Cell(1),
    depart: 0,
    stay: false,
};

// Counts the orders.
#[derive(Drop)]
struct Counter {
    begun: AtomicU32,
    answered: AtomicU32,
}

impl Gate for Counter {
    fn before(&self, _order: u32) {
        self.begun.fetch_add(1, Ordering::SeqCst);
    }

    fn after(&self, _order: u32) {
        self.answered.fetch_add(1, Ordering::SeqCst);
    }
}

// In this book each plan is refused: the first order of each lane is tried, and left.
#[test]
fn refused_orders_are_left(rt: HostRuntime) -> Result<(), Fail> {
    let grid = Grid::new(2, 1, vec![in rt.alloc(); true; 2]?);
    let book = EndedBook::new(&grid, 10, 2, &[]);
    let passes = vec![in rt.alloc(); book.look_on(rt.alloc(), 0)?, book.look_on(rt.alloc(), 1)?]?;
    let lanes = lanes_of(rt.alloc(), &[ALONG, ALONG])?;
    let counter = Counter {
        begun: AtomicU32::new(0),
        answered: AtomicU32::new(0),
    };
    let result = run_lanes(&rt, rt.alloc(), &book, passes, lanes.as_slice(), &counter)?;
    assert!(rt; result.answers.as_slice().is_empty());
    let left = result.left.as_slice();
    assert!(rt; left.len() == 2);
    assert!(rt; left.contains(&Left { lane: 0, from: 0 }));
    assert!(rt; left.contains(&Left { lane: 1, from: 1 }));
    assert!(rt; counter.begun.load(Ordering::SeqCst) == 2);
    assert!(rt; counter.answered.load(Ordering::SeqCst) == 0);
    Ok(())
}

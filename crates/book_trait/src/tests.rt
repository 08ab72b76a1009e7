use super::*;
use fleet_base::{Cell, Entry, Grid, Request};
use std::test::Fail;

const NOWHERE: Request = Request {
    start: Cell(0),
    goal: Cell(0),
    depart: 0,
    stay: false,
};

// On a map of one closed cell, caller 0 was told that there is no route, and ended.
#[test]
fn onlookers_see_one_history(rt: HostRuntime) -> Result<(), Fail> {
    let grid = Grid::new(1, 1, Vec::from_array(rt.alloc(), [false])?);
    let entries = [Entry::NoRoute {
        stamp: 1,
        caller: 0,
        era: 0,
        request: NOWHERE,
    }];
    let book = EndedBook::new(&grid, 10, 3, &entries);
    let mut first = book.look_on(rt.alloc(), 1)?;
    let mut second = book.look_on(rt.alloc(), 2)?;
    assert!(rt;
        book.plan(&mut first, NOWHERE).is_err_and(|stop| stop
            == PlanStop::Again {
                word: Over,
                cause: Cause::Held
            })
    );
    assert!(rt; book.cancel(&mut first, 1) == Err(CancelStop::NotLive));
    let Ok(note) = book.tell(&mut first) else {
        panic!(rt; "the first note can be counted")
    };
    book.heed(&mut second, note);
    book.heed(&mut second, book.last_note(1));
    assert!(rt; (second.seen(), second.last()) == (1, 1));
    let both = book.join(book.rest(first), book.rest(second));
    assert!(rt; both.seen() == 1);
    Ok(())
}

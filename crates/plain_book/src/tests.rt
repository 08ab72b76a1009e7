ghost use Rattle.std.specs.Prelude.{◌≡◌, ◌<◌, [], IfOk};
ghost use Rattle.fleet_base.specs.Terrain.{IsTerrain};

use super::*;
use fleet_base::{Cell, Entry, Grid, Live, Memory, Request, RouteId, Walk};
use std::alloc::Global;
use std::test::Fail;

fn grid_of(alloc: Global, size: (u32, u32), marks: &[bool]) -> Result<Grid, Memory>
    requires { IsTerrain (record { width = size.0; height = size.1; cells = marks.now }) }
    ensures { IfOk result (λ g. g ≡ record { width = size.0; height = size.1; cells = marks.now }) }
{
    let cells = marks.iter().copied().collect(alloc)?;
    Ok(Grid::new(size.0, size.1, cells))
}

fn book_of(alloc: Global, size: (u32, u32), marks: &[bool]) -> Result<PlainBook, Memory>
    requires { IsTerrain (record { width = size.0; height = size.1; cells = marks.now }) }
    ensures { IfOk result (λ b. b ≡ record { grid = record { width = size.0; height = size.1; cells = marks.now }; horizon = 20; routes = []; stamp = 0; era = 0 }) }
{
    let grid = grid_of(alloc, size, marks)?;
    PlainBook::new(alloc, grid, 20)
}

fn wish(start: u32, goal: u32, stay: bool) -> Request
    ensures { result ≡ record { start = record { 0 = start }; goal = record { 0 = goal }; depart = 0; stay = stay } }
{
    Request {
        start: Cell(start),
        goal: Cell(goal),
        depart: 0,
        stay,
    }
}

fn id(stamp: u32, caller: u32) -> RouteId {
    RouteId { stamp, caller }
}

// Whether the entry commits a route of that id, in that era, along these cells.
fn commits(entry: &Entry, route: RouteId, in_era: u64, along: &[u32]) -> bool {
    match entry {
        Entry::Commit { id, era, walk, .. } => {
            *id == route
                && *era == in_era
                && walk.cells().iter().map(|c| c.0).eq(along.iter().copied())
        }
        _ => false,
    }
}

fn refuses(entry: &Entry, route: RouteId, in_era: u64) -> bool {
    match entry {
        Entry::NoRoute {
            stamp,
            caller,
            era,
            ..
        } => *stamp == route.stamp && *caller == route.caller && *era == in_era,
        _ => false,
    }
}

// The first goes from the left to the right; the second steps aside where the second row opens.
#[test]
fn one_plans_around_the_other(rt: HostRuntime) -> Result<(), Fail> {
    let mut book = book_of(
        rt.alloc(),
        (5, 2),
        &[
            true, true, true, true, true, false, false, false, true, false,
        ],
    )?;
    let first = book.plan(0, wish(0, 4, false))?;
    assert!(rt; commits(&first, id(1, 0), 0, &[0, 1, 2, 3, 4]));
    let second = book.plan(1, wish(4, 0, false))?;
    assert!(rt; commits(&second, id(2, 1), 0, &[4, 3, 8, 8, 3, 2, 1, 0]));
    Ok(())
}

#[test]
fn a_cancel_frees_the_way(rt: HostRuntime) -> Result<(), Fail> {
    let mut book = book_of(rt.alloc(), (2, 1), &[true, true])?;
    let first = book.plan(0, wish(0, 1, false))?;
    assert!(rt; commits(&first, id(1, 0), 0, &[0, 1]));
    let second = book.plan(1, wish(1, 0, false))?;
    assert!(rt; refuses(&second, id(2, 1), 0));

    assert!(rt; book.cancel(id(2, 1)).is_err());
    assert!(rt; book.cancel(id(1, 0)).is_ok());
    assert!(rt; book.cancel(id(1, 0)).is_err());
    let third = book.plan(1, wish(1, 0, false))?;
    assert!(rt; commits(&third, id(3, 1), 1, &[1, 0]));
    assert_eq!(rt; (book.stamp(), book.era()), (3, 1));
    Ok(())
}

#[test]
fn who_stays_shuts_its_cell(rt: HostRuntime) -> Result<(), Fail> {
    let mut book = book_of(rt.alloc(), (3, 1), &[true, true, true])?;
    let first = book.plan(0, wish(1, 1, true))?;
    assert!(rt; commits(&first, id(1, 0), 0, &[1]));
    let second = book.plan(0, wish(0, 2, false))?;
    assert!(rt; refuses(&second, id(2, 0), 0));
    Ok(())
}

// The route 0, 1 of another book is live here too: the way back would be an exchange.
#[test]
fn a_resumed_book_goes_on(rt: HostRuntime) -> Result<(), Fail> {
    let mut first = book_of(rt.alloc(), (2, 1), &[true, true])?;
    let Entry::Commit {
        id: route,
        walk,
        ..
    } = first.plan(0, wish(0, 1, false))?
    else {
        panic!(rt; "a walk is free");
    };
    let grid = grid_of(rt.alloc(), (2, 1), &[true, true])?;
    let routes = vec![in rt.alloc(); Live { id: route, walk }]?;
    let mut book = PlainBook::resume(rt.alloc(), grid, 20, routes, 1, 0)?;
    let entry = book.plan(1, wish(1, 0, false))?;
    assert!(rt; refuses(&entry, id(2, 1), 0));
    assert_eq!(rt; (book.stamp(), book.era()), (2, 0));
    Ok(())
}

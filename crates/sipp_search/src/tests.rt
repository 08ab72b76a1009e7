ghost use Rattle.std.specs.Prelude.{◌≡◌, ℕ, ◌<◌, ◌≤◌, length, IfOk};
ghost use Rattle.fleet_base.specs.Terrain.{IsTerrain};

use super::*;
use calendars::{Calendar, ListView};
use fleet_base::{Cell, Grid, Memory, Record, Request, RouteId, Walk};
use std::alloc::Global;
use std::marker::Brand;
use std::sync::ledger::{Blank, Ledger};
use std::test::Fail;

const OTHER: RouteId = RouteId {
    stamp: 1,
    caller: 0,
};

// A calendar with one record of one time step, or with none.
fn calendar_at(alloc: Global, time: Option<u32>) -> Result<Calendar, Memory> {
    let mut calendar = Calendar::new(alloc);
    if let Some(time) = time {
        calendar.insert(Record {
            from: time,
            to: time,
            id: OTHER,
        })?;
    }
    Ok(calendar)
}

fn view_of(alloc: Global, times: &[Option<u32>]) -> Result<ListView, Memory>
    ensures { IfOk result (λ v. length v.calendars.items ≡ length times.now) }
{
    let mut calendars = Vec::new(alloc);
    for time in times {
        calendars.push(calendar_at(alloc, *time)?)?;
    }
    let loaded = vec![in alloc; false; calendars.len()]?;
    Ok(ListView { calendars, loaded })
}

fn search_counting<L: Ledger>(
    alloc: Global,
    view: &mut ListView,
    grid: &Grid,
    request: Request,
    blank: Blank,
) -> Result<Found, Memory>
    requires name { blank.name ≡ L.name }
    requires parts { blank.parts ≡ L.parts }
    requires some { 0 < blank.parts }
    requires start { request.start.0 < length grid.now.cells }
    requires goal { request.goal.0 < length grid.now.cells }
    requires cells { length view.old.calendars.items ≡ length grid.now.cells }
{
    let mut steps = Steps::<L>::new(blank);
    search(alloc, view, grid, request, 20, &mut steps)
}

// The answer on a map of open and closed cells, where somebody is in a cell at the given time.
fn find(
    alloc: Global,
    size: (u32, u32),
    open: &[bool],
    times: &[Option<u32>],
    request: Request,
) -> Result<(Found, ListView), Memory>
    requires terrain { IsTerrain (record { width = size.0; height = size.1; cells = open.now }) }
    requires times { length times.now ≡ length open.now }
    requires start { request.start.0 < length open.now }
    requires goal { request.goal.0 < length open.now }
{
    let cells = open.iter().copied().collect(alloc)?;
    let grid = Grid::new(size.0, size.1, cells);
    let mut view = view_of(alloc, times)?;
    let found = search_counting::<Brand>(alloc, &mut view, &grid, request, Blank::new(1))?;
    Ok((found, view))
}

fn wish(start: u32, goal: u32, stay: bool) -> Request
    ensures { result ≡ record { start = record { 0 = start }; goal = record { 0 = goal }; depart = 0; stay = stay } }
{
    Request {
        start: Cell(start),
        goal: Cell(goal),
        depart: 0,
        stay,
    }
}

fn goes_along(found: &Found, cells: &[u32]) -> bool {
    match found {
        Found::Route { walk, .. } => walk.cells().iter().map(|c| c.0).eq(cells.iter().copied()),
        Found::NoRoute { .. } => false,
    }
}

fn has_settled(found: &Found, cells: usize) -> bool {
    match found {
        Found::Route { table, .. } => table.as_slice().len() == cells,
        Found::NoRoute { table } => table.as_slice().len() == cells,
    }
}

#[test]
fn one_row_without_records(rt: HostRuntime) -> Result<(), Fail> {
    let (found, _view) = find(
        rt.alloc(),
        (3, 1),
        &[true, true, true],
        &[None, None, None],
        wish(0, 2, false),
    )?;
    assert!(rt; goes_along(&found, &[0, 1, 2]));
    assert!(rt; has_settled(&found, 3));
    Ok(())
}

// The other goes from the left to the right; this one steps aside where the second row opens.
#[test]
fn steps_aside_for_a_walk_the_other_way(rt: HostRuntime) -> Result<(), Fail> {
    let (found, _view) = find(
        rt.alloc(),
        (5, 2),
        &[
            true, true, true, true, true, false, false, false, true, false,
        ],
        &[
            Some(0),
            Some(1),
            Some(2),
            Some(3),
            Some(4),
            None,
            None,
            None,
            None,
            None,
        ],
        wish(4, 0, false),
    )?;
    assert!(rt; goes_along(&found, &[4, 3, 8, 8, 3, 2, 1, 0]));
    Ok(())
}

#[test]
fn none_from_a_taken_start(rt: HostRuntime) -> Result<(), Fail> {
    let (found, _view) = find(
        rt.alloc(),
        (3, 1),
        &[true, true, true],
        &[Some(0), None, None],
        wish(0, 2, false),
    )?;
    assert!(rt; matches!(&found, Found::NoRoute { .. }));
    assert!(rt; has_settled(&found, 0));
    Ok(())
}

#[test]
fn cells_behind_the_start_are_not_loaded(rt: HostRuntime) -> Result<(), Fail> {
    let (found, view) = find(
        rt.alloc(),
        (5, 1),
        &[true, true, true, true, true],
        &[None, None, None, None, None],
        wish(2, 4, false),
    )?;
    assert!(rt; goes_along(&found, &[2, 3, 4]));
    assert!(rt; has_settled(&found, 3));
    assert!(rt; view.loaded.first() == Some(&false));
    Ok(())
}

#[test]
fn none_where_no_way_leads_to_the_goal(rt: HostRuntime) -> Result<(), Fail> {
    let (found, _view) = find(
        rt.alloc(),
        (3, 1),
        &[true, false, true],
        &[None, None, None],
        wish(0, 2, false),
    )?;
    assert!(rt; matches!(&found, Found::NoRoute { .. }));
    assert!(rt; has_settled(&found, 0));
    Ok(())
}

// Back from the goal the upper neighbour comes before the left one.
#[test]
fn of_two_shortest_walks_the_upper_one(rt: HostRuntime) -> Result<(), Fail> {
    let (found, _view) = find(
        rt.alloc(),
        (2, 2),
        &[true, true, true, true],
        &[None, None, None, None],
        wish(0, 3, false),
    )?;
    assert!(rt; goes_along(&found, &[0, 1, 3]));
    Ok(())
}

// Who stays waits until nobody comes through its goal any more.
#[test]
fn who_stays_comes_after_the_last_record(rt: HostRuntime) -> Result<(), Fail> {
    let (found, _view) = find(
        rt.alloc(),
        (3, 2),
        &[true, true, true, true, false, false],
        &[Some(5), Some(4), Some(3), None, None, None],
        wish(0, 1, true),
    )?;
    assert!(rt; goes_along(&found, &[0, 3, 3, 3, 3, 3, 0, 1]));
    Ok(())
}

fn walk_counting<L: Ledger>(
    searcher: &mut Searcher,
    view: &mut ListView,
    grid: &Grid,
    request: Request,
    blank: Blank,
) -> Result<Option<Walk>, Memory>
    requires name { blank.name ≡ L.name }
    requires parts { blank.parts ≡ L.parts }
    requires some { 0 < blank.parts }
    requires count { searcher.old.cells ≡ length grid.now.cells }
    requires start { request.start.0 < length grid.now.cells }
    requires goal { request.goal.0 < length grid.now.cells }
    requires cells { length view.old.calendars.items ≡ length grid.now.cells }
    ensures same { searcher.new ≡ searcher.old }
    ensures size { length view.new.calendars.items ≡ length view.old.calendars.items }
{
    let mut steps = Steps::<L>::new(blank);
    searcher.find_walk(view, grid, request, &mut steps)
}

// The walks of two requests, one after the other, on an open row where somebody is in a cell at the given time.
fn find_both(
    alloc: Global,
    times: &[Option<u32>],
    first: Request,
    second: Request,
) -> Result<(Option<Walk>, Option<Walk>), Memory>
    requires cells { length times.now ≡ 4 }
    requires first { (first.start.0 < 4) × (first.goal.0 < 4) }
    requires second { (second.start.0 < 4) × (second.goal.0 < 4) }
{
    let grid = Grid::new(4, 1, vec![in alloc; true; 4]?);
    let mut view = view_of(alloc, times)?;
    let mut searcher = Searcher::new(alloc, 4, 20)?;
    let one = walk_counting::<Brand>(&mut searcher, &mut view, &grid, first, Blank::new(1))?;
    let two = walk_counting::<Brand>(&mut searcher, &mut view, &grid, second, Blank::new(1))?;
    Ok((one, two))
}

fn walks_along(walk: &Option<Walk>, cells: &[u32]) -> bool {
    match walk {
        Some(walk) => walk.cells().iter().map(|c| c.0).eq(cells.iter().copied()),
        None => false,
    }
}

#[test]
fn searches_again_in_the_same_scratch(rt: HostRuntime) -> Result<(), Fail> {
    let times = [None, Some(3), None, None];
    let (there, back) = find_both(rt.alloc(), &times, wish(0, 3, false), wish(3, 0, false))?;
    assert!(rt; walks_along(&there, &[0, 1, 2, 3]));
    assert!(rt; walks_along(&back, &[3, 2, 1, 0]));
    let (stays, leaves) = find_both(rt.alloc(), &times, wish(0, 0, true), wish(1, 1, true))?;
    assert!(rt; walks_along(&stays, &[0]));
    assert!(rt; walks_along(&leaves, &[1, 0, 0, 0, 1]));
    Ok(())
}

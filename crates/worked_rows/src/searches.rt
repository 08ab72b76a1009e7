ghost use Rattle.std.specs.Prelude.{◌≡◌, ◌<◌, ◌≤◌, ◌||◌, length};
ghost use Rattle.std.specs.Bool.{OnTrue};
ghost use Rattle.std.specs.List.{list_all};
ghost use Rattle.worked_rows.specs.Apart.{is_over_before};

use crate::layers::{Layers, Town, canonical, layers_of, states_until};
use calendars::{Calendar, ListView};
use fleet_base::{FOREVER, Grid, Memory, Record, Request, RouteId, Stay, Walk, walk_records};
use request_maker::generate;
use sipp_search::{Found, Searcher, Settled, Steps, search};
use std::alloc::Global;
use std::marker::Brand;
use std::sync::ledger::{Blank, Ledger};
use std::test::Fail;

// What the yardstick says of a request.
#[derive(Drop)]
struct Expected {
    walk: Option<Walk>,
    layers: Layers,
    states: usize,
}

fn expected_of(alloc: Global, town: &Town<'_>, request: Request) -> Result<Expected, Memory> {
    let layers = layers_of(alloc, town, request)?;
    let walk = canonical(alloc, town, &layers, request)?;
    let limit = match &walk {
        Some(walk) => walk.arrival(),
        None => town.horizon,
    };
    let states = states_until(alloc, town, &layers, request.goal, limit.min(town.horizon))?.len();
    Ok(Expected {
        walk,
        layers,
        states,
    })
}

fn is_same_walk(first: &Walk, second: &Walk) -> bool {
    first.depart() == second.depart()
        && first.stays() == second.stays()
        && first.cells() == second.cells()
}

fn has_states(settled: &[Settled], expected: &Expected) -> bool {
    settled.len() == expected.states
        && settled
            .iter()
            .all(|s| expected.layers.is_least(s.cell, s.arrival))
}

// Whether the search answers as the yardstick.
fn agrees(found: &Found, expected: &Expected) -> bool {
    match found {
        Found::Route { walk, table } => {
            let Some(known) = &expected.walk else {
                return false;
            };
            is_same_walk(walk, known) && has_states(table.as_slice(), expected)
        }
        Found::NoRoute { table } => {
            expected.walk.is_none() && has_states(table.as_slice(), expected)
        }
    }
}

fn ends_before(first: &Record, second: &Record) -> bool
    ensures { result ≡ is_over_before first.now second.now }
{
    first.to < second.from && first.to != FOREVER
}

fn is_apart(added: &Record, records: &[Record]) -> bool
    ensures { result ≡ list_all (λ r. is_over_before r added.now || is_over_before added.now r) records.now }
{
    records
        .iter()
        .all(|r| ends_before(r, added) || ends_before(added, r))
}

fn put_in(view: &mut ListView, stay: Stay) -> Result<(), Memory> {
    if let Some(calendar) = view.calendars.get_mut(stay.cell.0 as usize) {
        if is_apart(&stay.span, calendar.records()) && stay.span.from <= stay.span.to {
            calendar.insert(stay.span)?;
        }
    }
    Ok(())
}

fn put_walk(alloc: Global, view: &mut ListView, walk: &Walk, stamp: u32) -> Result<(), Memory> {
    for stay in walk_records(alloc, walk, RouteId { stamp, caller: 0 })? {
        put_in(view, stay)?;
    }
    Ok(())
}

fn empty_view(alloc: Global, cells: usize) -> Result<ListView, Memory> {
    let mut calendars = Vec::new(alloc);
    for _cell in 0..cells {
        calendars.push(Calendar::new(alloc))?;
    }
    let loaded = vec![in alloc; false; calendars.len()]?;
    Ok(ListView { calendars, loaded })
}

fn fits(grid: &Grid, view: &ListView, request: Request) -> bool
    ensures cells { OnTrue result (length view.now.calendars.items ≡ length grid.now.cells) }
    ensures start { OnTrue result (request.start.0 < length grid.now.cells) }
    ensures goal { OnTrue result (request.goal.0 < length grid.now.cells) }
{
    let cells = grid.cells().len();
    view.calendars.len() == cells
        && (request.start.0 as usize) < cells
        && (request.goal.0 as usize) < cells
}

fn search_once<L: Ledger>(
    alloc: Global,
    view: &mut ListView,
    grid: &Grid,
    request: Request,
    horizon: u32,
    blank: Blank,
) -> Result<Found, Memory>
    requires name { blank.name ≡ L.name }
    requires parts { blank.parts ≡ L.parts }
    requires some { 0 < blank.parts }
    requires horizon { (1 ≤ horizon) × (horizon ≤ 8000) }
    requires start { request.start.0 < length grid.now.cells }
    requires goal { request.goal.0 < length grid.now.cells }
    requires cells { length view.old.calendars.items ≡ length grid.now.cells }
{
    let mut steps = Steps::<L>::new(blank);
    search(alloc, view, grid, request, horizon, &mut steps)
}

fn search_again<L: Ledger>(
    searcher: &mut Searcher,
    view: &mut ListView,
    grid: &Grid,
    request: Request,
    blank: Blank,
) -> Result<Found, Memory>
    requires name { blank.name ≡ L.name }
    requires parts { blank.parts ≡ L.parts }
    requires some { 0 < blank.parts }
    requires count { searcher.old.cells ≡ length grid.now.cells }
    requires start { request.start.0 < length grid.now.cells }
    requires goal { request.goal.0 < length grid.now.cells }
    requires cells { length view.old.calendars.items ≡ length grid.now.cells }
    ensures { searcher.new ≡ searcher.old }
{
    let mut steps = Steps::<L>::new(blank);
    searcher.search(view, grid, request, &mut steps)
}

// The departures are near each other, and every third agent stays on its goal.
fn wish(row: Request) -> Request {
    Request {
        start: row.start,
        goal: row.goal,
        depart: row.depart % 5,
        stay: row.depart % 3 == 2,
    }
}

// Whether the answer is the yardstick's. The walk of the yardstick is put into the calendars.
fn judge(
    alloc: Global,
    grid: &Grid,
    view: &mut ListView,
    row: Request,
    horizon: u32,
    found: &Found,
) -> Result<bool, Memory>
    requires { horizon ≤ 8000 }
{
    let town = Town {
        grid,
        calendars: view.calendars.as_slice(),
        horizon,
    };
    let expected = expected_of(alloc, &town, wish(row))?;
    if !agrees(found, &expected) {
        return Ok(false);
    }
    if let Some(walk) = &expected.walk {
        put_walk(alloc, view, walk, row.depart)?;
    }
    Ok(true)
}

fn agrees_once(
    alloc: Global,
    grid: &Grid,
    view: &mut ListView,
    row: Request,
    horizon: u32,
) -> Result<bool, Memory>
    requires { (1 ≤ horizon) × (horizon ≤ 8000) }
{
    let request = wish(row);
    if !fits(grid, view, request) {
        return Ok(false);
    }
    let found = search_once::<Brand>(alloc, view, grid, request, horizon, Blank::new(1))?;
    judge(alloc, grid, view, row, horizon, &found)
}

fn agrees_again(
    alloc: Global,
    searcher: &mut Searcher,
    grid: &Grid,
    view: &mut ListView,
    row: Request,
) -> Result<bool, Memory>
    requires { searcher.old.cells ≡ 64 }
    ensures { searcher.new.cells ≡ 64 }
{
    let request = wish(row);
    if grid.cells().len() != 64 || !fits(grid, view, request) {
        return Ok(false);
    }
    let found = search_again::<Brand>(searcher, view, grid, request, Blank::new(1))?;
    judge(alloc, grid, view, row, LATEST, &found)
}

const LATEST: u32 = 40;

// The town of that number, of at most 8 by 8 cells, of which some are closed.
fn town_of(
    alloc: Global,
    width: u32,
    height: u32,
    number: u32,
) -> Result<(Grid, Vec<Request>), Memory>
    requires width { (1 ≤ width) × (width ≤ 8) }
    requires height { (1 ≤ height) × (height ≤ 8) }
{
    generate(alloc, width, height, number % 5 * 8, 10, u64::from(number))
}

// Agents of one town, planned one after the other.
fn town_agrees(alloc: Global, number: u32) -> Result<bool, Memory>
    requires { number ≤ 8000 }
{
    let (grid, rows) = town_of(alloc, 1 + number % 8, 1 + number / 8 % 8, number)?;
    let mut view = empty_view(alloc, grid.cells().len())?;
    for row in &rows {
        if !agrees_once(alloc, &grid, &mut view, *row, 1 + number * 7 % LATEST)? {
            return Ok(false);
        }
    }
    Ok(true)
}

fn town_agrees_again(alloc: Global, searcher: &mut Searcher, number: u32) -> Result<bool, Memory>
    requires { searcher.old.cells ≡ 64 }
    ensures { searcher.new.cells ≡ 64 }
{
    let (grid, rows) = town_of(alloc, 8, 8, number)?;
    let mut view = empty_view(alloc, grid.cells().len())?;
    for row in &rows {
        if !agrees_again(alloc, searcher, &grid, &mut view, *row)? {
            return Ok(false);
        }
    }
    Ok(true)
}

#[test]
fn searches_agree_with_layers(rt: HostRuntime) -> Result<(), Fail> {
    for number in 0..320 {
        let agreed = town_agrees(rt.alloc(), number)?;
        assert!(rt; agreed, "at {number}");
    }
    Ok(())
}

// One searcher for all: nothing is left over from an earlier search.
#[test]
fn one_searcher_agrees_with_layers(rt: HostRuntime) -> Result<(), Fail> {
    let mut searcher = Searcher::new(rt.alloc(), 64, LATEST)?;
    for number in 0..40 {
        let agreed = town_agrees_again(rt.alloc(), &mut searcher, number)?;
        assert!(rt; agreed, "at {number}");
    }
    Ok(())
}

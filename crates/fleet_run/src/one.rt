ghost use Rattle.std.specs.Prelude.{◌≡◌, ◌<◌, length, IfOk, MatchOption};
ghost use Rattle.fleet_run.specs.Due.{AreInside, request_of, walk_in, IsAnswer};

use fleet_base::{Entry, Grid, Memory, Request, Walk};
use plain_book::PlainBook;
use std::alloc::Global;

// A place of a map: column and row.
type Place = (u32, u32);

// The caller of the one reply in an empty book.
const CALLER: u32 = 0;

// The last time at which the walk may arrive.
const HORIZON: u32 = 8_000;

// The request to go from a place to another one, where both are inside the map.
pub fn request_of(grid: &Grid, from: Place, to: Place) -> Option<Request>
    ensures { MatchOption result (¬ (AreInside grid.now from to))
        (λ q. AreInside grid.now from to × (q ≡ request_of grid.now from to)
        × (q.start.0 < length grid.now.cells) × (q.goal.0 < length grid.now.cells)) }
{
    if from.0 >= grid.width() || from.1 >= grid.height() {
        return None;
    }
    if to.0 >= grid.width() || to.1 >= grid.height() {
        return None;
    }
    Some(Request {
        start: grid.cell_at(from.0, from.1),
        goal: grid.cell_at(to.0, to.1),
        depart: 0,
        stay: false,
    })
}

// The walk of an entry, where it is a commit.
fn walk_of(entry: Entry) -> Option<Walk>
    ensures { result ≡ walk_in entry }
{
    match entry {
        Entry::Commit { walk, .. } => Some(walk),
        _ => None,
    }
}

// The walk of a request in an empty book, and the book that lends the grid.
pub fn answer_one(
    alloc: Global,
    grid: Grid,
    request: Request,
) -> Result<(PlainBook, Option<Walk>), Memory>
    requires start { request.start.0 < length grid.cells }
    requires goal { request.goal.0 < length grid.cells }
    ensures grid { IfOk result (λ r. r.0.grid ≡ grid) }
    ensures answer { IfOk result (λ r. IsAnswer grid request r.1) }
{
    let mut book = PlainBook::new(alloc, grid, HORIZON)?;
    let entry = book.plan(CALLER, request)?;
    Ok((book, walk_of(entry)))
}

ghost use Rattle.std.specs.Prelude.{◌≡◌, ◌<◌, length, IfOk};
ghost use Rattle.calendars.specs.Assignments.{traffic_by};
ghost use Rattle.plain_book.specs.Kept.{records_at};
ghost use Rattle.plain_book.specs.Found.{FindsWalk};

use crate::lent::LentView;
use crate::pool::CalendarPool;
use fleet_base::{Grid, Memory, Request, Walk};
use sipp_search::{Searcher, Steps};
use std::marker::Brand;
use std::sync::ledger::{Blank, Ledger};

/// The canonical walk of a request among the records of the calendars; none exactly where no walk is free of them.
pub fn find_walk(
    searcher: &mut Searcher,
    calendars: &CalendarPool,
    grid: &Grid,
    request: Request,
) -> Result<Option<Walk>, Memory>
    requires start { request.start.0 < length grid.now.cells }
    requires goal { request.goal.0 < length grid.now.cells }
    requires count { searcher.old.cells ≡ length grid.now.cells }
    requires cells { length calendars.now ≡ length grid.now.cells }
    ensures found { IfOk result (λ found. FindsWalk grid.now searcher.old.horizon (traffic_by (records_at calendars.now)) request found) }
    ensures same { searcher.new ≡ searcher.old }
{
    find_counting::<Brand>(searcher, calendars, grid, request, Blank::new(1))
}

// The search wants a counter of its steps, which nobody reads here.
fn find_counting<L: Ledger>(
    searcher: &mut Searcher,
    calendars: &CalendarPool,
    grid: &Grid,
    request: Request,
    blank: Blank,
) -> Result<Option<Walk>, Memory>
    requires name { blank.name ≡ L.name }
    requires parts { blank.parts ≡ L.parts }
    requires some { 0 < blank.parts }
    requires start { request.start.0 < length grid.now.cells }
    requires goal { request.goal.0 < length grid.now.cells }
    requires count { searcher.old.cells ≡ length grid.now.cells }
    requires cells { length calendars.now ≡ length grid.now.cells }
    ensures found { IfOk result (λ found. FindsWalk grid.now searcher.old.horizon (traffic_by (records_at calendars.now)) request found) }
    ensures same { searcher.new ≡ searcher.old }
{
    let mut view = LentView { calendars };
    let mut steps = Steps::<L>::new(blank);
    searcher.find_walk(&mut view, grid, request, &mut steps)
}

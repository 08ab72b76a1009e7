ghost use Rattle.std.specs.Prelude.{◌≡◌, ℕ, ◌<◌, length, All, OnOk, OnErr, false, Some};
ghost use Rattle.fleet_base.specs.declared.grid.Cell.{Cell as ACell};
ghost use Rattle.fleet_base.specs.TimedWalk.{position};
ghost use Rattle.calendars.specs.Records.{covers};
ghost use Rattle.plain_book.specs.Kept.{records_at};
ghost use Rattle.plain_book.specs.Changes.{FitIn, HasSome, HasAll, HasSomeOf, HasAllOf, LacksId};

use crate::pool::CalendarPool;
use fleet_base::{Memory, RouteId, Stay, Walk, walk_records};
use std::alloc::Global;

// Puts each record into the calendar of its cell. After want of memory some may be in.
fn put_records(calendars: &mut CalendarPool, stays: &[Stay]) -> Result<(), Memory>
    requires { FitIn calendars.old stays.now }
    ensures size { length calendars.new ≡ length calendars.old }
    ensures ok { OnOk result (HasAll calendars.old calendars.new stays.now) }
    ensures refused { OnErr result (HasSome calendars.old calendars.new stays.now) }
{
    for stay in stays {
        calendars.insert(stay.cell, stay.span)?;
    }
    Ok(())
}

/// Puts the records of a walk into the calendars of its cells, where nobody else is. After want of memory some may be in.
pub fn put_in(
    alloc: Global,
    calendars: &mut CalendarPool,
    walk: &Walk,
    id: RouteId,
) -> Result<(), Memory>
    requires inside { All (λ c. c.0 < length calendars.old) walk.now.cells }
    requires free { (t : ℕ) (c : ACell) → position walk.now t ≡ Some c → covers (records_at calendars.old c.0) t ≡ false }
    ensures size { length calendars.new ≡ length calendars.old }
    ensures ok { OnOk result (HasAllOf (record { id = id; walk = walk.now }) calendars.old calendars.new) }
    ensures refused { OnErr result (HasSomeOf (record { id = id; walk = walk.now }) calendars.old calendars.new) }
{
    let stays = walk_records(alloc, walk, id)?;
    put_records(calendars, &stays)?;
    Ok(())
}

/// Takes the records of an id out of the calendars of the walk's cells. It takes no memory.
pub fn take_out(calendars: &mut CalendarPool, walk: &Walk, id: RouteId)
    requires { All (λ c. c.0 < length calendars.old) walk.now.cells }
    ensures size { length calendars.new ≡ length calendars.old }
    ensures lacks { LacksId id walk.now.cells calendars.old calendars.new }
{
    let cells = walk.cells();
    for (place, cell) in cells.iter().enumerate() {
        // While the agent waits, its records are gone already.
        if place > 0 && cells[place - 1] == *cell {
            continue;
        }
        calendars.remove_id(*cell, id);
    }
}

ghost use Rattle.std.specs.Prelude.{◌≡◌, ℕ, ◌+◌, ◌<◌, ◌≤◌, ◌==◌, ◌&&◌, [], length, OnOk, OnErr};
ghost use Rattle.std.specs.Option.{option_map};
ghost use Rattle.calendars.specs.Places.{place_in, last_begun};
ghost use Rattle.calendars.specs.Records.{holds_time, covers, is_exchange, InOrder, with_record, without_id, IsApart, begins_as};

use fleet_base::{FOREVER, Memory, Record, RouteId};
use std::alloc::Global;
use std::marker::Model;

/// The records of one cell, in rising order of time; none of them overlap.
/// A record whose end is `FOREVER` holds every time from its beginning on, so it is the last one.
#[derive(Drop)]
pub struct Calendar {
    records: Vec<Record>,
}

impl Model for Calendar {
    ghost use Rattle.std.specs.Prelude.{List};
    ghost use Rattle.fleet_base.specs.declared.request.Record.{Record};
    ghost use Rattle.calendars.specs.Records.{InOrder};

    ghost Value = { List Record };

    ghost view = { λ c. c.records.items };

    ghost invariant = { λ c. InOrder c.records.items };
}

impl Calendar {
    /// A calendar without records. It takes no memory until a record is put in.
    pub fn new(alloc: Global) -> Calendar
        ensures { result ≡ [] }
    {
        Calendar {
            records: Vec::new(alloc),
        }
    }

    /// The records, in rising order.
    pub fn records(&self) -> &[Record]
        ensures value { result.now ≡ self.now }
        ensures ordered { InOrder self.now }
    {
        self.records.as_slice()
    }

    /// How many records begin at that time or before, by binary search.
    pub fn place_of(&self, time: u32) -> usize
        ensures place { result ≡ place_in time self.now }
        ensures within { result ≤ length self.now }
    {
        place_of(self.records.as_slice(), time)
    }

    /// Room for so many records more, so that putting them in takes no memory. The records are as before.
    pub fn reserve(&mut self, more: usize) -> Result<(), Memory>
        ensures { self.new ≡ self.old }
    {
        self.records.reserve_exact(more)?;
        Ok(())
    }

    /// Puts a record in at its place. Where memory runs out nothing has changed.
    pub fn insert(&mut self, added: Record) -> Result<(), Memory>
        requires proper { added.from ≤ added.to }
        requires apart { IsApart added self.old }
        ensures ok { OnOk result (self.new ≡ with_record added self.old) }
        ensures refused { OnErr result (self.new ≡ self.old) }
    {
        put_in(&mut self.records, added)?;
        Ok(())
    }

    /// Takes out every record of that id. It takes no memory.
    pub fn remove_id(&mut self, id: RouteId)
        ensures { self.new ≡ without_id id self.old }
    {
        keep_others(&mut self.records, id);
    }

    /// Whether a record holds that time.
    pub fn covers(&self, time: u32) -> bool
        ensures { result ≡ covers self.now time }
    {
        covers(self.records.as_slice(), time)
    }
}

// How many records begin at that time or before: where one that begins then is put in.
fn place_of(records: &[Record], time: u32) -> usize
    requires { InOrder records.now }
    ensures place { result ≡ place_in time records.now }
    ensures within { result ≤ length records.now }
{
    records.partition_point(|r| r.from <= time)
}

// Room for one record more: one, two, four, and from there a quarter more. Many calendars of a great grid have a single
// record, and most others few.
fn make_room(records: &mut Vec<Record>) -> Result<(), Memory>
    ensures { records.new.items ≡ records.old.items }
{
    let count = records.len();
    if count == records.capacity() {
        let more = if count < 4 {
            count.max(1)
        } else {
            count / 4 + 2
        };
        records.reserve_exact(more)?;
    }
    Ok(())
}

fn put_in(records: &mut Vec<Record>, added: Record) -> Result<(), Memory>
    requires { InOrder records.old.items }
    ensures ok { OnOk result (records.new.items ≡ with_record added records.old.items) }
    ensures refused { OnErr result (records.new.items ≡ records.old.items) }
{
    make_room(records)?;
    let place = place_of(records.as_slice(), added.from);
    match records.insert(place, added) {
        Ok(()) => Ok(()),
        Err(_) => Err(Memory),
    }
}

fn keep_others(records: &mut Vec<Record>, id: RouteId)
    ensures { records.new.items ≡ without_id id records.old.items }
{
    records.retain(|r| r.id != id);
}

fn holds(span: &Record, time: u32) -> bool
    ensures { result ≡ holds_time time span.now }
{
    span.from <= time && (time <= span.to || span.to == FOREVER)
}

// The last record that begins at that time or before: only that one can hold the time.
fn last_begun(records: &[Record], time: u32) -> Option<&Record>
    requires { InOrder records.now }
    ensures { option_map (λ r. r.now) result ≡ last_begun time records.now }
{
    let place = place_of(records, time).checked_sub(1)?;
    Some(&records[place])
}

fn covers(records: &[Record], time: u32) -> bool
    requires { InOrder records.now }
    ensures { result ≡ covers records.now time }
{
    match last_begun(records, time) {
        Some(span) => holds(span, time),
        None => false,
    }
}

/// Whether some id has a record in `to` that ends at `time`, and one in `from` that begins at `time + 1`:
/// then a move from the cell of `from` to that of `to` in the step that begins at `time` would be an exchange.
pub fn crossing(from: &Calendar, to: &Calendar, time: u32) -> bool
    requires { time ≤ 8000 }
    ensures { result ≡ is_exchange from.now to.now time }
{
    crosses(from.records(), to.records(), time)
}

fn crosses(from: &[Record], to: &[Record], time: u32) -> bool
    requires time { time ≤ 8000 }
    requires from { InOrder from.now }
    requires to { InOrder to.now }
    ensures { result ≡ is_exchange from.now to.now time }
{
    let Some(leaves) = last_begun(to, time) else {
        return false;
    };
    let Some(comes) = last_begun(from, time + 1) else {
        return false;
    };
    is_swap(leaves, comes, time)
}

// Whether one route leaves at that time, and the same comes in the next step.
fn is_swap(leaves: &Record, comes: &Record, time: u32) -> bool
    requires { time ≤ 8000 }
    ensures { result ≡ ((leaves.now.to == time) && begins_as (time + 1) leaves.now.id comes.now) }
{
    leaves.to == time && begins_as(comes, time + 1, leaves.id)
}

fn begins_as(span: &Record, time: u32, id: RouteId) -> bool
    ensures { result ≡ begins_as time id span.now }
{
    span.from == time && span.id == id
}

#[cfg(test)]
mod tests {
    use super::*;
    use std::test::Fail;

    const FIRST: RouteId = RouteId {
        stamp: 1,
        caller: 0,
    };

    const OTHER: RouteId = RouteId {
        stamp: 2,
        caller: 1,
    };

    fn span(from: u32, to: u32, id: RouteId) -> Record
        ensures { result ≡ record { from = from; to = to; id = id } }
    {
        Record { from, to, id }
    }

    // The walk 1, 0 from time 0: it is in cell 1 at 0 and in cell 0 at 1.
    #[test]
    fn a_move_the_other_way_is_an_exchange(rt: HostRuntime) -> Result<(), Fail> {
        let mut left = Calendar::new(rt.alloc());
        let mut right = Calendar::new(rt.alloc());
        left.insert(span(1, 1, FIRST))?;
        right.insert(span(0, 0, FIRST))?;
        assert!(rt; crossing(&left, &right, 0));
        assert!(rt; !crossing(&right, &left, 0));
        assert!(rt; !crossing(&left, &right, 1));
        Ok(())
    }

    #[test]
    fn a_record_without_end_covers_every_later_time(rt: HostRuntime) -> Result<(), Fail> {
        let mut calendar = Calendar::new(rt.alloc());
        calendar.insert(span(7, FOREVER, OTHER))?;
        for (time, covered) in [(6, false), (7, true), (8000, true), (u32::MAX, true)] {
            assert_eq!(rt; calendar.covers(time), covered, "{time}");
        }
        Ok(())
    }

    #[test]
    fn room_changes_no_record(rt: HostRuntime) -> Result<(), Fail> {
        let mut calendar = Calendar::new(rt.alloc());
        calendar.insert(span(2, 3, FIRST))?;
        calendar.reserve(5)?;
        assert_eq!(rt; calendar.records(), [span(2, 3, FIRST)].as_slice());
        Ok(())
    }

    #[test]
    fn every_record_of_an_id_is_taken_out(rt: HostRuntime) -> Result<(), Fail> {
        let mut calendar = Calendar::new(rt.alloc());
        calendar.insert(span(2, 3, FIRST))?;
        calendar.remove_id(OTHER);
        assert_eq!(rt; calendar.records(), [span(2, 3, FIRST)].as_slice());
        calendar.remove_id(FIRST);
        assert_eq!(rt; calendar.records().len(), 0);
        Ok(())
    }
}

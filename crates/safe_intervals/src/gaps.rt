ghost use Rattle.std.specs.Prelude.{◌≡◌, ◌≤◌, length, IfOk};
ghost use Rattle.calendars.specs.Places.{place_in};
ghost use Rattle.calendars.specs.Records.{InOrder, InOrderFrom, is_exchange};
ghost use Rattle.safe_intervals.specs.Safe.{AreSafeIntervals, AnswersGap, AnswersAt, LeavesFirst};

use crate::interval::Interval;
use calendars::Calendar;
use fleet_base::{Memory, Record};
use std::alloc::Global;

/// The first maximal free range that ends at `from` or later; none exactly where every time from `from` to the
/// horizon is taken. The range may begin before `from`. It takes no memory.
pub fn next_gap(calendar: &Calendar, from: u32, horizon: u32) -> Option<Interval>
    requires { horizon ≤ 8000 }
    ensures { AnswersGap calendar.now horizon from result }
{
    gap_after(calendar, calendar.place_of(from), from, horizon)
}

/// The same, where `begun` records begin at `from` or before.
pub fn gap_after(calendar: &Calendar, begun: usize, from: u32, horizon: u32) -> Option<Interval>
    requires horizon { horizon ≤ 8000 }
    requires begun { begun ≡ place_in from calendar.now }
    requires within { begun ≤ length calendar.now }
    ensures { AnswersGap calendar.now horizon from result }
{
    if from > horizon {
        return None;
    }
    let records = calendar.records();
    if begun == 0 {
        return first_gap(records, 0, horizon);
    }
    let last = &records[begun - 1];
    if last.to >= horizon {
        return None;
    }
    first_gap(&records[begun..], last.to + 1, horizon)
}

/// The maximal free range after the first `place` records and before all others; none exactly where no time up to the
/// horizon is free there.
pub fn gap_at(calendar: &Calendar, place: usize, horizon: u32) -> Option<Interval>
    requires horizon { horizon ≤ 8000 }
    requires place { place ≤ length calendar.now }
    ensures { AnswersAt calendar.now horizon place result }
{
    let records = calendar.records();
    let mut from = 0;
    if place > 0 {
        let last = records[place - 1].to;
        if last >= horizon {
            return None;
        }
        from = last + 1;
    }
    let mut to = horizon;
    if place < records.len() {
        let next = records[place].from;
        if next <= from {
            return None;
        }
        to = to.min(next - 1);
    }
    Some(Interval { from, to })
}

/// Whether a move from the first cell to the second in the step that begins at that time would be an exchange, where it is
/// known how many records of each begin by then.
pub fn crossing_at(from: &Calendar, before: usize, to: &Calendar, begun: usize, time: u32) -> bool
    requires time { time ≤ 8000 }
    requires before { before ≡ place_in time from.now }
    requires begun { begun ≡ place_in time to.now }
    ensures { result ≡ is_exchange from.now to.now time }
{
    let comers = from.records();
    let leavers = to.records();
    if begun == 0 || before >= comers.len() {
        return false;
    }
    let leaves = &leavers[begun - 1];
    let comes = &comers[before];
    leaves.to == time && comes.from == time + 1 && comes.id == leaves.id
}

/// How many records begin at that time or before. They are counted from the guess on, so one that is near costs least: the
/// number for a cell beside at about that time, say.
// Not copied to where it is called: the code of a search is small enough for the processor's cache so.
#[inline(never)]
pub fn begun_by(calendar: &Calendar, guess: usize, time: u32) -> usize
    ensures place { result ≡ place_in time calendar.now }
    ensures within { result ≤ length calendar.now }
{
    let records = calendar.records();
    let known = known_begun(records, guess, time);
    for place in known..records.len() {
        if time < records[place].from {
            return place;
        }
    }
    records.len()
}

// The guess, or as many fewer as it takes that all of them have begun by that time.
fn known_begun(records: &[Record], guess: usize, time: u32) -> usize
    requires { InOrder records.now }
    ensures { result ≤ place_in time records.now }
{
    let mut place = guess.min(records.len());
    while place > 0 && time < records[place - 1].from {
        place -= 1;
    }
    place
}

// The first range from `low` on that the records leave.
fn first_gap(records: &[Record], low: u32, horizon: u32) -> Option<Interval>
    requires horizon { horizon ≤ 8000 }
    requires low { low ≤ horizon }
    requires ordered { InOrderFrom low records.now }
    ensures { LeavesFirst records.now low horizon result }
{
    let mut begin = low;
    for next in records {
        if begin < next.from {
            let end = (next.from - 1).min(horizon);
            return Some(Interval {
                from: begin,
                to: end,
            });
        }
        if next.to >= horizon {
            return None;
        }
        begin = next.to + 1;
    }
    Some(Interval {
        from: begin,
        to: horizon,
    })
}

/// The maximal ranges of times from 0 to the horizon that no record covers, in rising order.
pub fn intervals(alloc: Global, calendar: &Calendar, horizon: u32) -> Result<Vec<Interval>, Memory>
    requires { horizon ≤ 8000 }
    ensures { IfOk result (λ list. AreSafeIntervals calendar.now horizon list.items) }
{
    let mut list = Vec::new(alloc);
    let mut from = 0;
    while let Some(gap) = next_gap(calendar, from, horizon) {
        list.push(gap)?;
        from = gap.to + 1;
    }
    Ok(list)
}

#[cfg(test)]
mod tests {
    use super::*;
    use crate::interval::interval_at;
    use fleet_base::{FOREVER, RouteId};
    use std::test::Fail;

    const ID: RouteId = RouteId {
        stamp: 1,
        caller: 0,
    };

    fn range(from: u32, to: u32) -> Interval {
        Interval { from, to }
    }

    #[test]
    fn ranges_between_two_records(rt: HostRuntime) -> Result<(), Fail> {
        let mut calendar = Calendar::new(rt.alloc());
        calendar.insert(Record {
            from: 2,
            to: 3,
            id: ID,
        })?;
        calendar.insert(Record {
            from: 5,
            to: 5,
            id: ID,
        })?;
        let list = intervals(rt.alloc(), &calendar, 7)?;
        let wanted = [range(0, 1), range(4, 4), range(6, 7)];
        assert!(rt; list.as_slice() == wanted.as_slice());
        assert_eq!(rt; interval_at(list.as_slice(), 5), None);
        assert_eq!(rt; interval_at(list.as_slice(), 6), Some(2));
        Ok(())
    }

    #[test]
    fn no_range_where_all_is_taken(rt: HostRuntime) -> Result<(), Fail> {
        for to in [8000, FOREVER] {
            let mut calendar = Calendar::new(rt.alloc());
            calendar.insert(Record {
                from: 0,
                to,
                id: ID,
            })?;
            let list = intervals(rt.alloc(), &calendar, 8000)?;
            assert_eq!(rt; list.len(), 0);
        }
        Ok(())
    }
}

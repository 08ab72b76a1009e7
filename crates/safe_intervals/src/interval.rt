ghost use Rattle.safe_intervals.specs.Safe.{AreRising, FindsTime};

/// The times from `from` to `to`, both included.
#[derive(Clone, Copy, Debug, PartialEq, Eq, Hash)]
pub struct Interval {
    pub from: u32,
    pub to: u32,
}

/// The place of the range that holds the time; none exactly where no range does.
pub fn interval_at(list: &[Interval], time: u32) -> Option<usize>
    requires { AreRising list.now }
    ensures { FindsTime list.now time result }
{
    let begun = list.partition_point(|range| range.from <= time);
    let place = begun.checked_sub(1)?;
    if time <= list[place].to {
        Some(place)
    } else {
        None
    }
}

ghost use Rattle.std.specs.Prelude.{◌≡◌, ℕ, ◌+◌, ◌≤◌, ◌-◌};
ghost use Rattle.fleet_base.specs.TimedWalk.{arrival};
ghost use Rattle.journal_lines.specs.Totals.{no_totals, with_entry, with_answer, CountAtMost};

use fleet_base::{Entry, Walk};
use lane_runs::Answer;

/// What the last line of a journal tells of the lines before it.
#[derive(Clone, Copy, Debug, PartialEq, Eq)]
pub struct Totals {
    /// Routes and parks, cancelled ones too.
    pub routes: u32,
    /// Replies without a route.
    pub without: u32,
    /// Cancels that aren't gone.
    pub cancelled: u32,
    /// The arrivals less the departures of all routes and parks, in time steps.
    pub sum: u64,
    /// The greatest arrival of these, or 0 where there is none.
    pub last: u32,
}

// How many steps a walk has.
fn duration(walk: &Walk) -> u32
    ensures value { result ≡ arrival walk.now - walk.now.depart }
    ensures few { result ≤ 8000 }
{
    walk.arrival() - walk.depart()
}

impl Totals {
    pub fn none() -> Totals
        ensures { result ≡ no_totals }
    {
        Totals {
            routes: 0,
            without: 0,
            cancelled: 0,
            sum: 0,
            last: 0,
        }
    }

    // Counts one entry more.
    fn count_entry(&mut self, entry: &Entry)
        requires few { CountAtMost 32767 self.old }
        ensures counted { self.new ≡ with_entry self.old entry.now }
        ensures at_most { (n : ℕ) → CountAtMost n self.old → CountAtMost (n + 1) self.new }
    {
        match entry {
            Entry::Commit { walk, .. } => {
                self.routes += 1;
                self.sum += u64::from(duration(walk));
                self.last = self.last.max(walk.arrival());
            }
            Entry::Cancel { .. } => self.cancelled += 1,
            Entry::NoRoute { .. } => self.without += 1,
        }
    }

    /// Counts one answer more.
    pub fn count(&mut self, answer: &Answer)
        requires few { CountAtMost 32767 self.old }
        ensures counted { self.new ≡ with_answer self.old answer.now }
        ensures at_most { (n : ℕ) → CountAtMost n self.old → CountAtMost (n + 1) self.new }
    {
        match answer {
            Answer::Made { entry, .. } => self.count_entry(entry),
            Answer::Gone { .. } => {}
        }
    }
}

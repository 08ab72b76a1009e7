ghost use Rattle.std.specs.Prelude.{◌≡◌};
ghost use Rattle.lane_runs.specs.Answers.{order_of};

use fleet_base::Entry;

/// What became of an order. Orders are numbered from 0 over all lanes.
#[derive(Drop)]
pub enum Answer {
    /// An entry of the history: a commit or a reply without a route for a plan, and a cancel for a cancel.
    Made { order: u32, entry: Entry },
    /// A cancel whose plan, `target`, was answered without a route. It is no entry.
    Gone { order: u32, target: u32 },
}

impl Answer {
    /// The number of the order.
    pub fn order(&self) -> u32
        ensures { result ≡ order_of self.now }
    {
        match self {
            Answer::Made { order, .. } => *order,
            Answer::Gone { order, .. } => *order,
        }
    }
}

/// A lane that was left: its place among the lanes, from 0, and the number of the first of its orders that has no answer.
#[derive(Clone, Copy, Debug, PartialEq, Eq)]
pub struct Left {
    pub lane: u32,
    pub from: u32,
}

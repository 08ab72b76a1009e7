ghost use Rattle.std.specs.Prelude.{◌≡◌};
ghost use Rattle.std.specs.Option.{option_map};
ghost use Rattle.turn_book.specs.Passes.{joined_view};
ghost use Rattle.fleet_run.specs.Jobs.{joined_in};

use fleet_base::{Grid, Walk};
use journal_lines::Totals;
use lane_runs::Answer;
use order_text::Lane;
use plain_book::PlainBook;
use turn_book::TurnJoined;

// What there is to write, once all is planned. A plain book lends its grid.
#[derive(Drop)]
pub enum Job {
    // The walk of `one`, or that there is none.
    Reply {
        book: PlainBook,
        answer: Option<Walk>,
    },
    // A journal of one worker, by the answers in the order in which they are printed.
    Journal {
        book: PlainBook,
        lanes: Vec<Lane>,
        answers: Vec<Answer>,
    },
    // A journal of several workers, by the answers in any order.
    Shared {
        grid: Grid,
        lanes: Vec<Lane>,
        answers: Vec<Answer>,
        joined: TurnJoined,
    },
    // The last line of a journal.
    LastLine {
        totals: Totals,
        joined: Option<TurnJoined>,
    },
}

impl Job {
    // What the workers joined, where there were several.
    pub fn into_joined(self) -> Option<TurnJoined>
        ensures { option_map joined_view result ≡ joined_in self }
    {
        match self {
            Job::Reply { .. } => None,
            Job::Journal { .. } => None,
            Job::Shared { joined, .. } => Some(joined),
            Job::LastLine { joined, .. } => joined,
        }
    }
}

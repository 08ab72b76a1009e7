// The words of the trade: the types that every crate of the fleet speaks of, and the definitions that every claim
// stands on, in `specs/`: grid (`Terrain`), walks and meeting (`TimedWalk`), walks of a request, free and least
// (`Planned`), histories and journals (`History`, `Journal`), stays (`Stays`), what stands in the way of a search
// (`Traffic`), reachable cells (`Reach`), and the canonical walk (`Canonical`).
// Its calls: `walk_records` gives the maximal stays of a walk, `meets` is the definition of meeting, `sort_journal`
// makes a journal, and `journal_law` says that the journal of a strong history is a legal one.
#![tactic(auto)]

mod grid;
mod journal;
mod law;
mod request;
mod stays;
mod walk;

pub use grid::{Cell, Grid, Side};
pub use journal::{JournalKey, sort_journal};
pub use law::journal_law;
pub use request::{Entry, FOREVER, Live, Memory, Record, Request, RouteId, Stay};
pub use stays::walk_records;
pub use walk::{Walk, meets};

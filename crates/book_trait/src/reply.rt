use fleet_base::{Cell, RouteId, Walk};

/// Why an attempt was given up: another caller's swap changed the word, or another caller holds it.
#[derive(Clone, Copy, Debug, PartialEq, Eq, Drop)]
pub enum Cause {
    Changed,
    Held,
}

/// What there is no room for. A book without some of these limits never answers them.
#[derive(Clone, Copy, Debug, PartialEq, Eq, Drop)]
pub enum FullKind {
    /// The pass has made as many calls, or installs, as it can count.
    PassSpent { calls: u64, installs: u64 },
    /// The next stamp would be above 67,108,863.
    StampsSpent,
    /// The next era would be above 1,099,511,627,775.
    ErasSpent,
    /// The walk has that many different cells, which are too many for one swap.
    WalkLong { cells: u32 },
    /// The cell has that many records, and the walk would add so many that it had too many.
    CellDeep { cell: Cell, records: u32, adds: u32 },
    /// The pass has fewer free rows than the walk needs.
    RowsShort { free: u32, need: u32 },
    /// Each descriptor of the pass still waits: that caller's session word was loaded as this odd value.
    AsideFull { caller: u32, word: u64 },
}

/// The answer to a plan: the route that was committed, or that no walk of the request is free. The era is the number
/// of cancels before it.
#[derive(Drop)]
pub enum Reply {
    Committed { id: RouteId, walk: Walk, era: u64 },
    NoRoute { stamp: u32, era: u64 },
}

/// Why a plan was refused; no entry was made, and the pass can be used again. `Again`: another caller was in the way at
/// that word. `Full`: there is no room. `Memory`: memory ran out.
#[derive(Clone, Copy, Debug, PartialEq, Eq, Drop)]
pub enum PlanStop<W> {
    Again { word: W, cause: Cause },
    Full(FullKind),
    Memory,
}

/// Why a cancel was refused; no entry was made, and the pass can be used again. `NotLive`: the caller has no live route
/// of that stamp. `Again`: another caller was in the way at that word. `Full`: there is no room.
#[derive(Clone, Copy, Debug, PartialEq, Eq, Drop)]
pub enum CancelStop<W> {
    NotLive,
    Again { word: W, cause: Cause },
    Full(FullKind),
}

/// The pass has told 4,294,967,295 notes, which is as many as it can count.
#[derive(Clone, Copy, Debug, PartialEq, Eq, Drop)]
pub struct NotesSpent;

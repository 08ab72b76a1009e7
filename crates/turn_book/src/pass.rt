ghost use Rattle.std.specs.Prelude.{◌≡◌, ◌<◌, ◌++◌};
ghost use Rattle.std.specs.Vec.{vec_len, vec_capacity};

use crate::steps::TurnSeat;
use book_trait::Reply;
use fleet_base::Entry;

/// The turn, which is the one word that a call meets.
#[derive(Clone, Copy, Debug, PartialEq, Eq, Drop)]
pub struct Turn;

/// One caller's right to call a book. `live` has the stamps of its live routes, which rise.
#[derive(Drop)]
pub struct TurnPass {
    pub(crate) seat: TurnSeat,
    pub(crate) caller: u32,
    pub(crate) last: u32,
    pub(crate) told: u32,
    pub(crate) live: Vec<u32>,
}

/// What a pass had seen, and its last stamp.
#[derive(Drop)]
pub struct TurnNote {
    pub(crate) seat: TurnSeat,
    pub(crate) last: u32,
}

/// Callers that have ended.
#[derive(Drop)]
pub struct TurnJoined {
    pub(crate) seat: TurnSeat,
}

impl TurnPass {
    ghost use Rattle.book_trait.specs.Calls.{stamp_of};
    ghost use Rattle.turn_book.specs.Replying.{IsReply, IsToldBy, stamps_in};

    // Keeps what the reply changes, and makes the answer of it. There is room for a stamp more.
    pub(crate) fn keep(&mut self, entry: Entry) -> Reply
        requires reply { IsReply entry }
        requires room { vec_len self.old.live < vec_capacity self.old.live }
        ensures told { IsToldBy entry result }
        ensures live { self.new.live.items ≡ self.old.live.items ++ stamps_in entry }
        ensures last { self.new ≡ record self.old { last = stamp_of result; live = self.new.live } }
    {
        match entry {
            Entry::Commit { id, era, walk, .. } => {
                self.live.push_reserved(id.stamp);
                self.last = id.stamp;
                Reply::Committed { id, walk, era }
            }
            Entry::NoRoute { stamp, era, .. } => {
                self.last = stamp;
                Reply::NoRoute { stamp, era }
            }
            Entry::Cancel { .. } => unreachable!(),
        }
    }
}

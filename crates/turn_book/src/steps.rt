ghost use Rattle.std.specs.Prelude.{◌≡◌, ℕ, ◌+◌, ◌<◌, true, [], ◌∷◌, IfSome, IfNone};

use crate::rule::{Both, Giving, Layout, Look, OneCaller, Says, Taking, Telling, TurnRule, View};
use atomic_table::{Seat, Table};
use fleet_base::Entry;
use plain_book::PlainBook;
use std::alloc::Global;

pub type TurnSeat = Seat<Option<PlainBook>, View>;

/// A plain book that its callers share, one at a time.
#[derive(Drop)]
pub struct TurnBook {
    pub(crate) table: Table<Option<PlainBook>, View, Layout, TurnRule, Global>,
    ghost words: { table.shared.table_id.words ≡ 1 },
    ghost slots: { table.shared.table_id.slots ≡ 1 },
}

impl TurnBook {
    ghost use Rattle.turn_book.specs.Turns.{less_one, first_one, told_of};
    ghost use Rattle.turn_book.specs.Seats.{layout_of, IsSeat, IsAside, HasOut, HasTaken, HasMissed, MayGive, HasGiven, HasMerged};

    // Takes the turn, and the book out of its slot. None where another caller has the turn.
    pub(crate) fn take(&self, seat: &mut TurnSeat, caller: u32) -> Option<PlainBook>
        requires aside { IsAside self.now seat.old }
        requires caller { (seat.old.me.0.mine.callers ≡ caller ∷ []) × (caller < (layout_of self.now).callers) }
        ensures taken { IfSome result (λ book. HasTaken self.now caller seat.old seat.new book) }
        ensures missed { IfNone result (HasMissed self.now seat.old seat.new) }
    {
        let found = self
            .table
            .shared
            .compare_exchange::<Taking>(seat, 0, 0, caller as u64 + 1);
        if found != 0 {
            return None;
        }
        self.table.shared.exchange(seat, 0, None)
    }

    // Puts the book back, and gives the turn back with the caller's entries, if it made any.
    pub(crate) fn give<J: Says>(
        &self,
        seat: &mut TurnSeat,
        caller: u32,
        book: PlainBook,
        _entries: &[Entry],
        _full: u32,
    )
        requires out { HasOut self.now caller seat.old }
        requires may { MayGive self.now caller seat.old.me.0.mine.seen _entries.now book }
        requires said { (J.more ≡ _entries.now) × (J.full ≡ _full) }
        ensures { HasGiven self.now seat.old seat.new _entries.now _full }
    {
        let _none = self.table.shared.exchange(seat, 0, Some(book));
        self.table
            .shared
            .compare_exchange::<Giving<J>>(seat, 0, caller as u64 + 1, 0);
    }

    // The seat of the first one of its callers alone.
    pub(crate) fn cut(&self, seat: &mut TurnSeat) -> TurnSeat
        requires { IsAside self.now seat.old }
        ensures aside { IsAside self.now seat.new × IsAside self.now result }
        ensures views { (seat.new.me.0 ≡ less_one seat.old.me.0) × (result.me.0 ≡ first_one seat.old.me.0) }
    {
        self.table.shared.split_seat::<OneCaller>(seat)
    }

    // A seat that knows what this one has seen.
    pub(crate) fn told(&self, seat: &mut TurnSeat) -> TurnSeat
        requires { IsAside self.now seat.old }
        ensures aside { IsAside self.now seat.new × IsAside self.now result }
        ensures views { (seat.new.me.0 ≡ seat.old.me.0) × (result.me.0 ≡ told_of seat.old.me.0) }
    {
        self.table.shared.split_seat::<Telling>(seat)
    }

    // Takes in what the other seat knows.
    pub(crate) fn merge(&self, seat: &mut TurnSeat, other: TurnSeat)
        requires first { IsAside self.now seat.old }
        requires second { IsAside self.now other }
        ensures { HasMerged self.now seat.old seat.new other }
    {
        self.table.shared.join_seat::<Both>(seat, other);
        self.table.shared.load::<Look>(seat, 0);
    }
}

ghost use Rattle.std.specs.Prelude.{ℕ, List, []};

use atomic_table::{Join, Play, Split, TableRule};
use fleet_base::{Entry, Grid};
use plain_book::PlainBook;
use std::collections::LinkedList;
use std::marker::{Brand, PhantomData};

/// What a book is opened for: its grid, its horizon and its number of callers.
#[derive(Drop)]
pub struct Layout {
    pub grid: Grid,
    pub horizon: u32,
    pub callers: u32,
}

/// What was seen of the book's list: a beginning of it, behind which no entry of these callers stands.
/// It stands in proofs alone, as `View` does.
#[derive(Drop)]
pub struct Known {
    pub callers: LinkedList<u32>,
    pub seen: LinkedList<Entry>,
}

/// What a seat knows; no value of it is made. `heard` was taken in from another seat, and isn't compared with `mine`
/// yet. `tries` counts the exchanges that were to take the turn, and `found` is what the last one found.
#[derive(Drop)]
pub struct View {
    pub layout: Layout,
    pub of_book: bool,
    pub holds: bool,
    pub mine: Known,
    pub heard: Known,
    pub again: u64,
    pub full: u64,
    pub tries: u64,
    pub found: u64,
}

// The turn word is 0 where the turn is free and the book lies in its slot, else 1 more than the caller that has both.
pub struct TurnRule;

impl TableRule<Option<PlainBook>, View, Layout> for TurnRule {
    ghost use Rattle.turn_book.specs.Turns.{IsKept, first_view};

    ghost holds = { IsKept };

    ghost first = { first_view };
}

// The kinds of step. The turn is taken, with the book, or another caller has it.
pub struct Taking;

impl Play<Option<PlainBook>, View> for Taking {
    ghost use Rattle.turn_book.specs.Turns.{takes_turn};

    ghost then = { takes_turn };
}

// The turn is given back, and its entries stand at the end of the list. They are told to the proof alone.
pub trait Says {
    ghost use Rattle.fleet_base.specs.declared.request.Entry.{Entry};

    ghost more: { List Entry };

    ghost full: { ℕ };
}

impl Says for Brand {
    ghost more = { [] };

    ghost full = { 0 };
}

pub struct Giving<J> {
    says: PhantomData<J>,
}

impl<J: Says> Play<Option<PlainBook>, View> for Giving<J> {
    ghost use Rattle.turn_book.specs.Turns.{gives_turn};

    ghost then = { gives_turn J.more J.full };
}

// The list is looked at.
pub struct Look;

impl Play<Option<PlainBook>, View> for Look {
    ghost use Rattle.turn_book.specs.Turns.{looks};

    ghost then = { looks };
}

// The first caller's part is cut off.
pub struct OneCaller;

impl Split<View> for OneCaller {
    ghost use Rattle.turn_book.specs.Turns.{less_one, first_one};

    ghost left = { less_one };

    ghost right = { first_one };
}

// What was seen is told.
pub struct Telling;

impl Split<View> for Telling {
    ghost use Rattle.turn_book.specs.Turns.{told_of};

    ghost left = { λ v. v };

    ghost right = { told_of };
}

// A second view is taken in.
pub struct Both;

impl Join<View> for Both {
    ghost use Rattle.turn_book.specs.Turns.{both, spent};

    ghost both = { both };

    ghost spent = { spent };
}

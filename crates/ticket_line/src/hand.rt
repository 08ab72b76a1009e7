use atomic_table::{Join, Play, Split, TableRule};
use std::collections::LinkedList;

/// How many numbers a line has, and how many tickets.
#[derive(Drop)]
pub struct Layout {
    pub count: u32,
    pub workers: u32,
}

/// What a ticket has drawn: for how many tickets it stands, which numbers it has, and how often it found none left.
/// It stands in proofs alone; no value of it is made.
#[derive(Drop)]
pub struct Hand {
    pub parts: u64,
    pub drawn: LinkedList<u32>,
    pub late: u64,
    pub count: u32,
    pub workers: u32,
}

// The one word of a line counts its draws.
pub struct LineRule;

impl TableRule<(), Hand, Layout> for LineRule {
    ghost use Rattle.ticket_line.specs.Drawn.{IsKept, first_hand};

    ghost holds = { IsKept };

    ghost first = { first_hand };
}

// The four kinds of step: a draw, a look at the word, a ticket cut off, and two made one.
pub struct Draw;

impl Play<(), Hand> for Draw {
    ghost use Rattle.ticket_line.specs.Drawn.{draws};

    ghost then = { draws };
}

pub struct Look;

impl Play<(), Hand> for Look {
    ghost use Rattle.ticket_line.specs.Drawn.{looks};

    ghost then = { looks };
}

pub struct Cut;

impl Split<Hand> for Cut {
    ghost use Rattle.ticket_line.specs.Drawn.{less_one, one_part};

    ghost left = { less_one };

    ghost right = { one_part };
}

pub struct Both;

impl Join<Hand> for Both {
    ghost use Rattle.ticket_line.specs.Drawn.{both, spent};

    ghost both = { both };

    ghost spent = { spent };
}

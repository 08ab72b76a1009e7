ghost use Rattle.std.specs.Prelude.{◌≡◌, ℕ, ◌+◌, ◌<◌, ◌≤◌, true, false, List, [], ◌∷◌, ◌++◌, ◌||◌, IfOk, IfSome, IfNone, All, length};
ghost use Rattle.ticket_line.specs.Numbers.{EachOnce};

use crate::hand::{Both, Cut, Draw, Hand, Layout, LineRule, Look};
use atomic_table::{Seat, Table};
use fleet_base::Memory;
use std::alloc::Global;

/// The numbers below a count, to be drawn by a number of workers.
#[derive(Drop)]
pub struct TicketLine {
    table: Table<(), Hand, Layout, LineRule, Global>,
    ghost words: { table.shared.table_id.words ≡ 1 },
    ghost slots: { table.shared.table_id.slots ≡ 0 },
}

/// A right to draw numbers of one line, and the numbers that were drawn with it.
#[derive(Drop)]
pub struct Ticket {
    seat: Seat<(), Hand>,
    ended: bool,
    count: u32,
    ghost some_parts: { (0 < seat.me.0.parts) × (seat.me.0.count ≡ count) × (seat.me.1 ≡ []) },
    ghost not_ended: { ended ≡ false → seat.me.0.late ≡ 0 },
    ghost has_ended: { ended ≡ true → 0 < seat.me.0.late },
    ghost all: { ended ≡ true → seat.me.0.parts ≡ seat.me.0.workers → EachOnce count seat.me.0.drawn },
}

impl TicketLine {
    ghost use Rattle.ticket_line.specs.Tickets.{count_of, workers_of, IsOf, parts, drawn, has_ended, IsNew};
    ghost use Rattle.ticket_line.specs.Opening.{IsOpening};
    ghost use Rattle.ticket_line.specs.Drawn.{both};

    /// A line of the numbers below `count`, and a ticket for each worker.
    pub fn open(
        alloc: Global,
        count: u32,
        workers: u32,
    ) -> Result<(TicketLine, Vec<Ticket>), Memory>
        requires workers { (1 ≤ workers) × (workers ≤ 16) }
        requires count { count ≤ 32767 }
        ensures line { IfOk result (λ r. (count_of r.0 ≡ count) × (workers_of r.0 ≡ workers)) }
        ensures tickets { IfOk result (λ r. (length r.1.items ≡ workers) × All (λ t. IsOf r.0 t × IsNew t) r.1.items) }
    {
        let words = [0u64];
        let layout = Layout { count, workers };
        let (table, seat) = Table::of_words(alloc, &words, &layout)?;
        let line = TicketLine { table };
        let tickets = line.tickets(alloc, seat, count, workers)?;
        Ok((line, tickets))
    }

    // Cuts one part off the seat, as a ticket.
    fn cut(&self, seat: &mut Seat<(), Hand>, count: u32) -> Ticket
        requires opening { IsOpening self.now seat.old count }
        requires more { 1 < seat.old.me.0.parts }
        ensures opening { IsOpening self.now seat.new count }
        ensures parts { seat.new.me.0.parts + 1 ≡ seat.old.me.0.parts }
        ensures ticket { IsOf self.now result × IsNew result }
    {
        let one = self.table.shared.split_seat::<Cut>(seat);
        Ticket {
            seat: one,
            ended: false,
            count,
        }
    }

    // The seat itself, as the last ticket.
    fn last(&self, seat: Seat<(), Hand>, count: u32) -> Ticket
        requires opening { IsOpening self.now seat count }
        requires one { seat.me.0.parts ≡ 1 }
        ensures ticket { IsOf self.now result × IsNew result }
    {
        Ticket {
            seat,
            ended: false,
            count,
        }
    }

    // A ticket for each part of the seat.
    fn tickets(
        &self,
        alloc: Global,
        mut seat: Seat<(), Hand>,
        count: u32,
        workers: u32,
    ) -> Result<Vec<Ticket>, Memory>
        requires opening { IsOpening self.now seat count }
        requires workers { (1 ≤ workers) × (workers ≤ 16) × (seat.me.0.parts ≡ workers) }
        ensures { IfOk result (λ r. (length r.items ≡ workers) × All (λ t. IsOf self.now t × IsNew t) r.items) }
    {
        let mut tickets = Vec::with_capacity(alloc, workers as usize)?;
        for _ in 1..workers {
            tickets.push(self.cut(&mut seat, count))?;
        }
        tickets.push(self.last(seat, count))?;
        Ok(tickets)
    }

    /// The next number of the line, by one fetch-and-add. None where the number drawn isn't below the count; from
    /// then on the ticket answers none without a step.
    pub fn draw(&self, ticket: &mut Ticket) -> Option<u32>
        requires { IsOf self.now ticket.old }
        ensures of { IsOf self.now ticket.new × (parts ticket.new ≡ parts ticket.old) }
        ensures some { IfSome result (λ n. (n < count_of self.now) × (drawn ticket.new ≡ drawn ticket.old ++ n ∷ []) × (has_ended ticket.new ≡ false) × (has_ended ticket.old ≡ false)) }
        ensures few { IfSome result (λ n. length (drawn ticket.new) ≤ count_of self.now) }
        ensures none { IfNone result ((drawn ticket.new ≡ drawn ticket.old) × (has_ended ticket.new ≡ true)) }
        ensures all { IfNone result (parts ticket.new ≡ workers_of self.now → EachOnce (count_of self.now) (drawn ticket.new)) }
        ensures ended { has_ended ticket.old ≡ true → ticket.new ≡ ticket.old }
    {
        if ticket.ended {
            return None;
        }
        let found = self.table.shared.fetch_add::<Draw>(&mut ticket.seat, 0, 1);
        if found < ticket.count as u64 {
            Some(found as u32)
        } else {
            ticket.ended = true;
            None
        }
    }

    // Puts the second seat's parts and numbers to the first's, and looks whether these are all.
    fn merge(&self, seat: &mut Seat<(), Hand>, other: Seat<(), Hand>)
        requires first { (seat.old.table_id ≡ self.now.table.shared.table_id) × (0 < seat.old.me.0.parts) }
        requires second { (other.table_id ≡ self.now.table.shared.table_id) × (other.me.1 ≡ []) }
        ensures table { seat.new.table_id ≡ seat.old.table_id }
        ensures hand { seat.new.me ≡ (both seat.old.me.0 other.me.0, seat.old.me.1) }
        ensures all { 0 < seat.new.me.0.late → seat.new.me.0.parts ≡ seat.new.me.0.workers → EachOnce seat.new.me.0.count seat.new.me.0.drawn }
    {
        self.table.shared.join_seat::<Both>(seat, other);
        self.table.shared.load::<Look>(seat, 0);
    }

    /// One ticket for the workers and the numbers of both. It was answered none where one of the two was.
    pub fn gather(&self, first: Ticket, second: Ticket) -> Ticket
        requires { IsOf self.now first × IsOf self.now second }
        ensures of { IsOf self.now result × (parts result ≡ parts first + parts second) }
        ensures drawn { drawn result ≡ drawn first ++ drawn second }
        ensures ended { has_ended result ≡ (has_ended first || has_ended second) }
        ensures all { parts result ≡ workers_of self.now → has_ended result ≡ true → EachOnce (count_of self.now) (drawn result) }
    {
        let Ticket {
            mut seat,
            ended,
            count,
        } = first;
        let Ticket {
            seat: other,
            ended: other_ended,
            count: _,
        } = second;
        self.merge(&mut seat, other);
        Ticket {
            seat,
            ended: ended || other_ended,
            count,
        }
    }
}

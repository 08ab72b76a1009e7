ghost use Rattle.std.specs.Prelude.{◌≡◌, ℕ, ◌+◌, ◌<◌, ◌≤◌, Bool, true, false, List, [], ◌∷◌, ◌++◌, length, Some, slice_get, IfOk};
ghost use Rattle.book_trait.specs.Passes.{IsJoined, fresh};
ghost use Rattle.ticket_line.specs.Tickets.{IsOf, parts, drawn, has_ended, count_of, workers_of, IsNew};
ghost use Rattle.ticket_line.specs.Numbers.{EachOnce};
ghost use Rattle.planner_pool.specs.Runs.{rest_of};
ghost use Rattle.planner_pool.specs.Parts.{AreOnGrid, HasWorked};

use crate::gate::Gate;
use crate::lane::run_lane;
use book_trait::SharedBook;
use fleet_base::Memory;
use lane_runs::{Answer, Left};
use order_text::Lane;
use std::alloc::Global;
use ticket_line::{Ticket, TicketLine};

// What workers did: the answers, the lanes that were left, and what their passes and tickets stand for.
#[derive(Drop)]
pub struct Work<J> {
    pub answers: Vec<Answer>,
    pub left: Vec<Left>,
    pub joined: J,
    pub ticket: Ticket,
}

// Notes a lane that was left, and from which order on.
fn note_left(left: &mut Vec<Left>, done: bool, lane: u32, from: u32) -> Result<(), Memory>
    ensures { IfOk result (λ _. left.new.items ≡ left.old.items ++ rest_of done lane from) }
{
    if !done {
        left.push(Left { lane, from })?;
    }
    Ok(())
}

// Draws lanes and answers their orders, until there is no lane to draw.
pub fn run_worker<B: SharedBook, G: Gate>(
    alloc: Global,
    book: &B,
    mut pass: B::Pass,
    caller: u32,
    line: &TicketLine,
    mut ticket: Ticket,
    lanes: &[Lane],
    gate: &G,
) -> Result<Work<B::Joined>, Memory>
    requires pass { B.has_pass book.now pass × (B.pass_view pass ≡ fresh caller) }
    requires ticket { IsOf line.now ticket × IsNew ticket }
    requires line { count_of line.now ≡ length lanes.now }
    requires lanes { AreOnGrid (length (B.book book.now).grid.cells) lanes.now }
    ensures joined { IfOk result (λ w. B.has_joined book.now w.joined × ((B.joined_view w.joined).callers ≡ caller ∷ [])) }
    ensures is_joined { IfOk result (λ w. IsJoined (B.book book.now) (B.joined_view w.joined)) }
    ensures ticket { IfOk result (λ w. IsOf line.now w.ticket × (parts w.ticket ≡ 1) × (has_ended w.ticket ≡ true)) }
    ensures all { IfOk result (λ w. workers_of line.now ≡ 1 → EachOnce (count_of line.now) (drawn w.ticket)) }
    ensures worked { IfOk result (λ w. HasWorked lanes.now (drawn w.ticket) w.answers.items w.left.items (B.joined_view w.joined)) }
{
    let mut answers = Vec::new(alloc);
    let mut left = Vec::new(alloc);
    while let Some(k) = line.draw(&mut ticket) {
        let lane = &lanes[k as usize];
        let (mut mine, done) = run_lane(alloc, book, &mut pass, caller, lane, gate)?;
        note_left(&mut left, done, k, lane.first + mine.len() as u32)?;
        answers.append(&mut mine)?;
    }
    Ok(Work {
        answers,
        left,
        joined: book.rest(pass),
        ticket,
    })
}

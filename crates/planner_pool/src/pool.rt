ghost use Rattle.std.specs.Prelude.{◌≡◌, ◌≤◌, length, IfOk};
ghost use Rattle.std.specs.List.{range_with_len};
ghost use Rattle.book_trait.specs.Passes.{IsJoined};
ghost use Rattle.order_text.specs.Lanes.{AreLanes};
ghost use Rattle.planner_pool.specs.Crew.{AreFresh};
ghost use Rattle.planner_pool.specs.PoolRun.{IsPoolRun};

use crate::crew::run_crew;
use crate::gate::Gate;
use crate::worker::Work;
use book_trait::SharedBook;
use fleet_base::Memory;
use lane_runs::{Answers, LeftList};
use order_text::Lane;
use std::alloc::Global;
use std::thread::Threads;
use ticket_line::TicketLine;

/// What became of the lanes, and what all passes stand for together.
#[derive(Drop)]
pub struct PoolResult<J> {
    /// The answers, in no promised order.
    pub answers: Answers,
    /// The lanes of which orders were left, in no promised order.
    pub left: LeftList,
    pub joined: J,
}

/// Runs the lanes over a book that was just opened: one worker for each of its passes, which stand in the order of
/// their callers. Each order is answered or left, once. One that was answered `Again` eight times or `Full` once is left,
/// with the rest of its lane; a cancel whose plan has no route is gone, and calls no book. `Memory` where memory runs out
/// in any thread; all threads are joined then.
pub fn run_lanes<R: Threads + Sync, B: SharedBook, G: Gate>(
    rt: &R,
    alloc: Global,
    book: &B,
    passes: Vec<B::Pass>,
    lanes: &[Lane],
    gate: &G,
) -> Result<PoolResult<B::Joined>, Memory>
    requires passes { (length passes.items ≡ (B.book book.now).callers) × AreFresh (B.has_pass book.now) B.pass_view 0 passes.items }
    requires workers { (1 ≤ length passes.items) × (length passes.items ≤ 16) }
    requires lanes { AreLanes (length (B.book book.now).grid.cells) lanes.now }
    ensures joined { IfOk result (λ r. B.has_joined book.now r.joined) }
    ensures is_joined { IfOk result (λ r. IsJoined (B.book book.now) (B.joined_view r.joined)) }
    ensures callers { IfOk result (λ r. (B.joined_view r.joined).callers ≡ range_with_len 0 (B.book book.now).callers) }
    ensures run { IfOk result (λ r. IsPoolRun lanes.now r.answers r.left (B.joined_view r.joined)) }
{
    let (line, tickets) = TicketLine::open(alloc, lanes.len() as u32, passes.len() as u32)?;
    let Work {
        answers,
        left,
        joined,
        ticket: _,
    } = run_crew(rt, alloc, book, 0, passes, &line, tickets, lanes, gate)?;
    Ok(PoolResult {
        answers: Answers::new(answers),
        left: LeftList::new(left),
        joined,
    })
}

ghost use Rattle.std.specs.Prelude.{◌≡◌, ℕ, ◌+◌, ◌<◌, length, IfOk, IfErr, MatchOption};
ghost use Rattle.book_trait.specs.Passes.{HasLive};
ghost use Rattle.planner_pool.specs.Tries.{PlanTried, CancelTried, Leaves};

use book_trait::{CancelStop, PlanStop, Reply, SharedBook};
use fleet_base::{Memory, Request};

// How often an order is tried where another caller is in the way.
const TRIES: u32 = 8;

// Tries a plan until it is answered or the book is full. None where the order is left.
pub fn plan_with_tries<B: SharedBook>(
    book: &B,
    pass: &mut B::Pass,
    request: Request,
) -> Result<Option<Reply>, Memory>
    requires pass { B.has_pass book.now pass.old }
    requires cells { (request.start.0 < length (B.book book.now).grid.cells) × (request.goal.0 < length (B.book book.now).grid.cells) }
    ensures pass { B.has_pass book.now pass.new }
    ensures tried { IfOk result (λ r. MatchOption r (Leaves (B.pass_view pass.old) (B.pass_view pass.new)) (λ reply. PlanTried (B.pass_view pass.old) request reply (B.pass_view pass.new))) }
{
    for _ in 0..TRIES {
        match book.plan(pass, request) {
            Ok(reply) => return Ok(Some(reply)),
            Err(PlanStop::Again { .. }) => {}
            Err(PlanStop::Full(_)) => return Ok(None),
            Err(PlanStop::Memory) => return Err(Memory),
        }
    }
    Ok(None)
}

// Tries to cancel a live route until it is ended or the book is full. None where the order is left.
pub fn cancel_with_tries<B: SharedBook>(book: &B, pass: &mut B::Pass, stamp: u32) -> Option<u64>
    requires pass { B.has_pass book.now pass.old }
    requires live { HasLive (B.pass_view pass.old) stamp }
    ensures pass { B.has_pass book.now pass.new }
    ensures tried { MatchOption result (Leaves (B.pass_view pass.old) (B.pass_view pass.new)) (λ era. CancelTried (B.pass_view pass.old) stamp era (B.pass_view pass.new)) }
{
    for _ in 0..TRIES {
        match book.cancel(pass, stamp) {
            Ok(era) => return Some(era),
            Err(CancelStop::Again { .. }) => {}
            Err(CancelStop::Full(_)) => return None,
            Err(CancelStop::NotLive) => unreachable!(),
        }
    }
    None
}

ghost use Rattle.std.specs.Prelude.{◌≡◌, ℕ, ◌+◌, ◌<◌, ◌≤◌, Bool, true, false, length, IfOk, MatchOption, MatchBool};
ghost use Rattle.book_trait.specs.Calls.{entry_of};
ghost use Rattle.order_text.specs.Lanes.{IsLane, after_lane};
ghost use Rattle.lane_runs.specs.Answers.{Committed, Refused, IsReplyAt};
ghost use Rattle.planner_pool.specs.LaneSteps.{IsAnswering, AnswersOrder, IsLeft, RunsLane};

use crate::gate::Gate;
use crate::tries::{cancel_with_tries, plan_with_tries};
use book_trait::{Reply, SharedBook};
use fleet_base::{Entry, Memory, Request, RouteId};
use lane_runs::Answer;
use order_text::{Lane, Order};
use std::alloc::Global;

// The entry of a reply to a caller's request.
fn entry_for(caller: u32, request: Request, reply: Reply) -> Entry
    ensures { result ≡ entry_of caller request reply }
{
    match reply {
        Reply::Committed { id, walk, era } => Entry::Commit {
            id,
            era,
            request,
            walk,
        },
        Reply::NoRoute { stamp, era } => Entry::NoRoute {
            stamp,
            caller,
            era,
            request,
        },
    }
}

// The id that the answer at this place gave, or none where it found no route.
fn given(answers: &Vec<Answer>, place: usize) -> Option<RouteId>
    requires { IsReplyAt answers.now.items place }
    ensures { MatchOption result (Refused answers.now.items place) (λ id. Committed answers.now.items place id) }
{
    match answers.get(place) {
        Some(
            Answer::Made {
                entry: Entry::Commit { id, .. },
                ..
            },
        ) => Some(*id),
        Some(
            Answer::Made {
                entry: Entry::NoRoute { .. },
                ..
            },
        ) => None,
        _ => unreachable!(),
    }
}

// Answers the next order of a lane, and says whether it did: where not, the order is left.
fn answer_order<B: SharedBook>(
    book: &B,
    pass: &mut B::Pass,
    caller: u32,
    lane: &Lane,
    next: usize,
    answers: &mut Vec<Answer>,
) -> Result<bool, Memory>
    requires pass { B.has_pass book.now pass.old × ((B.pass_view pass.old).caller ≡ caller) }
    requires lane { IsLane (length (B.book book.now).grid.cells) lane.now × (after_lane lane.now ≤ 32767) }
    requires next { (length answers.old.items ≡ next) × (next < length lane.now.orders) }
    requires so_far { IsAnswering lane.now answers.old.items (B.pass_view pass.old) }
    ensures pass { B.has_pass book.now pass.new }
    ensures answered { IfOk result (λ done. MatchBool done (AnswersOrder lane.now answers.old.items (B.pass_view pass.old) answers.new.items (B.pass_view pass.new)) (IsLeft answers.old.items (B.pass_view pass.old) answers.new.items (B.pass_view pass.new))) }
{
    let order = lane.first + next as u32;
    match lane.orders.as_slice()[next] {
        Order::Plan { request } => {
            let Some(reply) = plan_with_tries(book, pass, request)? else {
                return Ok(false);
            };
            let entry = entry_for(caller, request, reply);
            answers.push(Answer::Made { order, entry })?;
        }
        Order::Cancel { target } => match given(answers, (target - lane.first) as usize) {
            None => answers.push(Answer::Gone { order, target })?,
            Some(id) => {
                let Some(era) = cancel_with_tries(book, pass, id.stamp) else {
                    return Ok(false);
                };
                let entry = Entry::Cancel { id, era };
                answers.push(Answer::Made { order, entry })?;
            }
        },
    }
    Ok(true)
}

// Answers the orders of a lane, in their order. Beside the answers it says whether all orders were answered.
pub fn run_lane<B: SharedBook, G: Gate>(
    alloc: Global,
    book: &B,
    pass: &mut B::Pass,
    caller: u32,
    lane: &Lane,
    gate: &G,
) -> Result<(Vec<Answer>, bool), Memory>
    requires pass { B.has_pass book.now pass.old × ((B.pass_view pass.old).caller ≡ caller) }
    requires lane { IsLane (length (B.book book.now).grid.cells) lane.now × (after_lane lane.now ≤ 32767) }
    ensures pass { B.has_pass book.now pass.new }
    ensures answered { IfOk result (λ r. RunsLane lane.now (B.pass_view pass.old) r.0.items r.1 (B.pass_view pass.new)) }
{
    let mut answers = Vec::with_capacity(alloc, lane.orders.as_slice().len())?;
    for next in 0..lane.orders.as_slice().len() {
        gate.before(lane.first + next as u32);
        if !answer_order(book, pass, caller, lane, next, &mut answers)? {
            return Ok((answers, false));
        }
        gate.after(lane.first + next as u32);
    }
    Ok((answers, true))
}

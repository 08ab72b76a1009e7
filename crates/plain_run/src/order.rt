ghost use Rattle.std.specs.Prelude.{◌≡◌, ◌+◌, ◌<◌, ◌≤◌, length, OnOk, MatchOption};
ghost use Rattle.fleet_base.specs.History.{IsLive};
ghost use Rattle.order_text.specs.Lanes.{all_orders, AreLanes};
ghost use Rattle.lane_runs.specs.Answers.{Committed, Refused, IsReplyAt};
ghost use Rattle.plain_book.specs.Replies.{EndsRoute};
ghost use Rattle.plain_book.specs.History.{AnswersBook};
ghost use Rattle.plain_run.specs.Underway.{IsUnderway};

use fleet_base::{Entry, Memory, RouteId};
use lane_runs::{Answer, order_at};
use order_text::{Lane, Order};
use plain_book::PlainBook;

// The caller of all entries of a run by one worker.
const CALLER: u32 = 0;

// The id that the answer at this place gave, or none where it found no route.
fn given(answers: &[Answer], place: usize) -> Option<RouteId>
    requires { IsReplyAt answers.now place }
    ensures { MatchOption result (Refused answers.now place) (λ id. Committed answers.now place id) }
{
    match answers.get(place) {
        Some(
            Answer::Made {
                entry: Entry::Commit { id, .. },
                ..
            },
        ) => Some(*id),
        Some(
            Answer::Made {
                entry: Entry::NoRoute { .. },
                ..
            },
        ) => None,
        _ => unreachable!(),
    }
}

// Ends a live route.
fn end_route(book: &mut PlainBook, id: RouteId) -> Entry
    requires live { IsLive id book.old.routes }
    requires era { book.old.era < 1099511627775 }
    ensures ends { EndsRoute book.old id result book.new }
    ensures history { AnswersBook book.old book.new result }
{
    match book.cancel(id) {
        Ok(entry) => entry,
        Err(_) => unreachable!(),
    }
}

// Answers the order of that number, the next one.
pub fn answer_order(
    book: &mut PlainBook,
    lanes: &[Lane],
    order: u32,
    answers: &mut Vec<Answer>,
) -> Result<(), Memory>
    requires next { order ≡ length answers.old.items }
    requires lanes { AreLanes (length book.old.grid.cells) lanes.now }
    requires more { order < length (all_orders lanes.now) }
    requires underway { IsUnderway book.old.grid book.old.horizon (all_orders lanes.now) answers.old.items book.old }
    ensures one { OnOk result (length answers.new.items ≡ length answers.old.items + 1) }
    ensures underway { OnOk result (IsUnderway book.old.grid book.old.horizon (all_orders lanes.now) answers.new.items book.new) }
{
    match order_at(lanes, order) {
        Order::Plan { request } => {
            let entry = book.plan(CALLER, request)?;
            answers.push(Answer::Made { order, entry })?;
        }
        Order::Cancel { target } => match given(answers.as_slice(), target as usize) {
            None => answers.push(Answer::Gone { order, target })?,
            Some(id) => {
                let entry = end_route(book, id);
                answers.push(Answer::Made { order, entry })?;
            }
        },
    }
    Ok(())
}

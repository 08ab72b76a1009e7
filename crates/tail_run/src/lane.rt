ghost use Rattle.std.specs.Prelude.{◌≡◌, ◌<◌, ◌≤◌, List, length, OnOk};
ghost use Rattle.order_text.specs.Lanes.{IsLane, after_lane};
ghost use Rattle.lane_runs.specs.declared.answer.Answer.{Answer as AnAnswer};
ghost use Rattle.fleet_base.specs.History.{IsLive};
ghost use Rattle.lane_runs.specs.Answers.{order_of};
ghost use Rattle.plain_book.specs.BookState.{IsOnSameGrid};
ghost use Rattle.plain_book.specs.Replies.{EndsRoute};
ghost use Rattle.plain_book.specs.History.{AnswersBook};
ghost use Rattle.tail_run.specs.Tails.{MayBeAnswered, HasKept, AnswersOne, IsStart, IsAtPlace};

use crate::ids::note_id;
use fleet_base::{Entry, Memory, RouteId};
use lane_runs::Answer;
use order_text::{Lane, Order};
use plain_book::PlainBook;

// What one worker goes on from: the book, the ids that the orders were given, and all answers so far.
#[derive(Drop)]
pub struct Tail {
    pub book: PlainBook,
    pub ids: Vec<Option<RouteId>>,
    pub answers: Vec<Answer>,
}

// Ends a live route.
fn end_route(book: &mut PlainBook, id: RouteId) -> Entry
    requires live { IsLive id book.old.routes }
    requires era { book.old.era < 1099511627775 }
    ensures ends { EndsRoute book.old id result book.new }
    ensures history { AnswersBook book.old book.new result }
    ensures same { IsOnSameGrid book.old book.new }
{
    match book.cancel(id) {
        Ok(entry) => entry,
        Err(_) => unreachable!(),
    }
}

fn keep(tail: &mut Tail, answer: Answer) -> Result<(), Memory>
    requires { order_of answer < length tail.old.ids.items }
    ensures kept { OnOk result (HasKept tail.old tail.new answer) }
    ensures book { tail.new.book ≡ tail.old.book }
{
    note_id(&mut tail.ids, &answer);
    tail.answers.push(answer)?;
    Ok(())
}

// Answers the order of that number.
fn answer_order(tail: &mut Tail, caller: u32, number: u32, order: Order) -> Result<(), Memory>
    requires may { MayBeAnswered tail.old order }
    requires room { (tail.old.book.stamp < 67108863) × (tail.old.book.era < 1099511627775) }
    requires within { number < length tail.old.ids.items }
    ensures { OnOk result (AnswersOne caller number order tail.old tail.new) }
{
    match order {
        Order::Plan { request } => {
            let entry = tail.book.plan(caller, request)?;
            keep(
                tail,
                Answer::Made {
                    order: number,
                    entry,
                },
            )
        }
        Order::Cancel { target } => match tail.ids[target as usize] {
            None => keep(
                tail,
                Answer::Gone {
                    order: number,
                    target,
                },
            ),
            Some(id) => {
                let entry = end_route(&mut tail.book, id);
                keep(
                    tail,
                    Answer::Made {
                        order: number,
                        entry,
                    },
                )
            }
        },
    }
}

/// Answers the orders of a lane from that number on, in their order.
pub fn finish_lane(tail: &mut Tail, caller: u32, lane: &Lane, from: u32) -> Result<(), Memory>
    requires lane { IsLane (length tail.old.book.grid.cells) lane.now × (after_lane lane.now ≤ length tail.old.ids.items) }
    requires few { (after_lane lane.now ≤ 32767) × (tail.old.book.stamp ≤ 32767) × (tail.old.book.era ≤ 32767) }
    requires start { (xs : List AnAnswer) × IsStart lane.now xs from tail.old }
    ensures { OnOk result ((xs : List AnAnswer) → IsStart lane.now xs from tail.old → IsAtPlace caller lane.now xs tail.old (length lane.now.orders) tail.new) }
{
    let orders = lane.orders.as_slice();
    let first = (from - lane.first) as usize;
    for place in first..orders.len() {
        answer_order(tail, caller, lane.first + place as u32, orders[place])?;
    }
    Ok(())
}

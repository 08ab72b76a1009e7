ghost use Rattle.std.specs.Prelude.{◌≡◌, length, IfOk};
ghost use Rattle.fleet_base.specs.History.{IsStrong};
ghost use Rattle.fleet_base.specs.Journal.{IsInOrder};
ghost use Rattle.order_text.specs.Lanes.{all_orders, AreLanes};
ghost use Rattle.lane_runs.specs.Answers.{entries_made};
ghost use Rattle.lane_runs.specs.Runs.{IsRun};
ghost use Rattle.plain_run.specs.PlainRun.{IsPlainRun};
ghost use Rattle.plain_run.specs.Underway.{IsNewBook};

use crate::order::answer_order;
use fleet_base::Memory;
use lane_runs::{Answer, count_orders};
use order_text::Lane;
use plain_book::PlainBook;
use std::alloc::Global;

/// Answers all orders of the lanes, one after the other by their numbers, in a book that is new.
pub fn run_alone(alloc: Global, book: &mut PlainBook, lanes: &[Lane]) -> Result<Vec<Answer>, Memory>
    requires new { IsNewBook book.old }
    requires lanes { AreLanes (length book.old.grid.cells) lanes.now }
    ensures grid { IfOk result (λ answers. book.new.grid ≡ book.old.grid) }
    ensures plain { IfOk result (λ answers. IsPlainRun book.old.grid book.old.horizon (all_orders lanes.now) answers.items) }

    // What follows from that.
    ensures run { IfOk result (λ answers. IsRun lanes.now answers.items) }
    ensures strong { IfOk result (λ answers. IsStrong book.old.grid book.old.horizon (entries_made answers.items)) }
    ensures in_order { IfOk result (λ answers. IsInOrder (entries_made answers.items)) }
{
    let count = count_orders(lanes);
    let mut answers = Vec::with_capacity(alloc, count)?;
    for order in 0..count as u32 {
        answer_order(book, lanes, order, &mut answers)?;
    }
    Ok(answers)
}

ghost use Rattle.std.specs.Prelude.{◌≡◌, ◌<◌, All, IfOk, length};
ghost use Rattle.lane_runs.specs.Answers.{order_of};
ghost use Rattle.tail_run.specs.Ids.{noted, ids_of};

use fleet_base::{Entry, Memory, RouteId};
use lane_runs::Answer;
use std::alloc::Global;

/// Notes the id of a commit at the number of its order.
pub fn note_id(ids: &mut Vec<Option<RouteId>>, answer: &Answer)
    requires { order_of answer.now < length ids.old.items }
    ensures { ids.new.items ≡ noted ids.old.items answer.now }
{
    if let Answer::Made {
        order,
        entry: Entry::Commit { id, .. },
    } = answer
    {
        ids[*order as usize] = Some(*id);
    }
}

/// The ids that so many orders were given, by their numbers: none where an order has no answer or its answer no route.
pub fn ids_given(
    alloc: Global,
    count: usize,
    answers: &[Answer],
) -> Result<Vec<Option<RouteId>>, Memory>
    requires { All (λ a. order_of a < count) answers.now }
    ensures { IfOk result (λ ids. ids.items ≡ ids_of count answers.now) }
{
    let mut ids = Vec::from_elem(alloc, None, count)?;
    for answer in answers {
        note_id(&mut ids, answer);
    }
    Ok(ids)
}

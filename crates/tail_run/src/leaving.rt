ghost use Rattle.std.specs.Prelude.{◌≡◌, IfOk};
ghost use Rattle.tail_run.specs.Leaving.{ended_in, ended_ids, ended_count, stamp_in, top_stamp, live_after, route_unless, HasIds};

use fleet_base::{Entry, Live, Memory, RouteId};
use lane_runs::Answer;
use plain_book::copy_of;
use std::alloc::Global;
use std::collections::BTreeSet;

// The route that an answer ended.
fn ended_in(answer: &Answer) -> Option<RouteId>
    ensures { result ≡ ended_in answer.now }
{
    match answer {
        Answer::Made {
            entry: Entry::Cancel { id, .. },
            ..
        } => Some(*id),
        _ => None,
    }
}

// The stamp of a reply, and 0 for another answer.
fn stamp_in(answer: &Answer) -> u32
    ensures { result ≡ stamp_in answer.now }
{
    match answer {
        Answer::Made {
            entry: Entry::Commit { id, .. },
            ..
        } => id.stamp,
        Answer::Made {
            entry: Entry::NoRoute { stamp, .. },
            ..
        } => *stamp,
        _ => 0,
    }
}

/// The greatest stamp of the answers.
pub fn top_stamp(answers: &[Answer]) -> u32
    ensures { result ≡ top_stamp answers.now }
{
    let mut top = 0;
    for answer in answers {
        top = stamp_in(answer).max(top);
    }
    top
}

/// How many routes the answers ended.
pub fn ended_count(answers: &[Answer]) -> u64
    ensures { result ≡ ended_count answers.now }
{
    let mut count = 0;
    for answer in answers {
        if ended_in(answer).is_some() {
            count += 1;
        }
    }
    count
}

// The routes that the answers ended.
fn ended_ids(alloc: Global, answers: &[Answer]) -> Result<BTreeSet<RouteId>, Memory>
    ensures { IfOk result (λ ended. HasIds ended.keys (ended_ids answers.now)) }
{
    let mut ended = BTreeSet::new(alloc);
    for answer in answers {
        if let Some(id) = ended_in(answer) {
            ended.insert(id)?;
        }
    }
    Ok(ended)
}

// The route that an answer made, unless it was ended.
fn live_in(
    alloc: Global,
    ended: &BTreeSet<RouteId>,
    answer: &Answer,
) -> Result<Option<Live>, Memory>
    ensures { IfOk result (λ live. live ≡ route_unless ended.now.keys answer.now) }
{
    let Answer::Made {
        entry: Entry::Commit { id, walk, .. },
        ..
    } = answer
    else {
        return Ok(None);
    };
    if ended.contains(id) {
        return Ok(None);
    }
    Ok(Some(Live {
        id: *id,
        walk: copy_of(alloc, walk)?,
    }))
}

/// The routes that the answers made, but for those that one of them ended.
pub fn live_after(alloc: Global, answers: &[Answer]) -> Result<Vec<Live>, Memory>
    ensures { IfOk result (λ routes. routes.items ≡ live_after answers.now) }
{
    let ended = ended_ids(alloc, answers)?;
    let mut routes = Vec::new(alloc);
    for answer in answers {
        if let Some(live) = live_in(alloc, &ended, answer)? {
            routes.push(live)?;
        }
    }
    Ok(routes)
}

ghost use Rattle.std.specs.Prelude.{◌≡◌, ◌<◌, ◌++◌, length, codes, decimal, OnOk};
ghost use Rattle.order_text.specs.Lanes.{all_orders, AreNumberedFrom};
ghost use Rattle.lane_runs.specs.Answers.{order_of};
ghost use Rattle.journal_lines.specs.Lines.{target_at, reply_head, cancel_head, walk_word, walk_part, entry_line, answer_line, count_part, counts_part, last_line};

use crate::moves::push_moves;
use crate::totals::Totals;
use fleet_base::{Entry, Grid, Memory, Walk};
use itoa::Buffer;
use lane_runs::{Answer, order_at};
use order_text::{Lane, Order};

fn push_number(line: &mut Vec<u8>, number: u64) -> Result<(), Memory>
    ensures { OnOk result (line.new.items ≡ line.old.items ++ decimal number) }
{
    let mut digits = Buffer::new();
    line.extend_from_slice(digits.format(number).as_bytes())?;
    Ok(())
}

// The number of the order that is cancelled by the order of this number.
fn target_at(lanes: &[Lane], order: u32) -> u32
    requires numbered { AreNumberedFrom 0 lanes.now }
    requires within { order < length (all_orders lanes.now) }
    ensures { result ≡ target_at lanes.now order }
{
    match order_at(lanes, order) {
        Order::Plan { .. } => 0,
        Order::Cancel { target } => target,
    }
}

fn push_reply_head(line: &mut Vec<u8>, era: u64, stamp: u32, order: u32) -> Result<(), Memory>
    ensures { OnOk result (line.new.items ≡ line.old.items ++ reply_head era stamp order) }
{
    push_number(line, era)?;
    line.extend_from_slice(b" ")?;
    push_number(line, u64::from(stamp))?;
    line.extend_from_slice(b" ")?;
    push_number(line, u64::from(order))?;
    line.extend_from_slice(b" ")?;
    Ok(())
}

fn push_cancel_head(line: &mut Vec<u8>, era: u64, order: u32, target: u32) -> Result<(), Memory>
    ensures { OnOk result (line.new.items ≡ line.old.items ++ cancel_head era order target) }
{
    push_number(line, era)?;
    line.extend_from_slice(b" - ")?;
    push_number(line, u64::from(order))?;
    line.extend_from_slice(b" cancel ")?;
    push_number(line, u64::from(target))
}

fn walk_word(walk: &Walk) -> &'static str
    ensures { result.now ≡ walk_word walk.now }
{
    if walk.stays() { "park " } else { "route " }
}

fn push_walk(line: &mut Vec<u8>, grid: &Grid, walk: &Walk) -> Result<(), Memory>
    ensures { OnOk result (line.new.items ≡ line.old.items ++ walk_part grid.now walk.now) }
{
    line.extend_from_slice(walk_word(walk).as_bytes())?;
    push_number(line, u64::from(walk.arrival()))?;
    line.extend_from_slice(b" ")?;
    push_moves(line, grid, walk.cells())?;
    line.extend_from_slice(b"\n")?;
    Ok(())
}

// Appends the line of an entry, which answers the order of this number.
fn push_entry(
    line: &mut Vec<u8>,
    grid: &Grid,
    lanes: &[Lane],
    order: u32,
    entry: &Entry,
) -> Result<(), Memory>
    requires numbered { AreNumberedFrom 0 lanes.now }
    requires within { order < length (all_orders lanes.now) }
    ensures { OnOk result (line.new.items ≡ line.old.items ++ entry_line grid.now lanes.now order entry.now) }
{
    match entry {
        Entry::Commit { id, era, walk, .. } => {
            push_reply_head(line, *era, id.stamp, order)?;
            push_walk(line, grid, walk)
        }
        Entry::Cancel { era, .. } => {
            push_cancel_head(line, *era, order, target_at(lanes, order))?;
            line.extend_from_slice(b"\n")?;
            Ok(())
        }
        Entry::NoRoute { stamp, era, .. } => {
            push_reply_head(line, *era, *stamp, order)?;
            line.extend_from_slice(b"none\n")?;
            Ok(())
        }
    }
}

/// Appends the line of an answer, after lines with so many cancels that aren't gone.
pub fn push_line(
    line: &mut Vec<u8>,
    grid: &Grid,
    lanes: &[Lane],
    cancelled: u32,
    answer: &Answer,
) -> Result<(), Memory>
    requires numbered { AreNumberedFrom 0 lanes.now }
    requires within { order_of answer.now < length (all_orders lanes.now) }
    ensures { OnOk result (line.new.items ≡ line.old.items ++ answer_line grid.now lanes.now cancelled answer.now) }
{
    match answer {
        Answer::Made { order, entry } => push_entry(line, grid, lanes, *order, entry),
        Answer::Gone { order, target } => {
            push_cancel_head(line, u64::from(cancelled), *order, *target)?;
            line.extend_from_slice(b" gone\n")?;
            Ok(())
        }
    }
}

fn push_count(line: &mut Vec<u8>, words: &str, count: u64) -> Result<(), Memory>
    ensures { OnOk result (line.new.items ≡ line.old.items ++ count_part words.now count) }
{
    line.extend_from_slice(words.as_bytes())?;
    push_number(line, count)
}

fn push_counts(line: &mut Vec<u8>, totals: &Totals) -> Result<(), Memory>
    ensures { OnOk result (line.new.items ≡ line.old.items ++ counts_part totals.now) }
{
    push_count(line, "routes ", u64::from(totals.routes))?;
    push_count(line, " none ", u64::from(totals.without))?;
    push_count(line, " cancelled ", u64::from(totals.cancelled))
}

/// Appends the last line of a journal.
pub fn push_last_line(line: &mut Vec<u8>, totals: &Totals) -> Result<(), Memory>
    ensures { OnOk result (line.new.items ≡ line.old.items ++ last_line totals.now) }
{
    push_counts(line, totals)?;
    push_count(line, " sum ", totals.sum)?;
    push_count(line, " last ", u64::from(totals.last))?;
    line.extend_from_slice(b"\n")?;
    Ok(())
}

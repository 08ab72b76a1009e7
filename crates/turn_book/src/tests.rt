ghost use Rattle.std.specs.Prelude.{◌≡◌, ◌<◌, ◌≤◌, length, IfOk, IfSome, All};
ghost use Rattle.std.specs.Thread.{IsSync};
ghost use Rattle.fleet_base.specs.Terrain.{IsTerrain};
ghost use Rattle.turn_book.specs.Passes.{book_view, IsPassOf};

use super::*;
use book_trait::{CancelStop, Cause, PlanStop, Reply, SharedBook};
use fleet_base::{Cell, Grid, Memory, Request};
use std::alloc::Global;
use std::test::Fail;
use std::thread::{Threads, join};

fn open_row(
    alloc: Global,
    marks: &[bool],
    callers: u32,
) -> Result<(TurnBook, Vec<TurnPass>), Memory>
    requires row { IsTerrain (record { width = length marks.now; height = 1; cells = marks.now }) }
    requires callers { (1 ≤ callers) × (callers ≤ 16) }
    ensures book { IfOk result (λ r. length (book_view r.0).grid.cells ≡ length marks.now) }
    ensures passes { IfOk result (λ r. (length r.1.items ≡ callers) × All (IsPassOf r.0) r.1.items) }
{
    let cells = marks.iter().copied().collect(alloc)?;
    let grid = Grid::new(marks.len() as u32, 1, cells);
    TurnBook::open(alloc, grid, 300, callers)
}

// The last two passes.
fn pop_two(book: &TurnBook, passes: &mut Vec<TurnPass>) -> Option<(TurnPass, TurnPass)>
    requires { All (IsPassOf book.now) passes.old.items }
    ensures two { IfSome result (λ two. IsPassOf book.now two.0 × IsPassOf book.now two.1) }
    ensures others { All (IsPassOf book.now) passes.new.items }
{
    let _of = book;
    let second = passes.pop()?;
    let first = passes.pop()?;
    Some((first, second))
}

fn wish(start: u32, goal: u32, depart: u32) -> Request
    ensures { (result.start.0 ≡ start) × (result.goal.0 ≡ goal) }
{
    Request {
        start: Cell(start),
        goal: Cell(goal),
        depart,
        stay: false,
    }
}

fn commits(reply: &Reply, stamp: u32, caller: u32, in_era: u64) -> bool {
    match reply {
        Reply::Committed { id, era, .. } => id.stamp == stamp
            && id.caller == caller
            && *era == in_era,
        Reply::NoRoute { .. } => false,
    }
}

// The first goes from the left to the right; until it is cancelled, the second finds no way back.
#[test]
fn a_cancel_frees_the_way(rt: HostRuntime) -> Result<(), Fail> {
    let (book, mut passes) = open_row(rt.alloc(), &[true, true], 2)?;
    let Some((mut first, mut second)) = pop_two(&book, &mut passes) else {
        panic!(rt; "there are two passes")
    };
    let Ok(there) = book.plan(&mut first, wish(0, 1, 0)) else {
        panic!(rt; "a walk is free")
    };
    assert!(rt; commits(&there, 1, 0, 0));
    let Ok(note) = book.tell(&mut first) else {
        panic!(rt; "the first note can be counted")
    };
    book.heed(&mut second, note);
    let back = book.plan(&mut second, wish(1, 0, 0));
    assert!(rt; matches!(&back, Ok(Reply::NoRoute { stamp: 2, era: 0 })));
    assert!(rt; book.cancel(&mut second, 2) == Err(CancelStop::NotLive));
    assert!(rt; book.cancel(&mut first, 1) == Ok(0));
    assert!(rt; book.cancel(&mut first, 1) == Err(CancelStop::NotLive));
    let Ok(back) = book.plan(&mut second, wish(1, 0, 0)) else {
        panic!(rt; "a walk is free again")
    };
    assert!(rt; commits(&back, 3, 1, 1));
    let _both = book.join(book.rest(first), book.rest(second));
    Ok(())
}

// The stamps of a caller's 200 plans, from a cell to itself, one for each time. None where one was refused for another
// reason than that the turn was taken.
fn plan_often(alloc: Global, book: &TurnBook, mut pass: TurnPass, cell: u32) -> Option<Vec<u32>>
    requires pass { IsPassOf book.now pass }
    requires cell { cell < length (book_view book.now).grid.cells }
{
    let mut stamps = Vec::new(alloc);
    for depart in 0..200 {
        match book.plan(&mut pass, wish(cell, cell, depart)) {
            Ok(Reply::Committed { id, .. }) => stamps.push(id.stamp).ok()?,
            Err(
                PlanStop::Again {
                    word: Turn,
                    cause: Cause::Held,
                },
            ) => (),
            _ => return None,
        }
    }
    Some(stamps)
}

// Two callers, each in a thread of its own, at their cells.
fn plan_both<R: Threads + Sync>(
    rt: &R,
    alloc: Global,
    book: &TurnBook,
    first: (TurnPass, u32),
    second: (TurnPass, u32),
) -> Option<Vec<u32>>
    requires first { IsPassOf book.now first.0 × (first.1 < length (book_view book.now).grid.cells) }
    requires second { IsPassOf book.now second.0 × (second.1 < length (book_view book.now).grid.cells) }
{
    let (pass, cell) = first;
    let (other, other_cell) = second;
    let (some, others) = join(
        rt,
        move || -> Option<Vec<u32>>
            requires { IsPassOf book.now pass × (cell < length (book_view book.now).grid.cells) }
        { plan_often(alloc, book, pass, cell) },
        move || -> Option<Vec<u32>>
            requires { IsPassOf book.now other × (other_cell < length (book_view book.now).grid.cells) }
        { plan_often(alloc, book, other, other_cell) },
    );
    together(some, others)
}

fn together(some: Option<Vec<u32>>, others: Option<Vec<u32>>) -> Option<Vec<u32>> {
    let mut stamps = some?;
    stamps.append(&mut others?).ok()?;
    Some(stamps)
}

fn plan_all<R: Threads + Sync>(
    rt: &R,
    alloc: Global,
    book: &TurnBook,
    first: (TurnPass, TurnPass),
    second: (TurnPass, TurnPass),
) -> Option<Vec<u32>>
    requires first { IsPassOf book.now first.0 × IsPassOf book.now first.1 }
    requires second { IsPassOf book.now second.0 × IsPassOf book.now second.1 }
    requires cells { length (book_view book.now).grid.cells ≡ 4 }
{
    let (zeroth, first) = first;
    let (second, third) = second;
    let (some, others) = join(
        rt,
        move || -> Option<Vec<u32>>
            requires { IsSync R.row × IsPassOf book.now zeroth × IsPassOf book.now first × (length (book_view book.now).grid.cells ≡ 4) }
        { plan_both(rt, alloc, book, (zeroth, 0), (first, 1)) },
        move || -> Option<Vec<u32>>
            requires { IsSync R.row × IsPassOf book.now second × IsPassOf book.now third × (length (book_view book.now).grid.cells ≡ 4) }
        { plan_both(rt, alloc, book, (second, 2), (third, 3)) },
    );
    together(some, others)
}

// Whoever gets the turn, each stamp is given once, in order.
#[test]
fn four_callers_share_the_stamps(rt: HostRuntime) -> Result<(), Fail> {
    let (book, mut passes) = open_row(rt.alloc(), &[true, true, true, true], 4)?;
    let Some(last) = pop_two(&book, &mut passes) else {
        panic!(rt; "there are four passes")
    };
    let Some(first) = pop_two(&book, &mut passes) else {
        panic!(rt; "there are four passes")
    };
    let Some(mut stamps) = plan_all(&rt, rt.alloc(), &book, first, last) else {
        panic!(rt; "each plan was answered, or found the turn taken")
    };
    stamps.sort()?;
    assert!(rt;
        stamps
            .iter()
            .map(|stamp| *stamp as usize)
            .eq(1..=stamps.len())
    );
    assert!(rt; stamps.len() >= 1 && stamps.len() <= 800);
    Ok(())
}

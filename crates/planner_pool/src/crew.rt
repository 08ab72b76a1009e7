ghost use Rattle.std.specs.Prelude.{◌≡◌, ℕ, ◌+◌, ◌<◌, ◌≤◌, List, length, Some, slice_get, IfOk};
ghost use Rattle.std.specs.Thread.{IsSync, IsSend};
ghost use Rattle.ticket_line.specs.Tickets.{count_of, IsOf};
ghost use Rattle.planner_pool.specs.Crew.{CanRun, IsDone};

use crate::gate::Gate;
use crate::worker::{Work, run_worker};
use book_trait::SharedBook;
use fleet_base::Memory;
use order_text::Lane;
use std::alloc::Global;
use std::thread::{Threads, join};
use ticket_line::{Ticket, TicketLine};

// What both did, as one.
fn both<B: SharedBook>(
    book: &B,
    line: &TicketLine,
    lanes: &[Lane],
    first: Work<B::Joined>,
    second: Work<B::Joined>,
) -> Result<Work<B::Joined>, Memory>
    requires first { B.has_joined book.now first.joined × IsOf line.now first.ticket }
    requires second { B.has_joined book.now second.joined × IsOf line.now second.ticket }
    ensures { IfOk result (λ w. (from m n : ℕ) → IsDone (B.book book.now) (B.has_joined book.now) B.joined_view line.now lanes.now from m first → IsDone (B.book book.now) (B.has_joined book.now) B.joined_view line.now lanes.now (from + m) n second → IsDone (B.book book.now) (B.has_joined book.now) B.joined_view line.now lanes.now from (m + n) w) }
{
    let Work {
        mut answers,
        mut left,
        joined,
        ticket,
    } = first;
    let Work {
        answers: mut more,
        left: mut more_left,
        joined: other,
        ticket: other_ticket,
    } = second;
    answers.append(&mut more)?;
    left.append(&mut more_left)?;
    Ok(Work {
        answers,
        left,
        joined: book.join(joined, other),
        ticket: line.gather(ticket, other_ticket),
    })
}

// Runs the worker of the only pass.
fn run_single<B: SharedBook, G: Gate>(
    alloc: Global,
    book: &B,
    first: u32,
    mut passes: Vec<B::Pass>,
    line: &TicketLine,
    mut tickets: Vec<Ticket>,
    lanes: &[Lane],
    gate: &G,
) -> Result<Work<B::Joined>, Memory>
    requires can { CanRun (B.has_pass book.now) B.pass_view line.now (length (B.book book.now).grid.cells) lanes.now first passes.items tickets.items }
    requires one { length passes.items ≡ 1 }
    ensures { IfOk result (IsDone (B.book book.now) (B.has_joined book.now) B.joined_view line.now lanes.now first 1) }
{
    let Some(pass) = passes.pop() else {
        unreachable!()
    };
    let Some(ticket) = tickets.pop() else {
        unreachable!()
    };
    run_worker(alloc, book, pass, first, line, ticket, lanes, gate)
}

// Runs a worker for each pass. The later half of them go into a thread of their own, as far as one can be started.
pub fn run_crew<R: Threads + Sync, B: SharedBook, G: Gate>(
    rt: &R,
    alloc: Global,
    book: &B,
    first: u32,
    mut passes: Vec<B::Pass>,
    line: &TicketLine,
    mut tickets: Vec<Ticket>,
    lanes: &[Lane],
    gate: &G,
) -> Result<Work<B::Joined>, Memory>
    requires { CanRun (B.has_pass book.now) B.pass_view line.now (length (B.book book.now).grid.cells) lanes.now first passes.items tickets.items }
    ensures { IfOk result (IsDone (B.book book.now) (B.has_joined book.now) B.joined_view line.now lanes.now first (length passes.items)) }
{
    if passes.len() <= 1 {
        return run_single(alloc, book, first, passes, line, tickets, lanes, gate);
    }
    let half = passes.len() / 2;
    let later = passes.split_off(half)?;
    let later_tickets = tickets.split_off(half)?;
    let (a, b) = join(
        rt,
        move || -> Result<Work<B::Joined>, Memory>
            requires { IsSync R.row × IsSync B.row × IsSync G.row × IsSend B.Pass.row × IsSend B.Word.row × IsSend B.Note.row × IsSend B.Joined.row × CanRun (B.has_pass book.now) B.pass_view line.now (length (B.book book.now).grid.cells) lanes.now first passes.items tickets.items }
            ensures { IfOk result (IsDone (B.book book.entry.now) (B.has_joined book.entry.now) B.joined_view line.entry.now lanes.entry.now first (length passes.items)) }
        { run_crew(rt, alloc, book, first, passes, line, tickets, lanes, gate) },
        move || -> Result<Work<B::Joined>, Memory>
            requires { IsSync R.row × IsSync B.row × IsSync G.row × IsSend B.Pass.row × IsSend B.Word.row × IsSend B.Note.row × IsSend B.Joined.row × CanRun (B.has_pass book.now) B.pass_view line.now (length (B.book book.now).grid.cells) lanes.now (first + half) later.items later_tickets.items }
            ensures { IfOk result (IsDone (B.book book.entry.now) (B.has_joined book.entry.now) B.joined_view line.entry.now lanes.entry.now (first + half) (length later.items)) }
        {
            run_crew(
                rt,
                alloc,
                book,
                first + half as u32,
                later,
                line,
                later_tickets,
                lanes,
                gate,
            )
        },
    );
    let a = a?;
    let b = b?;
    both(book, line, lanes, a, b)
}

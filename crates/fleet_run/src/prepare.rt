ghost use Rattle.std.specs.Prelude.{List, ◌≡◌, ◌≤◌, ◌*◌, ℕ, IfOk, IfErr, IfSome, map, string_bytes};
ghost use Rattle.order_text.specs.Lanes.{request_lanes};
ghost use Rattle.request_maker.specs.Making.{made_grid, made_requests};
ghost use Rattle.command_line.specs.declared.command.Command.TheVariants.{One, Run, Orders};
ghost use Rattle.command_line.specs.Ranges.{IsBetween, IsInRange};
ghost use Rattle.command_line.specs.Words.{named};
ghost use Rattle.fleet_run.specs.Due.{IsLastLine};
ghost use Rattle.fleet_run.specs.declared.stop.Stop.TheVariants.{NoMemory};
ghost use Rattle.fleet_run.specs.Ended.{HasPrepared, HasPreparedFor, HasPreparedIfOffered};
ghost use Rattle.fleet_run.specs.Jobs.{Says, joined_in, CanBeWritten};

use crate::job::Job;
use crate::load::{load_lanes, load_map, load_requests};
use crate::one::{answer_one, request_of};
use crate::runs::{journal_by, last_line_by};
use crate::stop::Stop;
use command_line::{Command, read_words};
use fleet_io::Shelf;
use order_text::lanes_of;
use planner_pool::Gate;
use request_maker::generate;
use std::alloc::Global;
use std::thread::Threads;

// One request in an empty book, between two places.
fn prepare_one<'a, H: Shelf>(
    alloc: Global,
    shelf: &mut H,
    map: &'a str,
    from: (u32, u32),
    to: (u32, u32),
) -> Result<Job, Stop<&'a str>>
    ensures told { H.told shelf.new ≡ H.told shelf.old }
    ensures prepared { HasPreparedFor (λ n. n.now) Says joined_in (H.told shelf.old) (One map.now from.0 from.1 to.0 to.1)
        (H.failed shelf.old) (H.failed shelf.new) result }
    ensures right { IfOk result CanBeWritten }
{
    let grid = load_map(alloc, shelf, map)?;
    let Some(request) = request_of(&grid, from, to) else {
        return Err(Stop::OutsideMap);
    };
    match answer_one(alloc, grid, request) {
        Ok((book, answer)) => Ok(Job::Reply { book, answer }),
        Err(_) => Err(Stop::NoMemory),
    }
}

// The journal of the rows of a scenario, each a lane by itself.
fn prepare_run<'a, R: Threads + Sync, H: Shelf, G: Gate>(
    rt: &R,
    alloc: Global,
    shelf: &mut H,
    map: &'a str,
    scenario: &'a str,
    workers: u32,
    horizon: u32,
    kept: Option<u32>,
    gate: &G,
) -> Result<Job, Stop<&'a str>>
    requires workers { IsBetween 1 16 workers }
    requires horizon { IsBetween 1 8000 horizon }
    requires kept { IfSome kept (IsBetween 1 32767) }
    ensures told { H.told shelf.new ≡ H.told shelf.old }
    ensures prepared { HasPreparedFor (λ n. n.now) Says joined_in (H.told shelf.old) (Run map.now scenario.now workers horizon kept)
        (H.failed shelf.old) (H.failed shelf.new) result }
    ensures right { IfOk result CanBeWritten }
{
    let grid = load_map(alloc, shelf, map)?;
    let requests = load_requests(alloc, shelf, scenario, &grid, kept)?;
    let Ok(lanes) = lanes_of(alloc, &requests) else {
        return Err(Stop::NoMemory);
    };
    match journal_by(rt, alloc, grid, horizon, workers, lanes, gate) {
        Ok(job) => Ok(job),
        Err(_) => Err(Stop::NoMemory),
    }
}

// The journal of lanes of orders.
fn prepare_orders<'a, R: Threads + Sync, H: Shelf, G: Gate>(
    rt: &R,
    alloc: Global,
    shelf: &mut H,
    map: &'a str,
    orders: &'a str,
    workers: u32,
    horizon: u32,
    gate: &G,
) -> Result<Job, Stop<&'a str>>
    requires workers { IsBetween 1 16 workers }
    requires horizon { IsBetween 1 8000 horizon }
    ensures told { H.told shelf.new ≡ H.told shelf.old }
    ensures prepared { HasPreparedFor (λ n. n.now) Says joined_in (H.told shelf.old) (Orders map.now orders.now workers horizon)
        (H.failed shelf.old) (H.failed shelf.new) result }
    ensures right { IfOk result CanBeWritten }
{
    let grid = load_map(alloc, shelf, map)?;
    let lanes = load_lanes(alloc, shelf, orders, &grid)?;
    match journal_by(rt, alloc, grid, horizon, workers, lanes, gate) {
        Ok(job) => Ok(job),
        Err(_) => Err(Stop::NoMemory),
    }
}

// What a generated command line asks for.
#[derive(Clone, Copy)]
pub struct Sizes {
    pub width: u32,
    pub height: u32,
    pub percent: u32,
    pub orders: u32,
    pub start: u64,
}

// The last line of the journal of generated requests on a generated map.
fn prepare_gen<'a, R: Threads + Sync, G: Gate>(
    rt: &R,
    alloc: Global,
    sizes: Sizes,
    workers: u32,
    horizon: u32,
    gate: &G,
) -> Result<Job, Stop<&'a str>>
    requires width { IsBetween 1 2048 sizes.width }
    requires height { IsBetween 1 2048 sizes.height }
    requires area { sizes.width * sizes.height ≤ 1048576 }
    requires orders { sizes.orders ≤ 32767 }
    requires workers { IsBetween 1 16 workers }
    requires horizon { IsBetween 1 8000 horizon }
    ensures due { IfOk result (λ job. (text : List ℕ) → Says job text → IsLastLine (made_grid sizes.width sizes.height sizes.percent sizes.start) horizon
        (request_lanes 0 (made_requests sizes.width sizes.height sizes.orders sizes.start)) workers text (joined_in job)) }
    ensures memory { IfErr result (λ stop. stop ≡ NoMemory) }
    ensures right { IfOk result CanBeWritten }
{
    let Ok((grid, requests)) = generate(
        alloc,
        sizes.width,
        sizes.height,
        sizes.percent,
        sizes.orders,
        sizes.start,
    ) else {
        return Err(Stop::NoMemory);
    };
    let Ok(lanes) = lanes_of(alloc, &requests) else {
        return Err(Stop::NoMemory);
    };
    match last_line_by(rt, alloc, grid, horizon, workers, &lanes, gate) {
        Ok(job) => Ok(job),
        Err(_) => Err(Stop::NoMemory),
    }
}

// What a command asks for; a command that isn't offered is none.
fn prepare_command<'a, R: Threads + Sync, H: Shelf, G: Gate>(
    rt: &R,
    alloc: Global,
    shelf: &mut H,
    command: Command<&'a str>,
    gate: &G,
) -> Result<Job, Stop<&'a str>>
    requires range { IsInRange command }
    ensures told { H.told shelf.new ≡ H.told shelf.old }
    ensures prepared { HasPreparedIfOffered (λ n. n.now) Says joined_in (H.told shelf.old) (named (λ n. n.now) command.entry)
        (H.failed shelf.old) (H.failed shelf.new) result }
    ensures right { IfOk result CanBeWritten }
{
    match command {
        Command::One {
            map,
            from_x,
            from_y,
            to_x,
            to_y,
        } => prepare_one(alloc, shelf, map, (from_x, from_y), (to_x, to_y)),
        Command::Run {
            map,
            scenario,
            workers,
            horizon,
            take,
        } => prepare_run(
            rt, alloc, shelf, map, scenario, workers, horizon, take, gate,
        ),
        Command::Orders {
            map,
            orders,
            workers,
            horizon,
        } => prepare_orders(rt, alloc, shelf, map, orders, workers, horizon, gate),
        Command::Gen {
            width,
            height,
            percent,
            orders,
            start,
            workers,
            horizon,
        } => {
            let sizes = Sizes {
                width,
                height,
                percent,
                orders,
                start,
            };
            prepare_gen(rt, alloc, sizes, workers, horizon, gate)
        }
        Command::Check { .. } | Command::Long { .. } | Command::Turns { .. } => {
            Err(Stop::NoCommand)
        }
    }
}

// What there is to write, or why there is nothing.
pub fn prepare<'a, R: Threads + Sync, H: Shelf, G: Gate>(
    rt: &R,
    alloc: Global,
    words: &'a [String],
    shelf: &mut H,
    gate: &G,
) -> Result<Job, Stop<&'a str>>
    ensures told { H.told shelf.new ≡ H.told shelf.old }
    ensures prepared { HasPrepared (λ n. n.now) Says joined_in (map string_bytes words.now)
        (H.told shelf.old) (H.failed shelf.old) (H.failed shelf.new) result }
    ensures right { IfOk result CanBeWritten }
{
    let Ok(found) = read_words(alloc, words) else {
        return Err(Stop::NoMemory);
    };
    let Some(command) = found else {
        return Err(Stop::NoCommand);
    };
    prepare_command(rt, alloc, shelf, command, gate)
}

ghost use Rattle.std.specs.Prelude.{◌≡◌, None, map, string_bytes};
ghost use Rattle.std.specs.Option.{option_map};
ghost use Rattle.turn_book.specs.Passes.{joined_view};
ghost use Rattle.fleet_run.specs.Ended.{World, HasEnded};
ghost use Rattle.fleet_run.specs.Good.{Completes};

use crate::outcome::{Ended, Outcome};
use crate::prepare::prepare;
use crate::report::{report, write_line};
use crate::writing::{WriteStop, write_job};
use fleet_io::{Shelf, Sink};
use planner_pool::Gate;
use std::alloc::Global;
use std::thread::Threads;

// An outcome for which nothing was joined.
fn without(outcome: Outcome) -> Ended
    ensures { result ≡ record { outcome = outcome; joined = None } }
{
    Ended {
        outcome,
        joined: None,
    }
}

fn run<R: Threads + Sync, H: Shelf, S: Sink, G: Gate>(
    rt: &R,
    alloc: Global,
    words: &[String],
    shelf: &mut H,
    out: &mut S,
    err: &mut S,
    gate: &G,
) -> Ended
    ensures { let before : World = record {
      files = H.told shelf.old;
      failed = H.failed shelf.old;
      out = S.told out.old;
      out_faults = S.faults out.old;
      err = S.told err.old;
      err_faults = S.faults err.old;
    } in
        let after : World = record {
          files = H.told shelf.new;
          failed = H.failed shelf.new;
          out = S.told out.new;
          out_faults = S.faults out.new;
          err = S.told err.new;
          err_faults = S.faults err.new;
        } in
        HasEnded (map string_bytes words.now) before after result.outcome (option_map joined_view result.joined) }
{
    match prepare(rt, alloc, words, shelf, gate) {
        Err(stop) => without(report(alloc, err, stop)),
        Ok(job) => match write_job(alloc, out, &job) {
            Ok(()) => Ended {
                outcome: Outcome::Done,
                joined: job.into_joined(),
            },
            Err(WriteStop::SinkFailed) => {
                write_line(err, b"fleet: cannot write\n");
                without(Outcome::WriteFault)
            }
            Err(WriteStop::NoMemory) => {
                write_line(err, b"fleet: out of memory\n");
                without(Outcome::Memory)
            }
        },
    }
}

/// Does what the words after the program's name ask for, with the files of `shelf`.
/// `run`, `orders` and `gen` run by as many workers as the words say, in threads of `rt`; the gate is told of each order.
/// The text goes to `out`. With every outcome but `Done` one line goes to `err`; a fault of `err` changes no outcome.
pub fn fleet<R: Threads + Sync, H: Shelf, S: Sink, G: Gate>(
    rt: &R,
    alloc: Global,
    words: &[String],
    shelf: &mut H,
    out: &mut S,
    err: &mut S,
    gate: &G,
) -> Ended
    ensures ends { let before : World = record {
      files = H.told shelf.old;
      failed = H.failed shelf.old;
      out = S.told out.old;
      out_faults = S.faults out.old;
      err = S.told err.old;
      err_faults = S.faults err.old;
    } in
        let after : World = record {
          files = H.told shelf.new;
          failed = H.failed shelf.new;
          out = S.told out.new;
          out_faults = S.faults out.new;
          err = S.told err.new;
          err_faults = S.faults err.new;
        } in
        HasEnded (map string_bytes words.now) before after result.outcome (option_map joined_view result.joined) }
    ensures complete { let before : World = record {
      files = H.told shelf.old;
      failed = H.failed shelf.old;
      out = S.told out.old;
      out_faults = S.faults out.old;
      err = S.told err.old;
      err_faults = S.faults err.old;
    } in
        let after : World = record {
          files = H.told shelf.new;
          failed = H.failed shelf.new;
          out = S.told out.new;
          out_faults = S.faults out.new;
          err = S.told err.new;
          err_faults = S.faults err.new;
        } in
        Completes (map string_bytes words.now) before after result.outcome }
{
    run(rt, alloc, words, shelf, out, err, gate)
}

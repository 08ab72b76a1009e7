ghost use Rattle.std.specs.Prelude.{◌≡◌, ℕ, ◌+◌, ◌<◌, ◌≤◌, length, map, OnOk};
ghost use Rattle.std.specs.List.{concat};
ghost use Rattle.fleet_io.specs.Written.{Writes};
ghost use Rattle.order_text.specs.Lanes.{all_orders, AreNumberedFrom};
ghost use Rattle.lane_runs.specs.Answers.{order_of};
ghost use Rattle.journal_lines.specs.Totals.{with_answer, CountAtMost};
ghost use Rattle.journal_lines.specs.Lines.{answer_line, journal_lines, last_line};
ghost use Rattle.fleet_run.specs.Texts.{answer_text};
ghost use Rattle.journal_lines.specs.Printing.{AreOfRun};
ghost use Rattle.fleet_run.specs.Jobs.{Says, IsPrintedAs, CanBeWritten};
ghost use Rattle.fleet_run.specs.Workers.{AnswerLanes};
ghost use Rattle.fleet_run.specs.Writing.{IsCut, IsCutOf, WritesOne};

use crate::job::Job;
use crate::text::answer_text;
use fleet_base::{Grid, Memory, Walk};
use fleet_io::Sink;
use journal_lines::{Totals, lend_each, print_order, push_last_line, push_line};
use lane_runs::Answer;
use order_text::Lane;
use std::alloc::Global;

// Why only a front of a text was written.
#[derive(Clone, Copy)]
pub enum WriteStop {
    SinkFailed,
    NoMemory,
}

impl From<Memory> for WriteStop {
    ghost use Rattle.std.specs.Prelude.{◌≡◌};
    ghost use Rattle.fleet_run.specs.declared.writing.WriteStop.TheVariants.{NoMemory};

    ghost from_gives = { λ _ e. e ≡ NoMemory };

    fn from(_want: Memory) -> WriteStop {
        WriteStop::NoMemory
    }
}

fn write_piece<S: Sink>(out: &mut S, piece: &[u8]) -> Result<(), WriteStop>
    ensures written { OnOk result (Writes (S.told out.old) piece.now (S.told out.new)) }
    ensures later { S.faults out.old ≤ S.faults out.new }
    ensures cut { IsCut (S.told out.old) (S.faults out.old) piece.now (S.told out.new) (S.faults out.new) result }
{
    match out.write(piece) {
        Ok(()) => Ok(()),
        Err(_) => Err(WriteStop::SinkFailed),
    }
}

// Writes the line of an answer from the buffer, and counts it.
fn write_answer<S: Sink>(
    out: &mut S,
    line: &mut Vec<u8>,
    grid: &Grid,
    lanes: &[Lane],
    totals: &mut Totals,
    answer: &Answer,
) -> Result<(), WriteStop>
    requires numbered { AreNumberedFrom 0 lanes.now }
    requires within { order_of answer.now < length (all_orders lanes.now) }
    requires few { CountAtMost 32767 totals.old }
    ensures written { OnOk result (Writes (S.told out.old) (answer_line grid.now lanes.now totals.old.cancelled answer.now) (S.told out.new)) }
    ensures later { S.faults out.old ≤ S.faults out.new }
    ensures cut { IsCut (S.told out.old) (S.faults out.old) (answer_line grid.now lanes.now totals.old.cancelled answer.now) (S.told out.new) (S.faults out.new) result }
    ensures counted { OnOk result (totals.new ≡ with_answer totals.old answer.now) }
    ensures at_most { OnOk result ((n : ℕ) → CountAtMost n totals.old → CountAtMost (n + 1) totals.new) }
{
    line.clear();
    push_line(line, grid, lanes, totals.cancelled, answer)?;
    write_piece(out, line.as_slice())?;
    totals.count(answer);
    Ok(())
}

fn write_totals<S: Sink>(out: &mut S, line: &mut Vec<u8>, totals: &Totals) -> Result<(), WriteStop>
    ensures written { OnOk result (Writes (S.told out.old) (last_line totals.now) (S.told out.new)) }
    ensures cut { IsCut (S.told out.old) (S.faults out.old) (last_line totals.now) (S.told out.new) (S.faults out.new) result }
{
    line.clear();
    push_last_line(line, totals)?;
    write_piece(out, line.as_slice())
}

// Writes the lines of a journal, each by one call, from one buffer.
fn write_journal<S: Sink>(
    alloc: Global,
    out: &mut S,
    grid: &Grid,
    lanes: &[Lane],
    printed: &[&Answer],
) -> Result<(), WriteStop>
    requires lanes { AnswerLanes lanes.now (map (λ a. a.now) printed.now) }
    ensures written { OnOk result (Writes (S.told out.old) (concat (journal_lines grid.now lanes.now (map (λ a. a.now) printed.now))) (S.told out.new)) }
    ensures cut { IsCut (S.told out.old) (S.faults out.old) (concat (journal_lines grid.now lanes.now (map (λ a. a.now) printed.now))) (S.told out.new) (S.faults out.new) result }
{
    let mut line = Vec::new(alloc);
    let mut totals = Totals::none();
    for answer in printed {
        write_answer(out, &mut line, grid, lanes, &mut totals, answer)?;
    }
    write_totals(out, &mut line, &totals)
}

// Writes the journal of answers that stand in the order in which they are printed.
fn write_alone<S: Sink>(
    alloc: Global,
    out: &mut S,
    grid: &Grid,
    lanes: &[Lane],
    answers: &[Answer],
) -> Result<(), WriteStop>
    requires lanes { AnswerLanes lanes.now answers.now }
    ensures written { OnOk result (Writes (S.told out.old) (concat (journal_lines grid.now lanes.now answers.now)) (S.told out.new)) }
    ensures cut { IsCut (S.told out.old) (S.faults out.old) (concat (journal_lines grid.now lanes.now answers.now)) (S.told out.new) (S.faults out.new) result }
{
    let printed = lend_each(alloc, answers)?;
    write_journal(alloc, out, grid, lanes, &printed)
}

// Writes the journal of answers in any order.
fn write_shared<S: Sink>(
    alloc: Global,
    out: &mut S,
    grid: &Grid,
    lanes: &[Lane],
    answers: &[Answer],
) -> Result<(), WriteStop>
    requires lanes { AnswerLanes lanes.now answers.now }
    requires run { AreOfRun answers.now }
    ensures written { OnOk result (WritesOne (IsPrintedAs grid.now lanes.now answers.now) (S.told out.old) (S.told out.new)) }
    ensures cut { IsCutOf (IsPrintedAs grid.now lanes.now answers.now) (S.told out.old) (S.faults out.old) (S.told out.new) (S.faults out.new) result }
{
    let printed = print_order(alloc, answers)?;
    write_journal(alloc, out, grid, lanes, &printed)
}

fn write_reply<S: Sink>(
    alloc: Global,
    out: &mut S,
    grid: &Grid,
    answer: &Option<Walk>,
) -> Result<(), WriteStop>
    ensures written { OnOk result (Writes (S.told out.old) (answer_text grid.now answer.now) (S.told out.new)) }
    ensures cut { IsCut (S.told out.old) (S.faults out.old) (answer_text grid.now answer.now) (S.told out.new) (S.faults out.new) result }
{
    let text = answer_text(alloc, grid, answer)?;
    write_piece(out, text.as_slice())
}

// Writes a text of a job.
pub fn write_job<S: Sink>(alloc: Global, out: &mut S, job: &Job) -> Result<(), WriteStop>
    requires right { CanBeWritten job.now }
    ensures written { OnOk result (WritesOne (Says job.now) (S.told out.old) (S.told out.new)) }
    ensures cut { IsCutOf (Says job.now) (S.told out.old) (S.faults out.old) (S.told out.new) (S.faults out.new) result }
{
    match job {
        Job::Reply { book, answer } => write_reply(alloc, out, book.grid(), answer),
        Job::Journal {
            book,
            lanes,
            answers,
        } => write_alone(alloc, out, book.grid(), lanes, answers),
        Job::Shared {
            grid,
            lanes,
            answers,
            ..
        } => write_shared(alloc, out, grid, lanes, answers),
        Job::LastLine { totals, .. } => write_totals(out, &mut Vec::new(alloc), totals),
    }
}

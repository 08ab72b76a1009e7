ghost use Rattle.std.specs.Prelude.{◌≡◌, ◌<◌, ◌≤◌, List, [], IfOk, length, map, All};
ghost use Rattle.order_text.specs.Lanes.{all_orders, AreLanes, AreNumberedFrom};
ghost use Rattle.lane_runs.specs.declared.answer.Answer.{Answer};
ghost use Rattle.lane_runs.specs.Answers.{order_of};
ghost use Rattle.lane_runs.specs.Runs.{IsRun};
ghost use Rattle.journal_lines.specs.Lines.{answer_line, journal_lines, last_line, lines_from};
ghost use Rattle.journal_lines.specs.Printing.{ArePrinted};
ghost use Rattle.journal_lines.specs.Totals.{no_totals};

use crate::line::{push_last_line, push_line};
use crate::order::print_order;
use crate::totals::Totals;
use fleet_base::{Grid, Memory};
use lane_runs::Answer;
use order_text::Lane;
use std::alloc::Global;
use std::marker::Model;

/// One line of a journal, with its line end.
#[derive(Debug, Drop)]
pub struct Line {
    bytes: Vec<u8>,
}

impl Model for Line {
    ghost use Rattle.std.specs.Prelude.{ℕ, List};

    ghost Value = { List ℕ };

    ghost view = { λ l. l.bytes.items };
}

impl Line {
    fn of(alloc: Global, bytes: &[u8]) -> Result<Line, Memory>
        ensures { IfOk result (λ line. line ≡ bytes.now) }
    {
        let bytes = bytes.to_vec(alloc)?;
        Ok(Line { bytes })
    }

    pub fn as_bytes(&self) -> &[u8]
        ensures { result.now ≡ self.now }
    {
        self.bytes.as_slice()
    }
}

// The lines are written in the buffer, so that each takes no more memory than it has bytes.
fn line_of(
    alloc: Global,
    buffer: &mut Vec<u8>,
    grid: &Grid,
    lanes: &[Lane],
    cancelled: u32,
    answer: &Answer,
) -> Result<Line, Memory>
    requires numbered { AreNumberedFrom 0 lanes.now }
    requires within { order_of answer.now < length (all_orders lanes.now) }
    ensures { IfOk result (λ line. line ≡ answer_line grid.now lanes.now cancelled answer.now) }
{
    buffer.clear();
    push_line(buffer, grid, lanes, cancelled, answer)?;
    Line::of(alloc, buffer.as_slice())
}

fn last_line_of(alloc: Global, totals: &Totals) -> Result<Line, Memory>
    ensures { IfOk result (λ line. line ≡ last_line totals.now) }
{
    let mut bytes = Vec::new(alloc);
    push_last_line(&mut bytes, totals)?;
    Ok(Line { bytes })
}

fn lines_of(
    alloc: Global,
    grid: &Grid,
    lanes: &[Lane],
    printed: &[&Answer],
) -> Result<Vec<Line>, Memory>
    requires numbered { AreNumberedFrom 0 lanes.now }
    requires within { All (λ a. order_of a.now < length (all_orders lanes.now)) printed.now }
    requires few { length printed.now ≤ 32767 }
    ensures { IfOk result (λ lines. lines.items ≡ journal_lines grid.now lanes.now (map (λ a. a.now) printed.now)) }
{
    let mut lines = Vec::with_capacity(alloc, printed.len() + 1)?;
    let mut buffer = Vec::new(alloc);
    let mut totals = Totals::none();
    for answer in printed {
        lines.push(line_of(alloc, &mut buffer, grid, lanes, totals.cancelled, answer)?)?;
        totals.count(answer);
    }
    lines.push(last_line_of(alloc, &totals)?)?;
    Ok(lines)
}

/// The lines of the journal of a run over the lanes. The answers may stand in any order; their lines stand in that of
/// the journal.
pub fn journal_text(
    alloc: Global,
    grid: &Grid,
    lanes: &[Lane],
    answers: &[Answer],
) -> Result<Vec<Line>, Memory>
    requires lanes { AreLanes (length grid.now.cells) lanes.now }
    requires run { IsRun lanes.now answers.now }
    ensures { IfOk result (λ lines. (printed : List Answer) × ArePrinted answers.now printed × (lines.items ≡ journal_lines grid.now lanes.now printed)) }
{
    let printed = print_order(alloc, answers)?;
    lines_of(alloc, grid, lanes, printed.as_slice())
}

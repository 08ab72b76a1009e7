ghost use Rattle.std.specs.Prelude.{◌≡◌, ◌≤◌, ◌%◌, ◌++◌, OnOk};
ghost use Rattle.journal_lines.specs.Moves.{letter_of, moves_of};

use fleet_base::{Cell, Grid, Memory};

// The letters of the moves, and of waiting.
const UP: u8 = b'U';

const LEFT: u8 = b'L';

const RIGHT: u8 = b'R';

const DOWN: u8 = b'D';

const WAIT: u8 = b'W';

// The letter of a step. Cells are numbered row by row.
#[tactic(auto, unfolding(crate::specs::Moves::letter_of))]
fn letter_of(width: u32, from: Cell, to: Cell) -> u8
    requires { 1 ≤ width }
    ensures { result ≡ letter_of width from to }
{
    let (from_x, from_y) = (u64::from(from.0 % width), u64::from(from.0 / width));
    let (to_x, to_y) = (u64::from(to.0 % width), u64::from(to.0 / width));
    if to_y + 1 == from_y {
        UP
    } else if to_x + 1 == from_x {
        LEFT
    } else if from_x + 1 == to_x {
        RIGHT
    } else if from_y + 1 == to_y {
        DOWN
    } else {
        WAIT
    }
}

// The letter of a step, and the column of the cell that it leads to.
#[derive(Clone, Copy)]
struct Step {
    letter: u8,
    column: u32,
}

// The letter of a step from a cell of that column, and the column of the other cell. A move to a cell beside it needs no
// division.
#[inline(always)]
fn step_of(width: u32, from: Cell, column: u32, to: Cell) -> Step
    requires width { 1 ≤ width }
    requires column { column ≡ from.0 % width }
    ensures letter { result.letter ≡ letter_of width from to }
    ensures column { result.column ≡ to.0 % width }
{
    let (before, after, row) = (u64::from(from.0), u64::from(to.0), u64::from(width));
    if after == before {
        Step {
            letter: WAIT,
            column,
        }
    } else if after + row == before {
        Step { letter: UP, column }
    } else if before + row == after {
        Step {
            letter: DOWN,
            column,
        }
    } else if after + 1 == before && column > 0 {
        Step {
            letter: LEFT,
            column: column - 1,
        }
    } else if before + 1 == after && column < width - 1 {
        Step {
            letter: RIGHT,
            column: column + 1,
        }
    } else {
        Step {
            letter: letter_of(width, from, to),
            column: to.0 % width,
        }
    }
}

/// Appends a letter for each step from a cell to the next one (`U`, `L`, `R`, `D`, and `W` for waiting), or `-` where
/// there is none.
pub fn push_moves(text: &mut Vec<u8>, grid: &Grid, cells: &[Cell]) -> Result<(), Memory>
    ensures { OnOk result (text.new.items ≡ text.old.items ++ moves_of grid.now cells.now) }
{
    let [first, later @ ..] = cells else {
        text.push(b'-')?;
        return Ok(());
    };
    if later.is_empty() {
        text.push(b'-')?;
        return Ok(());
    }
    let width = grid.width();
    // It tells that the width isn't 0.
    let _limits = grid.cells();
    let mut from = *first;
    let mut column = from.0 % width;
    for to in later {
        let step = step_of(width, from, column, *to);
        text.push(step.letter)?;
        column = step.column;
        from = *to;
    }
    Ok(())
}

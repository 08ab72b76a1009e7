ghost use Rattle.std.specs.Prelude.{◌≡◌, ◌+◌, ◌≤◌, length, IfOk};

use crate::pass::TurnPass;
use crate::rule::Layout;
use crate::steps::{TurnBook, TurnSeat};
use atomic_table::Table;
use fleet_base::{Grid, Memory};
use plain_book::PlainBook;
use std::alloc::Global;

fn copy_of(alloc: Global, grid: &Grid) -> Result<Grid, Memory>
    ensures { IfOk result (λ g. g ≡ grid.now) }
{
    let cells = grid.cells().iter().copied().collect(alloc)?;
    Ok(Grid::new(grid.width(), grid.height(), cells))
}

impl TurnBook {
    ghost use Rattle.turn_book.specs.Seats.{layout_of};
    ghost use Rattle.turn_book.specs.Passes.{book_view, AreOpened};
    ghost use Rattle.turn_book.specs.Opening.{IsOpening, IsFresh, HasPlain};

    /// A book without routes, and a pass for each caller: pass k is that of the caller k. Walks arrive at the horizon
    /// or earlier.
    pub fn open(
        alloc: Global,
        grid: Grid,
        horizon: u32,
        callers: u32,
    ) -> Result<(TurnBook, Vec<TurnPass>), Memory>
        requires horizon { (1 ≤ horizon) × (horizon ≤ 8000) }
        requires callers { (1 ≤ callers) × (callers ≤ 16) }
        ensures book { IfOk result (λ r. book_view r.0 ≡ record { grid = grid; horizon = horizon; callers = callers }) }
        ensures passes { IfOk result (λ r. (length r.1.items ≡ callers) × AreOpened r.0 r.1.items) }
    {
        let layout = Layout {
            grid: copy_of(alloc, &grid)?,
            horizon,
            callers,
        };
        let book = PlainBook::new(alloc, grid, horizon)?;
        let (book, seat) = TurnBook::around(alloc, book, &layout)?;
        let passes = book.passes(alloc, seat, callers)?;
        Ok((book, passes))
    }

    // Lays the plain book into the slot of a new table, and gives the seat of all callers.
    fn around(
        alloc: Global,
        book: PlainBook,
        layout: &Layout,
    ) -> Result<(TurnBook, TurnSeat), Memory>
        requires { HasPlain layout.now book }
        ensures layout { IfOk result (λ r. layout_of r.0 ≡ layout.now) }
        ensures seat { IfOk result (λ r. IsOpening r.0 r.1 0) }
    {
        let slots = vec![in alloc; Some(book)]?;
        let Ok((table, seat)) = Table::new(alloc, &[0], slots, layout) else {
            return Err(Memory);
        };
        Ok((TurnBook { table }, seat))
    }

    // The pass of the next caller.
    fn next_pass(&self, alloc: Global, seat: &mut TurnSeat, caller: u32) -> TurnPass
        requires opening { IsOpening self.now seat.old caller }
        requires more { caller + 1 ≤ (layout_of self.now).callers }
        ensures seat { IsOpening self.now seat.new (caller + 1) }
        ensures pass { IsFresh self.now caller result }
    {
        TurnPass {
            seat: self.cut(seat),
            caller,
            last: 0,
            told: 0,
            live: Vec::new(alloc),
        }
    }

    // A pass for each caller.
    fn passes(
        &self,
        alloc: Global,
        mut seat: TurnSeat,
        callers: u32,
    ) -> Result<Vec<TurnPass>, Memory>
        requires opening { IsOpening self.now seat 0 }
        requires callers { callers ≡ (layout_of self.now).callers }
        ensures { IfOk result (λ r. (length r.items ≡ callers) × AreOpened self.now r.items) }
    {
        let mut passes = Vec::with_capacity(alloc, callers as usize)?;
        for caller in 0..callers {
            passes.push(self.next_pass(alloc, &mut seat, caller))?;
        }
        Ok(passes)
    }
}

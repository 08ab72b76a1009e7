ghost use Rattle.std.specs.Prelude.{◌≡◌, ◌≢◌, ℕ, false, ◌+◌, ◌*◌, ◌<◌, ◌≤◌, ◌↔◌, [], ◌∷◌, ◌++◌, length, min, Some, IfOk, OnOk, IfSome, IfNone, IsTrue, slice_get};
ghost use Rattle.std.specs.Bool.{OnTrue, OnFalse};

use crate::layers::Layers;
use crate::marking::{FEW, mark_each};
use crate::place::{Place, moves_between, place_of};
use crate::span::{Span, cells_of, span_at, stride};
use crate::waiting::Waiting;
use fleet_base::{Cell, Grid, Memory};
use row_words::{
    below, both, either, filled, is_set, lowered, open_places, raised, single, without,
};
use stamped_list::StampedList;
use std::alloc::Global;

/// The least number of moves over open cells from each cell of a grid to a goal. It is counted only as far as it is asked
/// for, first for cells on the way to another cell.
#[derive(Drop)]
pub struct Distances {
    alloc: Global,
    goal: Cell,
    toward: Place,
    // How many cells the grids have. Where these are few a list has 1 plus the moves of each that is counted, else 0, so that
    // they are one read.
    cells: usize,
    few: bool,
    by_cell: StampedList,
    // By the number of a span: 1 where it was looked at since the last aim, and then its cells that are open and not counted.
    known: StampedList,
    free: Vec<u64>,
    // Where there are many cells the levels of those that are counted, which touch less memory. A cell's moves are its level less
    // the moves to `toward` if all cells were open.
    layers: Layers,
    // The moves of the cells of `here` to the goal, and those to `toward` if all cells were open, add up to `level`;
    // those of `next` to `level + 2`. Cells may stand in them that were counted meanwhile.
    level: u32,
    here: Waiting,
    next: Waiting,
}

impl Distances {
    ghost use Rattle.fleet_base.specs.Terrain.{Terrain, IsOpen, IsBeside};
    ghost use Rattle.fleet_base.specs.declared.grid.Cell.{Cell as ACell};
    ghost use Rattle.fleet_base.specs.declared.grid.Side.{Side};
    ghost use Rattle.row_words.specs.Words.{IsSet};
    ghost use Rattle.fleet_base.specs.declared.grid.Side.TheVariants.{Up, Left, Right, Down};
    ghost use Rattle.static_distance.specs.Distance.{IsDistance};
    ghost use Rattle.static_distance.specs.Levels.{IsPlaceOf, IsCounted, apart, uncounted};
    ghost use Rattle.static_distance.specs.Marks.{marks_of};
    ghost use Rattle.static_distance.specs.Spreading.{IsFlood};
    ghost use Rattle.static_distance.specs.Spans.{IsSpan, Holds, IsFree, AreSpans, flood_of, flood_with, HasEntered, HasSpreadTo, HasCounted, IsShut};
    ghost use Rattle.static_distance.specs.Rows.{HasMore, IsLedWithin, IsLedOut};
    ghost use Rattle.static_distance.specs.Aim.{room, waiting, work, KeepsAim, IsAimed, AnswersDistance, IsWithin, AreFitting, HasLooked, HasNoMore};

    /// For grids of that many cells. Nothing is counted before it is aimed at a goal.
    pub fn new(alloc: Global, cells: usize) -> Result<Distances, Memory>
        ensures { IfOk result (λ d. room d ≡ cells) }
    {
        let few = cells <= FEW;
        let listed = if few { cells } else { 0 };
        Ok(Distances {
            alloc,
            goal: Cell(0),
            toward: Place { column: 0, row: 0 },
            cells,
            few,
            by_cell: StampedList::new(alloc, listed)?,
            known: StampedList::new(alloc, 0)?,
            free: Vec::new(alloc),
            layers: Layers::new(alloc, 0)?,
            level: 0,
            here: Waiting::new(alloc, 0)?,
            next: Waiting::new(alloc, 0)?,
        })
    }

    // Room for so many spans. It is there already unless the grids have other sizes.
    fn fit(&mut self, count: usize) -> Result<(), Memory>
        ensures fit { OnOk result (AreFitting count self.new) }
        ensures cells { self.new.cells ≡ self.old.cells }
        ensures few { self.new.few ≡ self.old.few }
        ensures listed { self.new.by_cell ≡ self.old.by_cell }
    {
        let layered = if self.few { 0 } else { count };
        if self.known.len() == count
            && self.free.len() == count
            && self.layers.len() == layered
            && self.here.words.len() == count
            && self.next.words.len() == count
        {
            return Ok(());
        }
        self.known = StampedList::new(self.alloc, count)?;
        self.free = vec![in self.alloc; 0; count]?;
        self.layers = Layers::new(self.alloc, layered)?;
        self.here = Waiting::new(self.alloc, count)?;
        self.next = Waiting::new(self.alloc, count)?;
        Ok(())
    }

    /// From now on moves to that goal are counted. It costs least where the cells that are asked for lie toward the other
    /// cell.
    pub fn aim(&mut self, grid: &Grid, goal: Cell, toward: Cell) -> Result<(), Memory>
        requires room { room self.old ≡ length grid.now.cells }
        requires goal { goal.0 < length grid.now.cells }
        requires toward { toward.0 < length grid.now.cells }
        ensures aimed { OnOk result (IsAimed grid.now self.new) }
        ensures goal { OnOk result (self.new.goal ≡ goal) }
        ensures room { room self.new ≡ room self.old }
    {
        let _limits = grid.cells();
        self.fit((grid.height() * stride(grid)) as usize)?;
        let place = place_of(grid, goal);
        self.goal = goal;
        self.toward = place_of(grid, toward);
        self.level = moves_between(place, self.toward);
        self.by_cell.clear();
        self.layers.clear();
        self.known.clear();
        self.here.spans.clear();
        self.next.spans.clear();
        if grid.is_open(goal) {
            let span = span_at(grid, goal, place);
            self.look_at(grid, span);
            self.here.add(span, single(place.column - span.column))?;
        }
        Ok(())
    }

    /// The distance from a cell to the goal, or none where no way leads there.
    pub fn to_goal(&mut self, grid: &Grid, cell: Cell) -> Result<Option<u32>, Memory>
        requires aimed { IsAimed grid.now self.old }
        requires cell { cell.0 < length grid.now.cells }
        ensures distance { IfOk result (AnswersDistance grid.now self.old.goal cell) }
        ensures aimed { OnOk result (IsAimed grid.now self.new) }
        ensures goal { self.new.goal ≡ self.old.goal }
        ensures room { room self.new ≡ room self.old }
    {
        let place = place_of(grid, cell);
        self.to_goal_at(grid, cell, place)
    }

    /// The same where the cell's place is known: so it divides nothing.
    #[inline(always)]
    pub fn to_goal_at(
        &mut self,
        grid: &Grid,
        cell: Cell,
        place: Place,
    ) -> Result<Option<u32>, Memory>
        requires aimed { IsAimed grid.now self.old }
        requires cell { cell.0 < length grid.now.cells }
        requires place { IsPlaceOf grid.now cell place }
        ensures distance { IfOk result (AnswersDistance grid.now self.old.goal cell) }
        ensures aimed { OnOk result (IsAimed grid.now self.new) }
        ensures goal { self.new.goal ≡ self.old.goal }
        ensures room { room self.new ≡ room self.old }
    {
        if !grid.is_open(cell) {
            return Ok(None);
        }
        match self.moves_at(grid, cell, place) {
            Some(moves) => Ok(Some(moves)),
            None => self.count_to(grid, cell, place),
        }
    }

    /// The same for a cell beside one whose distance is known. It counts no farther than the level of that one.
    #[inline(always)]
    pub fn beside_at(
        &mut self,
        grid: &Grid,
        cell: Cell,
        place: Place,
        from: Place,
        left: u32,
    ) -> Result<Option<u32>, Memory>
        requires aimed { IsAimed grid.now self.old }
        requires cell { cell.0 < length grid.now.cells }
        requires place { IsPlaceOf grid.now cell place }
        requires from { (c : ACell) × (side : Side) × IsPlaceOf grid.now c from × IsBeside grid.now side c cell × IsDistance grid.now self.old.goal c left }
        ensures distance { IfOk result (AnswersDistance grid.now self.old.goal cell) }
        ensures aimed { OnOk result (IsAimed grid.now self.new) }
        ensures goal { self.new.goal ≡ self.old.goal }
        ensures room { room self.new ≡ room self.old }
    {
        if !grid.is_open(cell) {
            return Ok(None);
        }
        match self.moves_at(grid, cell, place) {
            Some(moves) => Ok(Some(moves)),
            None => {
                let _limits = grid.cells();
                let level = left.saturating_add(moves_between(from, self.toward));
                self.count_beside(grid, cell, place, left, level)
            }
        }
    }

    // Counts moves until an open cell has them, and tells them.
    fn count_to(&mut self, grid: &Grid, cell: Cell, place: Place) -> Result<Option<u32>, Memory>
        requires aimed { IsAimed grid.now self.old }
        requires cell { cell.0 < length grid.now.cells }
        requires place { IsPlaceOf grid.now cell place }
        requires opens { IsOpen grid.now cell }
        ensures distance { IfOk result (AnswersDistance grid.now self.old.goal cell) }
        ensures aimed { OnOk result (IsAimed grid.now self.new) }
        ensures goal { self.new.goal ≡ self.old.goal }
        ensures room { room self.new ≡ room self.old }
    {
        while self.is_free(grid, cell, place) {
            if !self.advance(grid)? {
                return Ok(None);
            }
        }
        Ok(self.moves_at(grid, cell, place))
    }

    // Counts moves until an open cell has them, or until all cells on the level of one beside it have: with a move less than from there
    // its level would be no greater, and with as many it can't be, since each move leads to a cell of the other colour, as on a chessboard.
    fn count_beside(
        &mut self,
        grid: &Grid,
        cell: Cell,
        place: Place,
        left: u32,
        level: u32,
    ) -> Result<Option<u32>, Memory>
        requires aimed { IsAimed grid.now self.old }
        requires cell { cell.0 < length grid.now.cells }
        requires place { IsPlaceOf grid.now cell place }
        requires opens { IsOpen grid.now cell }
        requires from { (c : ACell) × (side : Side) × IsBeside grid.now side c cell × IsDistance grid.now self.old.goal c left × (level ≡ min (left + apart grid.now self.old.toward c) u32.MAX) }
        ensures distance { IfOk result (AnswersDistance grid.now self.old.goal cell) }
        ensures aimed { OnOk result (IsAimed grid.now self.new) }
        ensures goal { self.new.goal ≡ self.old.goal }
        ensures room { room self.new ≡ room self.old }
    {
        while self.is_free(grid, cell, place) {
            if self.level > level || (self.level == level && self.here.spans.is_empty()) {
                return Ok(Some(left + 1));
            }
            if !self.advance(grid)? {
                return Ok(None);
            }
        }
        Ok(self.moves_at(grid, cell, place))
    }

    /// Whether a way of so many moves leads from a cell to the goal, or of fewer. It counts no farther than that takes.
    pub fn is_within(&mut self, grid: &Grid, cell: Cell, moves: u32) -> Result<bool, Memory>
        requires aimed { IsAimed grid.now self.old }
        requires cell { cell.0 < length grid.now.cells }
        ensures within { IfOk result (λ yes. IsTrue yes ↔ IsWithin grid.now self.old.goal cell moves) }
        ensures aimed { OnOk result (IsAimed grid.now self.new) }
        ensures goal { self.new.goal ≡ self.old.goal }
        ensures room { room self.new ≡ room self.old }
    {
        if !grid.is_open(cell) {
            return Ok(false);
        }
        let place = place_of(grid, cell);
        if let Some(counted) = self.moves_at(grid, cell, place) {
            return Ok(counted <= moves);
        }
        let last = moves.saturating_add(moves_between(place, self.toward));
        while self.is_free(grid, cell, place) {
            if self.level > last {
                return Ok(false);
            }
            if !self.advance(grid)? {
                return Ok(false);
            }
        }
        match self.moves_at(grid, cell, place) {
            Some(counted) => Ok(counted <= moves),
            None => Ok(false),
        }
    }

    // Whether an open cell isn't counted yet. Its span's word says so at once, where its level may have to be looked for.
    #[inline(always)]
    fn is_free(&self, grid: &Grid, cell: Cell, place: Place) -> bool
        requires cell { IsOpen grid.now cell }
        requires place { IsPlaceOf grid.now cell place }
        requires spans { AreSpans grid.now self.now }
        ensures { IsTrue result ↔ (slice_get (marks_of grid.now self.now) cell.0 ≡ Some 0) }
    {
        let span = span_at(grid, cell, place);
        let number = span.number as usize;
        self.known.get(number) != 1 || is_set(self.free[number], place.column - span.column)
    }

    // The moves of an open cell, or none where it isn't counted.
    #[inline(always)]
    fn moves_at(&self, grid: &Grid, cell: Cell, place: Place) -> Option<u32>
        requires cell { IsOpen grid.now cell }
        requires place { IsPlaceOf grid.now cell place }
        requires near { (self.now.toward.column < 2048) × (self.now.toward.row < 2048) }
        requires spans { AreSpans grid.now self.now }
        ensures some { IfSome result (λ k. IsCounted (marks_of grid.now self.now) cell k) }
        ensures none { IfNone result (slice_get (marks_of grid.now self.now) cell.0 ≡ Some 0) }
    {
        if self.few {
            let mark = self.by_cell.get(cell.0 as usize);
            if mark == 0 {
                return None;
            }
            return Some(mark - 1);
        }
        if self.is_free(grid, cell, place) {
            return None;
        }
        Some(self.moves_of(grid, cell, place))
    }

    // The moves of a cell that is counted, where there are many.
    #[inline(always)]
    fn moves_of(&self, grid: &Grid, cell: Cell, place: Place) -> u32
        requires many { self.now.few ≡ false }
        requires cell { IsOpen grid.now cell }
        requires place { IsPlaceOf grid.now cell place }
        requires near { (self.now.toward.column < 2048) × (self.now.toward.row < 2048) }
        requires spans { AreSpans grid.now self.now }
        requires counted { ¬ (slice_get (marks_of grid.now self.now) cell.0 ≡ Some 0) }
        ensures { IsCounted (marks_of grid.now self.now) cell result }
    {
        let _limits = grid.cells();
        let span = span_at(grid, cell, place);
        let level = self
            .layers
            .level_at(span.number as usize, place.column - span.column);
        level.saturating_sub(moves_between(place, self.toward))
    }

    // Counts the waiting cells of one span more, or finds that they were counted before. False where none waits.
    fn advance(&mut self, grid: &Grid) -> Result<bool, Memory>
        requires { IsAimed grid.now self.old }
        ensures aim { KeepsAim self.old self.new }
        ensures aimed { OnOk result (IsAimed grid.now self.new) }
        ensures more { IfOk result (λ went. OnTrue went (work grid.now self.new < work grid.now self.old)) }
        ensures none { IfOk result (λ went. OnFalse went (HasNoMore self.old self.new)) }
    {
        self.rise();
        let Some(span) = self.here.spans.pop() else {
            return Ok(false);
        };
        let number = span.number as usize;
        let seeds = self.here.words[number];
        self.here.words[number] = 0;
        self.spread(grid, span, seeds)?;
        Ok(true)
    }

    // Where no cell of this level waits, the next one is this level.
    fn rise(&mut self)
        requires { self.old.level ≤ 16777216 }
        ensures aim { KeepsAim self.old self.new }
        ensures marks { (g : Terrain) → marks_of g self.new ≡ marks_of g self.old }
        ensures risen { self.new.level ≤ self.old.level + 2 }
        ensures count { waiting self.new ≡ waiting self.old }
        ensures spans { (g : Terrain) → AreSpans g self.old → AreSpans g self.new }
        ensures flood { (g : Terrain) → AreSpans g self.old → IsFlood g (flood_of g self.old) → IsFlood g (flood_of g self.new) }
        ensures none { self.new.here.spans.items ≡ [] → HasNoMore self.old self.new }
    {
        if !self.here.spans.is_empty() {
            return;
        }
        if self.next.spans.is_empty() {
            return;
        }
        std::mem::swap(&mut self.here, &mut self.next);
        // They were added from far to near. Taken so again, each is taken once on this level.
        self.here.turn();
        self.level += 2;
    }

    // Looks at the cells of a span, unless that was done since the last aim.
    #[inline(always)]
    fn look_at(&mut self, grid: &Grid, span: Span)
        requires span { IsSpan grid.now span }
        requires spans { AreSpans grid.now self.old }
        ensures aim { KeepsAim self.old self.new }
        ensures looked { HasLooked grid.now span self.old self.new }
    {
        if self.known.get(span.number as usize) != 1 {
            self.look_first(grid, span);
        }
    }

    // Looks at the cells of a span for the first time. It is a function of its own so that `look_at` is short where it is called.
    #[inline(never)]
    fn look_first(&mut self, grid: &Grid, span: Span)
        requires span { IsSpan grid.now span }
        requires spans { AreSpans grid.now self.old }
        requires first { slice_get self.old.known span.number ≢ Some 1 }
        ensures aim { KeepsAim self.old self.new }
        ensures looked { HasLooked grid.now span self.old self.new }
    {
        let number = span.number as usize;
        self.free[number] = open_places(cells_of(grid, span));
        self.layers.begin(number);
        self.here.words[number] = 0;
        self.next.words[number] = 0;
        self.known.set(number, 1);
    }

    // Of the cells that the word has in the span, the free ones wait: on this level where they are closer.
    #[inline(always)]
    fn enter(&mut self, grid: &Grid, span: Span, word: u64, closer: bool) -> Result<(), Memory>
        requires span { IsSpan grid.now span }
        requires spans { AreSpans grid.now self.old }
        ensures aim { KeepsAim self.old self.new }
        ensures marks { marks_of grid.now self.new ≡ marks_of grid.now self.old }
        ensures spans { OnOk result (AreSpans grid.now self.new) }
        ensures count { OnOk result (waiting self.new ≤ waiting self.old + 1) }
        ensures entered { OnOk result (HasEntered grid.now span word closer self.old self.new) }
    {
        self.look_at(grid, span);
        let entered = both(word, self.free[span.number as usize]);
        if entered == 0 {
            return Ok(());
        }
        if closer {
            self.here.add_after_farther(span, entered, self.toward)?;
        } else {
            self.next.add(span, entered)?;
        }
        Ok(())
    }

    // Counts the cells that the seeds have in the span, where they are free, and those to which these lead in the row on this level.
    fn spread(&mut self, grid: &Grid, span: Span, seeds: u64) -> Result<(), Memory>
        requires span { IsSpan grid.now span }
        requires known { slice_get self.old.known span.number ≡ Some 1 }
        requires near { (self.old.toward.column < 2048) × (self.old.toward.row < 2048) }
        requires bounded { self.old.level ≤ 16777216 }
        requires spans { AreSpans grid.now self.old }
        requires flood { IsFlood grid.now (flood_with grid.now self.old span seeds) }
        ensures aim { KeepsAim self.old self.new }
        ensures level { OnOk result (self.new.level ≡ self.old.level) }
        ensures spans { OnOk result (AreSpans grid.now self.new) }
        ensures flood { OnOk result (IsFlood grid.now (flood_of grid.now self.new)) }
        ensures work { OnOk result (work grid.now self.new ≤ work grid.now self.old) }
    {
        let free = self.free[span.number as usize];
        let rising = self.rising(span);
        let falling = self.falling(span);
        let batch = filled(seeds, free, rising, falling);
        if batch == 0 {
            return Ok(());
        }
        self.count(grid, span, batch)?;
        self.spread_up(grid, span, batch)?;
        self.spread_down(grid, span, batch)?;
        self.spread_within(grid, span, batch, rising, falling)?;
        self.spread_left(grid, span, batch)?;
        self.spread_right(grid, span, batch)?;
        Ok(())
    }

    // The places of a span from which the next greater column is closer.
    #[inline(always)]
    fn rising(&self, span: Span) -> u64
        ensures { (i : ℕ) → IsSet result i ↔ ((i < 64) × (span.column + i < self.now.toward.column)) }
    {
        below(self.toward.column.saturating_sub(span.column))
    }

    // The places of a span from which the next lesser column is closer.
    #[inline(always)]
    fn falling(&self, span: Span) -> u64
        requires { self.now.toward.column < 2048 }
        ensures { (i : ℕ) → IsSet result i ↔ ((i < 64) × (self.now.toward.column < span.column + i)) }
    {
        without(
            u64::MAX,
            below((self.toward.column + 1).saturating_sub(span.column)),
        )
    }

    // Counts all cells that the word has in the span.
    #[inline(always)]
    fn count(&mut self, grid: &Grid, span: Span, word: u64) -> Result<(), Memory>
        requires span { IsSpan grid.now span }
        requires near { (self.old.toward.column < 2048) × (self.old.toward.row < 2048) }
        requires known { slice_get self.old.known span.number ≡ Some 1 }
        requires bounded { self.old.level ≤ 16777216 }
        requires spans { AreSpans grid.now self.old }
        requires some { word ≢ 0 }
        requires free { (i : ℕ) → IsSet word i → (w : ℕ) → slice_get self.old.free.items span.number ≡ Some w → IsSet w i }
        requires on_level { (c : ACell) → Holds grid.now span word c → apart grid.now self.old.toward c ≤ self.old.level }
        ensures aim { KeepsAim self.old self.new }
        ensures counted { OnOk result (HasCounted grid.now span word self.old self.new) }
        ensures spans { OnOk result (AreSpans grid.now self.new) }
        ensures less { OnOk result (uncounted (marks_of grid.now self.new) + 1 ≤ uncounted (marks_of grid.now self.old)) }
    {
        let _limits = grid.cells();
        let number = span.number as usize;
        self.free[number] = without(self.free[number], word);
        if !self.few {
            return self.layers.add(number, word, self.level);
        }
        let reach = self.level - span.row.abs_diff(self.toward.row);
        mark_each(
            &mut self.by_cell,
            grid.width() * span.row + span.column,
            word,
            span.column,
            self.toward.column,
            reach,
        );
        Ok(())
    }

    fn spread_up(&mut self, grid: &Grid, span: Span, word: u64) -> Result<(), Memory>
        requires span { IsSpan grid.now span }
        requires spans { AreSpans grid.now self.old }
        ensures spans { OnOk result (AreSpans grid.now self.new) }
        ensures count { OnOk result (waiting self.new ≤ waiting self.old + 1) }
        ensures aim { KeepsAim self.old self.new }
        ensures marks { marks_of grid.now self.new ≡ marks_of grid.now self.old }
        ensures spread { OnOk result (HasSpreadTo grid.now Up span word self.old self.new) }
    {
        if span.row == 0 {
            return Ok(());
        }
        let above = Span {
            number: span.number - stride(grid),
            row: span.row - 1,
            column: span.column,
        };
        self.enter(grid, above, word, self.toward.row < span.row)
    }

    fn spread_down(&mut self, grid: &Grid, span: Span, word: u64) -> Result<(), Memory>
        requires span { IsSpan grid.now span }
        requires spans { AreSpans grid.now self.old }
        ensures spans { OnOk result (AreSpans grid.now self.new) }
        ensures count { OnOk result (waiting self.new ≤ waiting self.old + 1) }
        ensures aim { KeepsAim self.old self.new }
        ensures marks { marks_of grid.now self.new ≡ marks_of grid.now self.old }
        ensures spread { OnOk result (HasSpreadTo grid.now Down span word self.old self.new) }
    {
        let _limits = grid.cells();
        if span.row + 1 >= grid.height() {
            return Ok(());
        }
        let under = Span {
            number: span.number + stride(grid),
            row: span.row + 1,
            column: span.column,
        };
        self.enter(grid, under, word, span.row < self.toward.row)
    }

    // In the row, to the cells of the same span. No free cell of it is led to closer, so those of both sides wait on the same level, and
    // are one word.
    fn spread_within(
        &mut self,
        grid: &Grid,
        span: Span,
        word: u64,
        rising: u64,
        falling: u64,
    ) -> Result<(), Memory>
        requires span { IsSpan grid.now span }
        requires spans { AreSpans grid.now self.old }
        requires rising { (i : ℕ) → IsSet rising i ↔ ((i < 64) × (span.column + i < self.old.toward.column)) }
        requires falling { (i : ℕ) → IsSet falling i ↔ ((i < 64) × (self.old.toward.column < span.column + i)) }
        requires inside { (i : ℕ) → IsSet word i → span.column + i < grid.now.width }
        requires shut_left { IsShut grid.now Left span word self.old }
        requires shut_right { IsShut grid.now Right span word self.old }
        ensures spans { OnOk result (AreSpans grid.now self.new) }
        ensures count { OnOk result (waiting self.new ≤ waiting self.old + 1) }
        ensures aim { KeepsAim self.old self.new }
        ensures marks { marks_of grid.now self.new ≡ marks_of grid.now self.old }
        ensures spread { OnOk result (HasMore grid.now (λ on n. IsLedWithin grid.now span word self.old on n) self.old self.new) }
    {
        let away = either(
            lowered(without(word, falling)),
            raised(without(word, rising)),
        );
        self.enter(grid, span, away, false)
    }

    // To the last cell of the span before.
    fn spread_left(&mut self, grid: &Grid, span: Span, word: u64) -> Result<(), Memory>
        requires span { IsSpan grid.now span }
        requires spans { AreSpans grid.now self.old }
        ensures spans { OnOk result (AreSpans grid.now self.new) }
        ensures count { OnOk result (waiting self.new ≤ waiting self.old + 1) }
        ensures aim { KeepsAim self.old self.new }
        ensures marks { marks_of grid.now self.new ≡ marks_of grid.now self.old }
        ensures spread { OnOk result (HasMore grid.now (λ on n. IsLedOut grid.now Left span word self.old on n) self.old self.new) }
    {
        if span.column == 0 || !is_set(word, 0) {
            return Ok(());
        }
        let before = Span {
            number: span.number - 1,
            row: span.row,
            column: span.column - 64,
        };
        self.enter(grid, before, single(63), self.toward.column < span.column)
    }

    // To the first cell of the span after.
    fn spread_right(&mut self, grid: &Grid, span: Span, word: u64) -> Result<(), Memory>
        requires span { IsSpan grid.now span }
        requires spans { AreSpans grid.now self.old }
        ensures spans { OnOk result (AreSpans grid.now self.new) }
        ensures count { OnOk result (waiting self.new ≤ waiting self.old + 1) }
        ensures aim { KeepsAim self.old self.new }
        ensures marks { marks_of grid.now self.new ≡ marks_of grid.now self.old }
        ensures spread { OnOk result (HasMore grid.now (λ on n. IsLedOut grid.now Right span word self.old on n) self.old self.new) }
    {
        let _limits = grid.cells();
        if span.column + 64 >= grid.width() || !is_set(word, 63) {
            return Ok(());
        }
        let after = Span {
            number: span.number + 1,
            row: span.row,
            column: span.column + 64,
        };
        self.enter(
            grid,
            after,
            single(0),
            span.column + 63 < self.toward.column,
        )
    }
}

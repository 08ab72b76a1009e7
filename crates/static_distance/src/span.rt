ghost use Rattle.std.specs.Prelude.{◌≡◌, ℕ, ◌+◌, ◌-◌, ◌*◌, ◌<◌, ◌≤◌, Bool, Some, length, slice_get};
ghost use Rattle.fleet_base.specs.declared.grid.Cell.{Cell as ACell};
ghost use Rattle.static_distance.specs.Levels.{IsPlaceOf};
ghost use Rattle.static_distance.specs.Marks.{stride};
ghost use Rattle.static_distance.specs.Spans.{IsSpan, IsCellAt};

use crate::place::Place;
use fleet_base::{Cell, Grid};

// 64 cells of a row side by side, less at the end of a row. The column is that of the first one.
#[derive(Clone, Copy)]
pub(crate) struct Span {
    pub(crate) number: u32,
    pub(crate) row: u32,
    pub(crate) column: u32,
}

// How many spans a row has.
#[inline(always)]
pub(crate) fn stride(grid: &Grid) -> u32
    ensures value { result ≡ stride grid.now }
{
    let _limits = grid.cells();
    (grid.width() + 63) / 64
}

// The span of a cell, whose place there is its column less that of the span.
pub(crate) fn span_at(grid: &Grid, cell: Cell, place: Place) -> Span
    requires cell { cell.0 < length grid.now.cells }
    requires place { IsPlaceOf grid.now cell place }
    ensures span { IsSpan grid.now result }
    ensures held { IsCellAt grid.now result (place.column - result.column) cell }
    ensures within { (result.column ≤ place.column) × (place.column < result.column + 64) }
{
    let _limits = grid.cells();
    let part = place.column / 64;
    Span {
        number: place.row * stride(grid) + part,
        row: place.row,
        column: 64 * part,
    }
}

// What the grid has for the cells of the span.
#[inline(always)]
pub(crate) fn cells_of(grid: &Grid, span: Span) -> &[bool]
    requires span { IsSpan grid.now span }
    ensures few { length result.now ≤ 64 }
    ensures values { (i : ℕ) (v : Bool) → slice_get result.now i ≡ Some v → (c : ACell) × IsCellAt grid.now span i c × (slice_get grid.now.cells c.0 ≡ Some v) }
    ensures all { (i : ℕ) (c : ACell) → IsCellAt grid.now span i c → slice_get result.now i ≡ slice_get grid.now.cells c.0 }
{
    let cells = grid.cells();
    let count = (grid.width() - span.column).min(64) as usize;
    let first = (grid.width() * span.row + span.column) as usize;
    &cells[first..first + count]
}

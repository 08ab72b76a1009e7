ghost use Rattle.std.specs.Prelude.{◌≡◌, ◌<◌, ◌^◌, length, IfSome, IfNone};
ghost use Rattle.fleet_base.specs.Terrain.{Terrain, IsBeside};
ghost use Rattle.fleet_base.specs.declared.grid.Cell.{Cell as ACell};
ghost use Rattle.static_distance.specs.Levels.{IsPlaceOf, between};

use fleet_base::{Cell, Grid, Side};

/// A column and a row.
#[derive(Clone, Copy, Debug, PartialEq, Eq, Hash)]
pub struct Place {
    pub column: u32,
    pub row: u32,
}

/// Where the cell is.
pub fn place_of(grid: &Grid, cell: Cell) -> Place
    requires { cell.0 < length grid.now.cells }
    ensures place { IsPlaceOf grid.now cell result }
    ensures near { (result.column < 2048) × (result.row < 2048) }
{
    let _limits = grid.cells();
    let width = grid.width();
    let shift = width.trailing_zeros();
    // Many maps are a power of two wide, and a division takes as long as some twenty other steps.
    if shift < 32 && width == 1 << shift {
        return Place {
            column: cell.0 & (width - 1),
            row: cell.0 >> shift,
        };
    }
    Place {
        column: cell.0 % width,
        row: cell.0 / width,
    }
}

/// The moves from one place to the other, if all cells were open: no way between cells there has fewer.
#[inline(always)]
pub fn moves_between(from: Place, to: Place) -> u32
    requires from { (from.column < 2048) × (from.row < 2048) }
    requires to { (to.column < 2048) × (to.row < 2048) }
    ensures moves { result ≡ between from to }
    ensures few { result < 4096 }
{
    from.column.abs_diff(to.column) + from.row.abs_diff(to.row)
}

/// The cell on that side of a cell whose place is known, or none where that side is outside. It divides nothing.
#[inline(always)]
pub fn neighbour_at(grid: &Grid, cell: Cell, place: Place, side: Side) -> Option<Cell>
    requires cell { cell.0 < length grid.now.cells }
    requires place { IsPlaceOf grid.now cell place }
    ensures beside { IfSome result (λ d. IsBeside grid.now side cell d) }
    ensures inside { IfSome result (λ d. d.0 < length grid.now.cells) }
    ensures none { IfNone result ((d : ACell) → ¬ (IsBeside grid.now side cell d)) }
{
    let _limits = grid.cells();
    match side {
        Side::Up if place.row > 0 => Some(Cell(cell.0 - grid.width())),
        Side::Left if place.column > 0 => Some(Cell(cell.0 - 1)),
        Side::Right if place.column + 1 < grid.width() => Some(Cell(cell.0 + 1)),
        Side::Down if place.row + 1 < grid.height() => Some(Cell(cell.0 + grid.width())),
        _ => None,
    }
}

/// The place on that side of a cell's place, where a cell is there. It needs no grid, and divides nothing.
#[inline(always)]
pub fn beside(place: Place, side: Side) -> Place
    ensures { (g : Terrain) (c n : ACell) → n.0 < 2 ^ 32 → IsPlaceOf g c place → IsBeside g side c n → IsPlaceOf g n result }
{
    // Without branches: a walk turns too often for them to be foreseen.
    Place {
        column: place
            .column
            .saturating_sub(u32::from(side == Side::Left))
            .saturating_add(u32::from(side == Side::Right)),
        row: place
            .row
            .saturating_sub(u32::from(side == Side::Up))
            .saturating_add(u32::from(side == Side::Down)),
    }
}

ghost use Rattle.std.specs.Prelude.{◌≡◌, ◌<◌, Some, length, slice_get};
ghost use Rattle.fleet_base.specs.Canonical.{rank_of};
ghost use Rattle.fleet_base.specs.declared.grid.Side.{Side as ASide};
ghost use Rattle.static_distance.specs.Levels.{IsPlaceOf};
ghost use Rattle.sipp_search.specs.Around.{IsNeighbour, HasNeighbour};

use fleet_base::{Cell, Grid, Side};
use static_distance::{Place, beside, neighbour_at};

// A cell beside another one, and where it is.
#[derive(Clone, Copy)]
pub struct Neighbour {
    pub cell: Cell,
    pub place: Place,
}

// The neighbour on that side of a cell, or none where that side is outside.
#[inline(always)]
fn neighbour_on(grid: &Grid, cell: Cell, place: Place, side: Side) -> Option<Neighbour>
    requires cell { cell.0 < length grid.now.cells }
    requires place { IsPlaceOf grid.now cell place }
    ensures { IsNeighbour grid.now side cell result }
{
    let _limits = grid.cells();
    let next = neighbour_at(grid, cell, place, side)?;
    Some(Neighbour {
        cell: next,
        place: beside(place, side),
    })
}

// The neighbours of a cell in the order up, left, right, down. They are found all at once, each on a side that is known here: found
// one by one, a walk that is read back would wait for each.
#[inline(always)]
pub fn around(grid: &Grid, cell: Cell, place: Place) -> [Option<Neighbour>; 4]
    requires cell { cell.0 < length grid.now.cells }
    requires place { IsPlaceOf grid.now cell place }
    ensures { (side : ASide) → HasNeighbour grid.now side cell result }
{
    [
        neighbour_on(grid, cell, place, Side::Up),
        neighbour_on(grid, cell, place, Side::Left),
        neighbour_on(grid, cell, place, Side::Right),
        neighbour_on(grid, cell, place, Side::Down),
    ]
}

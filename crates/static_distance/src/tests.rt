ghost use Rattle.std.specs.Prelude.{◌≡◌, ◌<◌, length, IfOk};
ghost use Rattle.static_distance.specs.Aim.{room};

use super::*;
use fleet_base::{Cell, Grid, Memory, Side};
use std::alloc::{AllocError, Global};

// Four columns and three rows; the last cell of the first row is open, and closed cells are on all its sides.
fn shut_in(alloc: Global) -> Result<Grid, AllocError>
    ensures { IfOk result (λ g. length g.cells ≡ 12) }
{
    let cells = Vec::from_array(
        alloc,
        [
            true, true, false, true, false, true, true, false, true, true, true, true,
        ],
    )?;
    Ok(Grid::new(4, 3, cells))
}

// Three columns and three rows; a wall leaves one way from the left to the right, round below.
fn wall(alloc: Global) -> Result<Grid, AllocError>
    ensures { IfOk result (λ g. length g.cells ≡ 9) }
{
    let cells = Vec::from_array(
        alloc,
        [true, false, true, true, false, true, true, true, true],
    )?;
    Ok(Grid::new(3, 3, cells))
}

// The distances from two cells to a goal, counted toward a third one.
fn two(
    distances: &mut Distances,
    grid: &Grid,
    goal: u32,
    toward: u32,
    cells: (u32, u32),
) -> Result<(Option<u32>, Option<u32>), Memory>
    requires room { room distances.old ≡ length grid.now.cells }
    requires goal { goal < length grid.now.cells }
    requires toward { toward < length grid.now.cells }
    requires cells { (cells.0 < length grid.now.cells) × (cells.1 < length grid.now.cells) }
    ensures { room distances.new ≡ room distances.old }
{
    distances.aim(grid, Cell(goal), Cell(toward))?;
    let first = distances.to_goal(grid, Cell(cells.0))?;
    let second = distances.to_goal(grid, Cell(cells.1))?;
    Ok((first, second))
}

// Counted by hand: to a corner, from a cell that is shut in, and to a closed cell.
#[test]
fn counts_moves_over_open_cells(rt: HostRuntime) {
    let grid = shut_in(rt.alloc()).expect(&rt, "memory");
    let mut distances = Distances::new(rt.alloc(), 12).expect(&rt, "memory");
    let corner = two(&mut distances, &grid, 0, 8, (8, 11)).expect(&rt, "memory");
    assert_eq!(rt; corner, (Some(4), Some(5)));
    let corner = two(&mut distances, &grid, 11, 11, (0, 3)).expect(&rt, "memory");
    assert_eq!(rt; corner, (Some(5), None));
    let alone = two(&mut distances, &grid, 3, 0, (3, 0)).expect(&rt, "memory");
    assert_eq!(rt; alone, (Some(0), None));
    let closed = two(&mut distances, &grid, 2, 1, (1, 2)).expect(&rt, "memory");
    assert_eq!(rt; closed, (None, None));
}

// Counted by hand: round the wall, whichever cell they are counted toward.
#[test]
fn goes_round_a_wall(rt: HostRuntime) {
    let grid = wall(rt.alloc()).expect(&rt, "memory");
    let mut distances = Distances::new(rt.alloc(), 9).expect(&rt, "memory");
    let near = two(&mut distances, &grid, 2, 2, (0, 7)).expect(&rt, "memory");
    assert_eq!(rt; near, (Some(6), Some(3)));
    let far = two(&mut distances, &grid, 2, 0, (5, 0)).expect(&rt, "memory");
    assert_eq!(rt; far, (Some(1), Some(6)));
}

// Two rows of 130 columns, so three spans a row; a wall in the upper row, at the seam of the first two.
fn long_rows(alloc: Global) -> Result<Grid, AllocError>
    ensures { IfOk result (λ g. length g.cells ≡ 260) }
{
    let mut cells = vec![in alloc; true; 260]?;
    cells[63] = false;
    Ok(Grid::new(130, 2, cells))
}

// Counted by hand: along the rows over both seams, there and back, round the wall.
#[test]
fn counts_over_seams(rt: HostRuntime) {
    let grid = long_rows(rt.alloc()).expect(&rt, "memory");
    let mut distances = Distances::new(rt.alloc(), 260).expect(&rt, "memory");
    let right = two(&mut distances, &grid, 0, 129, (129, 62)).expect(&rt, "memory");
    assert_eq!(rt; right, (Some(131), Some(62)));
    let left = two(&mut distances, &grid, 129, 0, (0, 64)).expect(&rt, "memory");
    assert_eq!(rt; left, (Some(131), Some(65)));
    let away = two(&mut distances, &grid, 64, 129, (62, 130)).expect(&rt, "memory");
    assert_eq!(rt; away, (Some(4), Some(65)));
    let middle = two(&mut distances, &grid, 259, 194, (130, 63)).expect(&rt, "memory");
    assert_eq!(rt; middle, (Some(129), None));
}

// Counted by hand: from the cell under the first one, whose place is that beside.
#[test]
fn tells_a_cell_beside(rt: HostRuntime) {
    let grid = wall(rt.alloc()).expect(&rt, "memory");
    let mut distances = Distances::new(rt.alloc(), 9).expect(&rt, "memory");
    distances.aim(&grid, Cell(2), Cell(0)).expect(&rt, "memory");
    let first = place_of(&grid, Cell(0));
    let moves = match neighbour_at(&grid, Cell(0), first, Side::Down) {
        Some(under) => {
            let place = beside(first, Side::Down);
            distances
                .to_goal_at(&grid, under, place)
                .expect(&rt, "memory")
        }
        None => None,
    };
    assert_eq!(rt; moves, Some(5));
}

// The places on a map that is a power of two wide are found in another way than those on other maps.
#[test]
fn places_on_maps_of_both_kinds_of_width(rt: HostRuntime) {
    let four = shut_in(rt.alloc()).expect(&rt, "memory");
    let three = wall(rt.alloc()).expect(&rt, "memory");
    for number in 0..9 {
        let place = place_of(&four, Cell(number));
        assert_eq!(rt; (place.column, place.row), (number % 4, number / 4));
        let place = place_of(&three, Cell(number));
        assert_eq!(rt; (place.column, place.row), (number % 3, number / 3));
    }
}

// Whether along a path from a cell the distances to a goal are the same told for each cell beside the one before and told alone.
// They are counted toward a third cell for the first.
fn are_same_along(
    near: &mut Distances,
    alone: &mut Distances,
    grid: &Grid,
    cells: (u32, u32, u32),
    path: &[Side],
) -> Result<bool, Memory>
    requires room { (room near.old ≡ length grid.now.cells) × (room alone.old ≡ length grid.now.cells) }
    requires cells { (cells.0 < length grid.now.cells) × (cells.1 < length grid.now.cells) × (cells.2 < length grid.now.cells) }
    ensures near { room near.new ≡ room near.old }
    ensures alone { room alone.new ≡ room alone.old }
{
    let goal = Cell(cells.1);
    near.aim(grid, goal, Cell(cells.2))?;
    alone.aim(grid, goal, goal)?;
    let mut cell = Cell(cells.0);
    let mut place = place_of(grid, cell);
    let Some(mut left) = alone.to_goal(grid, cell)? else {
        return Ok(false);
    };
    for side in path {
        let Some(to) = neighbour_at(grid, cell, place, *side) else {
            return Ok(false);
        };
        let there = beside(place, *side);
        let Some(moves) = near.beside_at(grid, to, there, place, left)? else {
            return Ok(false);
        };
        if alone.to_goal(grid, to)? != Some(moves) {
            return Ok(false);
        }
        cell = to;
        place = there;
        left = moves;
    }
    Ok(true)
}

// Round the wall, out from the goal and back to it, each time with nothing counted before.
#[test]
fn tells_cells_along_a_path(rt: HostRuntime) {
    let grid = wall(rt.alloc()).expect(&rt, "memory");
    let mut near = Distances::new(rt.alloc(), 9).expect(&rt, "memory");
    let mut alone = Distances::new(rt.alloc(), 9).expect(&rt, "memory");
    let out = [
        Side::Down,
        Side::Down,
        Side::Left,
        Side::Left,
        Side::Up,
        Side::Up,
    ];
    let far = are_same_along(&mut near, &mut alone, &grid, (2, 2, 0), &out).expect(&rt, "memory");
    assert!(rt; far);
    let back = [
        Side::Down,
        Side::Down,
        Side::Right,
        Side::Right,
        Side::Up,
        Side::Up,
    ];
    let home = are_same_along(&mut near, &mut alone, &grid, (0, 2, 2), &back).expect(&rt, "memory");
    assert!(rt; home);
}

// The same round the wall at the seam of the long rows, and past the goal.
#[test]
fn tells_cells_over_a_seam(rt: HostRuntime) {
    let grid = long_rows(rt.alloc()).expect(&rt, "memory");
    let mut near = Distances::new(rt.alloc(), 260).expect(&rt, "memory");
    let mut alone = Distances::new(rt.alloc(), 260).expect(&rt, "memory");
    let round = [
        Side::Down,
        Side::Right,
        Side::Right,
        Side::Up,
        Side::Right,
        Side::Right,
    ];
    let past = are_same_along(&mut near, &mut alone, &grid, (62, 64, 129), &round).expect(
        &rt, "memory",
    );
    assert!(rt; past);
    let out = are_same_along(&mut near, &mut alone, &grid, (62, 62, 129), &round).expect(
        &rt, "memory",
    );
    assert!(rt; out);
}

// Seven columns and two rows; in the upper row each second cell is closed.
fn comb(alloc: Global) -> Result<Grid, AllocError>
    ensures { IfOk result (λ g. length g.cells ≡ 14) }
{
    let cells = Vec::from_array(
        alloc,
        [
            true, false, true, false, true, false, true, true, true, true, true, true, true, true,
        ],
    )?;
    Ok(Grid::new(7, 2, cells))
}

// Counted by hand: each open cell of the upper row is counted on a level of its own, and its distance is told after the later
// ones were counted, too, and at the next aim.
#[test]
fn tells_all_levels_of_a_span(rt: HostRuntime) {
    let grid = comb(rt.alloc()).expect(&rt, "memory");
    let mut distances = Distances::new(rt.alloc(), 14).expect(&rt, "memory");
    let second = two(&mut distances, &grid, 0, 0, (6, 2)).expect(&rt, "memory");
    assert_eq!(rt; second, (Some(8), Some(4)));
    let first = two(&mut distances, &grid, 0, 0, (6, 0)).expect(&rt, "memory");
    assert_eq!(rt; first, (Some(8), Some(0)));
    let back = two(&mut distances, &grid, 6, 6, (0, 4)).expect(&rt, "memory");
    assert_eq!(rt; back, (Some(8), Some(4)));
}

// So many cells that layers have their levels: 2,000 columns and 17 rows; the upper row begins as the one of seven columns.
fn long_comb(alloc: Global) -> Result<Grid, AllocError>
    ensures { IfOk result (λ g. length g.cells ≡ 34000) }
{
    let mut cells = vec![in alloc; true; 34000]?;
    cells[1] = false;
    cells[3] = false;
    cells[5] = false;
    Ok(Grid::new(2000, 17, cells))
}

// Counted by hand: the same, and the distances of the last cells of the first row and of the last one.
#[test]
fn tells_all_levels_of_many_cells(rt: HostRuntime) {
    let grid = long_comb(rt.alloc()).expect(&rt, "memory");
    let mut distances = Distances::new(rt.alloc(), 34000).expect(&rt, "memory");
    let second = two(&mut distances, &grid, 0, 0, (6, 2)).expect(&rt, "memory");
    assert_eq!(rt; second, (Some(8), Some(4)));
    let far = two(&mut distances, &grid, 0, 33999, (1999, 33999)).expect(&rt, "memory");
    assert_eq!(rt; far, (Some(2001), Some(2015)));
    let closed = two(&mut distances, &grid, 6, 6, (3, 4)).expect(&rt, "memory");
    assert_eq!(rt; closed, (None, Some(4)));
    let back = two(&mut distances, &grid, 33999, 0, (0, 4)).expect(&rt, "memory");
    assert_eq!(rt; back, (Some(2015), Some(2011)));
}

ghost use Rattle.std.specs.Prelude.{◌≡◌, ◌*◌, ◌≤◌, length};
ghost use Rattle.static_distance.specs.Aim.{room};

use fleet_base::{Cell, Grid, Memory, Side};
use request_maker::generate;
use static_distance::Distances;
use std::alloc::Global;
use std::test::Fail;

const SIDES: [Side; 4] = [Side::Up, Side::Left, Side::Right, Side::Down];

// A cell that is open and wasn't found yet is so many moves from the goal, and belongs to the wave.
fn find(
    grid: &Grid,
    moves: &mut Vec<Option<u32>>,
    wave: &mut Vec<Cell>,
    cell: Cell,
    count: u32,
) -> Result<(), Memory> {
    if grid.cells().get(cell.0 as usize).copied() != Some(true) {
        return Ok(());
    }
    if let Some(known) = moves.get_mut(cell.0 as usize) {
        if known.is_none() {
            *known = Some(count);
            wave.push(cell)?;
        }
    }
    Ok(())
}

fn find_beside(
    grid: &Grid,
    moves: &mut Vec<Option<u32>>,
    wave: &mut Vec<Cell>,
    cell: Cell,
    count: u32,
) -> Result<(), Memory> {
    if cell.0 as usize >= grid.cells().len() {
        return Ok(());
    }
    for side in SIDES {
        if let Some(beside) = grid.neighbour(cell, side) {
            find(grid, moves, wave, beside, count)?;
        }
    }
    Ok(())
}

// The cells that are one move farther from the goal than those of a wave.
fn next_wave(
    alloc: Global,
    grid: &Grid,
    moves: &mut Vec<Option<u32>>,
    wave: &[Cell],
    count: u32,
) -> Result<Vec<Cell>, Memory> {
    let mut next = Vec::new(alloc);
    for cell in wave {
        find_beside(grid, moves, &mut next, *cell, count)?;
    }
    Ok(next)
}

// A yardstick of the distances, by the definition alone: the moves from each cell to the goal, all of them, by a breadth-first search.
fn breadth_first(alloc: Global, grid: &Grid, goal: Cell) -> Result<Vec<Option<u32>>, Memory> {
    let mut moves = vec![in alloc; None; grid.cells().len()]?;
    let mut wave = Vec::new(alloc);
    find(grid, &mut moves, &mut wave, goal, 0)?;
    for count in 1..grid.cells().len() as u32 {
        if wave.is_empty() {
            break;
        }
        wave = next_wave(alloc, grid, &mut moves, wave.as_slice(), count)?;
    }
    Ok(moves)
}

// Whether the distances of all cells, counted toward one of them, are those of the full search.
fn agrees(
    alloc: Global,
    distances: &mut Distances,
    grid: &Grid,
    goal: Cell,
    toward: Cell,
) -> Result<bool, Memory>
    requires { room distances.old ≡ length grid.now.cells }
    ensures { room distances.new ≡ room distances.old }
{
    let cells = grid.cells().len();
    if goal.0 as usize >= cells || toward.0 as usize >= cells {
        return Ok(false);
    }
    let moves = breadth_first(alloc, grid, goal)?;
    distances.aim(grid, goal, toward)?;
    for number in 0..cells as u32 {
        let told = distances.to_goal(grid, Cell(number))?;
        if moves.get(number as usize).copied() != Some(told) {
            return Ok(false);
        }
    }
    Ok(true)
}

// The distances of one floor to six goals, one after the other.
fn floor_agrees(alloc: Global, width: u32, height: u32, percent: u32) -> Result<bool, Memory>
    requires width { (1 ≤ width) × (width ≤ 2048) }
    requires height { (1 ≤ height) × (height ≤ 2048) }
    requires area { width * height ≤ 1048576 }
{
    let (grid, requests) = generate(alloc, width, height, percent, 6, 7)?;
    let mut distances = Distances::new(alloc, grid.cells().len())?;
    for request in &requests {
        if !agrees(alloc, &mut distances, &grid, request.goal, request.start)? {
            return Ok(false);
        }
    }
    Ok(true)
}

// Floors of few and of many closed cells, and one so large that its distances stand in layers.
#[test]
fn agree_with_a_breadth_first_search(rt: HostRuntime) -> Result<(), Fail> {
    assert!(rt; floor_agrees(rt.alloc(), 64, 64, 20)?);
    assert!(rt; floor_agrees(rt.alloc(), 61, 33, 40)?);
    assert!(rt; floor_agrees(rt.alloc(), 200, 170, 30)?);
    Ok(())
}

// Three columns and three rows; a wall leaves one way from the left to the right, round below, of six moves. The answer is
// right before and after the moves are counted.
#[test]
fn near_enough_or_not(rt: HostRuntime) -> Result<(), Fail> {
    let cells = Vec::from_array(
        rt.alloc(),
        [true, false, true, true, false, true, true, true, true],
    )?;
    let grid = Grid::new(3, 3, cells);
    let mut distances = Distances::new(rt.alloc(), 9)?;
    distances.aim(&grid, Cell(2), Cell(0))?;
    let far = distances.is_within(&grid, Cell(0), 5)?;
    let near = distances.is_within(&grid, Cell(0), 6)?;
    let less = distances.is_within(&grid, Cell(0), 5)?;
    let closed = distances.is_within(&grid, Cell(1), 9)?;
    assert_eq!(rt; (far, near, less, closed), (false, true, false, false));
    Ok(())
}

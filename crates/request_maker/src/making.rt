ghost use Rattle.std.specs.Prelude.{◌≡◌, ◌*◌, ◌+◌, ◌<◌, ◌≤◌, ℕ, length, All, IfOk};
ghost use Rattle.request_maker.specs.Making.{is_open_at, each_below, request_at, made_grid, made_requests, state_after};

use crate::draws::Draws;
use fleet_base::{Cell, Grid, Memory, Request};
use std::alloc::Global;

// Whether each cell is open, in the order of their numbers.
fn make_cells(
    alloc: Global,
    draws: &mut Draws,
    area: u32,
    percent: u32,
) -> Result<Vec<bool>, Memory>
    ensures cells { IfOk result (λ cells. cells.items ≡ each_below (is_open_at percent draws.old.state) area) }
    ensures count { IfOk result (λ cells. length cells.items ≡ area) }
    ensures draws { IfOk result (λ cells. draws.new.state ≡ state_after draws.old.state area) }
{
    let mut cells = Vec::with_capacity(alloc, area as usize)?;
    for _cell in 0..area {
        cells.push(draws.draw(100) >= percent)?;
    }
    Ok(cells)
}

fn make_requests(
    alloc: Global,
    draws: &mut Draws,
    area: u32,
    count: u32,
) -> Result<Vec<Request>, Memory>
    requires { 0 < area }
    ensures requests { (start : ℕ) → draws.old.state ≡ state_after start area → IfOk result (λ rows. rows.items ≡ each_below (request_at area start) count) }
    ensures count { IfOk result (λ rows. length rows.items ≡ count) }
    ensures on_grid { IfOk result (λ rows. All (λ q. (q.start.0 < area) × (q.goal.0 < area)) rows.items) }
{
    let mut requests = Vec::with_capacity(alloc, count as usize)?;
    for order in 0..count {
        let start = Cell(draws.draw(area));
        let goal = Cell(draws.draw(area));
        requests.push(Request {
            start,
            goal,
            depart: order % 256,
            stay: false,
        })?;
    }
    Ok(requests)
}

/// Makes a grid, on which `percent` of 100 cells are closed, and so many requests.
///
/// The same numbers give the same grid and requests, always. The departures are 0 to 255, again and again.
pub fn generate(
    alloc: Global,
    width: u32,
    height: u32,
    percent: u32,
    orders: u32,
    start: u64,
) -> Result<(Grid, Vec<Request>), Memory>
    requires width { (1 ≤ width) × (width ≤ 2048) }
    requires height { (1 ≤ height) × (height ≤ 2048) }
    requires area { width * height ≤ 1048576 }
    ensures grid { IfOk result (λ r. r.0 ≡ made_grid width height percent start) }
    ensures requests { IfOk result (λ r. r.1.items ≡ made_requests width height orders start) }
    ensures count { IfOk result (λ r. length r.1.items ≡ orders) }
    ensures on_grid { IfOk result (λ r. All (λ q. (q.start.0 < length r.0.cells) × (q.goal.0 < length r.0.cells)) r.1.items) }
{
    let area = width * height;
    let mut draws = Draws { state: start };
    let cells = make_cells(alloc, &mut draws, area, percent)?;
    let requests = make_requests(alloc, &mut draws, area, orders)?;
    Ok((Grid::new(width, height, cells), requests))
}

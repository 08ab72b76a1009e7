ghost use Rattle.std.specs.Prelude.{◌≡◌, ◌≤◌, ◌<◌, length, IfSome};

use calendars::{Calendar, crossing};
use fleet_base::{Cell, Grid, Memory, Request, Side, Walk};
use std::alloc::Global;

// A yardstick of the search, from the definitions alone: one layer of reachable cells for each time.
const SIDES: [Side; 4] = [Side::Up, Side::Left, Side::Right, Side::Down];

/// A grid, what the others do on it (a calendar for each cell), and the last time that counts.
#[derive(Clone, Copy)]
pub struct Town<'a> {
    pub grid: &'a Grid,
    pub calendars: &'a [Calendar],
    pub horizon: u32,
    ghost in_time: { horizon ≤ 8000 },
}

impl Town<'_> {
    fn is_free(&self, cell: Cell, time: u32) -> bool {
        if self.grid.cells().get(cell.0 as usize).copied() != Some(true) {
            return false;
        }
        match self.calendars.get(cell.0 as usize) {
            Some(calendar) => !calendar.covers(time),
            None => false,
        }
    }

    fn neighbour(&self, cell: Cell, side: Side) -> Option<Cell> {
        if cell.0 as usize >= self.grid.cells().len() {
            return None;
        }
        self.grid.neighbour(cell, side)
    }

    // Whether the move in the step that begins at that time is no exchange.
    fn is_passable(&self, from: Cell, to: Cell, time: u32) -> bool {
        if time > self.horizon {
            return false;
        }
        let Some(here) = self.calendars.get(from.0 as usize) else {
            return false;
        };
        let Some(there) = self.calendars.get(to.0 as usize) else {
            return false;
        };
        !crossing(here, there, time)
    }

    // The first time of the safe interval that holds the time, at which the cell is free.
    fn free_since(&self, cell: Cell, time: u32) -> u32
        requires { time ≤ 8000 }
        ensures { result ≤ time }
    {
        for earlier in (0..time).rev() {
            if !self.is_free(cell, earlier) {
                return earlier + 1;
            }
        }
        0
    }

    // Whether nobody comes to the cell after the horizon.
    fn is_left_alone(&self, cell: Cell) -> bool {
        match self.calendars.get(cell.0 as usize) {
            Some(calendar) => calendar.records().iter().all(|r| r.from <= self.horizon),
            None => false,
        }
    }
}

fn area(grid: &Grid) -> u32
    ensures { result ≡ length grid.now.cells }
{
    grid.cells().len() as u32
}

fn is_in(layer: &[bool], cell: Cell) -> bool {
    layer.get(cell.0 as usize).copied() == Some(true)
}

/// The cells that a free walk can stand on, for each time from the departure to the horizon.
#[derive(Drop)]
pub struct Layers {
    depart: u32,
    layers: Vec<Vec<bool>>,
}

fn first_layer(alloc: Global, town: &Town<'_>, request: Request) -> Result<Vec<bool>, Memory> {
    let mut layer = vec![in alloc; false; town.grid.cells().len()]?;
    if let Some(start) = layer.get_mut(request.start.0 as usize) {
        *start = town.is_free(request.start, request.depart);
    }
    Ok(layer)
}

// The first neighbour, up, left, right, down, in the layer of that time, from which the move into the cell is free.
fn first_neighbour(town: &Town<'_>, layer: &[bool], cell: Cell, time: u32) -> Option<Cell> {
    for side in SIDES {
        if let Some(from) = town.neighbour(cell, side) {
            if is_in(layer, from) && town.is_passable(from, cell, time) {
                return Some(from);
            }
        }
    }
    None
}

// Whether the agent can be in the cell one step after the time of the layer.
fn is_next(town: &Town<'_>, layer: &[bool], cell: Cell, time: u32) -> bool
    requires { time ≤ 8000 }
{
    if !town.is_free(cell, time + 1) {
        return false;
    }
    is_in(layer, cell) || first_neighbour(town, layer, cell, time).is_some()
}

fn next_layer(
    alloc: Global,
    town: &Town<'_>,
    layer: &[bool],
    time: u32,
) -> Result<Vec<bool>, Memory>
    requires { time ≤ 8000 }
{
    let mut next = Vec::with_capacity(alloc, town.grid.cells().len())?;
    for number in 0..area(town.grid) {
        next.push(is_next(town, layer, Cell(number), time))?;
    }
    Ok(next)
}

/// The layers of a request in a town.
pub fn layers_of(alloc: Global, town: &Town<'_>, request: Request) -> Result<Layers, Memory> {
    let mut layers = Vec::new(alloc);
    let mut layer = first_layer(alloc, town, request)?;
    for time in request.depart..town.horizon {
        let next = next_layer(alloc, town, &layer, time)?;
        layers.push(layer)?;
        layer = next;
    }
    if request.depart <= town.horizon {
        layers.push(layer)?;
    }
    Ok(Layers {
        depart: request.depart,
        layers,
    })
}

impl Layers {
    fn at(&self, time: u32) -> &[bool] {
        let Some(step) = time.checked_sub(self.depart) else {
            return &[];
        };
        match self.layers.get(step as usize) {
            Some(layer) => layer.as_slice(),
            None => &[],
        }
    }

    fn has(&self, cell: Cell, time: u32) -> bool {
        is_in(self.at(time), cell)
    }

    // The first of the times at which the cell is reachable.
    fn first_time(&self, cell: Cell, from: u32, to: u32) -> Option<u32>
        requires { to ≤ 8000 }
        ensures { IfSome result (λ t. t ≤ to) }
    {
        for time in from..to + 1 {
            if self.has(cell, time) {
                return Some(time);
            }
        }
        None
    }

    // The least time in the safe interval that holds the time at which the cell is reachable.
    fn least_time(&self, town: &Town<'_>, cell: Cell, time: u32) -> Option<u32>
        requires { time ≤ 8000 }
        ensures { IfSome result (λ t. t ≤ time) }
    {
        self.first_time(cell, town.free_since(cell, time), time)
    }

    /// The least time at which the agent may end on its goal.
    pub fn arrival(&self, town: &Town<'_>, request: Request) -> Option<u32>
        ensures { IfSome result (λ t. t ≤ 8000) }
    {
        if !request.stay {
            return self.first_time(request.goal, 0, town.horizon);
        }
        if !town.is_left_alone(request.goal) || !town.is_free(request.goal, town.horizon) {
            return None;
        }
        self.least_time(town, request.goal, town.horizon)
    }

    /// Whether the time is the least at which the cell is reachable in its safe interval: who is there one step before can
    /// wait.
    pub fn is_least(&self, cell: Cell, time: u32) -> bool {
        self.has(cell, time)
            && !time
                .checked_sub(1)
                .is_some_and(|before| self.has(cell, before))
    }
}

// A cell, and the time from which the agent is there.
#[derive(Clone, Copy)]
pub struct Standing {
    pub cell: Cell,
    pub time: u32,
}

// Where the agent came from that is in the cell since that time; none at the start.
fn before(town: &Town<'_>, layers: &Layers, at: Standing) -> Option<Standing>
    requires { at.time ≤ 8000 }
    ensures { IfSome result (λ s. s.time < at.time) }
{
    let left = at.time.checked_sub(1)?;
    let cell = first_neighbour(town, layers.at(left), at.cell, left)?;
    let time = layers.least_time(town, cell, left)?;
    Some(Standing { cell, time })
}

fn push_waits(cells: &mut Vec<Cell>, cell: Cell, waits: u32) -> Result<(), Memory> {
    for _wait in 0..waits {
        cells.push(cell)?;
    }
    Ok(())
}

// The cells of the canonical walk, read back from the goal.
fn read_back(
    alloc: Global,
    town: &Town<'_>,
    layers: &Layers,
    goal: Standing,
) -> Result<Vec<Cell>, Memory>
    requires { goal.time ≤ 8000 }
{
    let mut cells = Vec::new(alloc);
    let mut at = goal;
    while let Some(from) = before(town, layers, at) {
        push_waits(&mut cells, at.cell, 1)?;
        push_waits(&mut cells, from.cell, at.time - 1 - from.time)?;
        at = from;
    }
    cells.push(at.cell)?;
    cells.reverse();
    Ok(cells)
}

fn walk_along(request: Request, cells: Vec<Cell>) -> Option<Walk> {
    if cells.is_empty() || cells.len() > 8000 || request.depart > 8000 - cells.len() as u32 {
        return None;
    }
    Some(if request.stay {
        Walk::staying(request.depart, cells)
    } else {
        Walk::new(request.depart, cells)
    })
}

/// The canonical walk of the request, where there is a free one.
pub fn canonical(
    alloc: Global,
    town: &Town<'_>,
    layers: &Layers,
    request: Request,
) -> Result<Option<Walk>, Memory> {
    let Some(time) = layers.arrival(town, request) else {
        return Ok(None);
    };
    let goal = Standing {
        cell: request.goal,
        time,
    };
    Ok(walk_along(request, read_back(alloc, town, layers, goal)?))
}

fn has_neighbour_at(town: &Town<'_>, steps: &[Option<u32>], cell: Cell, level: u32) -> bool {
    for side in SIDES {
        if let Some(next) = town.neighbour(cell, side) {
            if steps.get(next.0 as usize).copied() == Some(Some(level)) {
                return true;
            }
        }
    }
    false
}

fn is_open(grid: &Grid, cell: Cell) -> bool {
    is_in(grid.cells(), cell)
}

// The steps known so far, and of the cells one step farther than the level.
fn next_level(
    alloc: Global,
    town: &Town<'_>,
    steps: &[Option<u32>],
    level: u32,
) -> Result<Vec<Option<u32>>, Memory>
    requires { level ≤ 1048576 }
{
    let mut next = Vec::with_capacity(alloc, steps.len())?;
    for number in 0..area(town.grid) {
        let cell = Cell(number);
        let known = steps.get(number as usize).copied().unwrap_or(None);
        if known.is_none()
            && is_open(town.grid, cell)
            && has_neighbour_at(town, steps, cell, level)
        {
            next.push(Some(level + 1))?;
        } else {
            next.push(known)?;
        }
    }
    Ok(next)
}

// How many steps it is from each cell to the goal, if nobody stood in the way.
fn steps_to(alloc: Global, town: &Town<'_>, goal: Cell) -> Result<Vec<Option<u32>>, Memory> {
    let mut steps = vec![in alloc; None; town.grid.cells().len()]?;
    if is_open(town.grid, goal) {
        if let Some(place) = steps.get_mut(goal.0 as usize) {
            *place = Some(0);
        }
    }
    for level in 0..area(town.grid) {
        let next = next_level(alloc, town, &steps, level)?;
        if next.as_slice() == steps.as_slice() {
            return Ok(steps);
        }
        steps = next;
    }
    Ok(steps)
}

fn push_least(
    states: &mut Vec<Standing>,
    layers: &Layers,
    cell: Cell,
    last: u32,
) -> Result<(), Memory>
    requires { last ≤ 8000 }
{
    for time in 0..last + 1 {
        if layers.is_least(cell, time) {
            states.push(Standing { cell, time })?;
        }
    }
    Ok(())
}

/// The least times in safe intervals, of all cells, from which the goal could be reached until the limit if nobody stood
/// in the way.
pub fn states_until(
    alloc: Global,
    town: &Town<'_>,
    layers: &Layers,
    goal: Cell,
    limit: u32,
) -> Result<Vec<Standing>, Memory>
    requires { limit ≤ 8000 }
{
    let steps = steps_to(alloc, town, goal)?;
    let mut states = Vec::new(alloc);
    for number in 0..area(town.grid) {
        let left = steps.get(number as usize).copied().unwrap_or(None);
        if let Some(last) = left.and_then(|left| limit.checked_sub(left)) {
            push_least(&mut states, layers, Cell(number), last)?;
        }
    }
    Ok(states)
}

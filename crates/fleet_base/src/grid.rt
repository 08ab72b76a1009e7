ghost use Rattle.std.specs.Prelude.{◌≡◌, ℕ, ◌+◌, ◌*◌, ◌<◌, ◌≤◌, ◌↔◌, length, IsTrue, IfSome, IfNone};

use std::marker::Model;

/// A cell of a grid by its number: `y * width + x`, so row by row from the upper left.
#[derive(Clone, Copy, Debug, PartialEq, Eq, Hash, PartialOrd, Ord)]
pub struct Cell(pub u32);

/// A side of a cell, in the order in which neighbours are taken: y grows downwards.
#[derive(Clone, Copy, Debug, PartialEq, Eq, Hash, PartialOrd, Ord)]
pub enum Side {
    Up,
    Left,
    Right,
    Down,
}

/// A map of open and closed cells, at most 2,048 cells wide and high and at most 1,048,576 in all.
#[derive(Drop)]
pub struct Grid {
    width: u32,
    height: u32,
    cells: Vec<bool>,
}

impl Model for Grid {
    ghost use Rattle.fleet_base.specs.Terrain.{Terrain, IsTerrain};

    ghost Value = { Terrain };

    ghost view = { λ g. record { width = g.width; height = g.height; cells = g.cells.items } };

    ghost invariant = { λ g. IsTerrain (record { width = g.width; height = g.height; cells = g.cells.items }) };
}

impl Grid {
    ghost use Rattle.fleet_base.specs.declared.grid.Cell.{Cell};
    ghost use Rattle.fleet_base.specs.Terrain.{IsTerrain, IsOpen, IsBeside, cell_at};

    /// A grid of these sizes; `cells` has one value a cell, row by row, true where it is open.
    pub fn new(width: u32, height: u32, cells: Vec<bool>) -> Grid
        requires { IsTerrain (record { width = width; height = height; cells = cells.items }) }
        ensures { result ≡ record { width = width; height = height; cells = cells.items } }
    {
        Grid {
            width,
            height,
            cells,
        }
    }

    /// How many cells a row has.
    pub fn width(&self) -> u32
        ensures { result ≡ self.now.width }
    {
        self.width
    }

    /// How many rows there are.
    pub fn height(&self) -> u32
        ensures { result ≡ self.now.height }
    {
        self.height
    }

    /// One value a cell, row by row, true where it is open. It also tells the limits of a grid.
    pub fn cells(&self) -> &[bool]
        ensures cells { result.now ≡ self.now.cells }
        ensures limits { IsTerrain self.now }
    {
        self.cells.as_slice()
    }

    /// The cell at column x and row y.
    pub fn cell_at(&self, x: u32, y: u32) -> Cell
        requires column { x < self.now.width }
        requires row { y < self.now.height }
        ensures number { result ≡ cell_at self.now x y }
        ensures inside { result.0 < length self.now.cells }
    {
        Cell(y * self.width + x)
    }

    /// Whether an agent may stand on the cell.
    pub fn is_open(&self, cell: Cell) -> bool
        requires { cell.0 < length self.now.cells }
        ensures { IsTrue result ↔ IsOpen self.now cell }
    {
        self.cells[cell.0 as usize]
    }

    /// The cell on that side, or none where that side is outside.
    pub fn neighbour(&self, cell: Cell, side: Side) -> Option<Cell>
        requires { cell.0 < length self.now.cells }
        ensures beside { IfSome result (λ d. IsBeside self.now side cell d) }
        ensures inside { IfSome result (λ d. d.0 < length self.now.cells) }
        ensures none { IfNone result ((d : Cell) → ¬ (IsBeside self.now side cell d)) }
    {
        let column = cell.0 % self.width;
        let row = cell.0 / self.width;
        match side {
            Side::Up if row > 0 => Some(Cell(cell.0 - self.width)),
            Side::Left if column > 0 => Some(Cell(cell.0 - 1)),
            Side::Right if column + 1 < self.width => Some(Cell(cell.0 + 1)),
            Side::Down if row + 1 < self.height => Some(Cell(cell.0 + self.width)),
            _ => None,
        }
    }
}

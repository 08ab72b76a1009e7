ghost use Rattle.std.specs.Prelude.{◌≡◌, Err};
ghost use Rattle.map_text.specs.declared.fault.MapFault.TheVariants.{Memory};

use std::alloc::{AllocError, AllocFailed};
use thiserror::Error;

/// What is wrong with a line of a map.
#[derive(Clone, Copy, Debug, PartialEq, Eq)]
pub enum MapKind {
    /// One of the first four lines has other words, or too few or too many fields, or isn't there.
    BadHeader = 1,
    /// A size is no number, or 0.
    BadNumber = 2,
    /// A size is over 2,048, or the map would have more than 1,048,576 cells.
    TooLarge = 3,
    /// A row has fewer letters than the width.
    ShortRow = 4,
    /// A row has more letters than the width.
    LongRow = 5,
    /// A row has a byte that is none of the seven letters.
    BadChar = 6,
    /// The text ends before its last row; the line is the first missing one.
    MissingRows = 7,
    /// A line after the last row isn't empty.
    TrailingText = 8,
}

/// Why there is no grid: the first fault of the text, or want of memory.
#[derive(Clone, Copy, Debug, PartialEq, Eq, Error)]
pub enum MapFault {
    /// The first line with a fault, counted from 1, and what is wrong with it.
    #[error("line {line}: {kind:?}")]
    At { line: u32, kind: MapKind },
    #[error("out of memory")]
    Memory,
}

impl From<AllocError> for MapFault {
    ghost from_gives = { λ _ e. e ≡ Memory };

    fn from(_cause: AllocError) -> MapFault {
        MapFault::Memory
    }
}

// So that a `push(x)?` converts.
impl<T: Drop> From<AllocFailed<T>> for MapFault {
    ghost from_gives = { λ _ e. e ≡ Memory };

    fn from(_refused: AllocFailed<T>) -> MapFault {
        MapFault::Memory
    }
}

pub fn fault<T>(line: u32, kind: MapKind) -> Result<T, MapFault>
    ensures { result ≡ Err (MapFault.At line kind) }
{
    Err(MapFault::At { line, kind })
}

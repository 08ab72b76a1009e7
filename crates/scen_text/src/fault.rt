ghost use Rattle.std.specs.Prelude.{◌≡◌, Err};
ghost use Rattle.scen_text.specs.declared.fault.ScenFault.TheVariants.{Memory};

use std::alloc::{AllocError, AllocFailed};
use thiserror::Error;

/// What is wrong with a line of a scenario.
#[derive(Clone, Copy, Debug, PartialEq, Eq)]
pub enum ScenKind {
    /// The first line that isn't empty isn't the word `version` and one further field, or no line
    /// is there; the line is then the one after the last.
    BadVersion = 1,
    /// A row hasn't nine fields.
    FieldCount = 2,
    /// A size or a place is no number, or is over 4,294,967,295.
    BadNumber = 3,
    /// The sizes of a row aren't those of the grid.
    SizeDiffers = 4,
    /// A start or a goal isn't on the grid.
    Outside = 5,
    /// No number of rows to take was given, and this is row 32,768.
    TooMany = 6,
}

/// Why there are no requests: the first fault of the text, or want of memory.
#[derive(Clone, Copy, Debug, PartialEq, Eq, Error)]
pub enum ScenFault {
    /// The first line with a fault, counted from 1, and what is wrong with it.
    #[error("line {line}: {kind:?}")]
    At { line: u32, kind: ScenKind },
    #[error("out of memory")]
    Memory,
}

impl From<AllocError> for ScenFault {
    ghost from_gives = { λ _ e. e ≡ Memory };

    fn from(_cause: AllocError) -> ScenFault {
        ScenFault::Memory
    }
}

// So that a `push(x)?` converts.
impl<T: Drop> From<AllocFailed<T>> for ScenFault {
    ghost from_gives = { λ _ e. e ≡ Memory };

    fn from(_refused: AllocFailed<T>) -> ScenFault {
        ScenFault::Memory
    }
}

pub fn fault<T>(line: u32, kind: ScenKind) -> Result<T, ScenFault>
    ensures { result ≡ Err (ScenFault.At line kind) }
{
    Err(ScenFault::At { line, kind })
}

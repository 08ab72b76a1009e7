ghost use Rattle.std.specs.Prelude.{◌≡◌, Err};
ghost use Rattle.order_text.specs.declared.fault.OrderFault.TheVariants.{Memory};

use std::alloc::{AllocError, AllocFailed};
use thiserror::Error;

/// What is wrong with a line of orders.
#[derive(Clone, Copy, Debug, PartialEq, Eq)]
pub enum OrderKind {
    /// The first field is none of `lane`, `plan`, `park` and `cancel`.
    BadWord = 1,
    /// After `lane` comes a field, after `plan` or `park` not five, after `cancel` not one.
    FieldCount = 2,
    /// A further field is no number, or is over 4,294,967,295.
    BadNumber = 3,
    /// A start or a goal isn't on the grid.
    Outside = 4,
    /// The order to cancel is no earlier plan or park of the same lane, or was cancelled already.
    BadCancel = 5,
    /// This is the order number 32,767, the 32,768th.
    TooMany = 6,
}

/// Why there are no lanes: the first fault of the text, or want of memory.
#[derive(Clone, Copy, Debug, PartialEq, Eq, Error)]
pub enum OrderFault {
    /// The first line with a fault, counted from 1, and what is wrong with it.
    #[error("line {line}: {kind:?}")]
    At { line: u32, kind: OrderKind },
    #[error("out of memory")]
    Memory,
}

impl From<AllocError> for OrderFault {
    ghost from_gives = { λ _ e. e ≡ Memory };

    fn from(_cause: AllocError) -> OrderFault {
        OrderFault::Memory
    }
}

// So that a `push(x)?` converts.
impl<T: Drop> From<AllocFailed<T>> for OrderFault {
    ghost from_gives = { λ _ e. e ≡ Memory };

    fn from(_refused: AllocFailed<T>) -> OrderFault {
        OrderFault::Memory
    }
}

pub fn fault<T>(line: u32, kind: OrderKind) -> Result<T, OrderFault>
    ensures { result ≡ Err (OrderFault.At line kind) }
{
    Err(OrderFault::At { line, kind })
}

// Where each number stands in its word. Bit 0 is the lowest.
use crate::field::Field;

/// Which form a cell word, a count word or a status has.
pub(crate) const TAG: Field = Field { at: 0, bits: 2 };

/// The tag of a plain row or count.
pub(crate) const PLAIN: u64 = 0;

/// The tag of a conditional reference to a descriptor.
pub(crate) const CONDITIONAL: u64 = 1;

/// The tag of a reference to a descriptor.
pub(crate) const REFERENCE: u64 = 2;

/// A cell's row, in a plain word.
pub(crate) const ROW: Field = Field { at: 2, bits: 22 };

/// The count, in a plain word.
pub(crate) const COUNT: Field = Field { at: 2, bits: 40 };

/// Which entry of a descriptor a word or a failure speaks of. Entry 1,023 is the count's.
pub(crate) const ENTRY: Field = Field { at: 2, bits: 11 };

/// Which descriptor is referred to: `8 * caller + k`, with k from 0 to 7.
pub(crate) const DESCRIPTOR: Field = Field { at: 13, bits: 7 };

/// The caller that installed a conditional reference.
pub(crate) const HELPER: Field = Field { at: 20, bits: 5 };

/// The number of that install among its caller's.
pub(crate) const FRESH: Field = Field { at: 25, bits: 39 };

/// The status of a descriptor that nobody uses.
pub(crate) const IDLE: u64 = 0;

/// The status of a descriptor whose swap isn't decided yet.
pub(crate) const UNDECIDED: u64 = 1;

/// The status of a descriptor whose swap took place.
pub(crate) const SUCCEEDED: u64 = 2;

/// The tag of a status whose swap didn't take place.
pub(crate) const FAILED: u64 = 3;

/// Whether the owner failed the swap for a hold.
pub(crate) const HELD: Field = Field { at: 13, bits: 1 };

/// The cell of an entry.
pub(crate) const CELL: Field = Field { at: 0, bits: 20 };

/// The cell's row before the swap.
pub(crate) const OLD: Field = Field { at: 20, bits: 22 };

/// The cell's row after the swap.
pub(crate) const NEW: Field = Field { at: 42, bits: 22 };

/// The first time step of a record.
pub(crate) const FROM: Field = Field { at: 0, bits: 16 };

/// The last time step of a record.
pub(crate) const TO: Field = Field { at: 16, bits: 16 };

/// The stamp of a record's route.
pub(crate) const STAMP: Field = Field { at: 32, bits: 26 };

/// The caller of a record's route.
pub(crate) const CALLER: Field = Field { at: 58, bits: 6 };

/// How many records a row has.
pub(crate) const RECORDS: Field = Field { at: 0, bits: 4 };

/// The row that a row's records go on in.
pub(crate) const NEXT: Field = Field { at: 4, bits: 22 };

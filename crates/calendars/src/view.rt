ghost use Rattle.std.specs.Prelude.{◌≡◌, ◌≢◌, ℕ, ◌<◌, List, Option, Some, OnOk, OnErr, IsSome};
ghost use Rattle.fleet_base.specs.declared.request.Record.{Record};

use crate::calendar::Calendar;
use fleet_base::{Cell, Memory};

/// What a search may read of the others: a number of cells, of which some are loaded, each with one calendar.
/// The calendars of a view may come from different moments.
pub trait CalendarView {
    /// How many cells there are. No call changes it.
    ghost size: { Self → ℕ };

    /// The calendar of each loaded cell, by its number.
    ghost known: { Self → ℕ → Option (List Record) };

    /// What the view itself keeps between an earlier and a later state: by it its maker knows what loading cost.
    ghost went: { Self → Self → Type 0 };

    /// Loads a cell where it isn't loaded yet, and leaves all others. After want of memory nothing has changed.
    fn load(&mut self, cell: Cell) -> Result<(), Memory>
        requires { cell.0 < size self.old }
        ensures same_size { size self.new ≡ size self.old }
        ensures loaded { OnOk result (IsSome (known self.new cell.0)) }
        ensures others { (c : ℕ) → c ≢ cell.0 → known self.new c ≡ known self.old c }
        ensures kept { (c : ℕ) → IsSome (known self.old c) → known self.new c ≡ known self.old c }
        ensures refused { OnErr result ((c : ℕ) → known self.new c ≡ known self.old c) }
        ensures went { went self.old self.new };

    /// The calendar of a loaded cell.
    fn calendar(&self, cell: Cell) -> &Calendar
        requires { IsSome (known self.now cell.0) }
        ensures { known self.now cell.0 ≡ Some result.now };

    ghost below: { (v : Self) (c : ℕ) → IsSome (known v c) → c < size v };

    ghost stays: { (v : Self) → went v v };

    ghost goes_on: { (u v w : Self) → went u v → went v w → went u w };
}

use crate::pool::CalendarPool;
use calendars::{Calendar, CalendarView};
use fleet_base::{Cell, Memory};

// The calendars of all cells, lent to a search: each is known from the beginning.
#[derive(Drop)]
pub struct LentView<'a> {
    pub calendars: &'a CalendarPool,
}

impl CalendarView for LentView<'_> {
    ghost use Rattle.std.specs.Prelude.{◌≡◌, length, slice_get};
    ghost use Rattle.plain_book.specs.Lent.{known_below, same_stays, same_goes_on};

    ghost size = { λ v. length v.calendars.now };

    ghost known = { λ v c. slice_get v.calendars.now c };

    ghost went = { λ u v. v.calendars.now ≡ u.calendars.now };

    ghost below = { λ v c. known_below v.calendars.now c };

    ghost stays = { λ v. same_stays v.calendars.now };

    ghost goes_on = { λ u v w. same_goes_on u.calendars.now v.calendars.now w.calendars.now };

    fn load(&mut self, _cell: Cell) -> Result<(), Memory> {
        Ok(())
    }

    fn calendar(&self, cell: Cell) -> &Calendar {
        self.calendars.at(cell)
    }
}

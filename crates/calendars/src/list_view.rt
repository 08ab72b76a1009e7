ghost use Rattle.std.specs.Prelude.{◌≡◌, ◌<◌, vec_len};

use crate::calendar::Calendar;
use crate::view::CalendarView;
use fleet_base::{Cell, Memory};

/// A view over two lists, for tests: a calendar for each cell, and a mark at each loaded one.
#[derive(Drop)]
pub struct ListView {
    pub calendars: Vec<Calendar>,
    pub loaded: Vec<bool>,
    ghost same_length: { vec_len loaded ≡ vec_len calendars },
}

impl CalendarView for ListView {
    ghost use Rattle.std.specs.Prelude.{◌≡◌, length};
    ghost use Rattle.calendars.specs.Views.{known_of, known_below, same_stays, same_goes_on};

    ghost size = { λ v. length v.calendars.items };

    ghost known = { λ v c. known_of v.calendars.items v.loaded.items c };

    ghost went = { λ u v. v.calendars.items ≡ u.calendars.items };

    ghost below = { λ v c. known_below v.calendars.items v.loaded.items c };

    ghost stays = { λ v. same_stays v.calendars.items };

    ghost goes_on = { λ u v w. same_goes_on u.calendars.items v.calendars.items w.calendars.items };

    fn load(&mut self, cell: Cell) -> Result<(), Memory> {
        self.loaded[cell.0 as usize] = true;
        Ok(())
    }

    fn calendar(&self, cell: Cell) -> &Calendar {
        &self.calendars[cell.0 as usize]
    }
}

#[cfg(test)]
mod tests {
    use super::*;
    use std::test::Fail;

    fn count_records<V: CalendarView>(view: &mut V, cell: Cell) -> Result<usize, Memory>
        requires { cell.0 < V.size view.old }
    {
        view.load(cell)?;
        Ok(view.calendar(cell).records().len())
    }

    #[test]
    fn a_loaded_cell_has_its_calendar(rt: HostRuntime) -> Result<(), Fail> {
        let calendars = vec![in rt.alloc(); Calendar::new(rt.alloc())]?;
        let loaded = vec![in rt.alloc(); false]?;
        let mut view = ListView { calendars, loaded };
        assert_eq!(rt; count_records(&mut view, Cell(0)), Ok(0));
        Ok(())
    }
}

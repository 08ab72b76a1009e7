// The calendars of cells: when which route has a cell, and the trait of what a search may read of them.
// Its one contract: a calendar is a list of records in rising order that don't overlap; `covers` says whether a time
// is taken, `crossing` whether a move would be an exchange, and `insert` and `remove_id` leave exactly the named list.
// Modules: `calendar` (one cell), `view` (the trait `CalendarView`), `list_view` (a view over lists, for tests).
#![tactic(auto)]

mod calendar;
mod list_view;
mod view;

pub use calendar::{Calendar, crossing};
pub use list_view::ListView;
pub use view::CalendarView;

// The book of one thread: the live routes of a grid, and a calendar for each cell.
// Its one contract: `plan` answers with the canonical walk among the live routes or says that no walk is free, `cancel`
// takes a route out, and the answers of a book are a strong history.
// Modules: `book` (the book), `routes` (a route comes and goes), `records` (its records in the calendars), `pool` (the
// calendars), `finding` (the search), `lent` (calendars that are lent to it).
#![tactic(auto)]

mod book;
mod finding;
mod lent;
mod pool;
mod records;
mod routes;
#[cfg(test)]
mod tests;

pub use book::{NotLive, PlainBook};
pub use fleet_base::Live;
pub use routes::copy_of;

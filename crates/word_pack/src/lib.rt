// Words of 64 bits that hold several numbers each: what a shared table's words, its descriptors and its rows say.
// Its one contract: unpacking a packed form gives the form, and a word that unpacks to none is of no form.
// `field` and `layout` say where each number stands; each other module has one form with its two calls.
// `law` carries that two forms with one word are one form.
#![tactic(auto)]

mod cell;
mod count;
mod entry;
mod field;
mod law;
mod layout;
mod record;
mod row_head;
mod status;
#[cfg(test)]
mod tests;

pub use cell::{CellForm, pack_cell, unpack_cell};
pub use count::{CountForm, pack_count, unpack_count};
pub use entry::{EntryForm, pack_entry, unpack_entry};
pub use law::packing_law;
pub use record::{RecordForm, pack_record, unpack_record};
pub use row_head::{RowHead, pack_row_head, unpack_row_head};
pub use status::{StatusForm, pack_status, unpack_status};

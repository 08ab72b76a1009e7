// Lines, fields and numbers: what every reader of a text, and of a command line, has in common.
//
// The contract: each cursor gives the first piece of `lines_of`, `numbered_from` or `fields_of`,
// and the rest of its text gives the others; `read_number` is exact for any count of digits.
// `line` has the lines, `field` the fields of a line, `number` the numbers. Nothing is allocated.
#![tactic(auto)]

mod field;
mod line;
mod number;
#[cfg(test)]
mod tests;

pub use field::{next_field, only_field, two_fields};
pub use line::{FilledLine, count_lines, next_filled_line, next_line};
pub use number::{NumberFault, read_number, read_small_number};

ghost use Rattle.std.specs.Prelude.{◌≡◌, ◌+◌, ◌-◌, ◌*◌, ◌<◌, ◌≤◌, ◌++◌, length, map, IfOk, OnOk, IsOkUnless, MatchOption, Ok, Err};
ghost use Rattle.std.specs.List.{list_all};
ghost use Rattle.text_lines.specs.Lines.{lines_of};
ghost use Rattle.text_lines.specs.Faults.{Gives};
ghost use Rattle.map_text.specs.MapGrammar.{is_open_letter, is_letter, row, rows, fault_of};

use crate::fault::{MapFault, MapKind, fault};
use std::alloc::Global;
use text_lines::next_line;

fn is_open_byte(byte: u8) -> bool
    ensures { result ≡ is_open_letter byte }
{
    byte == b'.' || byte == b'G' || byte == b'S'
}

fn is_letter_byte(byte: u8) -> bool
    ensures { result ≡ is_letter byte }
{
    is_open_byte(byte) || byte == b'@' || byte == b'O' || byte == b'T' || byte == b'W'
}

fn are_letters(line: &[u8]) -> bool
    ensures { result ≡ list_all is_letter line.now }
{
    line.iter().all(|b| is_letter_byte(*b))
}

// What is wrong with a row, if anything.
fn row_fault(line: &[u8], width: u32) -> Option<MapKind>
    ensures { MatchOption result
        (row width line.now ≡ Ok (map is_open_letter line.now))
        (λ kind. row width line.now ≡ Err kind) }
{
    if !are_letters(line) {
        Some(MapKind::BadChar)
    } else if line.len() < width as usize {
        Some(MapKind::ShortRow)
    } else if line.len() > width as usize {
        Some(MapKind::LongRow)
    } else {
        None
    }
}

fn push_row(cells: &mut Vec<bool>, line: &[u8]) -> Result<(), MapFault>
    ensures memory { IsOkUnless result MapFault.Memory }
    ensures cells { OnOk result (cells.new.items ≡ cells.old.items ++ map is_open_letter line.now) }
{
    for byte in line {
        cells.push(is_open_byte(*byte))?;
    }
    Ok(())
}

/// Reads the rows of a map, from its fifth line on: the cells, and the text after them.
pub fn read_rows(
    alloc: Global,
    width: u32,
    height: u32,
    text: &[u8],
) -> Result<(Vec<bool>, &[u8]), MapFault>
    requires area { width * height ≤ 1048576 }
    requires high { height ≤ 2048 }
    ensures rows { Gives fault_of (λ x. record { cells = x.0.items; after = lines_of x.1.now }) result
        (rows width 5 height (lines_of text.now)) }
    ensures read { IfOk result (λ x. height + length x.1.now ≤ length text.now) }
{
    let mut cells = Vec::with_capacity(alloc, (width * height) as usize)?;
    let mut rest = text;
    for counter in 0..height {
        let Some((line, after)) = next_line(rest) else {
            return fault(5 + counter, MapKind::MissingRows);
        };
        if let Some(kind) = row_fault(line, width) {
            return fault(5 + counter, kind);
        }
        push_row(&mut cells, line)?;
        rest = after;
    }
    Ok((cells, rest))
}

ghost use Rattle.std.specs.Prelude.{◌≡◌, ◌++◌, ◌*◌, ◌∷◌, [], codes, decimal, length, map, IfOk, OnOk, Ok};
ghost use Rattle.text_lines.specs.Lines.{lines_of};
ghost use Rattle.map_text.specs.MapGrammar.{map_of};
ghost use Rattle.map_text.specs.MapText.{letter_of, rows_text, canonical};

use fleet_base::{Grid, Memory};
use itoa::Buffer;
use std::alloc::Global;

// The bytes of the longest header.
const HEADER_ROOM: usize = 39;

// A line of the header: a word and a number.
fn push_size(text: &mut Vec<u8>, word: &[u8], size: u32) -> Result<(), Memory>
    ensures { let line = word.now ++ 32 ∷ decimal size in
        OnOk result (text.new.items ≡ text.old.items ++ (line ++ 10 ∷ [])) }
{
    let mut buffer = Buffer::new();
    text.extend_from_slice(word)?;
    text.extend_from_slice(b" ")?;
    text.extend_from_slice(buffer.format(size).as_bytes())?;
    text.extend_from_slice(b"\n")?;
    Ok(())
}

// The line of a row: one letter for each cell.
fn push_row(text: &mut Vec<u8>, row: &[bool]) -> Result<(), Memory>
    ensures { OnOk result (text.new.items ≡ text.old.items ++ (map letter_of row.now ++ 10 ∷ [])) }
{
    for open in row {
        text.push(if *open { b'.' } else { b'@' })?;
    }
    text.push(b'\n')?;
    Ok(())
}

fn push_rows(text: &mut Vec<u8>, cells: &[bool], width: usize, height: u32) -> Result<(), Memory>
    requires { length cells.now ≡ height * width }
    ensures { OnOk result (text.new.items ≡ text.old.items ++ rows_text width height cells.now) }
{
    let mut rest = cells;
    for counter in 0..height {
        let (row, after) = rest.split_at(width);
        push_row(text, row)?;
        rest = after;
    }
    Ok(())
}

/// Writes the canonical text of a grid: `.` for an open cell and `@` for a closed one, each line
/// ended by a line feed, and numbers without leading zeros.
pub fn write_map(alloc: Global, grid: &Grid) -> Result<Vec<u8>, Memory>
    ensures text { IfOk result (λ text. text.items ≡ canonical grid.now) }
    ensures read_again { IfOk result (λ text. map_of (lines_of text.items) ≡ Ok grid.now) }
{
    let width = grid.width();
    let height = grid.height();
    let cells = grid.cells();
    let mut text = Vec::with_capacity(alloc, HEADER_ROOM + cells.len() + height as usize)?;
    text.extend_from_slice(b"type octile\n")?;
    push_size(&mut text, b"height", height)?;
    push_size(&mut text, b"width", width)?;
    text.extend_from_slice(b"map\n")?;
    push_rows(&mut text, cells, width as usize, height)?;
    Ok(text)
}

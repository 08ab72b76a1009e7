ghost use Rattle.std.specs.Prelude.{◌≡◌, IfOk};
ghost use Rattle.fleet_run.specs.Texts.{route_text, answer_text};

use fleet_base::{Grid, Memory, Walk};
use itoa::Buffer;
use journal_lines::push_moves;
use std::alloc::Global;

fn route_text(alloc: Global, grid: &Grid, walk: &Walk) -> Result<Vec<u8>, Memory>
    ensures { IfOk result (λ text. text.items ≡ route_text grid.now walk.now) }
{
    let mut number = Buffer::new();
    let mut text = Vec::from_slice(alloc, b"route ")?;
    text.extend_from_slice(number.format(walk.arrival()).as_bytes())?;
    text.extend_from_slice(b" ")?;
    push_moves(&mut text, grid, walk.cells())?;
    text.extend_from_slice(b"\n")?;
    Ok(text)
}

// The text of the answer of `one`, with the end of its line.
pub fn answer_text(alloc: Global, grid: &Grid, answer: &Option<Walk>) -> Result<Vec<u8>, Memory>
    ensures { IfOk result (λ text. text.items ≡ answer_text grid.now answer.now) }
{
    match answer {
        None => Ok(Vec::from_slice(alloc, b"none\n")?),
        Some(walk) => route_text(alloc, grid, walk),
    }
}

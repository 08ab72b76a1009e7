ghost use Rattle.std.specs.Prelude.{◌≡◌, ◌+◌, ◌<◌, ◌^◌, length, IfErr, IfSome};
ghost use Rattle.text_lines.specs.Lines.{lines_of};
ghost use Rattle.text_lines.specs.Numbered.{numbered_from};
ghost use Rattle.text_lines.specs.Faults.{Gives};
ghost use Rattle.map_text.specs.MapGrammar.{ending, map_of, fault_of, IsOfFirstLines};

use crate::fault::{MapFault, MapKind, fault};
use crate::header::read_header;
use crate::rows::read_rows;
use fleet_base::Grid;
use std::alloc::Global;
use text_lines::next_filled_line;

// That every line after this one is empty.
#[tactic(auto, unfolding(crate::specs::MapGrammar::ending))]
fn check_ending(last: u32, text: &[u8]) -> Result<(), MapFault>
    requires { last + length text.now < 2 ^ 32 }
    ensures { Gives fault_of (λ x. x) result (ending (numbered_from (last + 1) (lines_of text.now))) }
{
    match next_filled_line(last, text) {
        Some(found) => fault(found.number, MapKind::TrailingText),
        None => Ok(()),
    }
}

/// Reads a map.
///
/// The answer is the grid, or `MapFault::At` with the first line that has a fault. Only want of
/// memory may come in place of either.
#[tactic(auto, unfolding(crate::specs::MapGrammar::map_of))]
pub fn read_map(alloc: Global, text: &[u8]) -> Result<Grid, MapFault>
    requires { length text.now < 2 ^ 32 }
    ensures grammar { Gives fault_of (λ grid. grid) result (map_of (lines_of text.now)) }

    // A fault depends on the lines up to its own alone.
    ensures first_lines { IfErr result (λ e.
        IfSome (fault_of e) (λ f. IsOfFirstLines f (lines_of text.now))) }
{
    let header = read_header(text)?;
    let (cells, rest) = read_rows(alloc, header.width, header.height, header.rest)?;
    check_ending(4 + header.height, rest)?;
    Ok(Grid::new(header.width, header.height, cells))
}

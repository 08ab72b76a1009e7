ghost use Rattle.std.specs.Prelude.{◌≡◌, ◌+◌, ◌<◌, ◌≤◌, ◌^◌, length, IfOk, OnOk};
ghost use Rattle.text_lines.specs.Lines.{lines_of};
ghost use Rattle.text_lines.specs.Fields.{fields_of};
ghost use Rattle.text_lines.specs.Numbered.{numbered_from};
ghost use Rattle.text_lines.specs.Faults.{Gives, at};
ghost use Rattle.order_text.specs.OrderGrammar.{next_lanes, orders_of, fault_of};
ghost use Rattle.order_text.specs.Lanes.{AreLanes};
ghost use Rattle.order_text.specs.Marks.{lanes_so_far, IsBuilding, AreLanesSoFar};

use crate::builder::LaneBuilder;
use crate::fault::{OrderFault, fault};
use crate::lane::Lane;
use crate::line::read_line;
use fleet_base::Grid;
use std::alloc::Global;
use text_lines::next_filled_line;

// Reads a line, and puts it to the lanes.
fn take_line(
    builder: &mut LaneBuilder,
    alloc: Global,
    number: u32,
    line: &[u8],
    grid: &Grid,
) -> Result<(), OrderFault>
    requires { IsBuilding builder.old }
    ensures lanes { Gives fault_of (λ done. lanes_so_far builder.new) result
        (at number (next_lanes grid.now (lanes_so_far builder.old) (fields_of line.now))) }
    ensures building { OnOk result (IsBuilding builder.new) }
    ensures right { OnOk result (AreLanesSoFar (length grid.now.cells) (lanes_so_far builder.old)
        → AreLanesSoFar (length grid.now.cells) (lanes_so_far builder.new)) }
{
    match read_line(line, grid) {
        Ok(said) => builder.put(alloc, number, said),
        Err(kind) => fault(number, kind),
    }
}

/// Reads orders: their lanes, those without orders left out.
///
/// The answer is the lanes, or `OrderFault::At` with the first line that has a fault. Only want of
/// memory may come in place of either.
pub fn read_orders(alloc: Global, text: &[u8], grid: &Grid) -> Result<Vec<Lane>, OrderFault>
    requires { length text.now < 2 ^ 32 }
    ensures grammar { Gives fault_of (λ lanes. lanes.items) result (orders_of grid.now (lines_of text.now)) }

    // What one may do with the lanes.
    ensures lanes { IfOk result (λ lanes. AreLanes (length grid.now.cells) lanes.items) }
{
    let mut builder = LaneBuilder::new(alloc);
    let mut last = 0;
    let mut rest = text;
    while let Some(found) = next_filled_line(last, rest) {
        take_line(&mut builder, alloc, found.number, found.line, grid)?;
        last = found.number;
        rest = found.rest;
    }
    builder.finish(alloc)
}

ghost use Rattle.std.specs.Prelude.{◌≡◌, ◌+◌, ◌<◌, ◌≤◌, ◌^◌, length, All, IfSome, IsNone, IfOk, OnOk};
ghost use Rattle.text_lines.specs.Lines.{lines_of};
ghost use Rattle.text_lines.specs.Fields.{fields_of};
ghost use Rattle.text_lines.specs.Numbered.{numbered_from};
ghost use Rattle.text_lines.specs.Faults.{Gives};
ghost use Rattle.scen_text.specs.ScenGrammar.{IsOnGrid, next_row, is_kept, rows_from, is_version, scenario_of, fault_of};

use crate::fault::{ScenFault, ScenKind, fault};
use crate::row::read_row;
use fleet_base::{Grid, Request};
use std::alloc::Global;
use text_lines::{count_lines, next_filled_line, two_fields};

// How many rows there may be where no number to take is given.
const MAX_ROWS: u32 = 32_767;

fn is_version(line: &[u8]) -> bool
    ensures { result ≡ is_version (fields_of line.now) }
{
    match two_fields(line) {
        Some((word, _)) => word == b"version".as_slice(),
        None => false,
    }
}

fn is_kept(take: Option<u32>, index: u32) -> bool
    ensures { result ≡ is_kept take index }
{
    match take {
        Some(count) => index < count,
        None => true,
    }
}

// The request of a row before which `index` stand.
fn next_row(line: &[u8], grid: &Grid, take: Option<u32>, index: u32) -> Result<Request, ScenKind>
    ensures row { result ≡ next_row grid.now take index (fields_of line.now) }
    ensures on_grid { IfOk result (IsOnGrid grid.now) }
    ensures room { OnOk result (IsNone take → index < 32767) }
{
    let request = read_row(line, grid)?;
    if take.is_none() && index >= MAX_ROWS {
        return Err(ScenKind::TooMany);
    }
    Ok(request)
}

// Reads the rows, below the line of the number `before`.
fn read_rows(
    alloc: Global,
    before: u32,
    text: &[u8],
    grid: &Grid,
    take: Option<u32>,
) -> Result<Vec<Request>, ScenFault>
    requires size { before + length text.now < 2 ^ 32 }
    requires few { IfSome take (λ count. count ≤ 32767) }
    ensures rows { Gives fault_of (λ requests. requests.items) result
        (rows_from grid.now take 0 (numbered_from (before + 1) (lines_of text.now))) }
    ensures few { IfOk result (λ requests. length requests.items ≤ 32767) }
    ensures on_grid { IfOk result (λ requests. All (IsOnGrid grid.now) requests.items) }
{
    let mut requests = Vec::new(alloc);
    let mut index = 0;
    let mut last = before;
    let mut rest = text;
    while let Some(found) = next_filled_line(last, rest) {
        let request = match next_row(found.line, grid, take, index) {
            Ok(request) => request,
            Err(kind) => return fault(found.number, kind),
        };
        if is_kept(take, index) {
            requests.push(request)?;
        }
        index += 1;
        last = found.number;
        rest = found.rest;
    }
    Ok(requests)
}

/// Reads a scenario: one request for each row, or for each of the first `take` rows.
///
/// The later rows are checked all the same. The answer is the requests, or `ScenFault::At` with the
/// first line that has a fault. Only want of memory may come in place of either. The line after the
/// last one may be named too, so a text is one byte shorter than the other readers allow.
#[tactic(auto, unfolding(crate::specs::ScenGrammar::scenario_of))]
pub fn read_scen(
    alloc: Global,
    text: &[u8],
    grid: &Grid,
    take: Option<u32>,
) -> Result<Vec<Request>, ScenFault>
    requires size { length text.now + 1 < 2 ^ 32 }
    requires few { IfSome take (λ count. count ≤ 32767) }
    ensures grammar { Gives fault_of (λ requests. requests.items) result
        (scenario_of grid.now take (lines_of text.now)) }

    // What one may do with the requests.
    ensures few { IfOk result (λ requests. length requests.items ≤ 32767) }
    ensures on_grid { IfOk result (λ requests. All (IsOnGrid grid.now) requests.items) }
{
    let Some(first) = next_filled_line(0, text) else {
        return fault(count_lines(text) as u32 + 1, ScenKind::BadVersion);
    };
    if !is_version(first.line) {
        return fault(first.number, ScenKind::BadVersion);
    }
    read_rows(alloc, first.number, first.rest, grid, take)
}

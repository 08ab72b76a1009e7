ghost use Rattle.std.specs.Prelude.{◌≡◌, ◌≢◌, ◌∷◌, [], length, MatchOption, IfOk};
ghost use Rattle.text_lines.specs.Fields.{fields_of};
ghost use Rattle.scen_text.specs.ScenGrammar.{small_field, is_inside, row_of, IsOnGrid};

use crate::fault::ScenKind;
use fleet_base::{Grid, Request};
use text_lines::{next_field, read_small_number};

// The fields of a row. Bucket, map and optimal length aren't read.
#[derive(Clone, Copy)]
pub struct RowFields<'a> {
    pub bucket: &'a [u8],
    pub map: &'a [u8],
    pub map_width: &'a [u8],
    pub map_height: &'a [u8],
    pub start_x: &'a [u8],
    pub start_y: &'a [u8],
    pub goal_x: &'a [u8],
    pub goal_y: &'a [u8],
    pub optimal: &'a [u8],
}

// The fields of a line that has nine and no more.
fn nine_fields(line: &[u8]) -> Option<RowFields<'_>>
    ensures { MatchOption result
        (length (fields_of line.now) ≢ 9)
        (λ r. fields_of line.now ≡ r.bucket.now ∷ r.map.now ∷ r.map_width.now ∷ r.map_height.now
        ∷ r.start_x.now ∷ r.start_y.now ∷ r.goal_x.now ∷ r.goal_y.now ∷ r.optimal.now ∷ []) }
{
    let (bucket, rest) = next_field(line)?;
    let (map, rest) = next_field(rest)?;
    let (map_width, rest) = next_field(rest)?;
    let (map_height, rest) = next_field(rest)?;
    let (start_x, rest) = next_field(rest)?;
    let (start_y, rest) = next_field(rest)?;
    let (goal_x, rest) = next_field(rest)?;
    let (goal_y, rest) = next_field(rest)?;
    let (optimal, rest) = next_field(rest)?;
    match next_field(rest) {
        None => Some(RowFields {
            bucket,
            map,
            map_width,
            map_height,
            start_x,
            start_y,
            goal_x,
            goal_y,
            optimal,
        }),
        Some(_) => None,
    }
}

fn read_small(field: &[u8]) -> Result<u32, ScenKind>
    ensures { result ≡ small_field field.now }
{
    read_small_number(field).ok_or(ScenKind::BadNumber)
}

fn is_inside(grid: &Grid, x: u32, y: u32) -> bool
    ensures { result ≡ is_inside grid.now x y }
{
    x < grid.width() && y < grid.height()
}

/// The request of a row: it departs at time 0, and doesn't stay.
#[tactic(auto, unfolding(crate::specs::ScenGrammar::row_of))]
pub fn read_row(line: &[u8], grid: &Grid) -> Result<Request, ScenKind>
    ensures row { result ≡ row_of grid.now (fields_of line.now) }
    ensures on_grid { IfOk result (IsOnGrid grid.now) }
{
    let Some(row) = nine_fields(line) else {
        return Err(ScenKind::FieldCount);
    };
    let width = read_small(row.map_width)?;
    let height = read_small(row.map_height)?;
    let from_x = read_small(row.start_x)?;
    let from_y = read_small(row.start_y)?;
    let to_x = read_small(row.goal_x)?;
    let to_y = read_small(row.goal_y)?;
    if width != grid.width() || height != grid.height() {
        return Err(ScenKind::SizeDiffers);
    }
    if !is_inside(grid, from_x, from_y) || !is_inside(grid, to_x, to_y) {
        return Err(ScenKind::Outside);
    }
    Ok(Request {
        start: grid.cell_at(from_x, from_y),
        goal: grid.cell_at(to_x, to_y),
        depart: 0,
        stay: false,
    })
}

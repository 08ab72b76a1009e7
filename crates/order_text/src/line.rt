ghost use Rattle.std.specs.Prelude.{◌≡◌, ◌≢◌, ℕ, ◌∷◌, [], length, IfOk, MatchOption};
ghost use Rattle.text_lines.specs.Fields.{fields_of};
ghost use Rattle.order_text.specs.Marks.{IsLineOn};
ghost use Rattle.order_text.specs.OrderGrammar.{small_field, is_inside, plan_of, cancel_of, lane_of, line_of};

use crate::fault::OrderKind;
use crate::order::Order;
use fleet_base::{Grid, Request};
use text_lines::{next_field, only_field, read_small_number};

// What a line says.
#[derive(Clone, Copy)]
pub enum Line {
    // A new lane begins.
    NewLane,
    // One order more, in the present lane.
    Next(Order),
}

// The fields after `plan` and `park`.
#[derive(Clone, Copy)]
pub struct PlanFields<'a> {
    pub start_x: &'a [u8],
    pub start_y: &'a [u8],
    pub goal_x: &'a [u8],
    pub goal_y: &'a [u8],
    pub depart: &'a [u8],
}

// The fields of a line that has five and no more.
fn five_fields(line: &[u8]) -> Option<PlanFields<'_>>
    ensures { MatchOption result
        (length (fields_of line.now) ≢ 5)
        (λ p. fields_of line.now ≡ p.start_x.now ∷ p.start_y.now ∷ p.goal_x.now ∷ p.goal_y.now
        ∷ p.depart.now ∷ []) }
{
    let (start_x, rest) = next_field(line)?;
    let (start_y, rest) = next_field(rest)?;
    let (goal_x, rest) = next_field(rest)?;
    let (goal_y, rest) = next_field(rest)?;
    let (depart, rest) = next_field(rest)?;
    match next_field(rest) {
        None => Some(PlanFields {
            start_x,
            start_y,
            goal_x,
            goal_y,
            depart,
        }),
        Some(_) => None,
    }
}

fn read_small(field: &[u8]) -> Result<u32, OrderKind>
    ensures { result ≡ small_field field.now }
{
    read_small_number(field).ok_or(OrderKind::BadNumber)
}

fn is_inside(grid: &Grid, x: u32, y: u32) -> bool
    ensures { result ≡ is_inside grid.now x y }
{
    x < grid.width() && y < grid.height()
}

// What stands after `plan`, or after `park`, whose request stays.
#[tactic(auto, unfolding(crate::specs::OrderGrammar::plan_of))]
fn read_plan(rest: &[u8], grid: &Grid, stay: bool) -> Result<Line, OrderKind>
    ensures said { result ≡ plan_of grid.now stay (fields_of rest.now) }
    ensures on_grid { IfOk result (IsLineOn (length grid.now.cells)) }
{
    let Some(plan) = five_fields(rest) else {
        return Err(OrderKind::FieldCount);
    };
    let from_x = read_small(plan.start_x)?;
    let from_y = read_small(plan.start_y)?;
    let to_x = read_small(plan.goal_x)?;
    let to_y = read_small(plan.goal_y)?;
    let depart = read_small(plan.depart)?;
    if !is_inside(grid, from_x, from_y) || !is_inside(grid, to_x, to_y) {
        return Err(OrderKind::Outside);
    }
    let request = Request {
        start: grid.cell_at(from_x, from_y),
        goal: grid.cell_at(to_x, to_y),
        depart,
        stay,
    };
    Ok(Line::Next(Order::Plan { request }))
}

// What stands after `cancel`.
#[tactic(auto, unfolding(crate::specs::OrderGrammar::cancel_of))]
fn read_cancel(rest: &[u8]) -> Result<Line, OrderKind>
    ensures said { result ≡ cancel_of (fields_of rest.now) }
    ensures on_grid { IfOk result (λ line. (cells : ℕ) → IsLineOn cells line) }
{
    let Some(field) = only_field(rest) else {
        return Err(OrderKind::FieldCount);
    };
    let target = read_small(field)?;
    Ok(Line::Next(Order::Cancel { target }))
}

// What stands after `lane`: nothing.
#[tactic(auto, unfolding(crate::specs::OrderGrammar::lane_of))]
fn read_lane(rest: &[u8]) -> Result<Line, OrderKind>
    ensures said { result ≡ lane_of (fields_of rest.now) }
    ensures on_grid { IfOk result (λ line. (cells : ℕ) → IsLineOn cells line) }
{
    match next_field(rest) {
        None => Ok(Line::NewLane),
        Some(_) => Err(OrderKind::FieldCount),
    }
}

/// What a line says by itself, before it is put to the lanes.
#[tactic(auto, unfolding(crate::specs::OrderGrammar::line_of))]
pub fn read_line(line: &[u8], grid: &Grid) -> Result<Line, OrderKind>
    ensures said { result ≡ line_of grid.now (fields_of line.now) }
    ensures on_grid { IfOk result (IsLineOn (length grid.now.cells)) }
{
    let Some((word, rest)) = next_field(line) else {
        return Err(OrderKind::BadWord);
    };
    if word == b"lane".as_slice() {
        read_lane(rest)
    } else if word == b"plan".as_slice() {
        read_plan(rest, grid, false)
    } else if word == b"park".as_slice() {
        read_plan(rest, grid, true)
    } else if word == b"cancel".as_slice() {
        read_cancel(rest)
    } else {
        Err(OrderKind::BadWord)
    }
}

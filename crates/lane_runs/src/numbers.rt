ghost use Rattle.std.specs.Prelude.{◌≡◌, ◌<◌, ◌≤◌, length, Some, slice_get};
ghost use Rattle.order_text.specs.Lanes.{all_orders, AreNumberedFrom};
ghost use Rattle.lane_runs.specs.Numbering.{HasNumber};

use order_text::{Lane, Order};

/// How many orders the lanes have.
pub fn count_orders(lanes: &[Lane]) -> usize
    requires numbered { AreNumberedFrom 0 lanes.now }
    ensures { result ≡ length (all_orders lanes.now) }
{
    match lanes.last() {
        None => 0,
        Some(lane) => lane.first as usize + lane.orders.as_slice().len(),
    }
}

// The lane that has the order of that number, by binary search.
fn lane_with(lanes: &[Lane], number: u32) -> &Lane
    requires numbered { AreNumberedFrom 0 lanes.now }
    requires within { number < length (all_orders lanes.now) }
    ensures { HasNumber result.now (all_orders lanes.now) number }
{
    let place = lanes.partition_point(|lane| lane.first <= number);
    &lanes[place - 1]
}

/// The order of that number, found by binary search among the lanes.
pub fn order_at(lanes: &[Lane], number: u32) -> Order
    requires numbered { AreNumberedFrom 0 lanes.now }
    requires within { number < length (all_orders lanes.now) }
    ensures { slice_get (all_orders lanes.now) number ≡ Some result }
{
    let lane = lane_with(lanes, number);
    lane.orders.as_slice()[(number - lane.first) as usize]
}

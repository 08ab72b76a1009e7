// The reader of orders: lanes of plans, parks and cancels.
//
// The contract: `read_orders` gives what the grammar `orders_of` gives of the lines of its text, the
// lanes or the first fault; `lanes_of` gives a lane with one plan for each request. `order` and
// `lane` have the types, `fault` the faults, `line` one line,
// `builder` the lanes that were read so far, `reading` the whole text.
#![tactic(auto)]

mod builder;
mod fault;
mod lane;
mod line;
mod order;
mod reading;
#[cfg(test)]
mod tests;

pub use fault::{OrderFault, OrderKind};
pub use lane::{Lane, Orders, lanes_of};
pub use order::Order;
pub use reading::read_orders;

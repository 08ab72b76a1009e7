// What becomes of the orders of lanes: the answer to each order, and what a run over lanes is.
//
// The definitions, in `specs/`: an answer fits its order (`Answers`), a run answers each order once and keeps the lanes
// (`Runs`). Its contracts: `count_orders` and `order_at` find orders by their numbers.
// `answer` has the answers, `lists` lists of them, `numbers` the orders by their numbers.
#![tactic(auto)]

mod answer;
mod lists;
mod numbers;

pub use answer::{Answer, Left};
pub use lists::{Answers, LeftList};
pub use numbers::{count_orders, order_at};

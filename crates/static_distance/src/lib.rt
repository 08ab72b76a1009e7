// The static distances to a goal: for each cell the least number of moves over open cells from it to the goal.
// The contract: `Distances` tells exactly this number (`IsDistance`), and none where no way leads to the goal.
// `distances` counts them from the goal on as far as they are asked for, level by level and 64 cells of a row at once;
// `span` has such 64 cells, `waiting` the cells that wait to be counted, `marking` the moves of those that are, or `layers`
// their levels where there are many cells, and `place` columns and rows.
#![tactic(auto)]

mod distances;
mod layers;
mod marking;
mod place;
mod span;
#[cfg(test)]
mod tests;
mod waiting;

pub use distances::Distances;
pub use place::{Place, beside, moves_between, neighbour_at, place_of};

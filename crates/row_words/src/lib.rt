// 64 cells of a row side by side in a word, one bit a cell; place 0 is the lowest bit.
// The contract, over single places (`IsSet`): each function says which places its word has, and those of `filled` are exactly the places that
// a flow reaches from the seeds over free places, up and down the row as two masks let it.
// `places` has the words and their places, `flow` the flow.
#![tactic(auto)]

mod flow;
mod places;
#[cfg(test)]
mod tests;

pub use flow::filled;
pub use places::{
    below, both, either, is_set, lowered, lowest, open_places, raised, single, without,
};

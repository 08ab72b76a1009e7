// A grid and requests that are made from one number, always the same.
//
// Its one contract: `generate` gives the grid and the requests of the definitions in `specs/Making`.
// `draws` has the generator of numbers, `making` the call.
#![tactic(auto)]

mod draws;
mod making;

pub use making::generate;

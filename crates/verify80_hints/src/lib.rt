//! Hints for the analysis: in which order points are visited, and which words of frames returns ask for.
//!
//! Proved: nothing rests on it.
//!
//! | Item | What it is |
//! |---|---|
//! | [`AskedPlaces`] | for each point the words and pairs whose word a return may use as its address |
//! | [`find_steps`], [`Step`] | the steps of a walk to a return with another word |
//! | [`Pending`] | the points that wait to be visited, in the best order |
//! | [`Callers`] | the points that wait for a callee's return |
#![tactic(auto)]

mod asked;
mod asks;
mod callers;
mod cases;
mod hubs;
mod lists;
mod marks;
mod order;
mod pending;
mod place_sets;
mod places;
mod point;
mod search;
mod step;
mod writes;

pub use asked::AskedPlaces;
pub use callers::Callers;
pub use pending::Pending;
pub use search::find_steps;
pub use step::Step;

//! Walks of a program, followed one by one: the points that they reach, and the ways to them.
//!
//! Proved: points that come from earlier ones, as their origins say, are reached by walks ([`are_reached`]), and the calls and the way of a
//! route lead to its point ([`route_to`]). What a look at one point finds, and that calls lead on, are steps for the crate above. Nothing
//! rests on the search.
//!
//! | Item | What it is |
//! |---|---|
//! | [`Search`], [`Origin`], [`CallingPoint`] | the points that walks reach, breadth first, no frames merged, and where each comes from |
//! | [`points_weight`] | what points weigh, by which a search is limited |
//! | [`are_reached`] | whether each point comes from earlier ones |
//! | [`route_to`], [`Route`], [`Call`], [`Point`] | how a point is reached: the calls that lead to its procedure, and the way through it |
//! | [`callers_of`], [`calls_between`] | the points whose calls lead to a point's procedure; whether calls lead from one procedure to another |
//! | [`look_at`], [`Looked`], [`call_at`], [`Called`], [`words_taken`] | what the instruction at a point does |
//! | [`is_within`], [`room`] | whether a frame is followed further; how many of its words a callee may take |
//! | [`Groups`] | numbers by their keys |
//! | [`Unexplained`] | why a search or a check gives up |
#![tactic(auto)]

mod fault;
mod groups;
mod looked;
mod point;
mod reached;
mod route;
mod search;
mod ways;

pub use fault::Unexplained;
pub use groups::Groups;
pub use looked::{Called, Looked, call_at, is_within, look_at, room, words_taken};
pub use point::Point;
pub use reached::are_reached;
pub use route::{Call, Route};
pub use search::{CallingPoint, Origin, Search, points_weight};
pub use ways::{callers_of, calls_between, route_to};

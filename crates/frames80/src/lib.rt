//! What an instruction does to a procedure's stack frame, and a program as the verifier sees it.
//!
//! Proved: the written tables; laws of how frames move; a number for each point.
//!
//! | Item | What it is |
//! |---|---|
//! | [`Frame`], [`Word`] | what is known of a procedure's words and register pairs at a point |
//! | [`Procedure`] | the main program, or one that a call reaches |
//! | [`table`], [`slot`], [`SLOTS`] | a table with a place for each procedure |
//! | [`Role`] | the main program, or a procedure that is called |
//! | [`next`], [`Moves`] | the frame after an instruction, and where the procedure goes on |
//! | [`effect_of`], [`Effect`], [`Change`] | the kinds of effect, and the table of instructions |
//! | [`Holding`] | what the checks of pops and returns need to know of a frame's words, and their faults |
//! | [`after`] | the caller's frame when its callee has returned |
//! | [`meet`] | two frames at one point |
//! | [`depth`], [`depth_by`] | by how many bytes the stack has grown, from a frame or from its counts |
//! | [`places_move`], [`counts_decide`], [`covered_goes_along`], [`equality_is_exact`] | what holds of all frames, as contracts |
//! | [`Code`], [`LookFault`] | the program: the instruction at each address, the start and the stack |
//! | [`MOST_POINTS`], [`MOST_WORDS`] | how far a program is followed |
//! | [`role_of`] | the role of one of its procedures: the main program or an entry |
//! | [`PointNumbers`] | a number for each address of each procedure |
//! | [`numbers_are_of_addresses`] | a number is kept only of an address of memory, as a contract |
#![tactic(auto)]

mod call;
mod code;
mod effect;
mod effect_table;
mod fault;
mod frame;
mod frame_pair;
mod height;
mod holding;
mod laws;
mod limits;
mod merge;
mod moves;
mod point_numbers;
mod procedure;
mod role;
mod tables;
mod word;

pub use call::after;
pub use code::{Code, LookFault, role_of};
pub use effect::{Change, Effect};
pub use effect_table::effect_of;
pub use fault::{CallFault, FrameFault, HeightsDiffer};
pub use frame::Frame;
pub use frame_pair::FramePair;
pub use height::{depth, depth_by};
pub use holding::Holding;
pub use laws::{counts_decide, covered_goes_along, equality_is_exact, places_move};
pub use limits::{MOST_POINTS, MOST_WORDS};
pub use merge::meet;
pub use moves::{Moves, next};
pub use point_numbers::{PointNumbers, numbers_are_of_addresses};
pub use procedure::{Procedure, SLOTS, slot};
pub use role::Role;
pub use tables::table;
pub use word::Word;

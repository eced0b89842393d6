//! Frames of the verifier by number: each distinct frame is kept once, and frames share the words that they have in common. What
//! becomes of a frame at an instruction, a call or a join is what `frames80` says of it; it takes the time of the words that
//! change.
//!
//! Proved: what becomes of a number is what the tables say of its frame.
//!
//! | Item | What it is |
//! |---|---|
//! | [`Frames`] | the frames by number, and their changes, calls and meetings |
//! | [`FrameId`] | the number of a frame |
//! | [`Asked`] | which of a frame's words and pairs may still matter to a return |
//! | [`MeetFault`] | why two frames can't be merged |
#![tactic(auto)]

mod changes;
mod fault;
mod forgetting;
mod frame_id;
mod frames;
mod holding;
mod interned_frame;
mod link;
mod meets;
mod own_counts;
mod pair;
mod stacks;

pub use fault::MeetFault;
pub use forgetting::Asked;
pub use frame_id::FrameId;
pub use frames::Frames;

//! The verifier: whether an image may run, and why not; and the promise, from tables of frames to runs.
//!
//! Proved: the analysis of an image; if a table fits, no run goes wrong, from power-on too; exactly the addresses that walks reach.
//!
//! | Item | What it is |
//! |---|---|
//! | [`verify`] | a report on an image, or why it is refused |
//! | [`verify_and_keep`], [`Verified`] | a report with the points that walks reach, the image's memory and the map of its regions |
//! | [`measure`] | a report on an image, however small its stack is |
//! | [`Report`], [`ProcRow`], [`ProgramPoint`] | what is found of an image that is accepted |
//! | [`Refusal`] | why an image is refused |
//! | [`vouch`], [`Vouched`] | an image that is accepted, with what is known of it |
//! | [`find_reached`], [`Reached`] | the instruction at each address that a walk reaches |
//! | [`ImageCode`] | an image as the verifier reads it, address by address |
//! | [`looks_are_exact`] | when the analysis finds an instruction at an address, and when which fault, as a contract |
//! | [`fitted_images_never_go_wrong`] | if a table of frames fits an image, no run of it goes wrong, as a contract |
//! | [`images_never_go_wrong_from_power_on`], [`runs_begin_from_power_on`] | the promise for runs from power-on, as contracts |
//! | [`accepted_images_stay_on_walks`] | each run of an accepted image stays on its walks, as a contract |
//! | [`promise_is_kept_on_boards`], [`walks_are_kept_on_boards`] | both on every board, unguarded and among devices, as contracts |
#![tactic(auto)]

mod image_code;
mod laws;
mod promise;
mod reached;
mod verifying;
mod vouched;

pub use image_code::ImageCode;
pub use laws::looks_are_exact;
pub use promise::{
    accepted_images_stay_on_walks, fitted_images_never_go_wrong,
    images_never_go_wrong_from_power_on, promise_is_kept_on_boards, runs_begin_from_power_on,
    walks_are_kept_on_boards,
};
pub use reached::{Reached, find_reached};
pub use verify80_flow::{ProcRow, ProgramPoint, Refusal, Report};
pub use verifying::{Verified, measure, verify, verify_and_keep};
pub use vouched::{Vouched, vouch};

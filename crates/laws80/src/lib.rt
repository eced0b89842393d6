//! Laws over several stages, and no calls: LINK and then LOCATE, migrated regions.
//!
//! Proved: both in one call do the same; a session says the same of a regions text and of its migration.
//!
//! | Item | What it is |
//! |---|---|
//! | [`build`], [`Built`], [`BuildFault`] | modules, and what they need of libraries, linked and located; why they can't be |
//! | [`migrated_texts_say_the_same`] | a session says the same of a regions text and of its migration |
#![tactic(auto)]

mod building;
mod fault;
mod migrated;

pub use building::{Built, build};
pub use fault::BuildFault;
pub use migrated::migrated_texts_say_the_same;

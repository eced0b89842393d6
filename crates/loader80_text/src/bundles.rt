//! A bundle: one input with an image, regions and inputs, and the transcript of its run.
//!
//! | Item | What it is |
//! |---|---|
//! | [`bundle`] | one input to the transcript of a run |
//! | [`BUNDLE_LIMIT`] | the greatest number of bytes of a bundle |
//! | [`BundleFault`] | why a bundle has no outcome |
//! | [`laws`] | what holds of the definitions alone |

mod bundle_text;
mod bundling;
mod fault;
pub mod laws;

pub use bundling::{BUNDLE_LIMIT, bundle};
pub use fault::BundleFault;

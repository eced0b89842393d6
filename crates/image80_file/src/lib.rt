//! Images as object files: a located program is written as one absolute module, and read from it.
//!
//! Proved: read exactly if the bytes spell one, or the first fault; written and read back the same.
//!
//! | Item | What it is |
//! |---|---|
//! | [`write_image`], [`read_image`] | an image as an object file |
//! | [`image_module`] | the module that an image is written as, with publics |
//! | [`ImageFault`] | why bytes are no image |
//! | [`laws`] | what holds of the definitions alone |
#![tactic(auto)]

mod absolute;
mod image_fault;
mod image_file;
pub mod laws;

pub use image_fault::ImageFault;
pub use image_file::{image_module, read_image, write_image};

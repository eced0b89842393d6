//! The addresses at which modules lie in a dump, by LOCATE's own definition of the bytes that their contents define.

mod laws;
mod module_pattern;

pub use laws::link_of_found_modules_has_the_bytes;
pub(crate) use module_pattern::ModulePattern;

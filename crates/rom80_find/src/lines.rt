//! The lines about modules in a dump. `specs/Lines.antt` defines the lines, and `specs/Found.antt` which of them there are.

mod finding;
mod members;
mod modules;
mod place;
mod places;

pub use members::append_members;
pub use modules::append_modules;

//! Why a link takes modules from its libraries: for each a name that is needed, and a module that needs it, the nearest to the roots.
//! Reasons are defined in `specs/Reasons.antt`; that the nearest is found is tested.

mod checked;
mod linked;
mod reason_lines;
mod search;

pub use reason_lines::append_reasons;

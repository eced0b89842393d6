//! Advice on the CASE lines of an image: for each PCHL that no line names yet, the targets that its table gives.
//!
//! Proved: targets are entries of a table at an LXI's address, which ends no earlier than it has to; each PCHL has its note.
//!
//! | Item | What it is |
//! |---|---|
//! | [`suggest_cases`] | the cases that the tables of an image suggest |
//! | [`Suggestions`] | these cases, and the PCHLs for which no table is seen |
//! | [`Search`], [`SuggestedCase`] | an image that was gone through, and the case of one PCHL |
//! | [`Note`] | why the case of a PCHL is uncertain, or why it has none |
//! | [`TableKind`], [`KeyOrder`] | what a table consists of |
//! | [`regions_with_cases`] | the text of regions to which cases are added |
//! | [`find_reachable`] | the addresses that a program may reach, along the cases of its regions |
//! | [`find_covered`] | the bytes of the instructions there |
//! | [`laws`] | laws of the definitions, as contracts |
#![tactic(auto)]

mod adding;
mod before;
mod bound;
mod chain;
mod changes;
mod covered;
mod key_trail;
mod keys;
pub mod laws;
mod leading;
mod leads;
mod lookup;
mod marks;
mod reach;
mod reading;
mod returning;
mod search;
mod suggesting;
mod table;
mod trail;

pub use adding::regions_with_cases;
pub use covered::find_covered;
pub use reach::find_reachable;
pub use search::{Note, Search, SuggestedCase};
pub use suggesting::{Suggestions, suggest_cases};
pub use table::{KeyOrder, TableKind};

//! Where the register-indirect stores of a program may go, in all of its runs.
//!
//! Proved: each store that isn't listed goes to data, each listed one to its span.
//!
//! | Item | What it is |
//! |---|---|
//! | [`find_stores`] | goes over a vouched image, and answers which of its stores may leave data |
//! | [`Stores`], [`OpenStore`] | what is found |
//! | [`stores_text`] | the same, as it is printed |
//! | [`Kind`], [`addresses_of_kind`], [`is_kind_at`], [`pointer_span`], [`is_target`], [`find_data_ends`], [`is_all_data`] | what is asked of stores and jumps by pairs, of any table of states |
//! | [`first_outside_data`] | the first address of a range that is no data, so that it can't be quiet as a whole |
//! | [`find_causes`], [`Cause`], [`Pointer`], [`Setter`], [`Reason`] | what sets the pairs of stores and jumps that are listed, and why nothing is known of them: advice |
//! | [`SearchNotes`] | what the search for states noted, for that advice |
//! | [`watched_runs_go_as_listed`] | what is found holds of the runs of the watched machine, as a contract |
//! | [`Span`] | the words from a first to a last one |
//! | [`bytes_stay_bytes`] | a machine's registers and memory hold bytes, as a contract |
#![tactic(auto)]

mod causes;
mod data_ends;
mod finding;
mod laws;
mod lines;
mod listing;
mod loops;
mod reasons;
mod setters;
mod showing;
mod stack_pointer;
mod stores;
mod ways;

pub use causes::{Cause, Pointer, Setter, find_causes};
pub use data_ends::{find_data_ends, is_all_data};
pub use finding::find_stores;
pub use laws::watched_runs_go_as_listed;
pub use lines::stores_text;
pub use listing::{Kind, addresses_of_kind, is_kind_at, is_target, pointer_span};
pub use reasons::Reason;
pub use stores::{OpenStore, Stores};
pub use verify80_proposals::SearchNotes;
pub use verify80_states::{Span, bytes_stay_bytes, first_outside_data};

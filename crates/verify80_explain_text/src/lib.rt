//! Texts of explanations: ways, calls and chains line by line, and what stands below a refusal or a report.
//!
//! Proved: the lines of each text, and that what is printed below a refusal or a report is shown.
//!
//! | Item | What it is |
//! |---|---|
//! | [`explanation_text`], [`chain_text`] | the text of the ways and the calls that show a refusal, and of a chain |
//! | [`append_conditions`], [`append_reach_conditions`] | the conditions on which a refusal is reached, and all that walks reach |
//! | [`append_explanation`], [`append_chain`] | these below a refusal or a report, or that there is too much to show |
//! | [`reach_text`], [`reach_graph`] | where walks stand, as lines and as a graph |
//! | [`ways_are_shown_in_runs`] | what the runs of a way are, as a contract |
#![tactic(auto)]

mod calls;
mod chain;
mod conditions;
mod digraph;
mod explanation;
mod frame;
mod instruction;
mod laws;
mod printed;
mod reach;
mod way;

pub use chain::chain_text;
pub use conditions::{append_conditions, append_reach_conditions};
pub use digraph::reach_graph;
pub use explanation::explanation_text;
pub use laws::ways_are_shown_in_runs;
pub use printed::{append_chain, append_explanation};
pub use reach::reach_text;

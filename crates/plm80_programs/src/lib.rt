//! The commands that show what is known of a located program.
//!
//! Proved: what each prints of an image, its regions and its options, and the status.
//!
//! | Item | What it is |
//! |---|---|
//! | [`list_files`] | `list`: its instructions |
//! | [`check_files`] | `check`: the verifier's report, or its refusal |
//! | [`explain_files`] | `explain`: why it is refused, shown by ways through its procedures |
//! | [`show_calls`] | `calls`: which procedure calls which, and how deep |
//! | [`report_files`] | `report`: a page of what is known of it, for a browser |
//! | [`list_stores`] | `stores`: its stores that may leave data, and its jumps by PCHL |
//! | [`follow_files`] | `follow`: how its program is followed with its whole stack, or where that stops |
#![tactic(auto)]

mod all_refusals;
mod calls;
mod check;
mod explain;
mod finding;
mod follow;
mod followed;
mod list;
mod printing;
mod reached;
mod report;
mod stops;
mod stores;

pub use calls::{CALLS, CallsArguments, show_calls};
pub use check::{CHECK, CheckArguments, check_files};
pub use explain::{EXPLAIN, ExplainArguments, explain_files};
pub use follow::{FOLLOW, FollowArguments, follow_files};
pub use list::{LIST, ListArguments, list_files};
pub use report::{REPORT, ReportArguments, report_files};
pub use stores::{STORES, StoresArguments, list_stores};

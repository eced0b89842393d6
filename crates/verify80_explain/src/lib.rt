//! Explanations: why a program is refused, shown by ways through its procedures that lead to the fault.
//!
//! Proved: what is shown is there, and a reached point has a refusal exactly if its instruction may not be executed.
//!
//! Nothing rests on the search of `verify80_walks`: before points show something it is checked that each comes from earlier ones, that the
//! calls and the ways lead to them, and that the fault is there. That an explanation is found is tested, not proved.
//!
//! | Item | What it is |
//! |---|---|
//! | [`explain`] | the ways that show a refusal |
//! | [`explain_all`], [`ShownRefusals`], [`ShownRefusal`] | all refusals of points, each with its way |
//! | [`FurtherRefusals`], [`Conditions`] | refusals behind these, and what is taken for granted to reach them |
//! | [`reach_all`], [`Reach`], [`ReachedPoint`], [`refusals_of`] | where walks stand if what is refused doesn't stop them |
//! | [`measure`], [`ProcRow`] | the procedures of an image whose stack is too small |
//! | [`find_chain`], [`Chain`], [`CallSite`], [`Standing`] | the calls whose bytes on the stack add up to the bound |
//! | [`Explanation`], [`Route`], [`Call`], [`Point`] | what shows a refusal: the ways, the calls that lead to them, and their points |
//! | [`Unexplained`] | why there is no explanation |
//! | [`what_is_shown_holds`], [`chains_are_uses`] | what an explanation shows holds of the program, and a chain uses the stack, as contracts |
#![tactic(auto)]

mod chain;
mod checking;
mod conditions;
mod evidence;
mod explaining;
mod explaining_all;
mod explanation;
mod finding;
mod further;
mod laws;
mod links;
mod place;
mod reaching;
mod ring;
mod sought;

pub use chain::{Chain, Standing, find_chain};
pub use conditions::Conditions;
pub use explaining::explain;
pub use explaining_all::{FurtherRefusals, ShownRefusal, ShownRefusals, explain_all};
pub use explanation::Explanation;
pub use frames80::{Frame, Word};
pub use laws::{chains_are_uses, what_is_shown_holds};
pub use reaching::{Reach, ReachedPoint, reach_all, refusals_of};
pub use verify80::measure;
pub use verify80_bounds::CallSite;
pub use verify80_flow::{ProcRow, Procedure, Refusal, Report};
pub use verify80_walks::{Call, Point, Route, Unexplained};

//! The verifier's analysis: every walk of every procedure of a program, over any code.
//!
//! Proved: reports exactly if nothing is wrong; refuses only for what is there.
//!
//! | Item | What it is |
//! |---|---|
//! | [`analyze`] | the whole analysis of a program |
//! | [`measure`] | the whole analysis, however small the stack is |
//! | [`Procedure`] | the main program, or one that a call reaches |
//! | [`Refusal`] | why a program is refused |
//! | [`fitting_tables_cover_walks`] | if a table of frames fits, no walk is at a fault, as a contract |
//! | [`Report`], [`ProcRow`] | what is found of a program that is accepted |
//! | [`Analysis`], [`ProgramPoint`] | a report with the points that walks reach |
#![tactic(auto)]

mod analysis;
mod fill;
mod fitting;
mod laws;
mod points;
mod program_points;
mod refusal;
mod report;
mod rows;
mod site;
mod stack;
mod survey;
mod table;
mod walks;
mod wants;

pub use analysis::{analyze, measure};
pub use fitting::fitting_tables_cover_walks;
pub use frames80::Procedure;
pub use refusal::Refusal;
pub use report::{Analysis, ProcRow, ProgramPoint, Report};

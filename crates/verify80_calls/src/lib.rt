//! The calls that a program's walks reach, as lines and as a graph.
//!
//! Proved: exactly those of walks, with their depths; each procedure with its bound and its calls; what a bound is made of.
//!
//! | Item | What it is |
//! |---|---|
//! | [`find_calls`] | the calls of a procedure, with its depth at each |
//! | [`Call`] | a call: where it stands, how deep the stack is there, and what it calls |
//! | [`Procedure`] | the main program, or one that a call reaches |
//! | [`CallGraph`], [`Node`] | the procedures of a program, each with its bound and its calls |
//! | [`list_text`], [`append_node_line`] | a line for each procedure, and one for each of its calls |
//! | [`longest_chain`], [`Link`], [`chain_text`] | the calls that add up to the main program's bound, and their lines |
//! | [`graph_text`] | the procedures and their calls as a graph for Graphviz |
//! | [`append_id`], [`append_escaped_name`] | the words of another graph |
//! | [`bounds_are_made_of_chains`] | the bytes of the calls that are bold in a graph add up to the bound, as a contract |
#![tactic(auto)]

mod calls;
mod graph;
mod points;

pub use calls::{Call, find_calls};
pub use graph::{
    CallGraph, Link, Node, append_escaped_name, append_id, append_node_line,
    bounds_are_made_of_chains, chain_text, graph_text, list_text, longest_chain,
};
pub use verify80_flow::Procedure;

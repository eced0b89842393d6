//! The calls of a vouched image as a graph, and what `calls` prints of it.
//!
//! | Item | What it is |
//! |---|---|
//! | [`CallGraph`], [`Node`] | the procedures of a program, each with its bound and its calls |
//! | [`list_text`], [`append_node_line`] | a line for each procedure, and one for each of its calls |
//! | [`longest_chain`], [`Link`], [`chain_text`] | the calls that add up to the main program's bound, and their lines |
//! | [`graph_text`] | the procedures and their calls as a graph for Graphviz |
//! | [`append_id`], [`append_escaped_name`] | the words of another graph |
//! | [`bounds_are_made_of_chains`] | the bytes of the calls that are bold in a graph add up to the bound, as a contract |

mod call_graph;
mod chain;
mod digraph;
mod laws;
mod lines;
mod needs;
mod words;

pub use call_graph::{CallGraph, Node};
pub use chain::{Link, longest_chain};
pub use digraph::{append_escaped_name, append_id, graph_text};
pub use laws::bounds_are_made_of_chains;
pub use lines::{append_node_line, chain_text, list_text};

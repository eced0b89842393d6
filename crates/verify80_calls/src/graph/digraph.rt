//! The calls of a program as a graph for Graphviz.

ghost use Rattle.std.specs.Prelude.{◌≡◌, ◌++◌, IfOk, OnOk};
ghost use Rattle.std.specs.List.{flat_map};
ghost use Rattle.verify80_calls.specs.Chain.{chain_of};
ghost use Rattle.verify80_calls.specs.GraphText.{box_line, edge_end, edge_label, edge_line, edges, entry_id, escaped, escaped_name, graph_text, label_begin, node_id};

use crate::graph::call_graph::{CallGraph, Node};
use crate::graph::chain::MarkedChain;
use crate::graph::needs::IndexedNodes;
use crate::graph::words::{append_address, append_bound, node_word};
use crate::{Call, Procedure};
use image80::Image;
use image80_text::{PublicTable, append_name};
use std::alloc::{AllocError, Global};

/// The procedures of a program as a graph for Graphviz: a box for each, with its address, its name and its bound, and an edge for
/// each call, with its address and the bytes that the procedure has on the stack there. In bold are the calls of which the main
/// program's bound is made: from the main program on, of each procedure the first whose depth and needs add up to its bound.
///
/// # Errors
/// `AllocError` only if memory runs out.
pub fn graph_text(
    alloc: Global,
    image: &Image,
    publics: &PublicTable,
    graph: &CallGraph,
) -> Result<Vec<u8>, AllocError>
    ensures { IfOk result (λ text. text.items ≡ graph_text image.now publics.now graph.now) }
{
    let nodes = graph.nodes();
    let chain = chain_of(alloc, nodes)?;
    let mut text = Vec::new(alloc);
    text.extend_from_slice(b"digraph calls {\n    node [shape=box];\n".as_slice())?;
    append_boxes(alloc, &mut text, image, publics, nodes)?;
    append_edges(alloc, &mut text, &chain, nodes)?;
    text.extend_from_slice(b"}\n".as_slice())?;
    Ok(text)
}

/// The chain of calls that adds up to the main program's bound. `AllocError` if memory runs out.
fn chain_of(alloc: Global, nodes: &[Node]) -> Result<MarkedChain, AllocError>
    ensures { IfOk result (λ chain. chain ≡ chain_of nodes.now) }
{
    let indexed = IndexedNodes::of(alloc, nodes)?;
    MarkedChain::of(alloc, &indexed)
}

/// Appends the box of each procedure.
fn append_boxes(
    alloc: Global,
    text: &mut Vec<u8>,
    image: &Image,
    publics: &PublicTable,
    nodes: &[Node],
) -> Result<(), AllocError>
    ensures { OnOk result (text.new.items ≡ text.old.items ++ flat_map (box_line image.now publics.now) nodes.now) }
{
    for node in nodes {
        append_box(alloc, text, image, publics, node)?;
    }
    Ok(())
}

/// Appends the box of a procedure.
fn append_box(
    alloc: Global,
    text: &mut Vec<u8>,
    image: &Image,
    publics: &PublicTable,
    node: &Node,
) -> Result<(), AllocError>
    ensures { OnOk result (text.new.items ≡ text.old.items ++ box_line image.now publics.now node.now) }
{
    append_id(text, node.procedure)?;
    append_label(text, node)?;
    append_escaped_name(alloc, text, image, publics, node.address)?;
    append_bound(alloc, text, b"\\n".as_slice(), node.bound)?;
    text.extend_from_slice(b"\"];\n".as_slice())
}

/// Appends the name of a procedure's box: its entry or `MAIN`, in quotes.
///
/// # Errors
/// `AllocError` if memory runs out.
pub fn append_id(text: &mut Vec<u8>, procedure: Procedure) -> Result<(), AllocError>
    ensures { OnOk result (text.new.items ≡ text.old.items ++ node_id procedure) }
{
    match procedure {
        Procedure::Main => text.extend_from_slice(b"    \"MAIN\"".as_slice()),
        Procedure::Entry(entry) => append_entry(text, entry),
    }
}

/// Appends the name of an entry's box: the entry in quotes.
fn append_entry(text: &mut Vec<u8>, entry: u16) -> Result<(), AllocError>
    ensures { OnOk result (text.new.items ≡ text.old.items ++ entry_id entry) }
{
    append_address(text, b"    \"".as_slice(), entry)?;
    text.push(b'"')?;
    Ok(())
}

/// Appends the beginning of the label of a procedure's box, with the procedure's address.
fn append_label(text: &mut Vec<u8>, node: &Node) -> Result<(), AllocError>
    ensures { OnOk result (text.new.items ≡ text.old.items ++ label_begin node.now) }
{
    text.extend_from_slice(b" [label=\"".as_slice())?;
    append_address(
        text,
        node_word(node.procedure, b"".as_slice()),
        node.address,
    )
}

/// Appends the name of an address, escaped for a label; nothing if the publics have none.
///
/// # Errors
/// `AllocError` if memory runs out.
pub fn append_escaped_name(
    alloc: Global,
    text: &mut Vec<u8>,
    image: &Image,
    publics: &PublicTable,
    address: u16,
) -> Result<(), AllocError>
    ensures { OnOk result (text.new.items ≡ text.old.items ++ escaped_name image.now publics.now address) }
{
    let mut name = Vec::new(alloc);
    append_name(alloc, publics, image.regions.code(), address, &mut name)?;
    append_escaped(text, &name)
}

/// Appends a name, escaped for a label.
fn append_escaped(text: &mut Vec<u8>, name: &[u8]) -> Result<(), AllocError>
    ensures { OnOk result (text.new.items ≡ text.old.items ++ flat_map escaped name.now) }
{
    for byte in name {
        append_byte(text, *byte)?;
    }
    Ok(())
}

/// Appends a byte of a name, after a backslash if it is a quote or a backslash.
fn append_byte(text: &mut Vec<u8>, byte: u8) -> Result<(), AllocError>
    ensures { OnOk result (text.new.items ≡ text.old.items ++ escaped byte) }
{
    if byte == b'"' || byte == b'\\' {
        text.push(b'\\')?;
    }
    text.push(byte)?;
    Ok(())
}

/// Appends the edges of each procedure.
fn append_edges(
    alloc: Global,
    text: &mut Vec<u8>,
    chain: &MarkedChain,
    nodes: &[Node],
) -> Result<(), AllocError>
    ensures { OnOk result (text.new.items ≡ text.old.items ++ flat_map (edges chain.now) nodes.now) }
{
    for node in nodes {
        append_calls(alloc, text, chain, node.procedure, &node.calls)?;
    }
    Ok(())
}

/// Appends an edge for each call of a procedure.
fn append_calls(
    alloc: Global,
    text: &mut Vec<u8>,
    chain: &MarkedChain,
    caller: Procedure,
    calls: &[Call],
) -> Result<(), AllocError>
    ensures { OnOk result (text.new.items ≡ text.old.items ++ flat_map (edge_line chain.now caller) calls.now) }
{
    for call in calls {
        append_edge(alloc, text, chain, caller, *call)?;
    }
    Ok(())
}

/// Appends the edge of a call, in bold if the call is one of the chain.
fn append_edge(
    alloc: Global,
    text: &mut Vec<u8>,
    chain: &MarkedChain,
    caller: Procedure,
    call: Call,
) -> Result<(), AllocError>
    ensures { OnOk result (text.new.items ≡ text.old.items ++ edge_line chain.now caller call) }
{
    append_id(text, caller)?;
    append_address(text, b" -> \"".as_slice(), call.target)?;
    append_edge_label(alloc, text, call)?;
    text.extend_from_slice(edge_end(chain.has(caller, call.at)))
}

/// Appends the label of a call's edge: the call's address, and how many bytes the caller has on the
/// stack there.
fn append_edge_label(alloc: Global, text: &mut Vec<u8>, call: Call) -> Result<(), AllocError>
    ensures { OnOk result (text.new.items ≡ text.old.items ++ edge_label call) }
{
    append_address(text, b"\" [label=\"".as_slice(), call.at)?;
    let depth = call.depth;
    let shown = format!(in alloc; ": {depth}\"")?;
    text.extend_from_slice(shown.as_bytes())
}

/// The end of an edge's line, with the bold style or without.
fn edge_end(is_bold: bool) -> &'static [u8]
    ensures { result.now ≡ edge_end is_bold }
{
    if is_bold {
        b", style=bold];\n".as_slice()
    } else {
        b"];\n".as_slice()
    }
}

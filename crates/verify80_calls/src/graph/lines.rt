//! The calls of a program, line by line.

ghost use Rattle.std.specs.Prelude.{◌≡◌, ◌++◌, IfOk, OnOk, map};
ghost use Rattle.std.specs.List.{flat_map};
ghost use Rattle.verify80_calls.specs.ListText.{call_line, chain_text, depth_text, list_text, needs_text, node_line, node_lines};

use crate::Call;
use crate::graph::call_graph::{CallGraph, Node};
use crate::graph::chain::{Link, chain_of};
use crate::graph::needs::IndexedNodes;
use crate::graph::words::{append_address, append_bound, append_end, node_word};
use image80::Image;
use image80_text::PublicTable;
use std::alloc::{AllocError, Global};

/// The procedures of a program, line by line, as `PROC 3004 BOUND 2`, and below each its calls, as
/// `  AT 3005 DEPTH 2 CALLS 300A NEEDS 2`: the bytes that the procedure has on the stack there, and
/// those that the call needs, its return address included. A line ends with the name of the
/// procedure or of the call's target, if the publics have one.
///
/// # Errors
/// `AllocError` only if memory runs out.
pub fn list_text(
    alloc: Global,
    image: &Image,
    publics: &PublicTable,
    graph: &CallGraph,
) -> Result<Vec<u8>, AllocError>
    ensures { IfOk result (λ text. text.items ≡ list_text image.now publics.now graph.now) }
{
    let nodes = IndexedNodes::of(alloc, graph.nodes())?;
    let mut text = Vec::new(alloc);
    append_nodes(alloc, &mut text, image, publics, &nodes)?;
    Ok(text)
}

/// Appends the line of each procedure, and the lines of its calls.
fn append_nodes(
    alloc: Global,
    text: &mut Vec<u8>,
    image: &Image,
    publics: &PublicTable,
    nodes: &IndexedNodes<'_>,
) -> Result<(), AllocError>
    ensures { OnOk result (text.new.items ≡ text.old.items ++ list_text image.now publics.now nodes.now) }
{
    for node in nodes.nodes() {
        append_node_line(alloc, text, image, publics, node)?;
        append_calls(alloc, text, image, publics, nodes, &node.calls)?;
    }
    Ok(())
}

/// The lines of the calls that add up to the main program's bound, as [`list_text`] has them.
///
/// # Errors
/// `AllocError` only if memory runs out.
pub fn chain_text(
    alloc: Global,
    image: &Image,
    publics: &PublicTable,
    nodes: &[Node],
) -> Result<Vec<u8>, AllocError>
    ensures { IfOk result (λ text. text.items ≡ chain_text image.now publics.now nodes.now) }
{
    let indexed = IndexedNodes::of(alloc, nodes)?;
    let chain = chain_of(alloc, &indexed)?;
    let calls = calls_of(alloc, &chain)?;
    let mut text = Vec::new(alloc);
    append_calls(alloc, &mut text, image, publics, &indexed, &calls)?;
    Ok(text)
}

/// The calls of a chain. `AllocError` if memory runs out.
fn calls_of(alloc: Global, chain: &[Link]) -> Result<Vec<Call>, AllocError>
    ensures { IfOk result (λ calls. calls.items ≡ map (λ link. link.call) chain.now) }
{
    chain.iter().map(|link| link.call).collect(alloc)
}

/// Appends the line of a procedure: its address, bound and name.
///
/// # Errors
/// `AllocError` only if memory runs out.
pub fn append_node_line(
    alloc: Global,
    text: &mut Vec<u8>,
    image: &Image,
    publics: &PublicTable,
    node: &Node,
) -> Result<(), AllocError>
    ensures { OnOk result (text.new.items ≡ text.old.items ++ node_line image.now publics.now node.now) }
{
    append_address(
        text,
        node_word(node.procedure, b"PROC ".as_slice()),
        node.address,
    )?;
    append_bound(alloc, text, b" ".as_slice(), node.bound)?;
    append_end(alloc, text, image, publics, node.address)
}

/// Appends a line for each of these calls.
fn append_calls(
    alloc: Global,
    text: &mut Vec<u8>,
    image: &Image,
    publics: &PublicTable,
    nodes: &IndexedNodes<'_>,
    calls: &[Call],
) -> Result<(), AllocError>
    ensures { OnOk result (text.new.items ≡ text.old.items ++ flat_map (call_line image.now publics.now nodes.now) calls.now) }
{
    for call in calls {
        append_call(alloc, text, image, publics, nodes, *call)?;
    }
    Ok(())
}

/// Appends the line of a call, with the name of its target.
fn append_call(
    alloc: Global,
    text: &mut Vec<u8>,
    image: &Image,
    publics: &PublicTable,
    nodes: &IndexedNodes<'_>,
    call: Call,
) -> Result<(), AllocError>
    ensures { OnOk result (text.new.items ≡ text.old.items ++ call_line image.now publics.now nodes.now call) }
{
    append_depth(alloc, text, call)?;
    append_needs(alloc, text, call.target, nodes.needs(call.target))?;
    append_end(alloc, text, image, publics, call.target)?;
    Ok(())
}

/// Appends the beginning of a call's line: its address, and how many bytes the caller has on the
/// stack there.
fn append_depth(alloc: Global, text: &mut Vec<u8>, call: Call) -> Result<(), AllocError>
    ensures { OnOk result (text.new.items ≡ text.old.items ++ depth_text call) }
{
    append_address(text, b"  AT ".as_slice(), call.at)?;
    let depth = call.depth;
    let shown = format!(in alloc; " DEPTH {depth}")?;
    text.extend_from_slice(shown.as_bytes())
}

/// Appends the target of a call, and how many bytes the call needs.
fn append_needs(
    alloc: Global,
    text: &mut Vec<u8>,
    target: u16,
    needs: u128,
) -> Result<(), AllocError>
    ensures { OnOk result (text.new.items ≡ text.old.items ++ needs_text target needs) }
{
    append_address(text, b" CALLS ".as_slice(), target)?;
    let shown = format!(in alloc; " NEEDS {needs}")?;
    text.extend_from_slice(shown.as_bytes())
}

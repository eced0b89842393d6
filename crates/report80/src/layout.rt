//! Where the boxes of a drawing of calls are: in columns, each box to the right of its callers.

use std::alloc::{AllocError, Global};
use verify80_calls::{Node, Procedure};

/// How many columns and rows there are at most.
const MOST: u16 = 60;

/// Where a box is.
#[derive(Clone, Copy, PartialEq, Eq)]
pub(crate) struct Place {
    pub(crate) column: u16,
    pub(crate) row: u16,
}

/// A call: the numbers of the caller and of the callee among the nodes.
#[derive(Clone, Copy, PartialEq, Eq)]
pub(crate) struct Edge {
    pub(crate) from: usize,
    pub(crate) to: usize,
}

/// Which procedures call which others, each pair once.
pub(crate) fn edges_of(alloc: Global, nodes: &[Node]) -> Result<Vec<Edge>, AllocError> {
    let mut edges = Vec::new(alloc);
    let mut from = 0usize;
    for node in nodes {
        append_edges(nodes, from, node, &mut edges)?;
        from = from.saturating_add(1);
    }
    Ok(edges)
}

/// Appends the procedures that one calls, each once.
fn append_edges(
    nodes: &[Node],
    from: usize,
    node: &Node,
    edges: &mut Vec<Edge>,
) -> Result<(), AllocError> {
    for call in &node.calls {
        if let Some(to) = index_of(nodes, call.target) {
            let edge = Edge { from, to };
            if !edges.contains(&edge) {
                edges.push(edge)?;
            }
        }
    }
    Ok(())
}

/// The number of the procedure at an entry among the nodes; `None` if there is none.
fn index_of(nodes: &[Node], entry: u16) -> Option<usize> {
    nodes
        .iter()
        .position(|node| node.procedure == Procedure::Entry(entry))
}

/// The places of `count` boxes: the column of each is to the right of those of its callers, as far as there are columns; the rows of a
/// column are in the order of the nodes.
pub(crate) fn places_of(
    alloc: Global,
    count: usize,
    edges: &[Edge],
) -> Result<Vec<Place>, AllocError> {
    let columns = columns_of(alloc, count, edges)?;
    let mut rows = vec![in alloc; 0u16; 64]?;
    let mut places = Vec::new(alloc);
    for column in &columns {
        let row = take_row(&mut rows, *column);
        places.push(Place {
            column: *column,
            row,
        })?;
    }
    Ok(places)
}

/// The first free row of a column, which is taken.
fn take_row(rows: &mut [u16], column: u16) -> u16 {
    match rows.get_mut(usize::from(column)) {
        Some(next) => {
            let row = *next;
            *next = row.saturating_add(1);
            row
        }
        None => 0,
    }
}

/// The column of each box.
fn columns_of(alloc: Global, count: usize, edges: &[Edge]) -> Result<Vec<u16>, AllocError> {
    let mut columns = vec![in alloc; 0u16; count]?;
    for _ in 0..MOST {
        for edge in edges {
            move_right(&mut columns, *edge);
        }
    }
    Ok(columns)
}

/// Moves the callee's box to the right of the caller's, unless it is there, or in the last column.
fn move_right(columns: &mut [u16], edge: Edge) {
    let caller = columns.get(edge.from).copied().unwrap_or(0);
    if let Some(callee) = columns.get_mut(edge.to)
        && *callee <= caller
        && caller < MOST - 1
    {
        *callee = caller.saturating_add(1);
    }
}

//! The bytes of stack that calls need.

ghost use Rattle.std.specs.Prelude.{◌≡◌, ℕ, ◌<◌, if◌then◌else◌, length, option_copied, replicate, slice_index, IfOk};
ghost use Rattle.frames80.specs.PointNumbers.{same_procedure};
ghost use Rattle.frames80.specs.declared.procedure.Procedure.TheVariants.{Entry};
ghost use Rattle.verify80_calls.specs.Nodes.{bound_of, is_node_of, needs, node_of};
ghost use Rattle.verify80_calls.specs.Tables.{AreBounds};

use crate::Procedure;
use crate::graph::call_graph::Node;
use std::alloc::{AllocError, Global};
use std::marker::Model;

/// How many addresses there are, each of which may be an entry.
const ENTRIES: usize = 65536;

/// The nodes of a graph, with a table of their bounds by entry. A contract sees the nodes.
#[derive(Drop)]
pub(crate) struct IndexedNodes<'a> {
    nodes: &'a [Node],
    /// The bound of the procedure at each entry, 0 if no node is its.
    bounds: Vec<u64>,
}

impl<'a> Model for IndexedNodes<'a> {
    ghost use Rattle.std.specs.Prelude.{List};
    ghost use Rattle.verify80_calls.specs.declared.graph.call_graph.Node.{Node};
    ghost use Rattle.verify80_calls.specs.Tables.{AreBounds};

    ghost Value = { List Node };

    ghost view = { λ n. n.nodes.now };

    ghost invariant = { λ n. AreBounds n.nodes.now n.bounds.items };
}

impl<'a> IndexedNodes<'a> {
    /// Makes the table of bounds for these nodes. `AllocError` if memory runs out.
    pub(crate) fn of(alloc: Global, nodes: &'a [Node]) -> Result<IndexedNodes<'a>, AllocError>
        ensures { IfOk result (λ indexed. indexed ≡ nodes.now) }
    {
        let mut bounds = vec![in alloc; 0u64; ENTRIES]?;
        set_bounds(&mut bounds, nodes);
        Ok(IndexedNodes { nodes, bounds })
    }

    /// The nodes of the graph.
    pub(crate) fn nodes(&self) -> &'a [Node]
        ensures { result.now ≡ self.now }
    {
        self.nodes
    }

    /// The bound of the procedure at an entry, 0 if no node is its.
    pub(crate) fn bound_of(&self, entry: u16) -> u64
        ensures { result ≡ bound_of self.now (Entry entry) }
    {
        self.bounds[usize::from(entry)]
    }

    /// The bytes that a call of an address needs: two for its return address, and its callee's
    /// bound.
    pub(crate) fn needs(&self, target: u16) -> u128
        ensures { result ≡ needs self.now target }
    {
        2 + u128::from(self.bound_of(target))
    }
}

/// Sets the bound of each node's entry; of two nodes with one entry the first counts. `bounds` must
/// have an entry for each address, and each must be 0 before.
fn set_bounds(bounds: &mut [u64], nodes: &[Node])
    requires { bounds.old ≡ replicate 65536 0 }
    ensures { AreBounds nodes.now bounds.new }
{
    for done in 0..nodes.len() {
        set_bound(bounds, &nodes[nodes.len() - 1 - done]);
    }
}

/// Sets the bound of a node's entry; nothing changes for the main program's node. `bounds` must
/// have an entry for each address.
fn set_bound(bounds: &mut [u64], node: &Node)
    requires { length bounds.old ≡ 65536 }
    ensures whole { length bounds.new ≡ 65536 }
    ensures each { (entry : ℕ) → entry < 65536 → slice_index bounds.new entry
        ≡ (if same_procedure node.now.procedure (Entry entry) then node.now.bound else slice_index bounds.old entry) }
{
    if let Procedure::Entry(entry) = node.procedure {
        bounds[usize::from(entry)] = node.bound;
    }
}

/// The first node of a procedure; `None` if there is none.
pub(crate) fn node_of(nodes: &[Node], procedure: Procedure) -> Option<&Node>
    ensures { option_copied result ≡ node_of nodes.now procedure }
{
    nodes.iter().find(|node| is_node_of(node, procedure))
}

/// Whether a node is that of this procedure.
fn is_node_of(node: &Node, procedure: Procedure) -> bool
    ensures { result ≡ is_node_of procedure node.now }
{
    node.procedure == procedure
}

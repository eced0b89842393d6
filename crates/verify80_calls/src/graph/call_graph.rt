//! The calls of a program, procedure by procedure.

ghost use Rattle.std.specs.Prelude.{◌≡◌, ◌++◌, All, IfOk, OnOk, map};
ghost use Rattle.verify80.specs.Looking.{code_of};
ghost use Rattle.verify80_calls.specs.Nodes.{HasItsCalls, IsNodeOf, heading_of, headings, main_heading, row_heading};

use crate::calls::calls_among;
use crate::{Call, Procedure};
use std::alloc::{AllocError, Global};
use std::marker::Model;
use verify80::{ImageCode, ProcRow, Vouched};

/// A procedure of a program, with its bound and its calls.
#[derive(Drop)]
pub struct Node {
    /// The procedure.
    pub procedure: Procedure,
    /// The address where it begins.
    pub address: u16,
    /// The most bytes of stack that it needs below its return address, its callees' included.
    pub bound: u64,
    /// The procedure's calls, by address.
    pub calls: Vec<Call>,
}

/// The procedures of a program: the main program first, then the others by entry. A contract sees the list of them.
#[derive(Drop)]
pub struct CallGraph {
    nodes: Vec<Node>,
}

impl Model for CallGraph {
    ghost use Rattle.std.specs.Prelude.{List};
    ghost use Rattle.verify80_calls.specs.declared.graph.call_graph.Node.{Node};

    ghost Value = { List Node };

    ghost view = { λ g. g.nodes.items };
}

impl CallGraph {
    /// The graph of a program that is accepted: the main program, and the procedure of each row of
    /// its report, each with its bound and exactly its calls.
    ///
    /// # Errors
    /// `AllocError` if memory runs out.
    pub fn of(alloc: Global, vouched: &Vouched) -> Result<CallGraph, AllocError>
        ensures procedures { IfOk result (λ graph. map heading_of graph ≡ headings vouched.now) }
        ensures calls { IfOk result (λ graph. All (HasItsCalls (code_of vouched.now.image)) graph) }
    {
        let code = ImageCode::new(alloc, vouched.image())?;
        let mut nodes = Vec::new(alloc);
        nodes.push(main_node(alloc, vouched, &code)?)?;
        append_nodes(alloc, vouched, &code, vouched.rows(), &mut nodes)?;
        Ok(CallGraph { nodes })
    }

    /// The procedures, the main program first.
    pub fn nodes(&self) -> &[Node]
        ensures { result.now ≡ self.now }
    {
        &self.nodes
    }
}

/// The node of the main program. `code` must be that of the image. `AllocError` if memory runs out.
fn main_node(alloc: Global, vouched: &Vouched, code: &ImageCode) -> Result<Node, AllocError>
    requires { code.now ≡ vouched.now.image }
    ensures heading { IfOk result (λ node. heading_of node ≡ main_heading vouched.now) }
    ensures calls { IfOk result (HasItsCalls (code_of vouched.now.image)) }
{
    Ok(Node {
        procedure: Procedure::Main,
        address: vouched.image().start,
        bound: vouched.stack_bytes(),
        calls: calls_among(alloc, vouched, code, Procedure::Main)?,
    })
}

/// The node of the procedure of a report's row. `code` must be that of the image. `AllocError` if
/// memory runs out.
fn row_node(
    alloc: Global,
    vouched: &Vouched,
    code: &ImageCode,
    row: &ProcRow,
) -> Result<Node, AllocError>
    requires { code.now ≡ vouched.now.image }
    ensures heading { IfOk result (IsNodeOf row.now) }
    ensures calls { IfOk result (HasItsCalls (code_of vouched.now.image)) }
{
    let procedure = Procedure::Entry(row.entry);
    Ok(Node {
        procedure,
        address: row.entry,
        bound: row.bound,
        calls: calls_among(alloc, vouched, code, procedure)?,
    })
}

/// Appends the node of the procedure of each row. `code` must be that of the image, and each node
/// that is in `nodes` before must have all calls of its procedure. `AllocError` if memory runs out.
fn append_nodes(
    alloc: Global,
    vouched: &Vouched,
    code: &ImageCode,
    rows: &[ProcRow],
    nodes: &mut Vec<Node>,
) -> Result<(), AllocError>
    requires code { code.now ≡ vouched.now.image }
    requires calls { All (HasItsCalls (code_of vouched.now.image)) nodes.old.items }
    ensures headings { OnOk result
        (map heading_of nodes.new.items ≡ map heading_of nodes.old.items ++ map row_heading rows.now) }
    ensures calls { OnOk result (All (HasItsCalls (code_of vouched.now.image)) nodes.new.items) }
{
    for row in rows {
        nodes.push(row_node(alloc, vouched, code, row)?)?;
    }
    Ok(())
}

//! The calls of which the main program's bound is made.

ghost use Rattle.std.specs.Prelude.{◌≡◌, false, replicate, IfOk, option_copied};
ghost use Rattle.std.specs.List.{list_any};
ghost use Rattle.verify80_calls.specs.Chain.{chain_of, deepest_call, first_deepest, is_link, reaches};
ghost use Rattle.verify80_calls.specs.Tables.{AreMarks};

use crate::graph::call_graph::Node;
use crate::graph::needs::{IndexedNodes, node_of};
use crate::{Call, Procedure};
use std::alloc::{AllocError, Global};
use std::marker::Model;

/// A call of a chain.
#[derive(Clone, Copy, PartialEq, Eq)]
pub struct Link {
    /// The procedure that makes the call.
    pub caller: Procedure,
    /// The call.
    pub call: Call,
}

/// How many addresses there are.
const ADDRESSES: usize = 65536;

/// The calls of a chain, with a mark for each address of one. A contract sees the calls.
#[derive(Drop)]
pub(crate) struct MarkedChain {
    links: Vec<Link>,
    /// For each address whether a call of the chain is there, so that most look-ups end at once.
    marks: Vec<bool>,
}

impl Model for MarkedChain {
    ghost use Rattle.std.specs.Prelude.{List};
    ghost use Rattle.verify80_calls.specs.declared.graph.chain.Link.{Link};
    ghost use Rattle.verify80_calls.specs.Tables.{AreMarks};

    ghost Value = { List Link };

    ghost view = { λ c. c.links.items };

    ghost invariant = { λ c. AreMarks c.links.items c.marks.items };
}

impl MarkedChain {
    /// The chain of calls that adds up to the main program's bound: from the main program on, the
    /// first call of each procedure whose depth and needs add up to the procedure's bound.
    /// `AllocError` if memory runs out.
    pub(crate) fn of(alloc: Global, nodes: &IndexedNodes<'_>) -> Result<MarkedChain, AllocError>
        ensures { IfOk result (λ chain. chain ≡ chain_of nodes.now) }
    {
        let links = chain_of(alloc, nodes)?;
        let mut marks = vec![in alloc; false; ADDRESSES]?;
        set_marks(&mut marks, &links);
        Ok(MarkedChain { links, marks })
    }

    /// Whether the call of procedure `caller` at address `at` is one of the chain.
    pub(crate) fn has(&self, caller: Procedure, at: u16) -> bool
        ensures { result ≡ list_any (is_link caller at) self.now }
    {
        self.marks[usize::from(at)] && is_in(&self.links, caller, at)
    }
}

/// Sets the mark of each address with a call of the chain. `marks` must have an entry for each
/// address, none of them set.
fn set_marks(marks: &mut [bool], chain: &[Link])
    requires { marks.old ≡ replicate 65536 false }
    ensures { AreMarks chain.now marks.new }
{
    for link in chain {
        marks[usize::from(link.call.at)] = true;
    }
}

/// The calls that add up to the main program's bound: from the main program on, the first call of each procedure whose depth and needs add
/// up to the procedure's bound.
///
/// # Errors
/// `AllocError` only if memory runs out.
pub fn longest_chain(alloc: Global, nodes: &[Node]) -> Result<Vec<Link>, AllocError>
    ensures { IfOk result (λ chain. chain.items ≡ chain_of nodes.now) }
{
    let indexed = IndexedNodes::of(alloc, nodes)?;
    chain_of(alloc, &indexed)
}

/// The chain of calls that adds up to the main program's bound, from the main program on.
/// `AllocError` if memory runs out.
pub(crate) fn chain_of(alloc: Global, nodes: &IndexedNodes<'_>) -> Result<Vec<Link>, AllocError>
    ensures { IfOk result (λ chain. chain.items ≡ chain_of nodes.now) }
{
    let mut chain = Vec::new(alloc);
    let mut caller = Procedure::Main;
    let mut left = nodes.nodes().len();
    while left > 0 {
        let Some(call) = deepest_call(nodes, caller) else {
            return Ok(chain);
        };
        chain.push(Link { caller, call })?;
        caller = Procedure::Entry(call.target);
        left -= 1;
    }
    Ok(chain)
}

/// The first call of a procedure whose depth and needs add up to the procedure's bound; `None` if
/// there is none.
fn deepest_call(nodes: &IndexedNodes<'_>, caller: Procedure) -> Option<Call>
    ensures { result ≡ deepest_call nodes.now caller }
{
    match node_of(nodes.nodes(), caller) {
        Some(node) => first_deepest(nodes, node).copied(),
        None => None,
    }
}

/// The first of a node's calls whose depth and needs add up to the node's bound; `None` if there is
/// none.
fn first_deepest<'a>(nodes: &IndexedNodes<'_>, node: &'a Node) -> Option<&'a Call>
    ensures { option_copied result ≡ first_deepest nodes.now node.now }
{
    node.calls
        .iter()
        .find(|call| reaches(nodes, node.bound, **call))
}

/// Whether the depth at a call, two bytes for its return address and its callee's bound add up to
/// `bound`.
fn reaches(nodes: &IndexedNodes<'_>, bound: u64, call: Call) -> bool
    ensures { result ≡ reaches nodes.now bound call }
{
    let needs = 2 + i128::from(nodes.bound_of(call.target));
    i128::from(call.depth) + needs == i128::from(bound)
}

/// Whether a chain of calls has the call of procedure `caller` at address `at`.
fn is_in(chain: &[Link], caller: Procedure, at: u16) -> bool
    ensures { result ≡ list_any (is_link caller at) chain.now }
{
    chain.iter().any(|link| is_link(link, caller, at))
}

/// Whether this call is that of procedure `caller` at address `at`.
fn is_link(link: &Link, caller: Procedure, at: u16) -> bool
    ensures { result ≡ is_link caller at link.now }
{
    link.caller == caller && link.call.at == at
}

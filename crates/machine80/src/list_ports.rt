//! Ports over a list of inputs and a list of outputs.

ghost use Rattle.std.specs.Prelude.{◌≡◌, ◌+◌, ◌-◌, ◌<◌, ◌≤◌, [], Option, Some, length, replicate};
ghost use Rattle.machine80.specs.ListPorts.{FirstOf};
ghost use Rattle.machine80.specs.Ports.{lists_of, PortLists};

use crate::inputs::Inputs;
use crate::ports::{PortRefused, Ports};
use std::alloc::Global;
use std::marker::Model;

/// Ports whose inputs are a list that is given once, and whose outputs are kept in a list up to a limit.
///
/// However many bytes wait on other ports, each of them is passed over once at most for each port.
#[derive(Drop)]
pub struct ListPorts {
    /// Port and byte, in order.
    pairs: Vec<(u8, u8)>,
    /// For each port, the index in `pairs` from which on none of its bytes has been taken.
    places: [usize; 256],
    /// Port and byte of each output, in order.
    outputs: Vec<(u8, u8)>,
    /// The number of outputs that are kept at most.
    limit: usize,
    /// How many outputs were refused.
    refused: u64,
}

impl Model for ListPorts {
    ghost use Rattle.std.specs.Prelude.{◌≤◌, ◌<◌, Some, length, All, min, vec_capacity};
    ghost use Rattle.machine80.specs.Ports.{PortLists};
    ghost use Rattle.machine80.specs.ListPorts.{queues};

    ghost Value = { PortLists };

    ghost view = { λ p. record {
      inputs = queues p.places p.pairs.items;
      outputs = p.outputs.items;
      refused = p.refused;
      limit = Some p.limit;
      room = min p.limit (vec_capacity p.outputs);
    } };

    ghost invariant = { λ p. All (λ place. place ≤ length p.pairs.items) p.places };
}

impl ListPorts {
    /// Ports at which these inputs wait, that keep as many outputs as `limit` says and refuse each further one.
    /// An output is also refused if there is no memory to keep it.
    pub fn new(alloc: Global, inputs: Inputs, limit: usize) -> Self
        ensures inputs { result.inputs ≡ lists_of inputs.pairs.items }
        ensures outputs { result.outputs ≡ [] }
        ensures refused { result.refused ≡ 0 }
        ensures limit { result.limit ≡ Some limit }
    {
        ListPorts {
            pairs: inputs.pairs,
            places: first_places(),
            outputs: Vec::new(alloc),
            limit,
            refused: 0,
        }
    }

    /// Port and byte of each output, in order.
    pub fn outputs(&self) -> &[(u8, u8)]
        ensures { result.now ≡ self.now.outputs }
    {
        self.outputs.as_slice()
    }
}

/// The index 0 for each port: no byte has been taken yet.
fn first_places() -> [usize; 256]
    ensures { result ≡ replicate 256 0 }
{
    [0; 256]
}

/// The index and the byte of the first pair of the port at the index `from` or behind it; `None` if there is none.
fn first_of(pairs: &[(u8, u8)], from: usize, port: u8) -> Option<(usize, u8)>
    ensures { FirstOf pairs.now from port result }
{
    let mut at = from;
    while at < pairs.len() {
        let (owner, byte) = pairs[at];
        if owner == port {
            return Some((at, byte));
        }
        at += 1;
    }
    None
}

impl Ports for ListPorts {
    ghost lists = { λ p. p };

    /// Takes the next byte that waits at a port; `None` if none waits.
    fn take(&mut self, port: u8) -> Option<u8> {
        match first_of(self.pairs.as_slice(), self.places[port as usize], port) {
            Some((at, byte)) => {
                self.places[port as usize] = at + 1;
                Some(byte)
            }
            None => {
                self.places[port as usize] = self.pairs.len();
                None
            }
        }
    }

    /// Keeps an output; or counts it as refused if the limit is reached or memory runs out.
    fn give(&mut self, port: u8, byte: u8) -> Result<(), PortRefused> {
        if self.outputs.len() < self.limit && self.outputs.push((port, byte)).is_ok() {
            return Ok(());
        }
        self.refused += 1;
        Err(PortRefused)
    }

    /// How many outputs were refused.
    fn refusals(&self) -> u64 {
        self.refused
    }
}

//! How many bytes of stack each procedure uses at most, its callees' included.

ghost use Rattle.std.specs.Prelude.{◌≡◌, ◌≤◌, ℕ, All, IfOk, IfErr, length};
ghost use Rattle.verify80_bounds.specs.Chains.{bytes_of, Cycles, IsModest, AreEntered, AreGreatest, IsFault};
ghost use Rattle.verify80_bounds.specs.Sums.{AreSums, AreStuck};

use crate::cycles::cycle;
use crate::fault::BoundsFault;
use crate::graph::{CallSite, Depth};
use crate::sums::greatest_depths;
use crate::worklist::{advance, group, idle, pending_calls};
use frames80::{Procedure, slot};
use std::alloc::{AllocError, Global};
use std::marker::Model;

/// The most bytes of stack that each procedure needs below its return address.
#[derive(Drop)]
pub struct Bounds {
    /// The bytes by slot of the procedure.
    bytes: Vec<u64>,
}

impl Model for Bounds {
    ghost use Rattle.std.specs.Prelude.{List, ℕ};

    ghost Value = { List ℕ };

    ghost view = { λ b. b.bytes.items };
}

impl Bounds {
    /// The most bytes of stack that a procedure needs below its return address; 0 if it isn't
    /// entered.
    pub fn get(&self, procedure: Procedure) -> u64
        ensures { result ≡ bytes_of self.now procedure }
    {
        let place = slot(procedure);
        if place < self.bytes.len() {
            self.bytes[place]
        } else {
            0
        }
    }
}

/// The greatest sum of each procedure, by slot, and the calls that couldn't be absorbed into them.
type Settled = (Vec<u64>, Vec<CallSite>);

/// Absorbs calls to settled procedures, whose sums are final, until there are none left. Answers
/// the sum of each procedure, by slot, and the calls that are left, whose callees never settle.
/// Each depth must be from -2,097,152 to 2,097,152 bytes, and there must be at most 262,144 calls.
fn settle(alloc: Global, depths: &[Depth], calls: &[CallSite]) -> Result<Settled, AllocError>
    requires depths { All (λ d. IsModest d.depth) depths.now }
    requires calls { All (λ c. IsModest c.depth) calls.now }
    requires few { length calls.now ≤ 262144 }
    ensures sums { IfOk result (λ s. AreSums depths.now calls.now s.0.items s.1.items) }
    ensures stuck { IfOk result (λ s. AreStuck s.1.items) }
{
    let mut bytes = greatest_depths(alloc, depths)?;
    let (mut callers, mut counts) = group(alloc, calls)?;
    let mut settled = idle(alloc, &callers, &counts)?;
    while !settled.is_empty() {
        advance(&mut bytes, &mut callers, &mut counts, &mut settled)?;
    }
    let pending = pending_calls(alloc, calls, &counts)?;
    Ok((bytes, pending))
}

/// The most bytes of stack that each procedure needs below its return address, its callees' included, from the depths of the
/// program's frames and its calls.
///
/// Each depth must be from -2,097,152 to 2,097,152 bytes, and there may be 262,144 calls at most.
///
/// # Errors
/// `Recursion`, with the address of a call that leads back to its own procedure, if there is one; `Memory` if memory runs
/// out.
pub fn find_bounds(
    alloc: Global,
    depths: &[Depth],
    calls: &[CallSite],
) -> Result<Bounds, BoundsFault>
    requires depths { All (λ d. IsModest d.depth) depths.now }
    requires calls { All (λ c. IsModest c.depth) calls.now }
    requires few { length calls.now ≤ 262144 }
    ensures bounds { IfOk result (λ bounds. AreEntered depths.now calls.now → AreGreatest depths.now calls.now bounds) }
    ensures no_cycle { IfOk result (λ bounds. (at : ℕ) → Cycles calls.now at → ⊥) }
    ensures fault { IfErr result (IsFault calls.now) }
{
    let (bytes, pending) = settle(alloc, depths, calls)?;
    if pending.is_empty() {
        Ok(Bounds { bytes })
    } else {
        let at = cycle(alloc, &pending)?;
        Err(BoundsFault::Recursion(at))
    }
}

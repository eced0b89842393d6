//! Numbers for the points of a program: addresses of its procedures.

ghost use Rattle.std.specs.Prelude.{◌≡◌, None, slice_index_or, IfOk, OnOk, OnErr};
ghost use Rattle.frames80.specs.PointNumbers.{same_procedure, number_at, place_number, is_free, HasNone, SameNumbers, Puts, NumbersAreOfAddresses};

use crate::{Procedure, table};
use std::alloc::{AllocError, Global};
use std::collections::BTreeMap;

/// How many addresses there are.
const ADDRESSES: usize = 65_536;

/// The first point that was numbered at an address: its procedure and its number.
#[derive(Clone, Copy)]
struct FirstPoint {
    /// The procedure that the point belongs to.
    procedure: Procedure,
    /// The number of the point.
    number: u32,
}

/// The number of each point, by its procedure and address.
///
/// Most code belongs to one procedure. So a table has the first point of each address, and a map
/// the points of further procedures there.
#[derive(Drop)]
pub struct PointNumbers {
    /// The first point that was numbered at each address.
    first: Vec<Option<FirstPoint>>,
    /// The numbers of the other points, by `place_number`.
    further: BTreeMap<u64, u32>,
}

/// The key of an address of a procedure in the map of further points: no two points have the same.
fn place_number(procedure: Procedure, at: u16) -> u64
    ensures { result ≡ place_number procedure at }
{
    let procedure = match procedure {
        Procedure::Main => 0,
        Procedure::Entry(entry) => u64::from(entry) + 1,
    };
    65536 * procedure + u64::from(at)
}

/// The first point that was numbered at an address, or `None` if there is none.
fn first_at(first: &[Option<FirstPoint>], at: u16) -> Option<FirstPoint>
    ensures { result ≡ slice_index_or first.now at None }
{
    match first.get(usize::from(at)) {
        Some(point) => *point,
        None => None,
    }
}

/// Whether the table's entry for an address may have a point of `procedure`: it is empty, or has
/// one of this procedure already.
fn is_free(first: Option<FirstPoint>, procedure: Procedure) -> bool
    ensures { result ≡ is_free first procedure }
{
    match first {
        Some(point) => point.is_of(procedure),
        None => true,
    }
}

impl FirstPoint {
    /// Whether the point belongs to this procedure.
    fn is_of(&self, procedure: Procedure) -> bool
        ensures { result ≡ same_procedure self.now.procedure procedure }
    {
        self.procedure == procedure
    }
}

impl PointNumbers {
    /// An empty table: no point has a number.
    ///
    /// # Errors
    /// `AllocError` if memory runs out.
    pub fn new(alloc: Global) -> Result<PointNumbers, AllocError>
        ensures { IfOk result HasNone }
    {
        Ok(PointNumbers {
            first: table(alloc, None, ADDRESSES)?,
            further: BTreeMap::new(alloc),
        })
    }

    /// The number of the point at an address of a procedure, or `None` if it has none.
    pub fn get(&self, procedure: Procedure, at: u16) -> Option<u32>
        ensures { result ≡ number_at self.now procedure at }
    {
        match first_at(&self.first, at) {
            Some(point) if point.is_of(procedure) => Some(point.number),
            _ => self.further.get(&place_number(procedure, at)).copied(),
        }
    }

    /// Gives a number to the point at an address of a procedure, in place of any that it had.
    ///
    /// # Errors
    /// `AllocError` if memory runs out: the numbers are then unchanged.
    pub fn put(&mut self, procedure: Procedure, at: u16, number: u32) -> Result<(), AllocError>
        ensures put { OnOk result (Puts self.old self.new procedure at number) }
        ensures err { OnErr result (SameNumbers self.old self.new) }
    {
        let index = usize::from(at);
        if index < self.first.len() && is_free(first_at(&self.first, at), procedure) {
            self.first[index] = Some(FirstPoint { procedure, number });
            return Ok(());
        }
        self.further.insert(place_number(procedure, at), number)?;
        Ok(())
    }
}

/// A law of `PointNumbers`: only addresses of memory, 0 to FFFF, have numbers.
pub fn numbers_are_of_addresses()
    ensures { NumbersAreOfAddresses }
{}

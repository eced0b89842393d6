//! The publics of an image, looked up by address.

ghost use Rattle.std.specs.Prelude.{◌≡◌, ◌<◌, ◌≤◌, ℕ, None, find, length, option_copied, replicate, IfOk};
ghost use Rattle.image80.specs.Range.{in_range};
ghost use Rattle.image80_text.specs.Tables.{entry_at, filled_from, not_below, noted, public_with, AreFirst};

use image80::Range;
use omf_core::segment_id::ABSOLUTE;
use omf_model::Public;
use std::alloc::{AllocError, Global};
use std::marker::Model;

/// The number of addresses of the 8080's memory.
const ADDRESSES: usize = 65_536;

/// The publics of an image, looked up by address: tables have the first public at each address, and the nearest one at or below it,
/// so that a look-up takes the same time for any number of publics. A contract sees the publics, in their order.
///
/// Publics of other segments than the absolute one, whose offsets are no addresses, are passed over.
#[derive(Drop)]
pub struct PublicTable {
    /// The publics, in their order.
    publics: Vec<Public>,
    /// By address, the index in `publics` of the first public there, `None` if there is none.
    first: Vec<Option<usize>>,
    /// By address, the index in `publics` of the nearest public at or below it, `None` if there is none.
    nearest: Vec<Option<usize>>,
}

impl Model for PublicTable {
    ghost use Rattle.std.specs.Prelude.{List};
    ghost use Rattle.omf_model.specs.declared.symbols.Public.{Public};
    ghost use Rattle.image80_text.specs.Tables.{AreFirst, AreNearest};

    ghost Value = { List Public };

    ghost view = { λ t. t.publics.items };

    ghost invariant = { λ t. AreFirst t.publics.items t.first.items × AreNearest t.publics.items t.nearest.items };
}

impl PublicTable {
    ghost use Rattle.std.specs.Prelude.{◌≡◌, ◌-◌, ◌==◌, ◌≤◌, [], length, option_copied, option_map, IfOk, IfSome};
    ghost use Rattle.image80_text.specs.Names.{public_at};
    ghost use Rattle.image80_text.specs.NameText.{nearest_from, nearest_of};
    ghost use Rattle.image80_text.specs.Tables.{nearest_within};

    /// A table of no publics. It takes no memory.
    pub fn none(alloc: Global) -> PublicTable
        ensures { result ≡ [] }
    {
        PublicTable {
            publics: Vec::new(alloc),
            first: Vec::new(alloc),
            nearest: Vec::new(alloc),
        }
    }

    /// Makes a table of these publics, of which those outside the absolute segment are ignored.
    ///
    /// # Errors
    /// `AllocError` if memory runs out.
    pub fn new(alloc: Global, publics: Vec<Public>) -> Result<PublicTable, AllocError>
        ensures { IfOk result (λ table. table ≡ publics.items) }
    {
        let first = first_numbers(alloc, &publics)?;
        let nearest = nearest_numbers(alloc, &first)?;
        Ok(PublicTable {
            publics,
            first,
            nearest,
        })
    }

    /// Whether the table was made of no publics at all.
    pub fn is_empty(&self) -> bool
        ensures { result ≡ (length self.now == 0) }
    {
        self.publics.is_empty()
    }

    /// The first public at an address, or `None` if there is none. It takes no memory.
    pub fn at(&self, address: u16) -> Option<&Public>
        ensures { option_copied result ≡ public_at self.now address }
    {
        public_with(&self.publics, entry_at(&self.first, address))
    }

    /// The public that names an address of code, the highest at or below it in the same range of code and the first
    /// of several there, and how many bytes the address is above it, 0 to 65535. It takes no memory.
    ///
    /// Returns `None` if no range of code contains the address, or if no public is in that range at or below the address.
    pub fn nearest(&self, code: &[Range], address: u16) -> Option<(&Public, u16)>
        ensures which { option_map (λ near. near.0.now) result ≡ nearest_of code.now self.now address }
        ensures distance { IfSome result (λ near. near.1 ≡ address - near.0.now.offset) }
        ensures below { IfSome result (λ near. near.0.now.offset ≤ address) }
    {
        match self.nearest_within(range_of(code, address), address) {
            Some(public) => Some((public, address - public.offset)),
            None => None,
        }
    }

    /// The nearest public that is at or below the address and not below the range's first address; `None` if there is
    /// none, or no range.
    fn nearest_within(&self, range: Option<&Range>, address: u16) -> Option<&Public>
        ensures which { option_copied result ≡ nearest_within self.now (option_copied range.entry) address }
        ensures below { IfSome result (λ public. public.now.offset ≤ address) }
    {
        match range {
            Some(range) => not_below(range.first, self.nearest_below(address)),
            None => None,
        }
    }

    /// The nearest public at or below an address, `None` if there is none.
    fn nearest_below(&self, address: u16) -> Option<&Public>
        ensures which { option_copied result ≡ nearest_from self.now address address }
        ensures below { IfSome result (λ public. public.now.offset ≤ address) }
    {
        public_with(&self.publics, entry_at(&self.nearest, address))
    }
}

/// The range of code that contains an address, `None` if none does.
fn range_of(code: &[Range], address: u16) -> Option<&Range>
    ensures { option_copied result ≡ find (λ range. in_range range address) code.now }
{
    code.iter().find(|range| range.contains(address))
}

/// The public, or `None` if its address is below `first`.
fn not_below(first: u16, public: Option<&Public>) -> Option<&Public>
    ensures { option_copied result ≡ not_below first (option_copied public.entry) }
{
    match public {
        Some(found) if first <= found.offset => Some(found),
        _ => None,
    }
}

/// The table's entry for an address; `None` also if the table is too short to have one.
fn entry_at(table: &[Option<usize>], address: u16) -> Option<usize>
    ensures { result ≡ entry_at table.now address }
{
    match table.get(usize::from(address)) {
        Some(entry) => *entry,
        None => None,
    }
}

/// The public with this index; `None` if there is no index or no such public.
fn public_with(publics: &[Public], number: Option<usize>) -> Option<&Public>
    ensures { option_copied result ≡ public_with publics.now number }
{
    match number {
        Some(number) => publics.get(number),
        None => None,
    }
}

/// Makes the table of the first public at each address, by its index. Publics outside the absolute segment are ignored.
fn first_numbers(alloc: Global, publics: &[Public]) -> Result<Vec<Option<usize>>, AllocError>
    ensures first { IfOk result (λ table. AreFirst publics.now table.items) }
    ensures whole { IfOk result (λ table. length table.items ≡ 65536) }
{
    let mut table = empty_table(alloc, ADDRESSES)?;
    for (number, public) in publics.iter().enumerate() {
        note(&mut table, public, number);
    }
    Ok(table)
}

/// A table of `count` addresses, with a public at none of them.
fn empty_table(alloc: Global, count: usize) -> Result<Vec<Option<usize>>, AllocError>
    ensures { IfOk result (λ table. table.items ≡ replicate count None) }
{
    vec![in alloc; None; count]
}

/// Enters the index of a public at the public's address, unless another one is entered there or the public is outside
/// the absolute segment. The table must have 65536 entries.
fn note(table: &mut Vec<Option<usize>>, public: &Public, number: usize)
    requires { length table.old.items ≡ 65536 }
    ensures noted { table.new.items ≡ noted table.old.items public.now number }
    ensures in_memory { public.now.offset < 65536 }
{
    let address = public.offset;
    if public.segment == ABSOLUTE && entry_at(table, address).is_none() {
        table[usize::from(address)] = Some(number);
    }
}

/// Makes the table of the nearest public at or below each address from that of the first public at each.
fn nearest_numbers(alloc: Global, first: &[Option<usize>]) -> Result<Vec<Option<usize>>, AllocError>
    ensures { IfOk result (λ table. table.items ≡ filled_from None first.now) }
{
    let mut table = Vec::new(alloc);
    let mut nearest = None;
    for number in first {
        nearest = number.or(nearest);
        table.push(nearest)?;
    }
    Ok(table)
}

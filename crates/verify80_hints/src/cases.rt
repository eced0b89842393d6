//! The PCHLs that lead to each address.

use std::alloc::{AllocError, Global};

/// How many PCHLs are in a group: the PCHLs that lead to an address are kept for a group at once.
const PCHLS: u32 = 64;

/// No number.
const NONE: u32 = u32::MAX;

/// The PCHLs of one group that lead to an address.
#[derive(Clone, Copy)]
pub(crate) struct CaseGroup {
    /// The number of the group.
    pub(crate) number: u32,
    /// A bit for each PCHL of the group that leads there, the newest one the highest.
    pub(crate) bits: u64,
    /// The index of the next older group of the address, or `NONE`.
    before: u32,
}

/// The PCHLs that lead to each address. A PCHL is known by its number: how many were added before it.
#[derive(Drop)]
pub(crate) struct Cases {
    /// The address of each PCHL, by number.
    pchls: Vec<u16>,
    /// For each address the number of the PCHL there, or `NONE`.
    numbers: Vec<u32>,
    /// The groups of all addresses.
    groups: Vec<CaseGroup>,
    /// For each address the index of its newest group, or `NONE`.
    newest: Vec<u32>,
}

/// The bit of a PCHL in its group.
fn bit_of(number: u32) -> u64 {
    1u64.wrapping_shl(number % PCHLS)
}

impl Cases {
    /// No PCHL leads to any address.
    ///
    /// # Errors
    /// `AllocError` if memory runs out.
    pub(crate) fn new(alloc: Global) -> Result<Cases, AllocError> {
        Ok(Cases {
            pchls: Vec::new(alloc),
            numbers: vec![in alloc; NONE; 65536]?,
            groups: Vec::new(alloc),
            newest: vec![in alloc; NONE; 65536]?,
        })
    }

    /// The number of the PCHL at an address, or `None` if it wasn't added.
    pub(crate) fn number_of(&self, pchl: u16) -> Option<u32> {
        match self.numbers.get(usize::from(pchl)) {
            Some(number) if *number != NONE => Some(*number),
            _ => None,
        }
    }

    /// Adds the PCHL at an address, which was not added before, and returns its number. It leads to
    /// no address yet.
    ///
    /// # Errors
    /// `AllocError` if memory runs out.
    pub(crate) fn add(&mut self, pchl: u16) -> Result<u32, AllocError> {
        let new = u32::try_from(self.pchls.len()).unwrap_or(NONE);
        self.pchls.push(pchl)?;
        if let Some(number) = self.numbers.get_mut(usize::from(pchl)) {
            *number = new;
        }
        Ok(new)
    }

    /// Adds the PCHL with this number, the newest one, to those that lead to an address.
    ///
    /// # Errors
    /// `AllocError` if memory runs out.
    pub(crate) fn add_target(&mut self, number: u32, target: u16) -> Result<(), AllocError> {
        let group = number / PCHLS;
        let bits = bit_of(number);
        let Some(newest) = self.newest.get_mut(usize::from(target)) else {
            return Ok(());
        };
        match self.groups.get_mut(*newest as usize) {
            Some(found) if found.number == group => found.bits |= bits,
            _ => {
                let index = u32::try_from(self.groups.len()).unwrap_or(NONE);
                self.groups.push(CaseGroup {
                    number: group,
                    bits,
                    before: *newest,
                })?;
                *newest = index;
            }
        }
        Ok(())
    }

    /// The newest PCHLs that lead to an address; `None` if none does.
    pub(crate) fn newest(&self, target: u16) -> Option<CaseGroup> {
        let newest = self.newest.get(usize::from(target))?;
        self.groups.get(*newest as usize).copied()
    }

    /// The next older PCHLs that lead to the same address; `None` if these are the oldest.
    pub(crate) fn before(&self, group: CaseGroup) -> Option<CaseGroup> {
        self.groups.get(group.before as usize).copied()
    }

    /// The address of the PCHL with this bit in a group, or `None` if there is none.
    pub(crate) fn pchl(&self, group: u32, bit: u32) -> Option<u16> {
        let number = group.wrapping_mul(PCHLS).wrapping_add(bit);
        self.pchls.get(number as usize).copied()
    }
}

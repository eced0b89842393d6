//! At which of the PCHLs that lead to a point its places aren't asked for yet.

use crate::cases::CaseGroup;
use crate::place_sets::PlaceSets;
use crate::places::Places;
use crate::point::Point;
use frames80::Procedure;
use indexmap::IndexSet;
use std::alloc::{AllocError, Global};

/// How many places a block has.
const PLACES: u32 = 64;

/// From how many reached PCHLs of a group on it is kept at which of them a place was asked for; if
/// there are fewer, each is visited.
const MANY: u32 = 4;

/// The points of a procedure that have the same counts.
#[derive(Clone, Copy, PartialEq, Eq, Hash)]
struct Hub {
    /// The procedure's entry; `None` for the main program.
    entry: Option<u16>,
    /// How many words the procedure has taken at these points.
    taken: u32,
    /// How many words the procedure has at these points.
    height: u32,
}

/// A block of the places of a hub's points.
#[derive(Clone, Copy, PartialEq, Eq, Hash)]
struct HubBlock {
    /// The number of the hub.
    hub: u32,
    /// The number of the block.
    block: u32,
}

/// Which PCHLs were reached by each procedure and with which counts, and which places were asked for
/// at them.
///
/// The sets are of PCHLs, 64 in a word, where those of `Search::asked` are of places: what many
/// targets of many PCHLs ask for one by one would be looked up at each PCHL again and again.
#[derive(Drop)]
pub(crate) struct Hubs {
    hubs: IndexSet<Hub>,
    /// For each hub, by its index in `hubs`, the numbers of its PCHLs.
    reached: PlaceSets,
    blocks: IndexSet<HubBlock>,
    /// For each place of each block, `PLACES` of them for each index in `blocks`, the numbers of the
    /// PCHLs where it was asked for, as far as that is kept.
    asked: PlaceSets,
}

impl Hub {
    /// The hub that a point belongs to.
    fn of(point: Point) -> Hub {
        Hub {
            entry: match point.procedure {
                Procedure::Main => None,
                Procedure::Entry(entry) => Some(entry),
            },
            taken: point.counts.taken,
            height: point.counts.height,
        }
    }
}

impl Hubs {
    /// Empty sets: no PCHL was reached.
    pub(crate) fn new(alloc: Global) -> Hubs {
        Hubs {
            hubs: IndexSet::new(alloc),
            reached: PlaceSets::new(alloc),
            blocks: IndexSet::new(alloc),
            asked: PlaceSets::new(alloc),
        }
    }

    /// Records that a point is reached that is the PCHL with this number.
    ///
    /// # Errors
    /// `AllocError` if memory runs out.
    pub(crate) fn reach(&mut self, number: u32, point: Point) -> Result<(), AllocError> {
        let (hub, _) = self.hubs.insert_full(Hub::of(point))?;
        self.reached.add(Places {
            point: u32::try_from(hub).unwrap_or(u32::MAX),
            block: number / PLACES,
            bits: 1u64.wrapping_shl(number % PLACES),
        })?;
        Ok(())
    }

    /// The number of the hub that a point belongs to; `None` if no PCHL of it was reached.
    pub(crate) fn hub_of(&self, point: Point) -> Option<u32> {
        let hub = self.hubs.get_index_of(&Hub::of(point))?;
        u32::try_from(hub).ok()
    }

    /// The bits of the PCHLs of a group that were reached in a hub, without those where all of these
    /// places were asked for, as far as that is known. From now on they count as asked for at each.
    ///
    /// # Errors
    /// `AllocError` if memory runs out.
    pub(crate) fn take_unasked(
        &mut self,
        hub: u32,
        group: CaseGroup,
        places: Places,
    ) -> Result<u64, AllocError> {
        let bits = group.bits & self.reached.get(hub, group.number);
        if bits.count_ones() < MANY {
            return Ok(bits);
        }
        let block = HubBlock {
            hub,
            block: places.block,
        };
        let (index, _) = self.blocks.insert_full(block)?;
        let first = u32::try_from(index)
            .unwrap_or(u32::MAX)
            .wrapping_mul(PLACES);
        let mut unasked = 0;
        let mut left = places.bits;
        for _ in 0..PLACES {
            if left == 0 {
                break;
            }
            unasked |= self.asked.add(Places {
                point: first.wrapping_add(left.trailing_zeros()),
                block: group.number,
                bits,
            })?;
            left &= left.wrapping_sub(1);
        }
        Ok(unasked)
    }
}

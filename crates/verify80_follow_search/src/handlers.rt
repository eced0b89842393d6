//! What the tables of handlers say: where the program begins anew, and what is written.

use decode80::{Instr, Pair, direct_bytes, fetch};
use frames80::Code;
use image80::{Image, Range, RegionMap};
use std::alloc::{AllocError, Global};
use std::collections::BTreeSet;
use verify80::ImageCode;
use verify80_follow::{FollowedState, Handler};
use verify80_states::Span;
use verify80_stores::pointer_span;

/// The addresses at which handlers begin the program anew, ascending: those behind their LXI SP with the stack's top.
///
/// # Errors
/// `AllocError` if memory runs out.
pub fn places_anew(
    alloc: Global,
    image: &Image,
    handlers: &[Handler],
) -> Result<Vec<u16>, AllocError> {
    let program = ImageCode::new(alloc, image)?;
    let mut places = BTreeSet::new(alloc);
    for handler in handlers {
        for state in &handler.table.states {
            if let Ok(found) = fetch(state.at, &program) {
                if sets_top(&program, found.instr) {
                    places.insert(found.next)?;
                }
            }
        }
    }
    places.iter().copied().collect(alloc)
}

/// Whether an instruction sets SP to the stack's top.
pub(crate) fn sets_top(program: &ImageCode<'_>, instr: Instr) -> bool {
    matches!(instr, Instr::Lxi(Pair::Sp, address) if address == program.top())
}

/// The data to which handlers may store, in ascending ranges that don't touch.
///
/// # Errors
/// `AllocError` if memory runs out.
pub fn written_ranges(
    alloc: Global,
    image: &Image,
    handlers: &[Handler],
) -> Result<Vec<Range>, AllocError> {
    let program = ImageCode::new(alloc, image)?;
    let mut written = Written {
        changes: vec![in alloc; 0; 65_537]?,
    };
    for handler in handlers {
        for state in &handler.table.states {
            if let Ok(found) = fetch(state.at, &program) {
                written.note(found.instr, state);
            }
        }
    }
    written.ranges(alloc, &RegionMap::new(alloc, &image.regions)?)
}

/// The addresses to which states may store.
#[derive(Drop)]
struct Written {
    /// For each address by how much more spans have it than the one before.
    changes: Vec<i64>,
}

impl Written {
    /// Notes the addresses to which a state's instruction may store.
    fn note(&mut self, instr: Instr, state: &FollowedState) {
        for address in direct_bytes(instr).into_iter().flatten() {
            self.note_span(Span {
                first: address,
                last: address,
            });
        }
        if let Some(span) = pointer_span(instr, state.known) {
            self.note_span(span);
        }
    }

    /// Notes a span.
    fn note_span(&mut self, span: Span) {
        self.change(usize::from(span.first), 1);
        self.change(usize::from(span.last).saturating_add(1), -1);
    }

    /// Adds to the change at an address.
    fn change(&mut self, at: usize, by: i64) {
        if let Some(change) = self.changes.get_mut(at) {
            *change = change.saturating_add(by);
        }
    }

    /// The data among the addresses that were noted.
    fn ranges(&self, alloc: Global, map: &RegionMap) -> Result<Vec<Range>, AllocError> {
        let mut ranges: Vec<Range> = Vec::new(alloc);
        let mut count = 0_i64;
        let mut is_open = false;
        for address in 0..=u16::MAX {
            let change = self.changes.get(usize::from(address)).copied().unwrap_or(0);
            count = count.saturating_add(change);
            let is_written = count > 0 && map.is_data(address);
            match ranges.as_mut_slice().last_mut() {
                Some(last) if is_written && is_open => last.length = last.length.saturating_add(1),
                _ if is_written => ranges.push(Range {
                    first: address,
                    length: 1,
                })?,
                _ => {}
            }
            is_open = is_written;
        }
        Ok(ranges)
    }
}

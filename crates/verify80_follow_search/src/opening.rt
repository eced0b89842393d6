//! The stores and jumps by register pairs that states leave open.

use decode80::{Instr, fetch};
use image80::{Image, Regions};
use std::alloc::{AllocError, Global};
use verify80::ImageCode;
use verify80_follow::{FollowedState, Handler, Listed, Table};
use verify80_states::Span;
use verify80_stores::{OpenStore, find_data_ends, is_target, pointer_span};

/// What states say of the stores and jumps at each address.
#[derive(Drop)]
struct Opening {
    /// For each address the first one from there on that is not data.
    ends: Vec<u32>,
    /// The store at an address, with the addresses that it may have in the states there.
    stores: Vec<Option<OpenStore>>,
    /// Whether a state leaves the store or jump at an address open.
    are_open: Vec<bool>,
}

/// The stores and jumps that a program's table or one of its handlers' tables leaves open.
///
/// # Errors
/// `AllocError` if memory runs out.
pub fn list_together(
    alloc: Global,
    image: &Image,
    table: &Table,
    handlers: &[Handler],
) -> Result<Listed, AllocError> {
    let program = ImageCode::new(alloc, image)?;
    let mut opening = Opening::new(alloc, &image.regions)?;
    opening.note_all(&program, &image.regions, &table.states);
    for summary in &table.summaries {
        opening.note_all(&program, &image.regions, &summary.states);
    }
    for handler in handlers {
        opening.note_all(&program, &image.regions, &handler.table.states);
    }
    opening.listed(alloc)
}

impl Opening {
    /// Nothing is noted.
    fn new(alloc: Global, regions: &Regions) -> Result<Opening, AllocError> {
        Ok(Opening {
            ends: find_data_ends(alloc, regions)?,
            stores: vec![in alloc; None; 65_536]?,
            are_open: vec![in alloc; false; 65_536]?,
        })
    }

    /// Notes what states say of the instructions at their addresses.
    fn note_all(&mut self, program: &ImageCode<'_>, regions: &Regions, states: &[FollowedState]) {
        for state in states {
            if let Ok(found) = fetch(state.at, program) {
                self.note(regions, found.instr, state);
            }
        }
    }

    /// Notes what a state says of the instruction at its address.
    fn note(&mut self, regions: &Regions, instr: Instr, state: &FollowedState) {
        let at = usize::from(state.at);
        let is_open = match pointer_span(instr, state.known) {
            Some(span) => {
                self.note_store(instr, state.at, span);
                !self.is_data(span)
            }
            None => leaves_targets(regions, instr, state),
        };
        if let Some(noted) = self.are_open.get_mut(at) {
            *noted |= is_open;
        }
    }

    /// Notes the addresses that a store may have.
    fn note_store(&mut self, instr: Instr, at: u16, span: Span) {
        if let Some(noted) = self.stores.get_mut(usize::from(at)) {
            let span = match *noted {
                Some(store) => store.span.hull(span),
                None => span,
            };
            *noted = Some(OpenStore { at, instr, span });
        }
    }

    /// Whether each address of a span is data.
    fn is_data(&self, span: Span) -> bool {
        match self.ends.get(usize::from(span.first)) {
            Some(end) => u32::from(span.last) < *end,
            None => false,
        }
    }

    /// The stores and jumps that are noted as open.
    fn listed(&self, alloc: Global) -> Result<Listed, AllocError> {
        let mut listed = Listed {
            stores: Vec::new(alloc),
            jumps: Vec::new(alloc),
        };
        for (number, is_open) in self.are_open.iter().enumerate() {
            if *is_open {
                match self.stores.get(number).copied().flatten() {
                    Some(store) => listed.stores.push(store)?,
                    None => listed
                        .jumps
                        .push(u16::try_from(number).unwrap_or(u16::MAX))?,
                }
            }
        }
        Ok(listed)
    }
}

/// Whether an instruction is a PCHL with declared targets that may go elsewhere in a state.
fn leaves_targets(regions: &Regions, instr: Instr, state: &FollowedState) -> bool {
    match regions.targets(state.at) {
        Some(targets) => {
            matches!(instr, Instr::Pchl) && !is_target(targets, state.known.hl.words)
        }
        None => false,
    }
}

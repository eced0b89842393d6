//! What is asked for at a point is asked for where it comes from.

use crate::lists::{Lists, Turn, Way};
use crate::places::{Place, Places};
use crate::point::Point;
use crate::search::{Exit, Search};
use crate::writes::Write;
use frames80::{Code, Procedure};
use std::alloc::AllocError;

impl<'a, C: Code> Search<'a, C> {
    /// Asks for places at each point that leads to their point, in the places from which their
    /// words come. `AllocError` if memory runs out.
    pub(super) fn go_back(&mut self, places: Places) -> Result<(), AllocError> {
        let places = self.go_straight_back(places)?;
        let mut link = self.leading.newest(places.point as usize);
        for _ in 0..u32::MAX {
            let Some(found) = link else {
                break;
            };
            self.carry(found.way, places)?;
            link = self.leading.before(found);
        }
        match self.point(places.point) {
            Some(point) => self.go_back_to_cases(places, point),
            None => Ok(()),
        }
    }

    /// Goes back from places of a point as long as only one point leads there, which leads nowhere
    /// else and keeps the words of the places. Returns the places, of the last such point, that are
    /// new there. `AllocError` if memory runs out.
    fn go_straight_back(&mut self, places: Places) -> Result<Places, AllocError> {
        let mut places = places;
        // The bound is never met: each place of a point is asked for once.
        for _ in 0..u64::MAX {
            let Some(before) = self.straight_before(places) else {
                break;
            };
            let bits = self.asked.add(before)?;
            places = Places { bits, ..before };
            if bits == 0 {
                break;
            }
        }
        Ok(places)
    }

    /// The places `places` at the only point that leads to their point, if that leads nowhere else and
    /// keeps their words; else `None`.
    fn straight_before(&self, places: Places) -> Option<Places> {
        let way = self.leading.only(places.point as usize)?;
        let from = self.point(way.from)?;
        let point = self.point(places.point)?;
        if !from.leads_straight() || self.cases.newest(point.at).is_some() {
            return None;
        }
        if from.keeps(way.turn) || from.writes(way.turn).kept_of(places) == places.bits {
            let point = way.from;
            return Some(Places { point, ..places });
        }
        None
    }

    /// Asks for places of a point at each PCHL that leads to it. `AllocError` if memory runs out.
    fn go_back_to_cases(&mut self, places: Places, point: Point) -> Result<(), AllocError> {
        let mut link = self.cases.newest(point.at);
        if link.is_none() {
            return Ok(());
        }
        let Some(hub) = self.hubs.hub_of(point) else {
            return Ok(());
        };
        for _ in 0..u32::MAX {
            let Some(group) = link else {
                break;
            };
            let pchls = self.hubs.take_unasked(hub, group, places)?;
            self.go_back_to_group(group.number, pchls, places, point)?;
            link = self.cases.before(group);
        }
        Ok(())
    }

    /// Asks for places of a point at these PCHLs of a group, the newest first. `AllocError` if memory
    /// runs out.
    fn go_back_to_group(
        &mut self,
        group: u32,
        pchls: u64,
        places: Places,
        point: Point,
    ) -> Result<(), AllocError> {
        let mut left = pchls;
        for _ in 0..64 {
            let Some(bit) = left.checked_ilog2() else {
                break;
            };
            if let Some(pchl) = self.cases.pchl(group, bit) {
                self.go_back_to_case(pchl, places, point)?;
            }
            left &= !1u64.wrapping_shl(bit);
        }
        Ok(())
    }

    /// Asks for places of a point at one PCHL that leads to it, if walks have the same counts
    /// there: a PCHL keeps each place. `AllocError` if memory runs out.
    fn go_back_to_case(&mut self, pchl: u16, places: Places, to: Point) -> Result<(), AllocError> {
        let Some(point) = self.numbers.get(to.procedure, pchl) else {
            return Ok(());
        };
        let bits = places.bits & !self.asked.get(point, places.block);
        match self.point(point) {
            Some(from) if bits != 0 && from.counts == to.counts => {
                let before = Places {
                    point,
                    bits,
                    ..places
                };
                self.ask(from, before, self.choice_of_target(pchl, to.at))
            }
            _ => Ok(()),
        }
    }

    /// Which of the declared targets of a PCHL this one is, counted from 0; 0 if it is none of
    /// them. They must ascend, as those of `Regions` do.
    fn choice_of_target(&self, pchl: u16, target: u16) -> u16 {
        let choice = self
            .program
            .targets(pchl)
            .binary_search(&target)
            .unwrap_or(0);
        u16::try_from(choice).unwrap_or(0)
    }

    /// Asks for places of a point where their words come from over one way to it. If one of them
    /// gets a word there that is no return address, a walk is found. `AllocError` if memory runs
    /// out.
    pub(super) fn carry(&mut self, way: Way, places: Places) -> Result<(), AllocError> {
        let Some(from) = self.point(way.from) else {
            return Ok(());
        };
        let before = Places {
            point: way.from,
            ..places
        };
        let choice = match way.turn {
            Turn::Leads(choice) => choice,
            Turn::OverCall => 0,
        };
        if from.keeps(way.turn) {
            return self.ask(from, before, choice);
        }
        let writes = from.writes(way.turn);
        let bits = writes.kept_of(places);
        self.ask(from, Places { bits, ..before }, choice)?;
        for found in writes.each() {
            match found {
                Some(found) if places.has(found.to) => {
                    self.carry_moved(from, way, places.point, found)?;
                }
                _ => {}
            }
        }
        Ok(())
    }

    /// Asks for the place from which a written place gets its word; if that word is no return
    /// address, a walk is found. `AllocError` if memory runs out.
    fn carry_moved(
        &mut self,
        from: Point,
        way: Way,
        to: u32,
        found: Write,
    ) -> Result<(), AllocError> {
        match found.from {
            Some(place) => self.ask(from, Places::one(way.from, place), 1),
            None => self.find_over(way, to, found.to),
        }
    }

    /// Records that places of a point are asked for, and by `choice` how their words go on; those
    /// that were asked for before are skipped. `AllocError` if memory runs out.
    pub(super) fn ask(
        &mut self,
        point: Point,
        places: Places,
        choice: u16,
    ) -> Result<(), AllocError> {
        if places.bits == 0 {
            return Ok(());
        }
        let bits = self.asked.add(places)?;
        if bits == 0 {
            return Ok(());
        }
        let new = Places { bits, ..places };
        self.choose(new, choice)?;
        self.asks.add(point.rank, new)?;
        if new.block == 0 && point.starts() {
            return self.start(point, new);
        }
        Ok(())
    }

    /// Handles places that are asked for at the entry of a procedure. Its bottom word is the return
    /// address, so the procedure returns; a pair holds another word, so a walk is found.
    /// `AllocError` if memory runs out.
    fn start(&mut self, point: Point, new: Places) -> Result<(), AllocError> {
        if let Some(pair) = new.first_pair() {
            self.find_from(point.step, new.point, pair)?;
        }
        match point.procedure {
            Procedure::Entry(entry) if new.has(Place::of_word(0)) => {
                self.exit(entry, point, new.point)
            }
            _ => Ok(()),
        }
    }

    /// Records, once for each procedure, that a walk leads from its entry to a return with its
    /// return address. The calls that wait for that are followed again. `AllocError` if memory runs
    /// out.
    fn exit(&mut self, entry: u16, point: Point, number: u32) -> Result<(), AllocError> {
        if self.exit_of(entry).is_some() {
            return Ok(());
        }
        let (step, end) = self.follow(point.step, number, Place::of_word(0))?;
        let taken = match self.point(end) {
            Some(end) => end.counts.taken,
            None => 0,
        };
        if let Some(known) = self.exits.get_mut(usize::from(entry)) {
            *known = Some(Exit { step, taken });
        }
        push_callers(&self.callers, usize::from(entry), &mut self.left)
    }
}

/// Appends the points of the ways of a list, the newest first. `AllocError` if memory runs out.
fn push_callers(callers: &Lists, list: usize, left: &mut Vec<u32>) -> Result<(), AllocError> {
    let mut link = callers.newest(list);
    for _ in 0..u32::MAX {
        let Some(caller) = link else {
            break;
        };
        left.push(caller.way.from)?;
        link = callers.before(caller);
    }
    Ok(())
}

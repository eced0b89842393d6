//! States at one address are joined.

use crate::nodes::Nodes;
use std::alloc::{AllocError, Global};
use std::mem;
use verify80_needs::{PARTS, Units, numbers_of, sum_of};

impl Nodes<'_> {
    /// Joins states at an address: they are no longer distinguished by those parts that distinguish the most of them, as many as it takes
    /// until there are few enough.
    pub fn join_some(&mut self, alloc: Global, at: u16) -> Result<(), AllocError> {
        let Some(group) = self.groups.get_mut(usize::from(at)) else {
            return Ok(());
        };
        let before = group.joined;
        let places = mem::replace(&mut group.places, Vec::new(alloc));
        let joined = self.parts_to_join(alloc, before, &places, self.most(at, true))?;
        self.enters_exact = false;
        if let Some(group) = self.groups.get_mut(usize::from(at)) {
            group.joined = joined;
        }
        for place in &places {
            if let Some(node) = self.nodes.get(*place as usize) {
                let state = node.placed.state;
                let holder = self.put(at, state)?;
                if let Some(node) = self.nodes.get_mut(holder as usize) {
                    node.growths = 0;
                }
                if let Some(node) = self.nodes.get_mut(*place as usize) {
                    node.taken_by = holder;
                }
            }
        }
        Ok(())
    }

    /// The joined parts of states at these places, with those of which they have the most values, until there are fewer states than `most`.
    fn parts_to_join(
        &self,
        alloc: Global,
        before: Units,
        places: &[u32],
        most: usize,
    ) -> Result<Units, AllocError> {
        if most <= 1 {
            return Ok(Units::ALL);
        }
        let mut parts = Vec::with_capacity(alloc, places.len())?;
        let mut sums = Vec::with_capacity(alloc, places.len())?;
        for place in places {
            if let Some(node) = self.nodes.get(*place as usize) {
                parts.push(numbers_of(node.placed.state))?;
                sums.push(sum_of(0, node.placed.state, before))?;
            }
        }
        let mut joined = before;
        let order = parts_by_count(alloc, before, &parts)?;
        for number in &order {
            joined = joined.union(Units::of_bit(*number));
            for (sum, numbers) in sums.iter_mut().zip(parts.iter()) {
                *sum = sum.wrapping_sub(numbers.get(*number).copied().unwrap_or(0));
            }
            if count_distinct(alloc, &sums)? < most {
                return Ok(joined);
            }
        }
        Ok(Units::ALL)
    }
}

/// The numbers of the parts of states that aren't joined yet: first that of which they have the most values.
fn parts_by_count(
    alloc: Global,
    joined: Units,
    states: &[[u64; PARTS]],
) -> Result<Vec<usize>, AllocError> {
    let mut counted = Vec::new(alloc);
    for number in 0..PARTS {
        if !joined.intersects(Units::of_bit(number)) {
            let mut values = Vec::with_capacity(alloc, states.len())?;
            for numbers in states {
                values.push(numbers[number])?;
            }
            counted.push((count_distinct(alloc, &values)?, PARTS - number))?;
        }
    }
    counted.sort_unstable();
    counted
        .iter()
        .rev()
        .map(|(_, above)| PARTS.saturating_sub(*above))
        .collect(alloc)
}

/// How many different numbers there are.
fn count_distinct(alloc: Global, numbers: &[u64]) -> Result<usize, AllocError> {
    let mut numbers = Vec::from_slice(alloc, numbers)?;
    numbers.sort_unstable();
    numbers.dedup();
    Ok(numbers.len())
}

//! Which addresses of the code are in an instruction.

ghost use Rattle.std.specs.Prelude.{◌≡◌, ◌+◌, ◌<◌, ◌≤◌, true};
ghost use Rattle.loader80_trace.specs.Cover.{data_before, is_covered, is_data, size_of};
ghost use Rattle.verify80.specs.Reached.{found_at};

use decode80::{Fetched, encode};
use image80::Regions;
use machine80::FlatBus;

/// An image's code, with the instructions that are reached.
#[derive(Drop)]
pub(crate) struct Layout<'a> {
    /// The image's regions.
    pub regions: &'a Regions,
    /// The image's memory.
    pub memory: &'a FlatBus,
    /// The instruction at each address, if one is reached there.
    pub reached: &'a [Option<Fetched>],
}

/// The instruction that is reached at an address.
pub(crate) fn reached_at(reached: &[Option<Fetched>], at: u16) -> Option<Fetched>
    ensures { result ≡ found_at reached.now at }
{
    reached.get(usize::from(at)).copied().flatten()
}

/// Whether an address has a byte of code that is in no instruction that is reached.
#[tactic(auto, unfolding(crate::specs::Cover::is_data))]
pub(crate) fn is_data(layout: &Layout<'_>, at: usize) -> bool
    ensures value { result ≡ is_data layout.now.regions.now layout.now.reached.now at }
    ensures within { result ≡ true → at < 65536 }
{
    at < 65536 && layout.regions.in_code(at as u16) && !is_covered(layout.reached, at as u16)
}

/// How many bytes of code that are in no reached instruction lie one after another up to `at`, with it: one more than
/// `before`, how many lie up to the address before it, or 0 if `at` has none. `at` must be below 65536.
pub(crate) fn data_behind(layout: &Layout<'_>, at: usize, before: usize) -> usize
    requires before { before ≡ data_before (is_data layout.now.regions.now layout.now.reached.now) at }
    requires few { before ≤ at }
    requires inside { at < 65536 }
    ensures before { result ≡ data_before (is_data layout.now.regions.now layout.now.reached.now) (at + 1) }
    ensures few { result ≤ at + 1 }
{
    if is_data(layout, at) {
        return before + 1;
    }
    0
}

/// Whether an address is in an instruction that is reached: one that begins there, or one or two addresses before it.
#[tactic(auto, unfolding(crate::specs::Cover::is_covered))]
fn is_covered(reached: &[Option<Fetched>], at: u16) -> bool
    ensures { result ≡ is_covered reached.now at }
{
    reached_at(reached, at).is_some()
        || at >= 1 && size_at(reached, at - 1) >= 2
        || at >= 2 && size_at(reached, at - 2) >= 3
}

/// How many bytes the instruction at an address has; 0 if none is reached there.
fn size_at(reached: &[Option<Fetched>], at: u16) -> usize
    ensures { result ≡ size_of (found_at reached.now at) }
{
    match reached_at(reached, at) {
        Some(found) => encode(found.instr).1,
        None => 0,
    }
}

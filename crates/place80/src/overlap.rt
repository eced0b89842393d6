//! Segments that share an address.

ghost use Rattle.std.specs.Prelude.{◌≡◌, ◌≤◌, ◌==◌, if◌then◌else◌, None, length};
ghost use Rattle.place80.specs.PlaceFault.{overlaps, beside_each, pairs, absolute_place, absolute_places, with_each, all_pairs, first_sharing};

use crate::placed_segments::Placed;
use omf_core::segment_id::ABSOLUTE;
use omf_model::relocation_laws::sound_modules_keep_rules;
use omf_module::{Content, Module};

/// Two placed segments that share an address; an absolute content or a restart counts as a segment with the id 0.
pub(crate) type Pair = (Placed, Placed);

/// The first two segments that share an address, or else the first absolute content that shares one, and the first
/// segment that it meets. `None` if there are none.
#[tactic(auto, using(crate::proofs::PairLemmas::found_first, crate::proofs::PairLemmas::found_among_others))]
pub(crate) fn first_overlap(program: &Module, segments: &[Placed]) -> Option<Pair>
    ensures { result ≡ first_sharing (all_pairs program.now segments.now) }
{
    match first_of_segments(segments) {
        Some(pair) => Some(pair),
        None => first_of_contents(program, segments),
    }
}

/// The first two segments that share an address, `None` if there are none.
fn first_of_segments(segments: &[Placed]) -> Option<Pair>
    ensures { result ≡ first_sharing (pairs segments.now) }
{
    for index in 0..segments.len() {
        if let Some(pair) = first_beside(segments[index], &segments[index + 1..]) {
            return Some(pair);
        }
    }
    None
}

/// The segment and the first of the others that shares an address with it, `None` if none does.
pub(crate) fn first_beside(place: Placed, others: &[Placed]) -> Option<Pair>
    ensures { result ≡ first_sharing (beside_each place others.now) }
{
    for other in others {
        if overlaps(place, *other) {
            return Some((place, *other));
        }
    }
    None
}

/// Whether an address lies in both segments. An empty one shares none.
fn overlaps(place: Placed, other: Placed) -> bool
    ensures { result ≡ overlaps place other }
{
    place.length > 0
        && other.length > 0
        && u64::from(place.base) < u64::from(other.base) + u64::from(other.length)
        && u64::from(other.base) < u64::from(place.base) + u64::from(place.length)
}

/// The first absolute content that shares an address with a segment, and the first segment that it meets; `None` if
/// there is none.
pub(crate) fn first_of_contents(program: &Module, segments: &[Placed]) -> Option<Pair>
    ensures { result ≡ first_sharing (with_each segments.now (absolute_places program.now.contents)) }
{
    sound_modules_keep_rules();
    let contents = program.contents();
    for content in contents {
        if let Some(pair) = first_of_content(content, segments) {
            return Some(pair);
        }
    }
    None
}

/// The content and the first segment that shares an address with it; `None` if there is none, or the content isn't
/// absolute. The content must have at most 65531 bytes.
fn first_of_content(content: &Content, segments: &[Placed]) -> Option<Pair>
    requires { length content.now.bytes ≤ 65531 }
    ensures { result ≡ (if content.now.segment == 0 then first_sharing (beside_each (absolute_place content.now) segments.now) else None) }
{
    if content.segment == ABSOLUTE {
        first_beside(absolute_place(content), segments)
    } else {
        None
    }
}

/// The addresses of an absolute content, as those of a segment with the id 0. The content must have at most 65531
/// bytes.
fn absolute_place(content: &Content) -> Placed
    requires { length content.now.bytes ≤ 65531 }
    ensures { result ≡ absolute_place content.now }
{
    Placed {
        id: ABSOLUTE,
        base: u32::from(content.offset),
        length: content.bytes.len() as u32,
    }
}

//! The numbers of targets, by which tables of their values are indexed.

ghost use Rattle.std.specs.Prelude.{◌≡◌, ◌<◌, true};
ghost use Rattle.rom80_pattern.specs.CodeBytes.{number_of, has_small_id};

use omf_model::Target;

/// Returns the number of a target, by which tables of values are indexed: a segment's id, and 256 plus an external's index.
pub fn number_of(target: Target) -> usize
    ensures number { result ≡ number_of target }
    ensures few { result < 65792 }
{
    match target {
        Target::Segment(id) => usize::from(id),
        Target::External(index) => 256 + usize::from(index),
    }
}

/// Returns the target with a number: the segment with that id, or from 256 on an external.
pub fn target_of(number: usize) -> Target
    requires { number < 65792 }
    ensures number { number_of result ≡ number }
    ensures small { has_small_id result ≡ true }
{
    if number < 256 {
        Target::Segment(number as u8)
    } else {
        Target::External((number - 256) as u16)
    }
}

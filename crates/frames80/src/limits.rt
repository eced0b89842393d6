//! How far a program is followed.

/// The most points of a program that are followed: one with more is refused.
pub const MOST_POINTS: usize = 262_144;

/// How many own words, and how many words taken, a frame may have at most; a program is followed no
/// further from a point whose frame has more.
pub const MOST_WORDS: u32 = 1_000_000;

//! What holds of all frames, as contracts: the laws that a verifier stands on.

ghost use Rattle.frames80.specs.Places.{ChangesByPlaces, ReturnsByPlaces, MeetsByPlaces, CountsAlone, CoveredGoesAlong, ReturnRefused};
ghost use Rattle.frames80.specs.FrameEquality.{EqualityIsExact};

/// A law of all frames. After a change or a call each word and pair comes from one word or pair of
/// the frame before, or is any word. After a meeting each is the return address exactly where both
/// frames have it.
pub fn places_move()
    // Each effect takes each place from one place, or it is any word.
    ensures change { ChangesByPlaces }
    // After a call each place comes from one place, or it is any word.
    ensures call { ReturnsByPlaces }
    // A merged place is the return address exactly where both are.
    ensures meet { MeetsByPlaces }
{}

/// A law of all frames: the counts of words and of words taken alone decide whether an instruction
/// other than a return is refused, and what the counts are after it.
pub fn counts_decide()
    ensures counts { CountsAlone }
    // A return also needs the one word to be the return address.
    ensures refused { ReturnRefused }
{}

/// A law of all frames: one that another covers (the same counts, and the return address at least
/// where the other has it) is not refused if the other isn't, and is covered by it after each
/// change, call and meeting.
pub fn covered_goes_along()
    ensures { CoveredGoesAlong }
{}

/// A law of all frames: `==` holds exactly where all their parts are equal.
pub fn equality_is_exact()
    ensures { EqualityIsExact }
{}

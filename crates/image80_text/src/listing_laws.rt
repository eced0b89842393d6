//! What holds of every listing, over the definitions alone. The law is ensured by a function that does nothing of its own.

ghost use Rattle.image80_text.specs.ListingLaws.{RangesAreListedLineByLine};

use decode80::spelling_laws;

/// A law: the listing of a range has a line for each instruction or single byte, the first at the range's first
/// address, each next one at the address behind the one before it, and the last one ends with the range.
pub fn ranges_are_listed_line_by_line()
    ensures { RangesAreListedLineByLine }
{
    spelling_laws();
}

//! Named commons, and publics.

use omf_core::Name;

/// A named common of a module. (8080 Object Module Formats, named common definitions record.)
#[derive(PartialEq, Eq, Debug, Drop)]
pub struct Common {
    /// The segment id, from 6 to 254.
    pub id: u8,
    /// The common's name.
    pub name: Name,
}

/// A name that a module declares public, with its place. (8080 Object Module Formats, public
/// declarations record.)
#[derive(PartialEq, Eq, Debug, Drop)]
pub struct Public {
    /// The name.
    pub name: Name,
    /// The id of the segment that the name is in.
    pub segment: u8,
    /// The offset in that segment, which may be past its end.
    pub offset: u16,
}

//! The records of a module as they lie in a file.

use omf_body::{Body, EndBody, HeaderBody};
use omf_model::Common;

/// The body of a record, with the record's place.
#[derive(Drop)]
pub struct PlacedBody<'a> {
    /// The place of the record in the file.
    pub at: usize,
    /// The record's body.
    pub body: Body<'a>,
}

/// The records of a module that follow its header.
#[derive(Drop)]
pub struct Within<'a> {
    /// The records between the header and the end, in order.
    pub bodies: Vec<PlacedBody<'a>>,
    /// The place of the module end record.
    pub end_at: usize,
    /// The body of the module end record.
    pub end: EndBody<'a>,
}

/// What is read of a module after its header.
#[derive(Drop)]
pub struct WithinRead<'a> {
    /// The records after the header.
    pub within: Within<'a>,
    /// The named commons that the records declare.
    pub commons: Vec<Common>,
    /// The place after the module end record.
    pub after: usize,
}

/// The records of a module.
#[derive(Drop)]
pub struct ModuleFile<'a> {
    /// The place of the header record.
    pub at: usize,
    /// The body of the header record.
    pub header: HeaderBody<'a>,
    /// The records after the header.
    pub within: Within<'a>,
}

/// What is read of a module.
#[derive(Drop)]
pub struct ModuleFileRead<'a> {
    /// The module's records.
    pub file: ModuleFile<'a>,
    /// The named commons that the records declare.
    pub commons: Vec<Common>,
    /// The place after the module end record.
    pub after: usize,
}

//! What LINK makes of a reference.

use omf_model::Target;

/// What LINK makes of a reference of a module.
#[derive(Clone, Copy)]
pub struct Reference {
    /// What is added to the reference: the offset of its target in the linked segment, 0 for an
    /// external.
    pub word: u16,
    /// The target in the linked module; `None` for absolute bytes, as nothing is left to resolve.
    pub target: Option<Target>,
}

//! What a module holds, and relocations.
//!
//! Proved: a module is made exactly of parts that keep the rules; each word is added at its place; LINK and then LOCATE add the sums
//! once.
//!
//! | Item | What it is |
//! |---|---|
//! | [`Module`], [`Parts`] | a module that keeps the rules; the parts that it is made of |
//! | [`Segment`], [`Common`], [`Public`] | a segment's size and alignment; a named common; a declared name |
//! | [`has_common_id`], [`has_common_name`], [`common_name`], [`has_segment`], [`segment_in`], [`end_of`] | what commons and segments a module has, while it is read |
//! | [`is_fixed_id`], [`is_used`] | whether every module has a segment, whether a segment has bytes or is paged |
//! | [`Content`], [`Fixup`], [`Field`], [`Target`] | bytes of a segment, and the references that stand in them |
//! | [`marks`] | which bytes of a content its references have |
//! | [`copy_names`], [`copy_publics`] | a copy of names, of publics |
//! | [`laws`] | segments are kept |
//! | [`PartsFault`] | why parts make no module |
//! | [`Patch`], [`apply_patches`] | words that are added to a content's bytes, as its fixups say |
//! | [`laws`] | what holds of patches, of parts and of the bytes that modules define |
#![tactic(auto)]

mod canonical_segments;
mod content;
mod copies;
mod duplicates;
mod fault;
mod fixup;
pub mod laws;
pub mod marks;
mod modules;
mod name_invariants;
mod parts;
mod patching;
pub mod relocation_laws;
mod rules;
mod segment;
mod symbols;

pub use content::Content;
pub use copies::{copy_names, copy_publics};
pub use duplicates::has_common_name;
pub use fault::PartsFault;
pub use fixup::{Fixup, Target};
pub use modules::Module;
pub use omf_body::Field;
pub use parts::Parts;
pub use patching::{Patch, apply_patches};
pub use rules::{
    common_name, end_of, has_common_id, has_segment, is_fixed_id, is_used, segment_in,
};
pub use segment::Segment;
pub use symbols::{Common, Public};

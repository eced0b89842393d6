//! Copies of a module's parts.

ghost use Rattle.std.specs.Prelude.{◌≡◌, IfOk};

use crate::content::Content;
use crate::symbols::{Common, Public};
use omf_core::Name;
use std::alloc::{AllocError, Global};

/// A copy of the names.
///
/// # Errors
/// `AllocError` only if memory runs out.
pub fn copy_names(alloc: Global, names: &[Name]) -> Result<Vec<Name>, AllocError>
    ensures { IfOk result (λ copies. copies.items ≡ names.now) }
{
    let mut copies = Vec::new(alloc);
    for name in names {
        copies.push(name.copy(alloc)?)?;
    }
    Ok(copies)
}

/// A copy of the named commons.
///
/// # Errors
/// `AllocError` only if memory runs out.
pub(crate) fn copy_commons(alloc: Global, commons: &[Common]) -> Result<Vec<Common>, AllocError>
    ensures { IfOk result (λ copies. copies.items ≡ commons.now) }
{
    let mut copies = Vec::new(alloc);
    for common in commons {
        copies.push(Common {
            id: common.id,
            name: common.name.copy(alloc)?,
        })?;
    }
    Ok(copies)
}

/// A copy of the publics.
///
/// # Errors
/// `AllocError` only if memory runs out.
pub fn copy_publics(alloc: Global, publics: &[Public]) -> Result<Vec<Public>, AllocError>
    ensures { IfOk result (λ copies. copies.items ≡ publics.now) }
{
    let mut copies = Vec::new(alloc);
    for public in publics {
        copies.push(Public {
            name: public.name.copy(alloc)?,
            segment: public.segment,
            offset: public.offset,
        })?;
    }
    Ok(copies)
}

/// A copy of the contents, with their fixups.
///
/// # Errors
/// `AllocError` only if memory runs out.
pub(crate) fn copy_contents(alloc: Global, contents: &[Content]) -> Result<Vec<Content>, AllocError>
    ensures { IfOk result (λ copies. copies.items ≡ contents.now) }
{
    let mut copies = Vec::new(alloc);
    for content in contents {
        let bytes = Vec::from_slice(alloc, &content.bytes)?;
        let fixups = Vec::from_slice(alloc, &content.fixups)?;
        copies.push(Content {
            segment: content.segment,
            offset: content.offset,
            bytes,
            fixups,
        })?;
    }
    Ok(copies)
}

//! The one way in which each body is read.

ghost use Rattle.std.specs.Prelude.{◌≡◌, ◌≢◌, ◌++◌, Ok, Err, IfOk, IfErr, IfSome, IfNone};
ghost use Rattle.omf_core.specs.Kind.{kind_byte};
ghost use Rattle.omf_core.specs.declared.kind.RecordKind.TheVariants as kind;
ghost use Rattle.omf_body.specs.declared.body.Body.{Body as BodyValue};
ghost use Rattle.omf_body.specs.declared.fault.BodyFault.{BodyFault as BodyFaultValue};
ghost use Rattle.omf_body.specs.declared.body.Body.TheVariants as body_of;
ghost use Rattle.omf_body.specs.Bodies.{place_bytes, body_kind, Spells};
ghost use Rattle.omf_body.specs.FirstFault.{read_place, FaultsBody, FirstFault};

use crate::body::{
    Body, ContentBody, EndBody, ExternalReferencesBody, HeaderBody, IntersegmentBody, Place,
    PublicsBody, RelocationBody,
};
use crate::bytes::Bytes;
use crate::cursor::Cursor;
use crate::distinct::are_distinct;
use crate::entries::{CommonEntry, ExternalEntry};
use crate::fault::{BodyFault, FieldFault};
use crate::field::Field;
use crate::row::Row;
use omf_core::{Record, RecordKind};

/// Reads the body of a module header (02), or gives its first fault; an id that is listed twice is
/// `BadBody`.
fn header_in<'a>(bytes: &'a [u8]) -> Result<HeaderBody<'a>, FieldFault>
    ensures spelled { IfOk result (λ b. Spells 0x02 bytes.now (body_of.ModuleHeader b)) }
    ensures fault { IfErr result (λ f. FaultsBody kind.ModuleHeader bytes.now f) }
{
    let mut cursor = Cursor::new(bytes);
    let name = cursor.name()?;
    let translator = cursor.byte()?;
    let version = cursor.byte()?;
    let segments = Row::read(cursor.rest().bytes)?;
    if !are_distinct(segments.copy()) {
        return Err(FieldFault::BadBody);
    }
    Ok(HeaderBody {
        name,
        translator,
        version,
        segments,
    })
}

/// Reads a segment id and an offset, or gives `BadBody` if fewer than three bytes are left.
fn place_at(cursor: &mut Cursor) -> Result<Place, FieldFault>
    ensures read { IfOk result (λ p. read_place cursor.old ≡ Ok (p, cursor.new)) }
    ensures spelled { IfOk result (λ p. cursor.old ≡ place_bytes p ++ cursor.new) }
    ensures fault { IfErr result (λ f. read_place cursor.old ≡ Err f) }
{
    let segment = cursor.byte()?;
    let offset = cursor.word()?;
    Ok(Place { segment, offset })
}

/// Reads the body of a module end (04), or gives its first fault.
fn end_in<'a>(bytes: &'a [u8]) -> Result<EndBody<'a>, FieldFault>
    ensures spelled { IfOk result (λ b. Spells 0x04 bytes.now (body_of.ModuleEnd b)) }
    ensures fault { IfErr result (λ f. FaultsBody kind.ModuleEnd bytes.now f) }
{
    let mut cursor = Cursor::new(bytes);
    let start = match cursor.byte()? {
        0 => None,
        1 => Some(place_at(&mut cursor)?),
        _ => return Err(FieldFault::BadBody),
    };
    let unread = cursor.rest();
    Ok(EndBody { start, unread })
}

/// Reads the body of a content record (06), or gives its first fault.
fn content_in<'a>(bytes: &'a [u8]) -> Result<ContentBody<'a>, FieldFault>
    ensures spelled { IfOk result (λ b. Spells 0x06 bytes.now (body_of.Content b)) }
    ensures fault { IfErr result (λ f. FaultsBody kind.Content bytes.now f) }
{
    let mut cursor = Cursor::new(bytes);
    let Place { segment, offset } = place_at(&mut cursor)?;
    let bytes = cursor.rest();
    Ok(ContentBody {
        segment,
        offset,
        bytes,
    })
}

/// Reads the body of a public declarations record (16), or gives its first fault.
fn publics_in<'a>(bytes: &'a [u8]) -> Result<PublicsBody<'a>, FieldFault>
    ensures spelled { IfOk result (λ b. Spells 0x16 bytes.now (body_of.PublicDeclarations b)) }
    ensures fault { IfErr result (λ f. FaultsBody kind.PublicDeclarations bytes.now f) }
{
    let mut cursor = Cursor::new(bytes);
    let segment = cursor.byte()?;
    let publics = Row::read(cursor.rest().bytes)?;
    Ok(PublicsBody { segment, publics })
}

/// Reads the body of an external names record (18), or gives its first fault.
fn externals_in<'a>(bytes: &'a [u8]) -> Result<Row<'a, ExternalEntry<'a>>, FieldFault>
    ensures spelled { IfOk result (λ b. Spells 0x18 bytes.now (body_of.ExternalNames b)) }
    ensures fault { IfErr result (λ f. FaultsBody kind.ExternalNames bytes.now f) }
{
    Row::read(bytes)
}

/// Reads the body of a named commons record (2E), or gives its first fault.
fn commons_in<'a>(bytes: &'a [u8]) -> Result<Row<'a, CommonEntry<'a>>, FieldFault>
    ensures spelled { IfOk result (λ b. Spells 0x2E bytes.now (body_of.NamedCommons b)) }
    ensures fault { IfErr result (λ f. FaultsBody kind.NamedCommons bytes.now f) }
{
    Row::read(bytes)
}

/// Reads the body of an external references record (20), or gives its first fault.
fn external_references_in<'a>(bytes: &'a [u8]) -> Result<ExternalReferencesBody<'a>, FieldFault>
    ensures spelled { IfOk result (λ b. Spells 0x20 bytes.now (body_of.ExternalReferences b)) }
    ensures fault { IfErr result (λ f. FaultsBody kind.ExternalReferences bytes.now f) }
{
    let mut cursor = Cursor::new(bytes);
    let field = Field::read(&mut cursor)?;
    let references = Row::read(cursor.rest().bytes)?;
    Ok(ExternalReferencesBody { field, references })
}

/// Reads the body of a relocation record (22), or gives its first fault.
fn relocation_in<'a>(bytes: &'a [u8]) -> Result<RelocationBody<'a>, FieldFault>
    ensures spelled { IfOk result (λ b. Spells 0x22 bytes.now (body_of.Relocation b)) }
    ensures fault { IfErr result (λ f. FaultsBody kind.Relocation bytes.now f) }
{
    let mut cursor = Cursor::new(bytes);
    let field = Field::read(&mut cursor)?;
    let references = Row::read(cursor.rest().bytes)?;
    Ok(RelocationBody { field, references })
}

/// Reads the body of an intersegment references record (24), or gives its first fault.
fn intersegment_in<'a>(bytes: &'a [u8]) -> Result<IntersegmentBody<'a>, FieldFault>
    ensures spelled { IfOk result (λ b. Spells 0x24 bytes.now (body_of.IntersegmentReferences b)) }
    ensures fault { IfErr result (λ f. FaultsBody kind.IntersegmentReferences bytes.now f) }
{
    let mut cursor = Cursor::new(bytes);
    let segment = cursor.byte()?;
    let field = Field::read(&mut cursor)?;
    let references = Row::read(cursor.rest().bytes)?;
    Ok(IntersegmentBody {
        segment,
        field,
        references,
    })
}

/// Reads the body of a record of this kind, or gives its first fault; `None` if an object file has
/// no records of this kind.
fn body_in<'a>(kind: RecordKind, bytes: &'a [u8]) -> Option<Result<Body<'a>, FieldFault>>
    ensures spelled { IfSome result (λ r. IfOk r (λ body. Spells (kind_byte kind) bytes.now body)) }
    ensures fault { IfSome result (λ r. IfErr r (λ f. FaultsBody kind bytes.now f)) }
    ensures none { IfNone result ((body : BodyValue) → body_kind body ≢ kind) }
{
    let unread = Bytes { bytes };
    match kind {
        RecordKind::ModuleHeader => Some(header_in(bytes).map(Body::ModuleHeader)),
        RecordKind::ModuleEnd => Some(end_in(bytes).map(Body::ModuleEnd)),
        RecordKind::Content => Some(content_in(bytes).map(Body::Content)),
        RecordKind::LineNumbers => Some(Ok(Body::LineNumbers(unread))),
        RecordKind::EndOfFile => Some(Ok(Body::EndOfFile(unread))),
        RecordKind::Ancestor => Some(Ok(Body::Ancestor(unread))),
        RecordKind::LocalSymbols => Some(Ok(Body::LocalSymbols(unread))),
        RecordKind::PublicDeclarations => Some(publics_in(bytes).map(Body::PublicDeclarations)),
        RecordKind::ExternalNames => Some(externals_in(bytes).map(Body::ExternalNames)),
        RecordKind::ExternalReferences => {
            Some(external_references_in(bytes).map(Body::ExternalReferences))
        }
        RecordKind::Relocation => Some(relocation_in(bytes).map(Body::Relocation)),
        RecordKind::IntersegmentReferences => {
            Some(intersegment_in(bytes).map(Body::IntersegmentReferences))
        }
        RecordKind::NamedCommons => Some(commons_in(bytes).map(Body::NamedCommons)),
        RecordKind::LibraryModuleLocations
        | RecordKind::LibraryModuleNames
        | RecordKind::LibraryDictionary
        | RecordKind::LibraryHeader => None,
    }
}

/// Reads the body of a record. The body borrows from the file and takes no memory.
///
/// # Errors
/// The first fault of the body, its fields taken in order:
/// `UnknownKind` if no record of this type byte stands in an object file;
/// `BadBody` if the body ends inside a field, a field byte isn't 1, 2 or 3, the main byte of an end isn't 0 or 1, the id
/// of a common is outside 6 to 254, or an id is listed twice in a header;
/// `BadName` if a name that the body holds whole has no bytes, or one outside 21h to 7Eh.
/// The ids and the names of all commons of a module must differ: that is not checked here.
pub fn parse<'a>(source: Record<'a>) -> Result<Body<'a>, BodyFault>
    // What is read is what the body's bytes spell, and no body that they spell is refused or read as another.
    ensures read { IfOk result (λ body. Spells source.entry.kind source.entry.body.now body) }
    ensures every_body { (body : BodyValue) → Spells source.entry.kind source.entry.body.now body → result ≡ Ok body }

    // Each refusal has its cause, and it is the first.
    ensures fault { IfErr result (λ fault. FirstFault source.entry.kind source.entry.body.now fault) }
    ensures every_fault { (fault : BodyFaultValue) → FirstFault source.entry.kind source.entry.body.now fault →
        result ≡ Err fault }
{
    let Some(kind) = RecordKind::from_byte(source.kind) else {
        return Err(BodyFault::UnknownKind(source.kind));
    };
    match body_in(kind, source.body) {
        None => Err(BodyFault::UnknownKind(source.kind)),
        Some(Ok(body)) => Ok(body),
        Some(Err(fault)) => Err(fault.of(kind)),
    }
}

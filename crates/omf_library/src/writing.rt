//! Libraries as bytes, in canonical form.

ghost use Rattle.std.specs.Prelude.{◌≡◌, ◌≤◌, [], ◌∷◌, ◌++◌, ◌+◌, ◌/◌, ◌||◌, length, nat_lt, IfOk, OnOk, OnErr, IsErrOf, IsTrue, false};
ghost use Rattle.std.specs.List.{flat_map, AllByRecursion};
ghost use Rattle.omf_core.specs.Kind.{kind_byte};
ghost use Rattle.omf_core.specs.Record.{spelling};
ghost use Rattle.omf_body.specs.Fields.{word_bytes};
ghost use Rattle.omf_module.specs.Writing.{module_bytes};
ghost use Rattle.omf_module.specs.WritingLaws.{IsReadAgain};
ghost use Rattle.omf_library.specs.Spelled.{SpellsLibrary};
ghost use Rattle.omf_library.specs.Writing.{location_bytes, places_from, names_body, public_names, locations_body, dictionary_body, library_bytes, is_too_large};

use crate::fault::LibraryPutFault;
use crate::laws::written_library_is_spelled;
use omf_core::{RecordKind, never_too_long, push_name, push_word, put_record};
use omf_module::{Module, write_module};
use std::alloc::{AllocError, Global};

/// The place of the first module, which follows the header record: 3 + 6 + 1 bytes.
const FIRST_PLACE: usize = 10;

/// The number of bytes of a block: a place is written as its block and the byte in that.
const BLOCK: usize = 128;

/// The most bytes that a record's body has.
const LONGEST_BODY: usize = 65534;

/// The number of bytes of a written place.
const LOCATION: usize = 4;

/// The greatest number that a word holds.
const GREATEST_WORD: usize = 65535;

/// Appends a place as two words: its block of 128 bytes, which must be at most 65535, and the byte
/// in that. `Err` only if memory runs out.
fn push_location(place: usize, out: &mut Vec<u8>) -> Result<(), AllocError>
    requires { place / 128 ≤ 65535 }
    ensures { OnOk result (out.new.items ≡ out.old.items ++ location_bytes place) }
{
    push_word((place / BLOCK) as u16, out)?;
    push_word((place % BLOCK) as u16, out)
}

/// Appends the records of a module to `bytes`, and the place in the library where it begins to
/// `places`. `Err` only if memory runs out.
fn push_module(
    alloc: Global,
    source: &Module,
    bytes: &mut Vec<u8>,
    places: &mut Vec<usize>,
) -> Result<(), AllocError>
    ensures bytes { OnOk result (bytes.new.items ≡ bytes.old.items ++ module_bytes source.now) }
    ensures place { OnOk result (places.new.items ≡ places.old.items ++ (10 + length bytes.old.items) ∷ []) }
    ensures read { OnOk result (IsReadAgain source.now) }
{
    places.push(FIRST_PLACE + bytes.len())?;
    write_module(alloc, source, bytes)
}

/// The records of the modules, one module after another, and the place in the library where each
/// begins. `Err` only if memory runs out.
fn modules_with_places(
    alloc: Global,
    modules: &[Module],
) -> Result<(Vec<u8>, Vec<usize>), AllocError>
    ensures bytes { IfOk result (λ r. r.0.items ≡ flat_map module_bytes modules.now) }
    ensures places { IfOk result (λ r. r.1.items ≡ places_from 10 modules.now) }
    ensures read { OnOk result (AllByRecursion IsReadAgain modules.now) }
{
    let mut bytes = Vec::new(alloc);
    let mut places = Vec::new(alloc);
    for source in modules {
        push_module(alloc, source, &mut bytes, &mut places)?;
    }
    Ok((bytes, places))
}

/// The body of the library module names record (28). `Err` only if memory runs out.
fn names_of(alloc: Global, modules: &[Module]) -> Result<Vec<u8>, AllocError>
    ensures { IfOk result (λ body. body.items ≡ names_body modules.now) }
{
    let mut body = Vec::new(alloc);
    for source in modules {
        push_name(source.name().bytes(), &mut body)?;
    }
    Ok(body)
}

/// The body of the library module locations record (26) for these places. Each place must lie in
/// one of the first 65536 blocks of 128 bytes. `Err` only if memory runs out.
fn locations_of(alloc: Global, places: &[usize]) -> Result<Vec<u8>, AllocError>
    requires { AllByRecursion (λ place. place / 128 ≤ 65535) places.now }
    ensures { IfOk result (λ body. body.items ≡ flat_map location_bytes places.now) }
{
    let mut body = Vec::new(alloc);
    for place in places {
        push_location(*place, &mut body)?;
    }
    Ok(body)
}

/// Appends the names of a module's publics, and a 0 after them, as the dictionary has them. `Err`
/// only if memory runs out.
fn push_public_names(source: &Module, out: &mut Vec<u8>) -> Result<(), AllocError>
    ensures { OnOk result (out.new.items ≡ out.old.items ++ public_names source.now) }
{
    for public in source.publics() {
        push_name(public.name.bytes(), out)?;
    }
    out.extend_from_slice(&[0])
}

/// The body of the library dictionary record (2A). `Err` only if memory runs out.
fn dictionary_of(alloc: Global, modules: &[Module]) -> Result<Vec<u8>, AllocError>
    ensures { IfOk result (λ body. body.items ≡ dictionary_body modules.now) }
{
    let mut body = Vec::new(alloc);
    for source in modules {
        push_public_names(source, &mut body)?;
    }
    Ok(body)
}

/// The sizes of a library that its header and its index limit.
#[derive(Clone, Copy)]
struct Sizes {
    /// The number of modules.
    modules: usize,
    /// The number of bytes of the modules' names.
    names: usize,
    /// The number of places of modules.
    places: usize,
    /// The number of bytes of the dictionary.
    dictionary: usize,
    /// The place of the index in the file.
    index: usize,
}

/// Whether a library would exceed what its format can hold: a word can't hold the number of modules or
/// the block of the index, or a body of the index has more than 65534 bytes.
fn exceeds(sizes: Sizes) -> bool
    ensures { result ≡ (nat_lt 65535 sizes.modules || nat_lt 65534 sizes.names || nat_lt 16383 sizes.places
        || nat_lt 65534 sizes.dictionary || nat_lt 65535 (sizes.index / 128)) }
{
    sizes.modules > GREATEST_WORD
        || sizes.names > LONGEST_BODY
        || sizes.places > LONGEST_BODY / LOCATION
        || sizes.dictionary > LONGEST_BODY
        || sizes.index / BLOCK > GREATEST_WORD
}

/// Whether the library of these modules is too large to be written. The other arguments must be
/// theirs: the body of the names, the places, the body of the dictionary, and the records.
fn is_too_large(
    modules: &[Module],
    names: &[u8],
    places: &[usize],
    dictionary: &[u8],
    bytes: &[u8],
) -> bool
    requires names { names.now ≡ names_body modules.now }
    requires places { places.now ≡ places_from 10 modules.now }
    requires dictionary { dictionary.now ≡ dictionary_body modules.now }
    requires bytes { bytes.now ≡ flat_map module_bytes modules.now }
    ensures { result ≡ is_too_large modules.now }
{
    exceeds(Sizes {
        modules: modules.len(),
        names: names.len(),
        places: places.len(),
        dictionary: dictionary.len(),
        index: FIRST_PLACE + bytes.len(),
    })
}

/// Appends the record of this kind and body to `out`; the body must have at most 65534 bytes. `Err`
/// only if memory runs out.
fn append(alloc: Global, kind: RecordKind, body: &[u8], out: &mut Vec<u8>) -> Result<(), AllocError>
    requires { length body.now ≤ 65534 }
    ensures { OnOk result (out.new.items ≡ out.old.items ++ spelling (kind_byte kind) body.now) }
{
    never_too_long(put_record(alloc, kind.byte(), body, out))
}

/// The body of the library header (2C): the number of modules, and the place of the index. That
/// place must lie in one of the first 65536 blocks of 128 bytes. `Err` only if memory runs out.
fn header_of(alloc: Global, count: u16, index: usize) -> Result<Vec<u8>, AllocError>
    requires { index / 128 ≤ 65535 }
    ensures { IfOk result (λ body. body.items ≡ word_bytes count ++ location_bytes index) }
{
    let mut body = Vec::new(alloc);
    push_word(count, &mut body)?;
    push_location(index, &mut body)?;
    Ok(body)
}

/// The bodies of the records of a library's index.
#[derive(Drop)]
struct Index {
    /// The body of the library module names record (28).
    names: Vec<u8>,
    /// The body of the library module locations record (26).
    locations: Vec<u8>,
    /// The body of the library dictionary record (2A).
    dictionary: Vec<u8>,
}

/// The bytes of a library file: a header record with this body, the modules' records, those of the
/// index, and an end-of-file record. The header body and the bodies of the index must have at most
/// 65534 bytes each. `Err` only if memory runs out.
fn file_of(
    alloc: Global,
    header: &[u8],
    modules: &[u8],
    index: &Index,
) -> Result<Vec<u8>, AllocError>
    requires header { length header.now ≤ 65534 }
    requires names { length index.now.names.items ≤ 65534 }
    requires locations { length index.now.locations.items ≤ 65534 }
    requires dictionary { length index.now.dictionary.items ≤ 65534 }
    ensures { IfOk result (λ file. file.items ≡ spelling 0x2C header.now ++ modules.now ++ spelling 0x28 index.now.names.items
        ++ spelling 0x26 index.now.locations.items ++ spelling 0x2A index.now.dictionary.items ++ spelling 0x0E []) }
{
    let mut file = Vec::new(alloc);
    append(alloc, RecordKind::LibraryHeader, header, &mut file)?;
    file.extend_from_slice(modules)?;
    append(
        alloc,
        RecordKind::LibraryModuleNames,
        &index.names,
        &mut file,
    )?;
    append(
        alloc,
        RecordKind::LibraryModuleLocations,
        &index.locations,
        &mut file,
    )?;
    append(
        alloc,
        RecordKind::LibraryDictionary,
        &index.dictionary,
        &mut file,
    )?;
    append(alloc, RecordKind::EndOfFile, &[], &mut file)?;
    Ok(file)
}

/// The index of these modules; `places` must be the places of their records in the file, the first
/// at 10, and `bytes` their records. `TooLarge` only if the modules are too large for a library,
/// `Memory` only if memory runs out.
fn index_of(
    alloc: Global,
    modules: &[Module],
    places: &[usize],
    bytes: &[u8],
) -> Result<Index, LibraryPutFault>
    requires places { places.now ≡ places_from 10 modules.now }
    requires bytes { bytes.now ≡ flat_map module_bytes modules.now }
    ensures names { IfOk result (λ index. index.names.items ≡ names_body modules.now) }
    ensures locations { IfOk result (λ index. index.locations.items ≡ locations_body modules.now) }
    ensures dictionary { IfOk result (λ index. index.dictionary.items ≡ dictionary_body modules.now) }
    ensures fits { OnOk result (is_too_large modules.now ≡ false) }
    ensures too_large { IsErrOf result LibraryPutFault.TooLarge → IsTrue (is_too_large modules.now) }
{
    let names = names_of(alloc, modules)?;
    let dictionary = dictionary_of(alloc, modules)?;
    if is_too_large(modules, &names, places, &dictionary, bytes) {
        return Err(LibraryPutFault::TooLarge);
    }
    let locations = locations_of(alloc, places)?;
    Ok(Index {
        names,
        locations,
        dictionary,
    })
}

/// The bytes of the library of these modules, whose records and index are given, and which must not
/// be too large for one. `Err` only if memory runs out.
fn library_with(
    alloc: Global,
    modules: &[Module],
    bytes: &[u8],
    index: &Index,
) -> Result<Vec<u8>, AllocError>
    requires fits { is_too_large modules.now ≡ false }
    requires bytes { bytes.now ≡ flat_map module_bytes modules.now }
    requires names { index.now.names.items ≡ names_body modules.now }
    requires locations { index.now.locations.items ≡ locations_body modules.now }
    requires dictionary { index.now.dictionary.items ≡ dictionary_body modules.now }
    ensures { IfOk result (λ file. file.items ≡ library_bytes modules.now) }
{
    let header = header_of(alloc, modules.len() as u16, FIRST_PLACE + bytes.len())?;
    file_of(alloc, &header, bytes, index)
}

/// The bytes of the library of these modules. `TooLarge` only if the modules are too large for one,
/// `Memory` only if memory runs out.
fn library_of(alloc: Global, modules: &[Module]) -> Result<Vec<u8>, LibraryPutFault>
    ensures written { IfOk result (λ file. file.items ≡ library_bytes modules.now) }
    ensures fits { OnOk result (is_too_large modules.now ≡ false) }
    ensures too_large { IsErrOf result LibraryPutFault.TooLarge → IsTrue (is_too_large modules.now) }
    ensures read { OnOk result (AllByRecursion IsReadAgain modules.now) }
{
    let (bytes, places) = modules_with_places(alloc, modules)?;
    let index = index_of(alloc, modules, &places, &bytes)?;
    let file = library_with(alloc, modules, &bytes, &index)?;
    Ok(file)
}

/// Appends the library of these modules to `out`, which grows by its own allocator: a library
/// header (2C) with the number of modules and the place of the index, the records of each module,
/// as [`write_module`] writes them, library module names (28), library module locations (26), a
/// library dictionary (2A), and an end-of-file record. A place is written as two words: its block
/// of 128 bytes, and the byte in that. (8080 Object Module Formats, library file.)
///
/// # Errors
/// `TooLarge` only if there are more than 65535 modules, the body of an index record would have
/// more than 65534 bytes, or the place of the index is in a block above 65535; such a library is
/// never written. `Memory` only if memory runs out. After either, `out` is unchanged.
pub fn write_library(
    alloc: Global,
    modules: &[Module],
    out: &mut Vec<u8>,
) -> Result<(), LibraryPutFault>
    ensures written { OnOk result (out.new.items ≡ out.old.items ++ library_bytes modules.now) }
    ensures read { OnOk result (SpellsLibrary (library_bytes modules.now) modules.now) }
    ensures fits { OnOk result (is_too_large modules.now ≡ false) }
    ensures too_large { IsErrOf result LibraryPutFault.TooLarge → IsTrue (is_too_large modules.now) }
    ensures refused { OnErr result (out.new.items ≡ out.old.items) }
{
    written_library_is_spelled();
    let file = library_of(alloc, modules)?;
    out.extend_from_slice(&file)?;
    Ok(())
}

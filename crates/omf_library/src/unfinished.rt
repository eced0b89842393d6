//! A library whose last bytes are still to come, read as far as they go.

ghost use Rattle.std.specs.Prelude.{◌≡◌, ◌≢◌, ◌+◌, ◌-◌, ◌<◌, ℕ, List, [], length, take, Ok, None, true, false, IfOk, IfErr, IfSome, OnOk, OnErr};
ghost use Rattle.omf_module.specs.declared.pieces.UnfinishedModule.{UnfinishedModule as UnfinishedModuleValue};
ghost use Rattle.omf_module.specs.Pieces.{IsCutOff, ReadsModule};
ghost use Rattle.omf_library.specs.Fault.{OrNoMemory};
ghost use Rattle.omf_library.specs.Spelled.{BeginsLibrary, SpellsLibrary, FaultsLibrary, is_library_header, is_index_kind};
ghost use Rattle.omf_library.specs.LibraryFeed.{LastingLibraryFault};
ghost use Rattle.omf_library.specs.Unfinished.{ReadsModules, ReadsIndexed, ReadsLibrary, WaitsLibrary, ReadsFurther, ReadsOn};
ghost use Rattle.omf_library.specs.Unfinished.{ReadsAll, Extends, HeaderStands, StandsAt, RecordStands, LastingHeaderFault};
ghost use Rattle.omf_library.specs.Unfinished.{LastingFaultAt, LeadsTo, LeadsNowhere, FaultsWhereCut, no_end_in_module};

use crate::fault::LibraryFault;
use omf_core::laws::{list_grows, lists_stay, other_faults_stay, records_stay};
use omf_core::{RecordFault, RecordKind, next_record};
use omf_module::laws::modules_stay;
use omf_module::{Cause, Module, UnfinishedModule, next_module};
use std::alloc::Global;

/// How far the records outside the modules of a library are read.
#[derive(Clone, Copy, Debug)]
pub enum Progress {
    /// The library header is still to come.
    Header,
    /// The library header was read, and no index record. The value is the number of modules in the
    /// header.
    Modules(u16),
    /// At least one index record was read. The values are the number of modules in the header, and
    /// the place after the last of these records.
    Index(u16, usize),
    /// The end-of-file record was read.
    Ended,
}

/// What the bytes have at the place where a module may begin.
#[derive(Clone, Copy)]
pub enum Standing {
    /// No whole record: the bytes end before it does.
    CutOff,
    /// A module header record.
    ModuleHeader,
    /// Another record: its type byte, and the place after it.
    Other(u8, usize),
}

/// How far a library is read whose last bytes are still to come.
#[derive(Debug, Drop)]
pub struct UnfinishedLibrary {
    /// The whole modules, in order.
    pub modules: Vec<Module>,
    /// The module that follows them.
    pub next: UnfinishedModule,
    /// How far the records outside the modules are read.
    pub progress: Progress,
}

/// Whether a record of this type byte and body is a library header with the number of modules.
fn is_library_header(kind: u8, body: &[u8]) -> bool
    ensures { result ≡ is_library_header kind body.now }
{
    kind == RecordKind::LibraryHeader.byte() && 2 <= body.len()
}

/// Whether records of this type byte are in a library's index: locations (26), names (28) or the
/// dictionary (2A).
fn is_index_kind(kind: u8) -> bool
    ensures { result ≡ is_index_kind kind }
{
    kind == RecordKind::LibraryModuleLocations.byte()
        || kind == RecordKind::LibraryModuleNames.byte()
        || kind == RecordKind::LibraryDictionary.byte()
}

/// The number of modules in the library header that the bytes begin with, and the place after it;
/// `None` if the record is cut off. `NotLibrary` if it is another record, `Module` if it is none.
fn read_header(bytes: &[u8]) -> Result<Option<(u16, usize)>, LibraryFault>
    ensures begins { IfOk result (λ header. IfSome header (λ r. BeginsLibrary bytes.now r.1 r.0)) }
    ensures cut_off { result ≡ Ok None → IsCutOff bytes.now 0 }
    ensures fault { IfErr result (LastingHeaderFault bytes.now) }
{
    records_stay();
    other_faults_stay();
    match next_record(bytes, 0) {
        Ok((record, after)) => {
            if !is_library_header(record.kind, record.body) {
                return Err(LibraryFault::NotLibrary);
            }
            let said = u16::from_le_bytes([record.body[0], record.body[1]]);
            Ok(Some((said, after)))
        }
        Err(fault) if fault.is_truncated() => Ok(None),
        Err(fault) => Err(LibraryFault::of_record(0, Cause::Record(fault))),
    }
}

/// The type byte of the record at a place, and the place after it; `None` if it is cut off.
/// `Module` if the bytes there are no record.
fn record_at(bytes: &[u8], at: usize) -> Result<Option<(u8, usize)>, LibraryFault>
    ensures record { IfOk result (λ next. IfSome next (RecordStands bytes.now at)) }
    ensures cut_off { result ≡ Ok None → IsCutOff bytes.now at }
    ensures fault { IfErr result (LastingFaultAt bytes.now at) }
{
    other_faults_stay();
    match next_record(bytes, at) {
        Ok((record, after)) => Ok(Some((record.kind, after))),
        Err(fault) if fault.is_truncated() => Ok(None),
        Err(fault) => Err(LibraryFault::of_record(at, Cause::Record(fault))),
    }
}

/// The progress after a record of type `kind` outside the modules, from place `at` to `after`.
/// `said` is the header's number of modules, `found` that of those read. `Module` if the record may
/// not stand there, `CountDiffers` if it ends the file and the numbers differ.
fn after_record(
    kind: u8,
    at: usize,
    after: usize,
    said: u16,
    found: usize,
) -> Result<Progress, LibraryFault>
    ensures leads { IfOk result (LeadsTo said after found kind) }
    ensures fault { IfErr result (LeadsNowhere at said found kind) }
{
    if is_index_kind(kind) {
        return Ok(Progress::Index(said, after));
    }
    if kind != RecordKind::EndOfFile.byte() {
        return Err(LibraryFault::of_record(at, Cause::UnknownKind(kind)));
    }
    if said as usize != found {
        return Err(LibraryFault::CountDiffers(said, found));
    }
    Ok(Progress::Ended)
}

/// What the bytes have where the module `next` begins; its header isn't read again if it was read.
/// `Module` if the bytes there are no record. `bytes` must begin with those read before.
fn standing_at(bytes: &[u8], next: &UnfinishedModule) -> Result<Standing, LibraryFault>
    requires { ReadsModule bytes.now next.now.begin next.now.here next.now.commons.items }
    ensures stands { IfOk result (StandsAt bytes.now next.now) }
    ensures fault { IfErr result (LastingFaultAt bytes.now next.now.begin) }
{
    if next.here != next.begin {
        return Ok(Standing::ModuleHeader);
    }
    match record_at(bytes, next.begin)? {
        None => Ok(Standing::CutOff),
        Some((kind, after)) => {
            if kind == RecordKind::ModuleHeader.byte() {
                return Ok(Standing::ModuleHeader);
            }
            Ok(Standing::Other(kind, after))
        }
    }
}

/// Makes `next` a module that begins at a place, with nothing read.
fn begin_at(next: &mut UnfinishedModule, place: usize)
    ensures begin { next.new.begin ≡ place }
    ensures here { next.new.here ≡ place }
    ensures commons { next.new.commons.items ≡ [] }
{
    next.begin = place;
    next.here = place;
    next.commons.clear();
}

/// Reads on in the module `next`, whose header must be there, and if it is whole appends it to
/// `modules` and makes `next` the one after it. `false` if more bytes are needed. A fault is one
/// that the library has whatever bytes follow, or `Memory`. `bytes` must begin with those read
/// before.
fn read_module(
    alloc: Global,
    bytes: &[u8],
    said: u16,
    modules: &mut Vec<Module>,
    next: &mut UnfinishedModule,
) -> Result<bool, LibraryFault>
    requires reads { ReadsModules bytes.now said modules.old.items next.old }
    requires header { HeaderStands bytes.now next.old.begin }
    ensures further { result ≡ Ok true
        → ReadsOn bytes.now next.old (Progress.Modules said) modules.new.items next.new (Progress.Modules said) }
    ensures waits { result ≡ Ok false → ReadsAll bytes.now modules.new.items next.new (Progress.Modules said) }
    ensures extends { Extends modules.old.items modules.new.items }
    ensures fault { IfErr result (OrNoMemory (LastingLibraryFault bytes.now)) }
{
    records_stay();
    lists_stay();
    modules_stay();
    match next_module(alloc, bytes, next)? {
        None => Ok(false),
        Some((module, after)) => {
            modules.push(module)?;
            begin_at(next, after);
            Ok(true)
        }
    }
}

/// Reads the next module, or the record in its place: the first of the index, or the end of the
/// file. Returns the new progress, or `None` if more bytes are needed. A fault is one that the
/// library has whatever bytes follow, or `Memory`. `bytes` must begin with those read before.
fn read_after_modules(
    alloc: Global,
    bytes: &[u8],
    said: u16,
    modules: &mut Vec<Module>,
    next: &mut UnfinishedModule,
) -> Result<Option<Progress>, LibraryFault>
    requires { ReadsModules bytes.now said modules.old.items next.old }
    ensures further { IfOk result (λ o. IfSome o
        (ReadsOn bytes.now next.old (Progress.Modules said) modules.new.items next.new)) }
    ensures waits { result ≡ Ok None → ReadsAll bytes.now modules.new.items next.new (Progress.Modules said) }
    ensures extends { Extends modules.old.items modules.new.items }
    ensures fault { IfErr result (OrNoMemory (LastingLibraryFault bytes.now)) }
{
    records_stay();
    lists_stay();
    list_grows();
    modules_stay();
    match standing_at(bytes, next)? {
        Standing::CutOff => Ok(None),
        Standing::ModuleHeader => match read_module(alloc, bytes, said, modules, next)? {
            true => Ok(Some(Progress::Modules(said))),
            false => Ok(None),
        },
        Standing::Other(kind, after) => {
            let progress = after_record(kind, next.begin, after, said, modules.len())?;
            Ok(Some(progress))
        }
    }
}

/// Reads the record at place `at`, before which a library header, `modules` and at least one index
/// record must stand. Returns the new progress, or `None` if the record is cut off. A fault is one
/// that the library has whatever bytes follow.
fn read_after_index(
    bytes: &[u8],
    said: u16,
    at: usize,
    modules: &[Module],
) -> Result<Option<Progress>, LibraryFault>
    requires { ReadsIndexed bytes.now said at modules.now }
    ensures further { IfOk result (λ o. IfSome o (λ p. (next : UnfinishedModuleValue)
        → ReadsFurther bytes.now (length bytes.now - at + 1) modules.now next p)) }
    ensures waits { result ≡ Ok None → IsCutOff bytes.now at }
    ensures fault { IfErr result (LastingLibraryFault bytes.now) }
{
    records_stay();
    lists_stay();
    list_grows();
    modules_stay();
    let Some((kind, after)) = record_at(bytes, at)? else {
        return Ok(None);
    };
    let progress = after_record(kind, at, after, said, modules.len())?;
    Ok(Some(progress))
}

/// The fault of bytes that end at place `at` (then `none`), or inside the record there (then
/// `Truncated`).
fn fault_where_cut(bytes: &[u8], at: usize, none: LibraryFault) -> LibraryFault
    ensures { FaultsWhereCut bytes.now at none result }
{
    if at < bytes.len() {
        return LibraryFault::of_record(at, Cause::Record(RecordFault::Truncated(at)));
    }
    none
}

impl UnfinishedLibrary {
    /// A library of which nothing is read.
    pub fn new(alloc: Global) -> UnfinishedLibrary
        ensures { (bytes : List ℕ) → ReadsLibrary bytes result }
    {
        UnfinishedLibrary {
            modules: Vec::new(alloc),
            next: UnfinishedModule {
                begin: 0,
                here: 0,
                commons: Vec::new(alloc),
            },
            progress: Progress::Header,
        }
    }

    /// Reads the library header. Returns the new progress, or `None` if the record is cut off. A
    /// fault is one that the library has whatever bytes follow. `self` must have read no modules
    /// yet.
    fn read_header(&mut self, bytes: &[u8]) -> Result<Option<Progress>, LibraryFault>
        requires { self.old.modules.items ≡ [] }
        ensures modules { self.new.modules.items ≡ self.old.modules.items }
        ensures progress { self.new.progress ≡ self.old.progress }
        ensures further { IfOk result (λ o. IfSome o
            (ReadsFurther bytes.now (length bytes.now + 2) self.new.modules.items self.new.next)) }
        ensures waits { result ≡ Ok None → IsCutOff bytes.now 0 }
        ensures fault { IfErr result (LastingLibraryFault bytes.now) }
    {
        let Some((said, first)) = read_header(bytes)? else {
            return Ok(None);
        };
        begin_at(&mut self.next, first);
        Ok(Some(Progress::Modules(said)))
    }

    /// Reads the next module, or the next record outside the modules. Returns the new progress, or
    /// `None` if more bytes are needed or the library has ended. A fault is one that the library
    /// has whatever bytes follow, or `Memory`. `bytes` must begin with those read before.
    fn read_next(&mut self, alloc: Global, bytes: &[u8]) -> Result<Option<Progress>, LibraryFault>
        requires { ReadsLibrary bytes.now self.old }
        ensures further { IfOk result (λ o. IfSome o
            (ReadsOn bytes.now self.old.next self.old.progress self.new.modules.items self.new.next)) }
        ensures waits { result ≡ Ok None → ReadsAll bytes.now self.new.modules.items self.new.next self.new.progress }
        ensures extends { Extends self.old.modules.items self.new.modules.items }
        ensures fault { IfErr result (OrNoMemory (LastingLibraryFault bytes.now)) }
    {
        match self.progress {
            Progress::Header => self.read_header(bytes),
            Progress::Modules(said) => {
                read_after_modules(alloc, bytes, said, &mut self.modules, &mut self.next)
            }
            Progress::Index(said, at) => read_after_index(bytes, said, at, &self.modules),
            Progress::Ended => Ok(None),
        }
    }

    /// Reads on as far as the bytes go. A fault is one that the library has whatever bytes follow,
    /// or `Memory`; the modules before it stay read. `bytes` must begin with those read before.
    fn read_all(&mut self, alloc: Global, bytes: &[u8]) -> Result<(), LibraryFault>
        requires { ReadsLibrary bytes.now self.old }
        ensures all { OnOk result (ReadsAll bytes.now self.new.modules.items self.new.next self.new.progress) }
        ensures extends { Extends self.old.modules.items self.new.modules.items }
        ensures fault { IfErr result (OrNoMemory (LastingLibraryFault bytes.now)) }
    {
        'items: loop {
            match self.read_next(alloc, bytes)? {
                Some(progress) => self.progress = progress,
                None => return Ok(()),
            }
        }
    }

    /// Goes back to the first `count` modules and the given progress, with nothing read of the
    /// module after them, which begins at place `begin`.
    fn forget(&mut self, count: usize, begin: usize, progress: Progress)
        ensures modules { self.new.modules.items ≡ take count self.old.modules.items }
        ensures begin { self.new.next.begin ≡ begin }
        ensures here { self.new.next.here ≡ begin }
        ensures commons { self.new.next.commons.items ≡ [] }
        ensures progress { self.new.progress ≡ progress }
    {
        self.modules.truncate(count);
        begin_at(&mut self.next, begin);
        self.progress = progress;
    }

    /// Reads on to the last whole record. `bytes` are all of the file that has come so far, from
    /// its first byte, and must begin with those read before.
    ///
    /// # Errors
    /// A fault that the file has whatever bytes follow, or `Memory`. Then `self` is as before the
    /// call, except that the module that was unfinished will be read again from its beginning.
    pub fn read_on(&mut self, alloc: Global, bytes: &[u8]) -> Result<(), LibraryFault>
        requires { ReadsLibrary bytes.now self.old }
        ensures reads { OnOk result (ReadsLibrary bytes.now self.new) }
        ensures waits { OnOk result (WaitsLibrary bytes.now self.new) }
        ensures fault { IfErr result (OrNoMemory (LastingLibraryFault bytes.now)) }
        ensures as_before { OnErr result ((taken : List ℕ) → ReadsLibrary taken self.old → ReadsLibrary taken self.new) }
    {
        let count = self.modules.len();
        let begin = self.next.begin;
        let progress = self.progress;
        match self.read_all(alloc, bytes) {
            Ok(()) => Ok(()),
            Err(fault) => {
                self.forget(count, begin, progress);
                Err(fault)
            }
        }
    }

    /// The fault of a library that has these bytes and no more, all of them read; `None` if it has
    /// ended. `bytes` must be those that `read_on` was last given, and it must have had no fault.
    pub fn fault_at_end(&self, bytes: &[u8]) -> Option<LibraryFault>
        requires reads { ReadsLibrary bytes.now self.now }
        requires waits { WaitsLibrary bytes.now self.now }
        ensures fault { IfSome result (FaultsLibrary bytes.now) }
        ensures library { result ≡ None → SpellsLibrary bytes.now self.now.modules.items }
    {
        modules_stay();
        match self.progress {
            Progress::Header => Some(fault_where_cut(bytes, 0, LibraryFault::NotLibrary)),
            Progress::Modules(_) => Some(self.fault_in_modules(bytes)),
            Progress::Index(_, at) => Some(fault_where_cut(bytes, at, LibraryFault::NoEnd(at))),
            Progress::Ended => None,
        }
    }

    /// The fault of a library whose bytes end between modules or inside one.
    fn fault_in_modules(&self, bytes: &[u8]) -> LibraryFault
        ensures between { self.now.next.here ≡ self.now.next.begin
            → FaultsWhereCut bytes.now self.now.next.here (LibraryFault.NoEnd self.now.next.here) result }
        ensures inside { self.now.next.here ≢ self.now.next.begin
            → FaultsWhereCut bytes.now self.now.next.here (no_end_in_module self.now.next.here) result }
    {
        let at = self.next.here;
        if at == self.next.begin {
            return fault_where_cut(bytes, at, LibraryFault::NoEnd(at));
        }
        fault_where_cut(bytes, at, LibraryFault::of_record(at, Cause::NoEnd))
    }
}

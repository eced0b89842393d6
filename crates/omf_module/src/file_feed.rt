//! Modules of an object file that comes in pieces.

ghost use Rattle.std.specs.Prelude.{◌≡◌, ◌<◌, ◌++◌, ◌⊎◌, List, [], None, Some, Ok, Err, length, take, true, false, IfOk, IfErr, OnOk, IsOk, IsTrue};
ghost use Rattle.omf_model.specs.Modules.{ModuleValue};
ghost use Rattle.omf_module.specs.declared.fault.ModuleFault.{ModuleFault as ModuleFaultValue};
ghost use Rattle.omf_module.specs.Fault.{no_memory};
ghost use Rattle.omf_module.specs.Reading.{OrNoMemory};
ghost use Rattle.omf_module.specs.Spelled.{EndsFile, SpellsFile, FaultsFile};
ghost use Rattle.omf_module.specs.Pieces.{ReadsModule, WaitsModule};
ghost use Rattle.omf_module.specs.FileFeed.{CountsModules, LastingFileFault, EndsAfter, ReadsFile, Stops, GrowsBy, IsUnread};

use crate::fault::{Cause, ModuleFault};
use crate::laws::{one_file_reading, one_reading};
use crate::pieces::{UnfinishedModule, next_module};
use crate::reading::module_at;
use omf_core::laws::{
    no_fault_exactly_at_records, one_record_at_each_place, other_faults_stay, records_stay,
    truncated_can_be_spoilt,
};
use omf_core::{RecordKind, next_record};
use omf_model::Module;
use std::alloc::Global;
use std::marker::Model;

/// Takes an object file in pieces and reads its modules as they become whole. A contract sees the
/// bytes of the pieces that were taken and the fault that was found. (8080 Object Module Formats,
/// object file.)
///
/// # Example
/// ```
/// let mut feed = FileFeed::new(rt.alloc());
/// assert_eq!(rt; feed.piece(&HALT[..12])?, 0);
/// assert_eq!(rt; feed.piece(&HALT[12..])?, 1);
/// let modules = feed.finish()?;
/// ```
#[derive(Debug, Drop)]
pub struct FileFeed {
    /// The allocator of the bytes and the modules.
    alloc: Global,
    /// The bytes of the pieces that were taken.
    bytes: Vec<u8>,
    /// How far `bytes` are read.
    read: Progress,
    /// The fault that was found; every later piece, and `finish`, is answered with it.
    kept: Option<ModuleFault>,
}

/// How far a file is read.
#[derive(Debug, Drop)]
pub(crate) struct Progress {
    /// The whole modules, in order.
    modules: Vec<Module>,
    /// The module that follows them.
    unfinished: UnfinishedModule,
    /// Whether the end-of-file record stands in place of that module.
    ended: bool,
}

impl Model for FileFeed {
    ghost use Rattle.omf_module.specs.FileFeed.{FileFeedValue, ReadsFile};

    ghost Value = { FileFeedValue };

    ghost view = { λ feed. record { bytes = feed.bytes.items; kept = feed.kept } };

    ghost invariant = { λ feed. ReadsFile feed.bytes.items feed.read };
}

impl FileFeed {
    /// A feed that has taken no bytes. It takes no memory yet; all will be allocated from `alloc`.
    pub fn new(alloc: Global) -> FileFeed
        ensures { result ≡ record { bytes = []; kept = None } }
    {
        FileFeed {
            alloc,
            bytes: Vec::new(alloc),
            read: Progress {
                modules: Vec::new(alloc),
                unfinished: UnfinishedModule {
                    begin: 0,
                    here: 0,
                    commons: Vec::new(alloc),
                },
                ended: false,
            },
            kept: None,
        }
    }

    /// Takes a piece of the file, and returns the number of whole modules so far. Later pieces
    /// complete a module that is cut off by the end of this one; pieces after the end-of-file
    /// record are taken, and aren't read.
    ///
    /// # Errors
    /// A fault of [`read_file`](crate::read_file) exactly if an earlier piece was answered with it,
    /// or all bytes so far, with this piece, have it whatever bytes follow. The fault is kept for
    /// all later calls, and the bytes of this piece aren't taken. `Memory` at place 0 only if
    /// memory runs out: the feed is unchanged, and the fault isn't kept.
    pub fn piece(&mut self, piece: &[u8]) -> Result<usize, ModuleFault>
        ensures kept { (fault : ModuleFaultValue) → self.old.kept ≡ Some fault → (result ≡ Err fault) × (self.new ≡ self.old) }
        ensures taken { OnOk result (self.new ≡ record { bytes = self.old.bytes ++ piece.now; kept = None }) }

        // The count is that of all bytes so far, of which no fault lasts.
        ensures counted { IfOk result (λ count. CountsModules (self.old.bytes ++ piece.now) count) }
        ensures none_lasts { OnOk result ((fault : ModuleFaultValue) → LastingFileFault (self.old.bytes ++ piece.now) fault → ⊥) }

        // A fault lasts of all bytes so far, and is kept; out of memory isn't.
        ensures fault { self.old.kept ≡ None → IfErr result (OrNoMemory (λ fault.
            LastingFileFault (self.old.bytes ++ piece.now) fault
            × (self.new ≡ record { bytes = self.old.bytes; kept = Some fault }))) }
        ensures memory { result ≡ Err no_memory → self.new ≡ self.old }
    {
        records_stay();
        other_faults_stay();
        if let Some(fault) = self.kept {
            return Err(fault);
        }
        let taken = self.bytes.len();
        let modules = self.read.modules.len();
        let begin = self.read.unfinished.begin;
        self.bytes.extend_from_slice(piece)?;
        match read_on(self.alloc, &self.bytes, &mut self.read) {
            Ok(()) => Ok(self.read.modules.len()),
            Err(fault) => {
                self.bytes.truncate(taken);
                go_back(&mut self.read, modules, begin);
                if !fault.is_memory() {
                    self.kept = Some(fault);
                }
                Err(fault)
            }
        }
    }

    /// The modules of the file whose pieces were taken: what [`read_file`](crate::read_file) gives
    /// for all bytes.
    ///
    /// # Errors
    /// The fault that was kept; else the first fault of the bytes: also `NoHeader` if there are
    /// none, and `NoEnd` or `Record` if they end too early. `Memory` at place 0 only if memory runs
    /// out.
    pub fn finish(self) -> Result<Vec<Module>, ModuleFault>
        ensures kept { (fault : ModuleFaultValue) → self.kept ≡ Some fault → result ≡ Err fault }
        ensures read { self.kept ≡ None → IfOk result (λ modules. SpellsFile self.bytes modules.items) }
        ensures every_file { self.kept ≡ None → (ms : List ModuleValue) → SpellsFile self.bytes ms
            → (IsOk result) ⊎ (result ≡ Err no_memory) }
        ensures fault { self.kept ≡ None → IfErr result (OrNoMemory (FaultsFile self.bytes)) }
        ensures every_fault { self.kept ≡ None → (fault : ModuleFaultValue) → FaultsFile self.bytes fault
            → (result ≡ Err fault) ⊎ (result ≡ Err no_memory) }
    {
        one_file_reading();
        let FileFeed {
            alloc,
            bytes,
            read,
            kept,
        } = self;
        match kept {
            Some(fault) => Err(fault),
            None => modules_of(alloc, &bytes, read),
        }
    }
}

/// The modules of a file that has these bytes and no more, read on from `before`, whose bytes they
/// must begin with; or the file's first fault, or `Memory`.
fn modules_of(alloc: Global, bytes: &[u8], before: Progress) -> Result<Vec<Module>, ModuleFault>
    requires { ReadsFile bytes.now before }
    ensures read { IfOk result (λ modules. SpellsFile bytes.now modules.items) }
    ensures fault { IfErr result (OrNoMemory (FaultsFile bytes.now)) }
{
    let mut read = before;
    read_on(alloc, bytes, &mut read)?;
    if read.ended {
        return Ok(read.modules);
    }
    Err(missing_end_fault(alloc, bytes, &read))
}

/// The fault of a file that ends too early, read as far as `read` says: `NoEnd` after a whole
/// module, or the fault of the module that is cut off; or `Memory`. `read` must be how far these
/// bytes were read, up to where more are needed.
fn missing_end_fault(alloc: Global, bytes: &[u8], read: &Progress) -> ModuleFault
    requires reads { ReadsFile bytes.now read.now }
    requires waits { WaitsModule bytes.now read.now.unfinished.begin }
    ensures { OrNoMemory (FaultsFile bytes.now) result }
{
    records_stay();
    other_faults_stay();
    truncated_can_be_spoilt();
    one_reading();
    let begin = read.unfinished.begin;
    if bytes.len() <= begin && !read.modules.is_empty() {
        return Cause::NoEnd.at(begin);
    }
    match module_at(alloc, bytes, begin) {
        Ok(_) => unreachable!(),
        Err(fault) => fault,
    }
}

/// Reads the modules from where `read` stands up to the end of the file or as far as the bytes go.
/// A fault is one that the file has whatever bytes follow, or `Memory`; the modules stay read.
/// `bytes` must begin with those that were read before.
fn read_on(alloc: Global, bytes: &[u8], read: &mut Progress) -> Result<(), ModuleFault>
    requires { ReadsFile bytes.now read.old }
    ensures grown { GrowsBy read.old.modules.items read.new.modules.items }
    ensures read { OnOk result (ReadsFile bytes.now read.new) }
    ensures stops { OnOk result (Stops bytes.now read.new read.new.ended) }
    ensures counted { OnOk result (CountsModules bytes.now (length read.new.modules.items)) }
    ensures none_lasts { OnOk result ((fault : ModuleFaultValue) → LastingFileFault bytes.now fault → ⊥) }
    ensures fault { IfErr result (OrNoMemory (LastingFileFault bytes.now)) }
{
    records_stay();
    other_faults_stay();
    truncated_can_be_spoilt();
    one_reading();
    one_file_reading();
    loop {
        if !read_one(alloc, bytes, read)? {
            return Ok(());
        }
    }
}

/// Reads one more module into `read`. `false` if the file ends there, or more bytes are needed. A
/// fault is one that the file has whatever bytes follow, or `Memory`. `bytes` must begin with those
/// that were read before.
fn read_one(alloc: Global, bytes: &[u8], read: &mut Progress) -> Result<bool, ModuleFault>
    requires { ReadsFile bytes.now read.old }
    ensures grown { GrowsBy read.old.modules.items read.new.modules.items }
    ensures read { OnOk result (ReadsFile bytes.now read.new) }
    ensures further { result ≡ Ok true → read.old.unfinished.begin < read.new.unfinished.begin }
    ensures stops { result ≡ Ok false → Stops bytes.now read.new read.new.ended }
    ensures fault { IfErr result (OrNoMemory (LastingFileFault bytes.now)) }
{
    records_stay();
    other_faults_stay();
    truncated_can_be_spoilt();
    one_record_at_each_place();
    no_fault_exactly_at_records();
    one_reading();
    if read.ended {
        return Ok(false);
    }
    if ends_here(bytes, read) {
        read.ended = true;
        return Ok(false);
    }
    let Some((module, after)) = next_module(alloc, bytes, &mut read.unfinished)? else {
        return Ok(false);
    };
    read.modules.push(module)?;
    begin_anew(&mut read.unfinished, after);
    Ok(true)
}

/// Whether a module was read, nothing is read of the next one, and the end-of-file record stands in
/// its place. `read` must be how far these bytes, or a front of them, were read.
fn ends_here(bytes: &[u8], read: &Progress) -> bool
    requires { ReadsModule bytes.now read.now.unfinished.begin read.now.unfinished.here read.now.unfinished.commons.items }
    ensures ends { IsTrue result → EndsAfter bytes.now read.now.unfinished.begin read.now.modules.items }
    ensures goes_on { result ≡ false → 0 < length read.now.modules.items → EndsFile bytes.now read.now.unfinished.begin → ⊥ }
{
    one_record_at_each_place();
    let unfinished = &read.unfinished;
    !read.modules.is_empty()
        && unfinished.here == unfinished.begin
        && ends_file(bytes, unfinished.begin)
}

/// Whether an end-of-file record stands at this place. It takes no memory.
fn ends_file(bytes: &[u8], at: usize) -> bool
    ensures ends { IsTrue result → EndsFile bytes.now at }
    ensures goes_on { result ≡ false → EndsFile bytes.now at → ⊥ }
{
    match next_record(bytes, at) {
        Ok((record, _)) => record.kind == RecordKind::EndOfFile.byte(),
        Err(_) => false,
    }
}

/// Shortens `read` to its first `modules` modules, with nothing read of the next, which begins at
/// place `begin`.
fn go_back(read: &mut Progress, modules: usize, begin: usize)
    ensures modules { read.new.modules.items ≡ take modules read.old.modules.items }
    ensures unread { IsUnread read.new.unfinished begin }
    ensures unended { read.new.ended ≡ false }
{
    read.modules.truncate(modules);
    begin_anew(&mut read.unfinished, begin);
    read.ended = false;
}

/// Makes `unfinished` a module that begins at place `begin`, with nothing read. It takes no memory.
fn begin_anew(unfinished: &mut UnfinishedModule, begin: usize)
    ensures { IsUnread unfinished.new begin }
{
    unfinished.begin = begin;
    unfinished.here = begin;
    unfinished.commons.clear();
}

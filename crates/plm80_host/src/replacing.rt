//! Files that are replaced whole or not at all.
//!
//! A file is written beside its place, synced, and renamed, so that the place has the old file or the new one, never a part. A
//! place that is no regular file with one link, to which none can be renamed, or beside which no file of the same owner can be made, is
//! written in place. What replaces a file can be opened by its owner alone until it has the old file's permissions.

ghost use Rattle.std.specs.Prelude.{◌≡◌, false, IfErr, IfOk, string_bytes};
ghost use Rattle.std.specs.IoError.{error_kind};
ghost use Rattle.plm80_console.specs.{Journal.and_reported, Replaced.NotSettled};
ghost use Rattle.plm80_host.specs.Drafts.{IsBeginning, IsDraftIn, IsDraftOf, NotBothSettled, in_order, is_in_place, is_no_path};

use crate::fitness::{is_mounted, is_unfit, stays_in_folder};
use crate::host::{HostConsole, is_no_path};
use crate::notes::Note;
use crate::path_parts::folder_and_name;
use crate::size_limit::is_past_limit;
use plm80_console::{Console, Lack, NewFile, Reported};
use std::alloc::AllocError;
use std::fs::{File, Metadata, OpenOptions};
use std::io::{ErrorKind, Write};
use std::os::unix::fs::{MetadataExt, OpenOptionsExt};
use std::{fs, io};

/// How many bytes of a file's name the name of its draft begins with, at most. With `.new` and a number that has at most 254: a file
/// system takes 255.
const NAME_LENGTH: usize = 240;

/// The permissions of a new file that its owner alone may open.
pub(crate) const PRIVATE: u32 = 0o600;

/// The permissions of a new file that all may open, as far as the system grants them.
const SHARED: u32 = 0o666;

/// A new file before it is in its place. A draft is settled or dropped, by a call.
pub(crate) struct Draft<'a> {
    file: NewFile<'a>,
    /// The name of the file in which all bytes are written and synced; `None` if none is, since they are written in place.
    beside: Option<String>,
}

impl<'a> Draft<'a> {
    /// Whether the file is written in its place, where it may fail as it is written.
    fn is_in_place(&self) -> bool
        ensures { result ≡ is_in_place self.now }
    {
        self.beside.is_none()
    }
}

/// Both drafts, with the one first that is written in place, if only one is, since that may fail as it is written; else in the order given.
pub(crate) fn in_order<'a>(first: Draft<'a>, second: Draft<'a>) -> (Draft<'a>, Draft<'a>)
    ensures { result ≡ in_order first.entry second.entry }
{
    if second.is_in_place() && !first.is_in_place() {
        (second, first)
    } else {
        (first, second)
    }
}

/// Why no draft of a file was made.
#[derive(Clone, Copy)]
enum DraftFault {
    Memory,
    System(ErrorKind),
}

impl From<AllocError> for DraftFault {
    fn from(_: AllocError) -> DraftFault
        ensures { result ≡ DraftFault.Memory }
    {
        DraftFault::Memory
    }
}

impl From<io::Error> for DraftFault {
    fn from(error: io::Error) -> DraftFault
        ensures { result ≡ DraftFault.System (error_kind error) }
    {
        DraftFault::System(error.kind())
    }
}

impl<'a> HostConsole<'a> {
    /// Moves both drafts to their places, in this order. If the first one isn't moved, which is reported, the second one is removed; if the
    /// second one isn't, the journal says that the first file was written.
    pub(crate) fn settle_both(
        &mut self,
        first: Draft<'_>,
        second: Draft<'_>,
    ) -> Result<(), Reported>
        ensures unchanged { IfOk result (λ _. self.new.notes.journal ≡ self.old.notes.journal) }
        ensures fault { IfErr result (λ _. NotBothSettled first.entry.file second.entry.file self.old.notes.journal self.new.notes.journal) }
    {
        let settled = first.file;
        if let Err(reported) = self.settle(first) {
            self.drop_draft(second);
            return Err(reported);
        }
        match self.settle(second) {
            Ok(()) => Ok(()),
            Err(reported) => {
                self.note(&Note::Written(settled.path, settled.bytes));
                Err(reported)
            }
        }
    }

    /// Makes the draft of a file: beside its place, if it can be renamed from there. A fault is reported.
    pub(crate) fn draft<'f>(&mut self, file: NewFile<'f>) -> Result<Draft<'f>, Reported>
        ensures draft { IfOk result (IsDraftOf file.entry) }
        ensures named { IfOk result (λ _. is_no_path file.entry.path.now ≡ false) }
        ensures unchanged { IfOk result (λ _. self.new.notes.journal ≡ self.old.notes.journal) }
        ensures fault { IfErr result (λ _. NotSettled file.entry.path.now self.old.notes.journal self.new.notes.journal) }
    {
        if is_no_path(file.path) {
            self.note(&Note::Unwritten(file.path, false));
            return Err(self.report_no_path(file.path, Lack::Write));
        }
        match self.try_draft(file) {
            Ok(draft) => Ok(draft),
            Err(fault) => {
                self.note(&Note::Unwritten(file.path, false));
                Err(self.report_draft(file.path, fault))
            }
        }
    }

    /// Reports why no draft of the file of this path was made.
    fn report_draft(&mut self, path: &str, fault: DraftFault) -> Reported
        ensures { self.new.notes.journal ≡ and_reported self.old.notes.journal }
    {
        match fault {
            DraftFault::Memory => self.report_memory(),
            DraftFault::System(kind) => self.report_system(path, Lack::Write, Some(kind)),
        }
    }

    /// Moves a draft to its file's place, or writes the file in place. A fault is reported; if writing in place fails, the file may have
    /// lost its bytes.
    pub(crate) fn settle(&mut self, draft: Draft<'_>) -> Result<(), Reported>
        ensures unchanged { IfOk result (λ _. self.new.notes.journal ≡ self.old.notes.journal) }
        ensures fault { IfErr result (λ _. NotSettled draft.entry.file.path.now self.old.notes.journal self.new.notes.journal) }
    {
        let Draft { file, beside } = draft;
        match beside {
            Some(beside) => self.move_draft(&beside, file),
            None => self.write_in_place(file),
        }
    }

    /// Renames the file `beside` to the new file's path. If that fails, it is removed, and the new file is written in place if the place is
    /// why; another fault is reported.
    fn move_draft(&mut self, beside: &str, file: NewFile<'_>) -> Result<(), Reported>
        ensures unchanged { IfOk result (λ _. self.new.notes.journal ≡ self.old.notes.journal) }
        ensures fault { IfErr result (λ _. NotSettled file.entry.path.now self.old.notes.journal self.new.notes.journal) }
    {
        match fs::rename(self.rt, beside, file.path) {
            Ok(()) => Ok(()),
            Err(error) => {
                let _ = fs::remove_file(self.rt, beside);
                if is_unfit(error.kind()) {
                    return self.write_in_place(file);
                }
                self.note(&Note::Unwritten(file.path, false));
                Err(self.report_system(file.path, Lack::Write, Some(error.kind())))
            }
        }
    }

    /// Writes the file in its place. After a fault, which is reported, it may have lost its bytes.
    fn write_in_place(&mut self, file: NewFile<'_>) -> Result<(), Reported>
        ensures unchanged { IfOk result (λ _. self.new.notes.journal ≡ self.old.notes.journal) }
        ensures fault { IfErr result (λ _. NotSettled file.entry.path.now self.old.notes.journal self.new.notes.journal) }
    {
        match fs::write(self.rt, file.path, file.bytes) {
            Ok(()) => Ok(()),
            Err(error) => {
                self.note(&Note::Unwritten(file.path, true));
                Err(self.report_system(file.path, Lack::Write, Some(error.kind())))
            }
        }
    }

    /// Removes what was written of a draft. Its file is left as it was.
    pub(crate) fn drop_draft(&self, draft: Draft<'_>) {
        let Draft { file: _, beside } = draft;
        if let Some(beside) = beside {
            let _ = fs::remove_file(self.rt, &beside);
        }
    }

    /// Makes the draft of a file, or says why there is none. Reports nothing.
    fn try_draft<'f>(&self, file: NewFile<'f>) -> Result<Draft<'f>, DraftFault>
        ensures { IfOk result (IsDraftOf file.entry) }
    {
        if exceeds_limit(self.rt, file) {
            return Err(DraftFault::System(ErrorKind::FileTooLarge));
        }
        let old = match self.find_replaced(file.path)? {
            Replaced::Nothing => None,
            Replaced::File(metadata) => Some(metadata),
            Replaced::Other => return Ok(Draft { file, beside: None }),
        };
        let beginning = with_short_name(file.path);
        let mode = if old.is_some() { PRIVATE } else { SHARED };
        for number in 0..u32::MAX {
            let beside = format!(in self.rt.alloc(); "{beginning}.new{number}")?;
            match create_new(self.rt, &beside, mode) {
                Ok(target) => return self.fill(target, beside, file, old),
                Err(error) if error.kind() == ErrorKind::AlreadyExists => self.explain(format_args!(
                    "{beside} is there: if a run that was killed left it, remove it"
                )),
                Err(_) => return Ok(Draft { file, beside: None }),
            }
        }
        Err(DraftFault::System(ErrorKind::AlreadyExists))
    }

    /// Writes the file's bytes to `target`, whose name is `beside`, with the permissions of the file `old` that it replaces. If it can't
    /// have the owner and permissions of that, or if it can't be renamed, the draft is one that is written in place.
    fn fill<'f>(
        &self,
        target: File,
        beside: String,
        file: NewFile<'f>,
        old: Option<Metadata>,
    ) -> Result<Draft<'f>, DraftFault>
        ensures { IfOk result (IsDraftIn file.entry (string_bytes beside)) }
    {
        if let Some(old) = old
            && !has_place_of(&target, &old)
        {
            let _ = fs::remove_file(self.rt, &beside);
            return Ok(Draft { file, beside: None });
        }
        if stays_in_folder(self.rt, &beside) {
            self.explain(format_args!("{beside} is empty, and can't be removed from its folder"));
            return Ok(Draft { file, beside: None });
        }
        match write_and_sync(target, file.bytes) {
            Ok(()) => Ok(Draft {
                file,
                beside: Some(beside),
            }),
            Err(error) => {
                let _ = fs::remove_file(self.rt, &beside);
                Err(DraftFault::from(error))
            }
        }
    }

    /// What the path of a new file names now. A file that can't be written is an error, as if it were written in place.
    fn find_replaced(&self, path: &str) -> io::Result<Replaced> {
        match fs::symlink_metadata(self.rt, path) {
            Err(error) if error.kind() == ErrorKind::NotFound => Ok(Replaced::Nothing),
            Err(_) => Ok(Replaced::Other),
            Ok(metadata) if metadata.is_file() && metadata.nlink() == 1 => {
                let file = OpenOptions::new().write(true).open(self.rt, path)?;
                if is_mounted(self.rt, path, &file) || stays_in_folder(self.rt, path) {
                    Ok(Replaced::Other)
                } else {
                    Ok(Replaced::File(metadata))
                }
            }
            Ok(_) => Ok(Replaced::Other),
        }
    }
}

/// What the path of a new file names before the file is written.
#[derive(Drop)]
enum Replaced {
    Nothing,
    /// A regular file with no other link, to which a file can be renamed, by what the system says of it.
    File(Metadata),
    Other,
}

/// A beginning of the path: the whole path, or what leaves `NAME_LENGTH` bytes of its file's name at most.
fn with_short_name(path: &str) -> &str
    ensures { IsBeginning path.now result.now }
{
    let (_, name) = folder_and_name(path);
    let end = path
        .len()
        .saturating_sub(name.len().saturating_sub(NAME_LENGTH));
    // A letter has at most four bytes, and isn't cut.
    for back in 0..4 {
        if let Some(beginning) = path.get(..end.saturating_sub(back)) {
            return beginning;
        }
    }
    path
}

/// Makes a new file of this name with these permissions, as far as the system grants them. An error if there is such a file.
pub(crate) fn create_new(rt: &HostRuntime, path: &str, mode: u32) -> io::Result<File> {
    OpenOptions::new()
        .write(true)
        .create_new(true)
        .mode(mode)
        .open(rt, path)
}

/// Whether the new file has more bytes than the system lets a file have. A pipe or a device may take any number.
fn exceeds_limit(rt: &HostRuntime, file: NewFile<'_>) -> bool {
    match fs::metadata(rt, file.path) {
        Ok(metadata) if !metadata.is_file() => false,
        _ => is_past_limit(rt, file.bytes.len() as u64),
    }
}

/// Gives the new file the old one's permissions, if both have one owner and group; whether it has all of these then.
fn has_place_of(target: &File, old: &Metadata) -> bool {
    match target.metadata() {
        Ok(new) if new.uid() == old.uid() && new.gid() == old.gid() => {
            target.set_permissions(old.permissions()).is_ok()
        }
        _ => false,
    }
}

/// Writes these bytes to the file, and has the system write them to the disk.
fn write_and_sync(mut target: File, bytes: &[u8]) -> io::Result<()> {
    target.write_all(bytes)?;
    target.sync_all()
}

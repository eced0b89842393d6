//! A file that is no library in the place of one that is written: a copy of it is kept under another name.

ghost use Rattle.std.specs.Prelude.{◌≡◌, ℕ, IfErr, IfOk, string_bytes};
ghost use Rattle.plm80_console.specs.Journal.{and_copied, and_reported};
ghost use Rattle.plm80_console.specs.Replaced.{IsKept, kept_text};

use crate::files::NotedReader;
use crate::host::HostConsole;
use crate::notes::Note;
use crate::path_parts::folder_and_name;
use crate::replacing::{PRIVATE, create_new};
use crate::size_limit::is_past_limit;
use plm80_console::{Console, Lack, Reported};
use std::alloc::AllocError;
use std::fs::{File, Permissions};
use std::io::{ErrorKind, Read, Seek, SeekFrom};
use std::os::unix::fs::PermissionsExt;
use std::{fs, io};

/// The first bytes of a library: the type of its header, and the length of that.
const LIBRARY_HEADER: [u8; 3] = [0x2C, 0x07, 0x00];

impl<'a> HostConsole<'a> {
    /// Keeps a copy of the regular file that the path names, unless it is empty or a library. A file that can't be read may be anything:
    /// that is reported.
    pub(crate) fn keep_object(&mut self, path: &str) -> Result<(), Reported>
        ensures kept { IfOk result (λ _. IsKept path.now self.old.notes.journal self.new.notes.journal) }
        ensures fault { IfErr result (λ _. self.new.notes.journal ≡ and_reported self.old.notes.journal) }
    {
        match fs::metadata(self.rt, path) {
            Ok(metadata) if metadata.is_file() => {}
            Ok(_) => return Ok(()),
            Err(error) if error.kind() == ErrorKind::NotFound => return Ok(()),
            Err(error) => return Err(self.report_system(path, Lack::Write, Some(error.kind()))),
        }
        match self.open_object(path) {
            Ok(Some(object)) => self.keep(path, object),
            Ok(None) => Ok(()),
            Err(error) => Err(self.report_system(path, Lack::Read, Some(error.kind()))),
        }
    }

    /// Opens the file of this path; `None` if it is empty, or begins as a library does.
    fn open_object(&self, path: &str) -> io::Result<Option<File>> {
        let mut file = File::open(self.rt, path)?;
        let mut first = [0u8; 3];
        let count = file.read(&mut first)?;
        if count == 0 || first == LIBRARY_HEADER {
            return Ok(None);
        }
        file.seek(SeekFrom::Start(0))?;
        Ok(Some(file))
    }

    /// Copies the file of this path to the first name beside it that no file has. A fault is reported, and no copy is left.
    fn keep(&mut self, path: &str, object: File) -> Result<(), Reported>
        ensures kept { IfOk result (λ _. IsKept path.now self.old.notes.journal self.new.notes.journal) }
        ensures fault { IfErr result (λ _. self.new.notes.journal ≡ and_reported self.old.notes.journal) }
    {
        match self.new_copy(path) {
            Ok((kept, copy)) => self.fill_copy(path, object, &kept, copy),
            Err(CopyFault::Memory) => Err(self.report_memory()),
            Err(CopyFault::System(kind)) => Err(self.report_system(path, Lack::Write, Some(kind))),
            Err(CopyFault::At(kept, kind)) => Err(self.report_unkept(path, &kept, kind)),
        }
    }

    /// Makes a new, empty file of the first name beside a path that no file has: the name and the file, or why there is none.
    fn new_copy(&self, path: &str) -> Result<(String, File), CopyFault>
        ensures { IfOk result (λ made. (number : ℕ) × (string_bytes made.0 ≡ kept_text path.now number)) }
    {
        for number in 0..u32::MAX {
            let kept = self.kept_path(path, number)?;
            match create_new(self.rt, &kept, PRIVATE) {
                Ok(copy) => return Ok((kept, copy)),
                Err(error) if error.kind() == ErrorKind::AlreadyExists => {}
                Err(error) => return Err(CopyFault::At(kept, error.kind())),
            }
        }
        Err(CopyFault::System(ErrorKind::AlreadyExists))
    }

    /// The path with a tilde, and with this number behind it unless it is 0. `AllocError` only if memory runs out.
    fn kept_path(&self, path: &str, number: u32) -> Result<String, AllocError>
        ensures { IfOk result (λ kept. string_bytes kept ≡ kept_text path.now number) }
    {
        if number == 0 {
            format!(in self.rt.alloc(); "{path}~")
        } else {
            format!(in self.rt.alloc(); "{path}~{number}")
        }
    }

    /// Makes the new file `copy`, whose name is `kept`, a copy of the file of this path. After a fault, which is reported, it is
    /// removed.
    fn fill_copy(
        &mut self,
        path: &str,
        object: File,
        kept: &str,
        copy: File,
    ) -> Result<(), Reported>
        ensures kept { IfOk result (λ _. self.new.notes.journal ≡ and_copied self.old.notes.journal kept.now) }
        ensures fault { IfErr result (λ _. self.new.notes.journal ≡ and_reported self.old.notes.journal) }
    {
        match copy_and_sync(self.rt, object, copy) {
            Ok(()) => {
                // With its folder on the disk the file's name outlasts a crash of the system. Not every file system can do it.
                let (folder, _) = folder_and_name(kept);
                if let Ok(folder) = File::open(self.rt, folder) {
                    let _ = folder.sync_all();
                }
                self.note(&Note::Copied(kept));
                self.explain(format_args!("{path} was no library: a copy of it is {kept}"));
                Ok(())
            }
            Err(fault) => {
                let _ = fs::remove_file(self.rt, kept);
                match fault {
                    Uncopied::Read(kind) => Err(self.report_system(path, Lack::Read, Some(kind))),
                    Uncopied::Write(kind) => Err(self.report_unkept(path, kept, kind)),
                }
            }
        }
    }

    /// Reports that the file of this path can't be kept under the name `kept`, and why.
    fn report_unkept(&mut self, path: &str, kept: &str, kind: ErrorKind) -> Reported
        ensures { self.new.notes.journal ≡ and_reported self.old.notes.journal }
    {
        let reported = self.report_system(kept, Lack::Write, Some(kind));
        self.explain(format_args!("{path} is no library, and was to be kept under that name"));
        reported
    }
}

/// Why no new file for a copy was made.
#[derive(Drop)]
enum CopyFault {
    Memory,
    System(ErrorKind),
    /// The system doesn't make the file of this name.
    At(String, ErrorKind),
}

impl From<AllocError> for CopyFault {
    fn from(_: AllocError) -> CopyFault
        ensures { result ≡ CopyFault.Memory }
    {
        CopyFault::Memory
    }
}

/// Why a file wasn't copied.
#[derive(Drop)]
enum Uncopied {
    /// The file isn't read to its end.
    Read(ErrorKind),
    /// The copy isn't written, or not to the disk.
    Write(ErrorKind),
}

/// A fault of the copy.
impl From<io::Error> for Uncopied {
    fn from(error: io::Error) -> Uncopied {
        Uncopied::Write(error.kind())
    }
}

/// Writes all bytes of the file to the copy and to the disk. The copy gets the file's permissions first. A fault if a file
/// of that length is too long for the system, or if the system fails.
fn copy_and_sync(rt: &HostRuntime, object: File, mut copy: File) -> Result<(), Uncopied> {
    let metadata = object.metadata()?;
    if is_past_limit(rt, metadata.len()) {
        return Err(Uncopied::Write(ErrorKind::FileTooLarge));
    }
    copy.set_permissions(Permissions::from_mode(metadata.permissions().mode() & 0o777))?;
    let mut object = NotedReader::new(object);
    if let Err(error) = io::copy(&mut object, &mut copy) {
        return Err(match object.failure() {
            Some(kind) => Uncopied::Read(kind),
            None => Uncopied::from(error),
        });
    }
    copy.sync_all()?;
    Ok(())
}

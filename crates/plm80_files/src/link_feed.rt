//! The files that `link` takes: object files and libraries, by their first byte.

ghost use Rattle.std.specs.Prelude.{◌∷◌, List, [], ℕ, IfOk, IfErr};
ghost use Rattle.plm80_console.specs.Journal.{OnlyBlames};
ghost use Rattle.plm80_files.specs.LinkFiles.{FaultsEither, HasTakenEither, IsLinkFileRead, SpellsEither};
ghost use Rattle.plm80_files.specs.Wrong.{OfFirst, SpellsNeither};

use crate::file_fault::FileFault;
use crate::unread_bytes::UnreadBytes;
use omf_core::RecordKind;
use omf_library::laws::one_library;
use omf_library::{Library, LibraryFeed};
use omf_module::laws::one_file_reading;
use omf_module::{FileFeed, Module};
use plm80_console::{Console, Reported, TakePieces};
use std::alloc::{AllocError, Global};

/// The type of a library header, which no module begins with.
const LIBRARY_HEADER: u8 = RecordKind::LibraryHeader as u8;

/// A reader of an object file or a library that comes in pieces. The first byte decides which it is.
#[derive(Drop)]
pub enum LinkFeed {
    /// No byte has come.
    Empty(Global),
    /// The first byte isn't that of a library.
    ObjectFile(FileFeed),
    /// The first byte is that of a library.
    Library(LibraryFeed),
}

/// What a file that `link` takes has.
#[derive(Drop)]
pub enum LinkFile {
    /// The modules of an object file, in order.
    Modules(Vec<Module>),
    /// A library with its modules.
    Library(Library),
}

impl TakePieces for LinkFeed {
    ghost use Rattle.plm80_files.specs.LinkFiles.{HasTakenEither};

    ghost has_taken = { HasTakenEither };

    fn take(&mut self, piece: &[u8]) -> Result<(), AllocError> {
        match self {
            LinkFeed::Empty(alloc) => {
                let first = first_feed(*alloc, piece)?;
                *self = first;
                Ok(())
            }
            LinkFeed::ObjectFile(feed) => feed.take(piece),
            LinkFeed::Library(feed) => feed.take(piece),
        }
    }
}

/// The reader of a file that begins with this piece, which it has taken. `AllocError` only if memory runs out.
fn first_feed(alloc: Global, piece: &[u8]) -> Result<LinkFeed, AllocError>
    ensures { IfOk result (λ feed. HasTakenEither feed piece.now) }
{
    match piece.first() {
        None => Ok(LinkFeed::Empty(alloc)),
        Some(&LIBRARY_HEADER) => {
            let mut feed = LibraryFeed::new(alloc);
            feed.take(piece)?;
            Ok(LinkFeed::Library(feed))
        }
        Some(_) => {
            let mut feed = FileFeed::new(alloc);
            feed.take(piece)?;
            Ok(LinkFeed::ObjectFile(feed))
        }
    }
}

impl LinkFeed {
    /// What the file has of which all pieces were taken, or its fault. A file without bytes is read as an object file.
    fn finish(self) -> Result<LinkFile, FileFault>
        ensures file { (text : List ℕ) → HasTakenEither self text → IfOk result (SpellsEither text) }
        ensures fault { (text : List ℕ) → HasTakenEither self text → IfErr result (FaultsEither text) }
    {
        match self {
            LinkFeed::Empty(alloc) => Ok(LinkFile::Modules(FileFeed::new(alloc).finish()?)),
            LinkFeed::ObjectFile(feed) => Ok(LinkFile::Modules(feed.finish()?)),
            LinkFeed::Library(feed) => Ok(LinkFile::Library(feed.finish()?)),
        }
    }
}

/// Reads the file of this path, in pieces, as an object file or as a library, by its first byte. A fault is reported.
pub fn read_link_file<C: Console>(console: &mut C, path: &str) -> Result<LinkFile, Reported>
    ensures read { IfOk result (IsLinkFileRead path.now (C.journal console.old) (C.journal console.new)) }
    ensures fault { IfErr result (λ _. OnlyBlames (OfFirst SpellsNeither) (path.now ∷ []) (C.journal console.old) (C.journal console.new)) }
{
    one_file_reading();
    one_library();
    let mut feed = LinkFeed::Empty(console.alloc());
    console.read_in_pieces(path, &mut feed)?;
    match feed.finish() {
        Ok(file) => {
            console.explain_any(UnreadBytes::of_file(console, path));
            Ok(file)
        }
        Err(fault) => Err(fault.report(console, path)),
    }
}

//! What a command answers, and what becomes of an answer: its files are written, its lines are printed, and its status is given.

ghost use Rattle.std.specs.Prelude.{◌≡◌};
ghost use Rattle.plm80_console.specs.Answer.{behind_file, file_of, prints, writes, writes_both};

use crate::new_file::NewFile;
use std::alloc::Global;
use std::marker::Model;

/// A file to write: its path, and all bytes that it gets.
#[derive(Drop)]
pub struct WrittenFile<'a> {
    pub path: &'a str,
    pub bytes: Vec<u8>,
}

/// The files that a command writes: none, one or two.
#[derive(Drop)]
pub enum WrittenFiles<'a> {
    Nothing,
    One(WrittenFile<'a>),
    /// Two files, of which neither is changed before both can be written.
    Both(WrittenFile<'a>, WrittenFile<'a>),
}

/// What a command answers, before any of it is done: the files that it writes, the lines that it prints when these are written, and its
/// exit status. A contract sees all three.
#[derive(Drop)]
pub struct Answer<'a> {
    pub(crate) files: WrittenFiles<'a>,
    pub(crate) lines: Vec<u8>,
    pub(crate) status: u8,
}

impl<'a> Model for Answer<'a> {
    ghost use Rattle.std.specs.Prelude.{[]};
    ghost use Rattle.plm80_console.specs.Answer.{AnswerValue, files_of};

    ghost Value = { AnswerValue };

    ghost view = { λ a. record { first = []; files = files_of a.files; lines = a.lines.items; status = a.status } };
}

impl<'a> Answer<'a> {
    /// An answer that prints these lines with this exit status, and writes no file.
    pub fn prints(lines: Vec<u8>, status: u8) -> Answer<'a>
        ensures { result ≡ prints lines.items status }
    {
        Answer {
            files: WrittenFiles::Nothing,
            lines,
            status,
        }
    }

    /// An answer that writes these bytes to the file of this path, and then prints these lines. The exit status is 0.
    pub fn writes(path: &'a str, bytes: Vec<u8>, lines: Vec<u8>) -> Answer<'a>
        ensures { result ≡ writes path.now bytes.items lines.items }
    {
        Answer {
            files: WrittenFiles::One(WrittenFile { path, bytes }),
            lines,
            status: 0,
        }
    }

    /// An answer that writes the file of this path alone, whatever files this answer writes, and then prints the lines of this answer
    /// and has its status.
    pub fn behind_file<'b>(self, path: &'b str, bytes: Vec<u8>) -> Answer<'b>
        ensures { result ≡ behind_file path.now bytes.items self.entry }
    {
        let Answer {
            files: _,
            lines,
            status,
        } = self;
        Answer {
            files: WrittenFiles::One(WrittenFile { path, bytes }),
            lines,
            status,
        }
    }

    /// An answer that writes two files, in this order, and prints nothing. The exit status is 0.
    pub fn writes_both(alloc: Global, first: WrittenFile<'a>, second: WrittenFile<'a>) -> Answer<'a>
        ensures { result ≡ writes_both (file_of first.entry) (file_of second.entry) }
    {
        Answer {
            files: WrittenFiles::Both(first, second),
            lines: Vec::new(alloc),
            status: 0,
        }
    }
}

impl<'a> WrittenFile<'a> {
    /// Lends the path and the bytes of the file.
    pub(crate) fn lend(&self) -> NewFile<'_>
        ensures path { result.path.now ≡ self.now.path.now }
        ensures bytes { result.bytes.now ≡ self.now.bytes.items }
    {
        NewFile {
            path: self.path,
            bytes: &self.bytes,
        }
    }
}

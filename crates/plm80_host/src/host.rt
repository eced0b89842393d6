//! The console of the program, over its host.

ghost use Rattle.std.specs.Prelude.{◌≡◌, ℕ, [], take, IfErr, IfOk};
ghost use Rattle.plm80_console.specs.Journal.{and_reported, nothing_done};
ghost use Rattle.plm80_host.specs.{Drafts.is_no_path, Noted.noted};

use crate::files::{NotedReader, kind_of};
use crate::notes::{Note, Notes};
use crate::replacing::in_order;
use crate::same_file::place_of;
use crate::size_limit::room_of_output;
use crate::usage::without_tip;
use plm80_console::{Console, FailureWords, Lack, NewFile, OneLine, Reported, TakePieces};
use std::alloc::Global;
use std::fmt::Display;
use std::fs;
use std::fs::File;
use std::io::{ErrorKind, IsTerminal, Read, Write};
use stream80::{Failed, ReadAllFault, Reading, Sink, TEXT_LIMIT, read_all};

/// The console of the program. What is done with it is noted, so that a contract sees it.
#[derive(Drop)]
pub struct HostConsole<'a> {
    pub(crate) rt: &'a HostRuntime,
    why: bool,
    pub(crate) notes: Notes,
}

impl<'a> HostConsole<'a> {
    /// A console with which nothing was done yet; with `why`, words about a fault follow its line.
    pub fn new(rt: &'a HostRuntime, why: bool) -> HostConsole<'a>
        ensures { ⟦<HostConsole<'a> as Console>⟧.journal result ≡ nothing_done }
    {
        HostConsole {
            rt,
            why,
            notes: Notes::new(),
        }
    }

    /// Enters in the console's journal a thing that was done. Only contracts see the journal: when the program runs, this
    /// does nothing.
    pub(crate) fn note(&mut self, note: &Note<'_>)
        ensures { self.new.notes.journal ≡ noted self.old.notes.journal note.now }
    {
        self.notes = self.notes.with(note);
    }
}

impl<'a> Console for HostConsole<'a> {
    ghost journal = { λ console. console.notes.journal };

    type Output = HostOutput<'a>;

    fn alloc(&self) -> Global {
        self.rt.alloc()
    }

    fn explains(&self) -> bool {
        self.why
    }

    fn read(&mut self, path: &str) -> Result<Vec<u8>, Reported> {
        let mut file = self.open(path)?;
        let mut source = Reading::new(&mut file);
        match read_all(self.rt.alloc(), &mut source, TEXT_LIMIT) {
            Ok(bytes) => {
                self.note(&Note::Read(path, &bytes));
                Ok(bytes)
            }
            Err(fault) => Err(self.report_unread(path, fault, file.failure())),
        }
    }

    fn read_input(&mut self, limit: usize) -> Result<Vec<u8>, Reported> {
        if self.rt.stdin().is_terminal() {
            self.remark("reads a bundle from standard input; plm80 --help lists the commands");
        }
        let mut input = NotedReader::new(self.rt.stdin());
        let mut source = Reading::new(&mut input);
        match read_all(self.rt.alloc(), &mut source, limit) {
            Ok(bytes) => {
                self.note(&Note::Input(&bytes));
                Ok(bytes)
            }
            Err(fault) => Err(self.report_no_input(fault, input.failure())),
        }
    }

    fn read_in_pieces<F: TakePieces>(&mut self, path: &str, feed: &mut F) -> Result<(), Reported> {
        let mut file = self.open(path)?;
        match hand_pieces(&mut file, feed) {
            Ok(pieces) => {
                self.note(&Note::ReadPieces(path, &pieces));
                Ok(())
            }
            Err(fault) => Err(self.report_unread(path, fault, file.failure())),
        }
    }

    fn replace(&mut self, path: &str, bytes: &[u8]) -> Result<(), Reported> {
        let draft = self.draft(NewFile { path, bytes })?;
        self.settle(draft)?;
        self.note(&Note::Written(path, bytes));
        Ok(())
    }

    fn replace_both(&mut self, first: NewFile<'_>, second: NewFile<'_>) -> Result<(), Reported> {
        if is_no_path(second.path) {
            self.note(&Note::Unwritten(second.path, false));
            return Err(self.report_no_path(second.path, Lack::Write));
        }
        let first_draft = self.draft(first)?;
        match self.draft(second) {
            Ok(second_draft) => {
                let (earlier, later) = in_order(first_draft, second_draft);
                self.settle_both(earlier, later)?;
                self.note(&Note::Written(first.path, first.bytes));
                self.note(&Note::Written(second.path, second.bytes));
                Ok(())
            }
            Err(reported) => {
                self.drop_draft(first_draft);
                Err(reported)
            }
        }
    }

    fn replace_keeping_objects(&mut self, path: &str, bytes: &[u8]) -> Result<(), Reported> {
        let draft = self.draft(NewFile { path, bytes })?;
        match self.keep_object(path) {
            Ok(()) => {
                self.settle(draft)?;
                self.note(&Note::Written(path, bytes));
                Ok(())
            }
            Err(reported) => {
                self.drop_draft(draft);
                self.note(&Note::Unwritten(path, false));
                Err(reported)
            }
        }
    }

    fn output(&mut self) -> HostOutput<'a> {
        HostOutput {
            rt: self.rt,
            room: room_of_output(self.rt),
            failures: 0,
            failure: None,
            pieces: Notes::new(),
        }
    }

    fn take_back(&mut self, output: HostOutput<'a>) -> Option<ErrorKind> {
        let HostOutput {
            rt: _,
            room: _,
            failures: _,
            failure,
            pieces,
        } = output;
        self.note(&Note::Printed(&pieces));
        failure
    }

    fn report(&mut self, lack: Lack) -> Reported {
        let reported = self.print_fault(lack);
        self.note(&Note::Reported);
        reported
    }

    fn report_file(&mut self, path: &str, lack: Lack) -> Reported {
        let reported = self.print_fault(format_args!("{path} {lack}"));
        self.note(&Note::Reported);
        reported
    }

    fn blame<F: Display + Drop>(&mut self, fault: F) -> Reported {
        let reported = self.print_fault(fault);
        self.note(&Note::Blamed);
        reported
    }

    fn report_usage(&mut self, error: &clap::Error) -> Reported {
        match self.usage(error) {
            Some(reported) => {
                self.note(&Note::Reported);
                reported
            }
            None => self.report_memory(),
        }
    }

    fn blame_usage(&mut self, error: &clap::Error) -> Reported {
        match self.usage(error) {
            Some(reported) => {
                self.note(&Note::Blamed);
                reported
            }
            None => self.report_memory(),
        }
    }

    fn report_memory(&mut self) -> Reported {
        // Words would take memory, too.
        self.why = false;
        self.report(Lack::Memory)
    }

    fn explain_faults(&mut self) {
        self.why = true;
    }

    fn explain<F: Display + Drop>(&self, words: F) {
        if self.why {
            let _ = eprintln!(self.rt; "  {}", OneLine(words));
        }
    }

    fn remark<F: Display + Drop>(&self, words: F) {
        let _ = eprintln!(self.rt; "plm80: {}", OneLine(words));
    }

    fn text_to_explain(&self, path: &str) -> Option<Vec<u8>> {
        if !self.why {
            return None;
        }
        match fs::metadata(self.rt, path) {
            Ok(metadata) if metadata.is_file() => {}
            _ => return None,
        }
        let mut source = Reading::new(File::open(self.rt, path).ok()?);
        read_all(self.rt.alloc(), &mut source, TEXT_LIMIT).ok()
    }

    fn is_one_file(&self, first: &str, second: &str) -> bool {
        match (place_of(self.rt, first), place_of(self.rt, second)) {
            (Some(first), Some(second)) => first == second,
            _ => false,
        }
    }
}

/// The path by which other programs name standard input or output.
const DASH: &str = "-";

/// Whether a path names no file: a hyphen alone, or none at all, as of a shell's variable that isn't set.
pub(crate) fn is_no_path(path: &str) -> bool
    ensures { result ≡ is_no_path path.now }
{
    path.is_empty() || path == DASH
}

impl<'a> HostConsole<'a> {
    /// Opens the file of this path. A fault is reported.
    fn open(&mut self, path: &str) -> Result<NotedReader<File>, Reported>
        ensures unchanged { IfOk result (λ _. self.new.notes.journal ≡ self.old.notes.journal) }
        ensures fault { IfErr result (λ _. self.new.notes.journal ≡ and_reported self.old.notes.journal) }
    {
        if is_no_path(path) {
            return Err(self.report_no_path(path, Lack::Read));
        }
        match File::open(self.rt, path) {
            Ok(file) => Ok(NotedReader::new(file)),
            Err(error) => Err(self.report_system(path, Lack::Read, Some(kind_of(&error)))),
        }
    }

    /// Prints a fault on standard error, in a line of its own.
    fn print_fault<F: Display + Drop>(&self, fault: F) -> Reported {
        Reported::print(self.rt, format_args!("plm80: {}\n", OneLine(fault)))
    }

    /// Prints an error of clap on standard error, without what it advises; `None` if memory runs out for it.
    fn usage(&self, error: &clap::Error) -> Option<Reported> {
        if error.kind() == clap::error::ErrorKind::OutOfMemory {
            return None;
        }
        let text = format!(in self.rt.alloc(); "{error}").ok()?;
        let (text, rest) = without_tip(&text);
        Some(Reported::print(self.rt, format_args!("{text}{rest}")))
    }

    /// Reports the fault of a path that names no file, and says below it how standard streams are named, or that it is empty.
    pub(crate) fn report_no_path(&mut self, path: &str, lack: Lack) -> Reported
        ensures { self.new.notes.journal ≡ and_reported self.old.notes.journal }
    {
        let reported = self.report_file(path, lack);
        self.explain(if path.is_empty() {
            "the path is empty, as of a shell's variable that isn't set"
        } else {
            "standard input is /dev/stdin, standard output /dev/stdout, and a file of this name ./-"
        });
        reported
    }

    /// Reports a fault at the file of this path, and says below it why the system failed, if that is known.
    pub(crate) fn report_system(
        &mut self,
        path: &str,
        lack: Lack,
        failure: Option<ErrorKind>,
    ) -> Reported
        ensures { self.new.notes.journal ≡ and_reported self.old.notes.journal }
    {
        let reported = self.report_file(path, lack);
        self.explain_any(FailureWords::of(failure));
        reported
    }

    /// Reports why the file of this path wasn't read whole; `failure` is why the system failed, if it did.
    fn report_unread(
        &mut self,
        path: &str,
        fault: ReadAllFault,
        failure: Option<ErrorKind>,
    ) -> Reported
        ensures { self.new.notes.journal ≡ and_reported self.old.notes.journal }
    {
        match fault {
            ReadAllFault::Read => self.report_system(path, Lack::Read, failure),
            ReadAllFault::TooLong => {
                let reported = self.report_file(path, Lack::TooLong);
                self.explain("it has more than 1048576 bytes");
                reported
            }
            ReadAllFault::Memory => self.report_memory(),
        }
    }

    /// Reports why standard input, the only text of a bundle, wasn't read whole; `failure` is why the system failed, if it did.
    fn report_no_input(&mut self, fault: ReadAllFault, failure: Option<ErrorKind>) -> Reported
        ensures { self.new.notes.journal ≡ and_reported self.old.notes.journal }
    {
        match fault {
            ReadAllFault::Read => {
                let reported = self.report(Lack::ReadInput);
                match failure {
                    Some(ErrorKind::NotConnected) => self.explain("standard input is closed"),
                    _ => self.explain_any(FailureWords::of(failure)),
                }
                reported
            }
            ReadAllFault::TooLong => self.report(Lack::LongInput),
            ReadAllFault::Memory => self.report_memory(),
        }
    }
}

/// How many bytes of a file are handed to a feed at a time, at most.
const PIECE: usize = 512;

/// Reads a file whole and hands its bytes to the feed, in pieces; the result notes them. A fault if a read fails, if there are more bytes
/// than a text may have, or if memory runs out.
fn hand_pieces<R: Read, F: TakePieces>(file: &mut R, feed: &mut F) -> Result<Notes, ReadAllFault>
    ensures { IfOk result (λ pieces. F.has_taken feed.old [] → F.has_taken feed.new pieces.journal.printed) }
{
    let mut pieces = Notes::new();
    let mut taken = 0;
    let mut piece = [0u8; PIECE];
    'pieces: while taken <= TEXT_LIMIT {
        let Ok(count) = file.read(&mut piece) else {
            return Err(ReadAllFault::Read);
        };
        if count == 0 {
            return Ok(pieces);
        }
        taken += count;
        feed.take(&piece[..count])?;
        pieces = pieces.with(&Note::Piece(&piece[..count]));
    }
    Err(ReadAllFault::TooLong)
}

/// Standard output while it is lent out. The pieces that it takes are noted.
pub struct HostOutput<'a> {
    rt: &'a HostRuntime,
    /// How many bytes it still takes; `None` if that isn't limited.
    room: Option<u64>,
    failures: u64,
    failure: Option<ErrorKind>,
    pieces: Notes,
}

impl<'a> Sink for HostOutput<'a> {
    ghost use Rattle.std.specs.Prelude.{Some};

    ghost written = { λ output. Some output.pieces.journal.printed };

    ghost failed = { λ output. output.failures };

    fn failures(&self) -> u64 {
        self.failures
    }

    fn write(&mut self, bytes: &[u8]) -> Result<usize, Failed> {
        let front = self.front_within_room(bytes);
        if front.is_empty() {
            self.failures += 1;
            self.failure = Some(ErrorKind::FileTooLarge);
            return Err(Failed);
        }
        match self.rt.stdout().write(front) {
            Ok(0) => {
                self.failures += 1;
                Ok(0)
            }
            Ok(count) => {
                self.room = self.room.map(|room| room.saturating_sub(count as u64));
                self.pieces = self.pieces.with(&Note::Piece(&front[..count]));
                Ok(count)
            }
            Err(error) => {
                self.failures += 1;
                self.failure = Some(kind_of(&error));
                Err(Failed)
            }
        }
    }
}

impl<'a> HostOutput<'a> {
    /// As many of these bytes, from the first one on, as standard output still takes.
    fn front_within_room<'b>(&self, bytes: &'b [u8]) -> &'b [u8]
        ensures { (count : ℕ) × (result.now ≡ take count bytes.now) }
    {
        match self.room {
            Some(room) if room < bytes.len() as u64 => &bytes[..room as usize],
            _ => &bytes[..bytes.len()],
        }
    }
}

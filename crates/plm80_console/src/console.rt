//! What a command runs on: files, standard input and output, and faults, each a line on standard error.

ghost use Rattle.std.specs.Prelude.{◌≡◌, ◌⊎◌, ◌<◌, ◌≤◌, ◌∷◌, ℕ, List, [], Ok, Some, IfErr, IfOk, IfSome, IsOkAnd, vec_len};
ghost use Rattle.stream80.specs.WholeText.{text_limit};
ghost use Rattle.plm80_console.specs.Answer.{GaveUp, IsGiven, IsGivenUp, StopsWriting, and_files, files_of};
ghost use Rattle.plm80_console.specs.Replaced.{GaveUpKeeping, IsReplacedKeeping, NotSettled, new_file_value};
ghost use Rattle.plm80_console.specs.Journal.{IsTakenBack, Journal, StopsPrinting, and_blamed, and_input, and_printed, and_read, and_reported, and_written};

use crate::answer::{Answer, WrittenFiles};
use crate::failure_words::FailureWords;
use crate::lack::Lack;
use crate::new_file::NewFile;
use crate::pieces::TakePieces;
use crate::read_file::ReadFile;
use crate::reported::Reported;
use std::alloc::{AllocError, Global};
use std::fmt::Display;
use std::io::ErrorKind;
use stream80::{Failed, Sink, write_all};

/// What a command runs on. Its journal says what was done with it so far.
pub trait Console {
    // What was done so far.
    ghost journal: { Self → Journal };

    /// Standard output while it is lent out. What was written to it counts as printed once it is taken back.
    type Output: Sink;

    /// The allocator of the program.
    fn alloc(&self) -> Global;

    /// Whether words are printed below the line of each fault.
    fn explains(&self) -> bool;

    /// Reads the file of this path whole. A fault that is reported: the file can't be read, it has more bytes than a text may have, or
    /// memory ran out.
    fn read(&mut self, path: &str) -> Result<Vec<u8>, Reported>
        ensures read { IfOk result (λ bytes. journal self.new ≡ and_read (journal self.old) path.now bytes.items) }
        ensures within { IfOk result (λ bytes. vec_len bytes ≤ text_limit) }
        ensures fault { IfErr result (λ _. journal self.new ≡ and_reported (journal self.old)) };

    /// Reads standard input whole, which is a bundle: at a terminal it is said that one is read. A fault that is reported: it can't be
    /// read, it has more than `limit` bytes, or memory ran out.
    fn read_input(&mut self, limit: usize) -> Result<Vec<u8>, Reported>
        requires { limit < usize.MAX }
        ensures read { IfOk result (λ bytes. journal self.new ≡ and_input (journal self.old) bytes.items) }
        ensures within { IfOk result (λ bytes. vec_len bytes ≤ limit) }
        ensures fault { IfErr result (λ _. journal self.new ≡ and_reported (journal self.old)) };

    /// Reads the file of this path, and hands all of its bytes to the feed, in pieces of 512 bytes at most. A fault of the system, too
    /// many bytes and out of memory are reported; a fault of the bytes is kept by the feed.
    fn read_in_pieces<F: TakePieces>(&mut self, path: &str, feed: &mut F) -> Result<(), Reported>
        ensures read { IfOk result (λ _. (bytes : List ℕ) × (journal self.new ≡ and_read (journal self.old) path.now bytes)
            × (F.has_taken feed.old [] → F.has_taken feed.new bytes)) }
        ensures fault { IfErr result (λ _. journal self.new ≡ and_reported (journal self.old)) };

    /// Replaces the file of this path by one with these bytes, or makes it. After a fault, which is reported, the file is as it was, unless
    /// it was written in place: then it may be spoiled.
    fn replace(&mut self, path: &str, bytes: &[u8]) -> Result<(), Reported>
        ensures written { IfOk result (λ _. journal self.new ≡ and_written (journal self.old) path.now bytes.now) }
        ensures fault { IfErr result (λ _. NotSettled path.now (journal self.old) (journal self.new)) };

    /// Replaces two files, or makes them. Neither is changed before both are written, unless both are written in place. After a fault,
    /// which is reported, one of them may have been replaced.
    fn replace_both(&mut self, first: NewFile<'_>, second: NewFile<'_>) -> Result<(), Reported>
        ensures written { IfOk result (λ _. journal self.new ≡ and_written (and_written (journal self.old) first.entry.path.now
            first.entry.bytes.now) second.entry.path.now second.entry.bytes.now) }
        ensures fault { IfErr result (λ _. StopsWriting (new_file_value first.entry ∷ new_file_value second.entry ∷ [])
            (journal self.old) (journal self.new)) };

    /// Replaces the file of this path by one with these bytes. If the path names a file now that is no library, a copy of it is kept
    /// beside the path first.
    fn replace_keeping_objects(&mut self, path: &str, bytes: &[u8]) -> Result<(), Reported>
        ensures written { IfOk result (λ _. IsReplacedKeeping path.now bytes.now (journal self.old) (journal self.new)) }
        ensures fault { IfErr result (λ _. GaveUpKeeping path.now (journal self.old) (journal self.new)) };

    /// Lends out standard output, to which nothing was written yet: it must be taken back.
    fn output(&mut self) -> Self::Output
        ensures written { Self.Output.written result ≡ Some [] }
        ensures unfailed { Self.Output.failed result ≡ 0 }
        ensures unchanged { journal self.new ≡ journal self.old };

    /// Takes standard output back: what was written to it is printed. The result is why a write failed last; `None` if none did.
    fn take_back(&mut self, output: Self::Output) -> Option<ErrorKind>
        ensures { IsTakenBack (Self.Output.written output) (journal self.old) (journal self.new) };

    /// Prints what the machine or its system lacks on standard error, in a line of its own.
    fn report(&mut self, lack: Lack) -> Reported
        ensures { journal self.new ≡ and_reported (journal self.old) };

    /// Prints what is lacking at the file of this path on standard error, in a line of its own, with the path before it.
    fn report_file(&mut self, path: &str, lack: Lack) -> Reported
        ensures { journal self.new ≡ and_reported (journal self.old) };

    /// Prints a fault of arguments or files on standard error, in a line of its own. The caller's contract says that it is there.
    fn blame<F: Display + Drop>(&mut self, fault: F) -> Reported
        ensures { journal self.new ≡ and_blamed (journal self.old) };

    /// Prints an error of clap on standard error that doesn't blame the words of the command line, or that memory runs out for it.
    fn report_usage(&mut self, error: &clap::Error) -> Reported
        ensures { journal self.new ≡ and_reported (journal self.old) };

    /// Prints an error of clap that blames the command line, or the help text that it asks for, on standard error, or that memory runs out
    /// for it.
    fn blame_usage(&mut self, error: &clap::Error) -> Reported
        ensures { (journal self.new ≡ and_blamed (journal self.old)) ⊎ (journal self.new ≡ and_reported (journal self.old)) };

    /// Makes the console print words below the line of each fault from now on.
    fn explain_faults(&mut self)
        ensures { journal self.new ≡ journal self.old };

    /// Prints words below the fault that was reported, if faults are explained.
    fn explain<F: Display + Drop>(&self, words: F);

    /// Prints a line on standard error that is no fault, whether faults are explained or not.
    fn remark<F: Display + Drop>(&self, words: F);

    /// Reads the file of this path again, to say more of a fault; `None` if faults aren't explained, or if the file can't be read again,
    /// as a pipe can't.
    fn text_to_explain(&self, path: &str) -> Option<Vec<u8>>
        ensures { IfSome result (λ bytes. vec_len bytes ≤ text_limit) };

    /// Whether two paths name one file, by whatever spellings and links.
    fn is_one_file(&self, first: &str, second: &str) -> bool;

    /// Prints a fault of the file of this path on standard error, as `blame` does, with the path before it.
    fn blame_file<F: Display + Drop>(&mut self, path: &str, fault: F) -> Reported
        ensures { journal self.new ≡ and_blamed (journal self.old) }
    {
        self.blame(format_args!("{path} {fault}"))
    }

    /// Prints on standard error that memory ran out, as the fault `Memory`.
    fn report_memory(&mut self) -> Reported
        ensures { journal self.new ≡ and_reported (journal self.old) }
    {
        self.report(Lack::Memory)
    }

    /// Prints on standard error that standard output takes nothing more, as the fault `Write`; `failure` is why, if that is known.
    fn report_output(&mut self, failure: Option<ErrorKind>) -> Reported
        ensures { journal self.new ≡ and_reported (journal self.old) }
    {
        let reported = self.report(Lack::Write);
        self.explain_any(FailureWords::of_output(failure));
        reported
    }

    /// Prints words below the fault that was reported, if there are any and faults are explained.
    fn explain_any<F: Display + Drop>(&self, words: Option<F>) {
        if let Some(words) = words {
            self.explain(words);
        }
    }

    /// Reads the file of this path whole, as `read` does, and keeps the path beside its bytes.
    fn read_file<'a>(&mut self, path: &'a str) -> Result<ReadFile<'a>, Reported>
        ensures path { IfOk result (λ file. file.path.now ≡ path.now) }
        ensures read { IfOk result (λ file. journal self.new ≡ and_read (journal self.old) path.now file.bytes.items) }
        ensures fault { IfErr result (λ _. journal self.new ≡ and_reported (journal self.old)) }
    {
        let bytes = self.read(path)?;
        Ok(ReadFile { path, bytes })
    }

    /// Prints bytes on standard output. If it doesn't take them all, that is reported.
    fn print(&mut self, bytes: &[u8]) -> Result<(), Reported>
        ensures printed { IfOk result (λ _. journal self.new ≡ and_printed (journal self.old) bytes.now) }
        ensures fault { IfErr result (λ _. StopsPrinting bytes.now (journal self.old) (journal self.new)) }
    {
        let mut output = self.output();
        let answer = write_all(&mut output, bytes);
        let failure = self.take_back(output);
        match answer {
            Ok(()) => Ok(()),
            Err(Failed) => Err(self.report_output(failure)),
        }
    }

    /// Writes the files of a command, in their order. At the first fault, which is reported, no further file is written.
    fn write_files(&mut self, files: &WrittenFiles<'_>) -> Result<(), Reported>
        ensures written { IfOk result (λ _. journal self.new ≡ and_files (journal self.old) (files_of files.now)) }
        ensures fault { IfErr result (λ _. StopsWriting (files_of files.now) (journal self.old) (journal self.new)) }
    {
        match files {
            WrittenFiles::Nothing => Ok(()),
            WrittenFiles::One(file) => self.replace(file.path, &file.bytes),
            WrittenFiles::Both(first, second) => self.replace_both(first.lend(), second.lend()),
        }
    }

    /// Does what an answer says: writes its files, then prints its lines, and returns its exit status. At a fault, which is reported, the
    /// rest isn't done.
    fn give(&mut self, answer: Answer<'_>) -> Result<u8, Reported>
        ensures given { IfOk result (IsGiven answer.entry (journal self.old) (journal self.new)) }
        ensures fault { IfErr result (λ _. GaveUp answer.entry (journal self.old) (journal self.new)) }
    {
        let Answer {
            files,
            lines,
            status,
        } = answer;
        self.write_files(&files)?;
        self.print(&lines)?;
        Ok(status)
    }

    /// Does what an answer says, as `give` does, if it could be made; else reports that memory ran out.
    fn give_if_made(&mut self, answer: Result<Answer<'_>, AllocError>) -> Result<u8, Reported>
        ensures given { IfOk result (λ status. IsOkAnd answer.entry (λ made. IsGiven made (journal self.old) (journal self.new) status)) }
        ensures fault { IfErr result (λ _. IsGivenUp (λ made. answer.entry ≡ Ok made) (journal self.old) (journal self.new)) }
    {
        match answer {
            Ok(answer) => self.give(answer),
            Err(AllocError) => Err(self.report_memory()),
        }
    }
}

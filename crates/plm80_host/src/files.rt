//! Readers that keep why they failed, and why the system fails.

ghost use Rattle.std.specs.Prelude.{◌≡◌, ◌≢◌, None, Some, pos};
ghost use Rattle.std.specs.IoError.{error_kind, raw_os_error};

use std::io;
use std::io::{ErrorKind, Read};
use std::marker::Model;

/// The number of the error that the system gives for a descriptor that is closed.
const CLOSED: i32 = 9;

/// The kind of an error of the system. std has none for a closed standard input or output: `NotConnected` stands for it.
pub(crate) fn kind_of(error: &io::Error) -> ErrorKind
    ensures closed { raw_os_error error.now ≡ Some (pos 9) → result ≡ ErrorKind.NotConnected }
    ensures other { raw_os_error error.now ≢ Some (pos 9) → result ≡ error_kind error.now }
{
    if error.raw_os_error() == Some(CLOSED) {
        ErrorKind::NotConnected
    } else {
        error.kind()
    }
}

/// A reader that keeps why a read failed last.
#[derive(Drop)]
pub(crate) struct NotedReader<R> {
    inner: R,
    failure: Option<ErrorKind>,
}

/// A contract sees why a read failed last, of a reader that keeps it.
impl<R> Model for NotedReader<R> {
    ghost use Rattle.std.specs.Prelude.{Option};
    ghost use Rattle.std.specs.declared.io.ErrorKind.{ErrorKind};

    ghost Value = { Option ErrorKind };

    ghost view = { λ reader. reader.failure };
}

impl<R: Read> NotedReader<R> {
    /// A reader over `inner` that keeps no failure yet.
    pub(crate) fn new(inner: R) -> NotedReader<R>
        ensures { result ≡ None }
    {
        NotedReader {
            inner,
            failure: None,
        }
    }

    /// Why a read failed last; `None` if none did.
    pub(crate) fn failure(&self) -> Option<ErrorKind>
        ensures { result ≡ self.now }
    {
        self.failure
    }
}

impl<R: Read> Read for NotedReader<R> {
    fn read(&mut self, buffer: &mut [u8]) -> io::Result<usize> {
        match self.inner.read(buffer) {
            Ok(count) => Ok(count),
            Err(error) => {
                self.failure = Some(kind_of(&error));
                Err(error)
            }
        }
    }
}

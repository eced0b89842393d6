//! Why the system failed, in words.

ghost use Rattle.std.specs.Prelude.{◌≡◌, ◌≢◌, ◌⊎◌, None, Some, IfNone, IfSome};
ghost use Rattle.plm80_console.specs.FailureWords.{failure_of};

use std::io::ErrorKind;
use thiserror::Error;

/// Why the system failed at a file or a stream, as words below a fault.
#[derive(Clone, Copy, Debug, Error)]
pub enum FailureWords {
    #[error("standard output is closed")]
    OutputClosed,
    #[error("no such file or directory")]
    NotFound,
    #[error("a name in the path is too long")]
    NameTooLong,
    #[error("{0}")]
    Other(ErrorKind),
}

impl FailureWords {
    /// The words for a failure of the system; `None` if it isn't known, or if memory ran out, which has a fault of its own.
    pub fn of(failure: Option<ErrorKind>) -> Option<FailureWords>
        ensures failure { IfSome result (λ words. failure ≡ Some (failure_of words)) }
        ensures none { IfNone result ((failure ≡ None) ⊎ (failure ≡ Some ErrorKind.OutOfMemory)) }
        ensures memory { failure ≡ Some ErrorKind.OutOfMemory → result ≡ None }
        ensures not_found { failure ≡ Some ErrorKind.NotFound → result ≡ Some FailureWords.NotFound }
        ensures too_long { failure ≡ Some ErrorKind.InvalidFilename → result ≡ Some FailureWords.NameTooLong }
        ensures not_closed { IfSome result (λ words. words ≢ FailureWords.OutputClosed) }
    {
        match failure? {
            ErrorKind::NotFound => Some(FailureWords::NotFound),
            ErrorKind::InvalidFilename => Some(FailureWords::NameTooLong),
            ErrorKind::OutOfMemory => None,
            kind => Some(FailureWords::Other(kind)),
        }
    }

    /// The words for a failure at standard output, where one that isn't connected is closed; `None` as in `of`.
    pub fn of_output(failure: Option<ErrorKind>) -> Option<FailureWords>
        ensures failure { IfSome result (λ words. failure ≡ Some (failure_of words)) }
        ensures none { IfNone result ((failure ≡ None) ⊎ (failure ≡ Some ErrorKind.OutOfMemory)) }
        ensures memory { failure ≡ Some ErrorKind.OutOfMemory → result ≡ None }
        ensures not_found { failure ≡ Some ErrorKind.NotFound → result ≡ Some FailureWords.NotFound }
        ensures too_long { failure ≡ Some ErrorKind.InvalidFilename → result ≡ Some FailureWords.NameTooLong }
        ensures closed { failure ≡ Some ErrorKind.NotConnected → result ≡ Some FailureWords.OutputClosed }
    {
        match failure {
            Some(ErrorKind::NotConnected) => Some(FailureWords::OutputClosed),
            _ => FailureWords::of(failure),
        }
    }
}

//! A fault that has been reported.

ghost use Rattle.std.specs.Prelude.{◌≡◌, IfOk, IfErr};
ghost use Rattle.std.specs.Process.{exit_status};

use std::fmt::Display;
use std::process::ExitCode;

/// A proof that a fault has been reported on standard error. Nothing makes one but printing there, which takes the host, so no command
/// can; and nothing but an exit status comes of it.
pub struct Reported(());

impl Reported {
    /// Prints a fault on standard error. If that fails, it counts as reported all the same: there is no other place for it.
    pub fn print<F: Display + Drop>(rt: &HostRuntime, fault: F) -> Reported {
        let _ = eprint!(rt; "{fault}");
        Reported(())
    }

    /// The exit status of a run with a fault, which is 2.
    pub fn status(self) -> ExitCode
        ensures { exit_status result ≡ 2 }
    {
        let Reported(()) = self;
        ExitCode::from(2)
    }
}

/// The exit status of what was asked for: that of its answer, or 2 if a fault was reported.
pub fn exit_code(done: Result<u8, Reported>) -> ExitCode
    ensures answer { IfOk done (λ status. exit_status result ≡ status) }
    ensures fault { IfErr done (λ _. exit_status result ≡ 2) }
{
    match done {
        Ok(status) => ExitCode::from(status),
        Err(reported) => reported.status(),
    }
}

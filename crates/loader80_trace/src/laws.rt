//! What holds of every run. The law is ensured by a function that does nothing of its own.

ghost use Rattle.loader80_trace.specs.GoingOn.{RunsGoOn};

/// A law: a run that goes on from a state which another run has reached is the rest of that run. Nothing but the
/// state decides how it goes on.
pub fn runs_go_on()
    ensures { RunsGoOn }
{}

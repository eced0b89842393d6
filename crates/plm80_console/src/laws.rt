//! What holds of all journals, whatever a command does. The function does nothing of its own: its contract is the law.

ghost use Rattle.plm80_console.specs.JournalLaws.{FaultsFollowReading};

/// What only reads some further files and reports a fault, behind files that were read, only reads and reports since before them.
pub fn faults_follow_reading()
    ensures { FaultsFollowReading }
{}

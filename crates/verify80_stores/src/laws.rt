//! What the stores that are found say of the runs of the watched machine. The function does nothing of its own: its contract is the
//! law.

ghost use Rattle.verify80_stores.specs.Stores.{StoresAreThoseOfWatchedRuns};

use verify80::runs_begin_from_power_on;

/// The runs that a loader makes, from the image's memory and registers of 0, are runs from power-on: what is found of an
/// image's stores holds of them.
pub fn watched_runs_go_as_listed()
    ensures { StoresAreThoseOfWatchedRuns }
{
    runs_begin_from_power_on();
}

//! What a table of states says of runs. The function does nothing of its own: its contract is the law.

ghost use Rattle.verify80_states.specs.Runs.{FittingTablesAreKept, RunsKeepToKeptTables};

use crate::bytes::bytes_stay_bytes;
use image80::laws::code_data_and_stack_are_apart;

/// A table of states that fits an image is kept by each of its starts and by each step of a world of which the verifier knows. So from
/// power-on, whatever bytes registers, memory and ports hold, each run of an image that stays on walks keeps to it.
pub fn fitting_states_hold()
    ensures kept { FittingTablesAreKept }
    ensures keep { RunsKeepToKeptTables }
{
    bytes_stay_bytes();
    code_data_and_stack_are_apart();
}

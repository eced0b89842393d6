//! What holds of runs among devices. The functions do nothing: their contracts are the laws.

ghost use Rattle.std.specs.Prelude.{◌<◌, All};
ghost use Rattle.loader80_board.specs.BoardStates.{BoardsDecideRuns};
ghost use Rattle.loader80_board.specs.OnBoards.{RunsAreOnBoards, RunsAreOnQuietBoards, RunsStandOnBoards, StartsHoldBytes};

use image80::laws::code_data_and_stack_are_apart;
use loader80::Vouched;
use verify80::promise_is_kept_on_boards;
use verify80_states::bytes_stay_bytes;

/// A law: a run of a verified image among devices in its data is a run on a board as `specs/Boards.antt` of `verify80`
/// defines it, so that each of its states keeps the promise of [`promise_is_kept_on_boards`]. That a device's byte is
/// set just before the instruction that loads it is what a board may do at any time.
pub fn runs_are_on_boards()
    ensures { RunsAreOnBoards }
{
    runs_are_on_quiet_boards();
    promise_is_kept_on_boards();
}

/// A law: each state of each run of a vouched image among devices in its data is one on a board of which the promise holds.
pub fn vouched_images_keep_the_promise(vouched: &Vouched)
    ensures { RunsStandOnBoards vouched.now.image vouched.now.stack_bytes }
{
    runs_are_on_boards();
    are_bytes(vouched.memory());
    vouched.image().regions.stack();
}

/// Bytes are below 256. (It carries this fact alone.)
fn are_bytes(memory: &[u8])
    ensures { All (λ byte. byte < 256) memory.now }
{}

/// A law: a run of any image among devices in its data is a run on a board whose devices leave alone what isn't theirs.
pub fn runs_are_on_quiet_boards()
    ensures runs { RunsAreOnQuietBoards }
    ensures start { StartsHoldBytes }
{
    code_data_and_stack_are_apart();
    bytes_stay_bytes();
}

/// A law: a run on a board has one state after each number of steps, and none after the step that ends it. Nothing but the
/// image, the board and the limit of outputs decides it.
pub fn boards_decide_runs()
    ensures { BoardsDecideRuns }
{}

//! From a table of frames that fits an image to all runs of it.

ghost use Rattle.verify80.specs.Boards.{BoardStepsAreGuarded, UnsetPointerCountsForNothing, PromiseIsKeptOnBoards, WalksAreKeptOnBoards};
ghost use Rattle.verify80.specs.Soundness.{AcceptedImagesStayOnWalks, FittedImagesNeverGoWrong, FittedImagesNeverGoWrongFromPowerOn, RunsBeginFromPowerOn};

use crate::looks_are_exact;
use decode80::fetch_reads_code_alone;
use frames80::places_move;
use image80::laws::code_data_and_stack_are_apart;
use verify80_flow::fitting_tables_cover_walks;

/// The promise, as a contract. If a table of frames fits an image, and the stack has the bytes that
/// the table says, then whatever waits at the ports, however many outputs are taken and however
/// long the program runs, each of its steps fetches only inside code, stores by address only to
/// data and jumps by PCHL only if targets are declared, touches as stack only as many bytes below
/// the stack's top as the table says, and returns only to the place after the newest call that
/// hasn't returned; and it ends, if at all, by HLT, at an empty port, at a refused output, at a
/// store through a register pair outside data or at a PCHL to none of its declared targets.
pub fn fitted_images_never_go_wrong()
    ensures { FittedImagesNeverGoWrong }
{
    images_never_go_wrong_from_power_on();
    runs_begin_from_power_on();
}

/// The promise of [`fitted_images_never_go_wrong`] from power-on: whatever the registers, the flags
/// and the memory outside code hold before the first step, if only SP is at the stack's top and
/// each address of code has the image's byte.
pub fn images_never_go_wrong_from_power_on()
    ensures { FittedImagesNeverGoWrongFromPowerOn }
{
    fetch_reads_code_alone();
    places_move();
    code_data_and_stack_are_apart();
    looks_are_exact();
}

/// A law of runs: one that begins with the image's memory and with registers of 0 is a run from
/// power-on.
pub fn runs_begin_from_power_on()
    ensures { RunsBeginFromPowerOn }
{}

/// A law of accepted images: from power-on, each step of a run is at an address that a walk of the
/// image's procedures reaches, and fetches the instruction that the verifier has found there. A
/// return that is taken goes to the address after a call on a walk, and a walk of that call's
/// procedure returns.
pub fn accepted_images_stay_on_walks()
    ensures { AcceptedImagesStayOnWalks }
{
    fetch_reads_code_alone();
    places_move();
    code_data_and_stack_are_apart();
    looks_are_exact();
    fitting_tables_cover_walks();
}

/// The promise on every board, where nothing guards a step and devices may write any byte that is
/// neither code nor pushed on the stack: from the image's start, if SP is at the stack's top or the
/// program sets it before it uses it, whatever else registers, flags and memory hold, up to the
/// first store through a register pair outside data or the first PCHL outside its targets. A run
/// goes on until a HLT, and each EI is followed by one. `specs/Boards.antt` says what a board is.
pub fn promise_is_kept_on_boards()
    ensures promise { PromiseIsKeptOnBoards }
    ensures steps { BoardStepsAreGuarded }
    ensures unset { UnsetPointerCountsForNothing }
{
    fetch_reads_code_alone();
    places_move();
    code_data_and_stack_are_apart();
    looks_are_exact();
}

/// A law of accepted images on every board, unguarded and among devices: their runs stay on their
/// walks, as guarded runs do ([`accepted_images_stay_on_walks`]).
pub fn walks_are_kept_on_boards()
    ensures { WalksAreKeptOnBoards }
{
    fetch_reads_code_alone();
    places_move();
    code_data_and_stack_are_apart();
    looks_are_exact();
    fitting_tables_cover_walks();
}

//! The stores of a program.

ghost use Rattle.std.specs.Prelude.{◌≡◌, [], IfOk, true};
ghost use Rattle.image80.specs.Image.{memory_of};
ghost use Rattle.verify80.specs.Boards.{SetsStack};
ghost use Rattle.verify80_states.specs.Bytes.{HasBytes};
ghost use Rattle.verify80_stores.specs.{Boards.PromiseHoldsOnBoards, Boards.PromiseHoldsOnQuietBoards, Boards.is_quiet, Listing.AreKnown};
ghost use Rattle.verify80_stores.specs.Stores.{AreStoresOf, WatchedRunsGoAsListed};

use crate::laws::watched_runs_go_as_listed;
use crate::listing::{Kind, addresses_of, open_stores};
use crate::showing::show;
use crate::stack_pointer::sets_stack;
use crate::stores::Stores;
use image80::{Image, Range};
use std::alloc::{AllocError, Global};
use verify80::{
    Vouched, accepted_images_stay_on_walks, find_reached, images_never_go_wrong_from_power_on,
    promise_is_kept_on_boards, walks_are_kept_on_boards,
};
use verify80_proposals::Search;
use verify80_states::{bytes_stay_bytes, fitting_states_hold};

/// Goes over a vouched image, and answers where its register-indirect stores may go. In the quiet ranges of data nobody but the program
/// writes: what it has stored there is remembered.
///
/// On a board, if nothing stops a store outside data, this is what the promise of [`verify80::vouch`] still needs: whatever bytes are in
/// the registers, in memory outside the code and at the ports, if only SP is at the stack's top before the first step, each store of an
/// address that isn't listed as open goes to data, and each that is goes to an address of its span. So a run ends at a store only if that
/// is listed, and at a PCHL outside its targets only at one of the listed ones. A board goes on there, and then nothing is promised, of the
/// other stores either. Up to there the whole promise holds on every board, whatever devices write to any byte that is neither code nor
/// pushed, if there are no quiet ranges (`boards`), and to no quiet address, if there are (`quiet_boards`): stores and jumps that aren't
/// listed stay inside, each step is on a walk, and the board goes on until a HLT. That a listed store can leave data isn't said. (The
/// stores are MOV M,r, MVI M, INR M, DCR M and STAX: Intel 8080
/// Microcomputer Systems User's Manual, chapter 4.)
///
/// Loops with constant bounds are walked through, up to some thousand states at an address; how many states there are, and how often
/// each is visited, is bounded, whatever the image.
///
/// # Example
/// ```
/// let stores = find_stores(rt.alloc(), &vouched, &[])?;
/// assert!(rt; stores.addresses.is_empty());
/// assert!(rt; stores.open.is_empty());
/// ```
///
/// # Errors
/// `AllocError` only if memory runs out.
pub fn find_stores(alloc: Global, vouched: &Vouched, quiet: &[Range]) -> Result<Stores, AllocError>
    ensures listed { IfOk result (λ stores.
        AreStoresOf vouched.now.image stores.addresses.items stores.open.items stores.jumps.items stores.open_jumps.items) }
    ensures boards { IfOk result (λ stores. quiet.now ≡ [] →
        PromiseHoldsOnBoards vouched.now.image vouched.now.stack_bytes stores.open.items stores.open_jumps.items) }
    ensures quiet_boards { IfOk result (λ stores.
        PromiseHoldsOnQuietBoards vouched.now.image (is_quiet vouched.now.image.regions quiet.now) vouched.now.stack_bytes stores.open.items
        stores.open_jumps.items) }
    ensures stack { IfOk result (λ stores. stores.sets_stack ≡ true → SetsStack vouched.now.image) }
    ensures watched { IfOk result (λ stores. WatchedRunsGoAsListed vouched.now.image stores.open.items stores.open_jumps.items) }
{
    runs_of(vouched);
    fitting_states_hold();
    bytes_stay_bytes();
    watched_runs_go_as_listed();
    let image = vouched.image();
    holds_bytes(alloc, image)?;
    let found = find_reached(alloc, vouched)?;
    let reached = found.instructions();
    let mut search = Search::new();
    let shown = show(alloc, image, vouched.rows(), reached, quiet, &mut search)?;
    let addresses = addresses_of(alloc, Kind::Store, false, reached, &shown)?;
    let open = open_stores(alloc, reached, &shown)?;
    let jumps = addresses_of(alloc, Kind::Jump, false, reached, &shown)?;
    let open_jumps = addresses_of(alloc, Kind::Jump, true, reached, &shown)?;
    Ok(Stores {
        addresses,
        open,
        jumps,
        open_jumps,
        sets_stack: sets_stack(alloc, image, vouched.rows(), reached)?,
        search: search.into_notes(),
    })
}

/// An image's memory holds bytes. (It carries this fact alone.)
///
/// # Errors
/// `AllocError` if memory runs out.
fn holds_bytes(alloc: Global, image: &Image) -> Result<(), AllocError>
    ensures { IfOk result (λ made. HasBytes (memory_of image.now.chunks)) }
{
    let memory = image.memory(alloc)?;
    are_bytes(&memory);
    Ok(())
}

/// Bytes are below 256. (It carries this fact alone.)
fn are_bytes(memory: &[u8])
    ensures { HasBytes memory.now }
{}

/// What is known of a vouched image's runs. (It carries laws, and does nothing.)
fn runs_of(vouched: &Vouched)
    ensures { AreKnown vouched.now.image vouched.now.stack_bytes }
{
    accepted_images_stay_on_walks();
    images_never_go_wrong_from_power_on();
    promise_is_kept_on_boards();
    walks_are_kept_on_boards();
    vouched.image().regions.stack();
}

//! The instructions to which a program may come that a table follows, and its handlers.

ghost use Rattle.std.specs.Prelude.{◌≡◌, ◌<◌, AllPairs, IfOk, OnOk, length, map, slice_set, true, ◌++◌};
ghost use Rattle.std.specs.List.{flat_map, list_all};
ghost use Rattle.std.specs.Result.{result_ok};
ghost use Rattle.image80.specs.Image.{memory_of};
ghost use Rattle.verify80.specs.LookLaws.{fetch_at};
ghost use Rattle.verify80_stores.specs.Listing.{is_at, is_of};
ghost use Rattle.verify80_follow.specs.Reaching.{AreFollowed, AreListed, places_of};

use crate::calls::Summary;
use crate::fit::Table;
use crate::followed::FollowedState;
use crate::handling::Handler;
use decode80::{Fetched, fetch};
use image80::Image;
use std::alloc::{AllocError, Global};
use verify80::ImageCode;
use verify80_stores::{Kind, OpenStore, is_kind_at};

/// Where the states of a program's table stand, those of its summaries, and those of its handlers' tables.
///
/// # Errors
/// `AllocError` if memory runs out.
pub fn places_of(alloc: Global, table: &Table, handlers: &[Handler]) -> Result<Vec<u16>, AllocError>
    ensures { IfOk result (λ places. places.items ≡ places_of table.now handlers.now) }
{
    let mut places = Vec::new(alloc);
    append_places(&mut places, &table.states)?;
    append_summaries(&mut places, &table.summaries)?;
    for handler in handlers {
        append_places(&mut places, &handler.table.states)?;
    }
    Ok(places)
}

/// Appends where the states of summaries stand.
fn append_summaries(places: &mut Vec<u16>, summaries: &[Summary]) -> Result<(), AllocError>
    ensures { OnOk result (places.new.items ≡ places.old.items ++ flat_map (λ summary. map (λ s. s.at) summary.states.items) summaries.now) }
{
    for summary in summaries {
        append_places(places, &summary.states)?;
    }
    Ok(())
}

/// Appends where states stand.
fn append_places(places: &mut Vec<u16>, states: &[FollowedState]) -> Result<(), AllocError>
    ensures { OnOk result (places.new.items ≡ places.old.items ++ map (λ s. s.at) states.now) }
{
    for state in states {
        places.push(state.at)?;
    }
    Ok(())
}

/// By address the image's instruction, if a state stands there: 65,536 entries.
///
/// # Errors
/// `AllocError` if memory runs out.
pub fn followed_instructions(
    alloc: Global,
    image: &Image,
    places: &[u16],
) -> Result<Vec<Option<Fetched>>, AllocError>
    ensures { IfOk result (λ reached. AreFollowed image.now places.now reached.items) }
{
    let program = ImageCode::new(alloc, image)?;
    let mut reached = vec![in alloc; None; 65_536]?;
    for place in places {
        note(&mut reached, &program, *place);
    }
    Ok(reached)
}

/// Sets the entry of an address to the instruction there. There must be an entry for each address.
fn note(reached: &mut Vec<Option<Fetched>>, program: &ImageCode<'_>, at: u16)
    requires { length reached.old.items ≡ 65536 }
    ensures address { at < 65536 }
    ensures set { reached.new.items ≡ slice_set reached.old.items at (result_ok (fetch_at program.now.regions (memory_of program.now.chunks) at)) }
{
    reached[usize::from(at)] = fetch(at, program).ok();
}

/// Whether what the table of a program leaves open is listed by address: stores by register pairs, and PCHLs, each where a state of the table or of
/// a handler's table stands.
///
/// # Errors
/// `AllocError` if memory runs out.
pub fn is_listed_in_order(
    alloc: Global,
    image: &Image,
    table: &Table,
    handlers: &[Handler],
) -> Result<bool, AllocError>
    ensures { IfOk result (λ is_listed. is_listed ≡ true → AreListed image.now (places_of table.now handlers.now) table.now.listed) }
{
    let places = places_of(alloc, table, handlers)?;
    let reached = followed_instructions(alloc, image, &places)?;
    let stores = addresses_of(alloc, &table.listed.stores)?;
    if !are_in_order(Kind::Store, &stores, &reached) {
        return Ok(false);
    }
    Ok(are_in_order(Kind::Jump, &table.listed.jumps, &reached))
}

/// The addresses of open stores.
fn addresses_of(alloc: Global, stores: &[OpenStore]) -> Result<Vec<u16>, AllocError>
    ensures { IfOk result (λ addresses. addresses.items ≡ map (λ store. store.at) stores.now) }
{
    let mut addresses = Vec::new(alloc);
    for store in stores {
        addresses.push(store.at)?;
    }
    Ok(addresses)
}

/// Whether addresses ascend, and an instruction of a kind is reached at each.
fn are_in_order(kind: Kind, addresses: &[u16], reached: &[Option<Fetched>]) -> bool
    ensures ascending { result ≡ true → AllPairs (λ a b. a < b) addresses.now }
    ensures each { result ≡ true → list_all (is_at (is_of kind) reached.now) addresses.now ≡ true }
{
    ascend(addresses) && are_reached(kind, addresses, reached)
}

/// Whether addresses ascend.
fn ascend(addresses: &[u16]) -> bool
    ensures { result ≡ true → AllPairs (λ a b. a < b) addresses.now }
{
    addresses.is_sorted_by(|at, next| at < next)
}

/// Whether an instruction of a kind is reached at each of these addresses.
fn are_reached(kind: Kind, addresses: &[u16], reached: &[Option<Fetched>]) -> bool
    ensures { result ≡ list_all (is_at (is_of kind) reached.now) addresses.now }
{
    addresses.iter().all(|at| is_kind_at(kind, reached, *at))
}

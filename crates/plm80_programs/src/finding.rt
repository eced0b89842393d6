//! Tables that follow a program and its handlers: an untrusted search finds them, and a check keeps only those that fit.

ghost use Rattle.std.specs.Prelude.{◌≡◌, ◌≢◌, IfOk, [], map, true};
ghost use Rattle.plm80_programs.specs.Following.{IsFollowedAllBy, IsFollowedBy, KeepsLivePromise, KeepsPromise};

use crate::follow::Asked;
use crate::stops::stop_at;
use image80::{Image, Range};
use std::alloc::{AllocError, Global};
use verify80_follow::{
    Handler, LiveRun, RunKind, Table, follows, follows_live, is_listed_in_order,
};
use verify80_follow_search::{
    Budget, SearchResult, Stop, StopReason, list_together, places_anew, search, search_handler,
    written_ranges,
};

/// What comes of following a program.
#[derive(Drop)]
pub(crate) enum Followed {
    /// A table follows it; and whether SP must be at the stack's top when it begins.
    By(Table, bool),
    Stopped(Stop),
}

/// What comes of following a program with its handlers.
#[derive(Drop)]
pub(crate) enum FollowedAll {
    /// A table follows it, and no handlers were given; and whether SP must be at the stack's top when it begins.
    Alone(Table, bool),
    /// Tables follow it and its handlers.
    Live(LiveTables),
    Stopped(Stop),
}

/// Tables that follow a program and its handlers.
#[derive(Drop)]
pub(crate) struct LiveTables {
    pub table: Table,
    pub handlers: Vec<Handler>,
    /// The data that handlers write.
    pub writes: Vec<Range>,
    /// Whether SP must be at the stack's top when the program begins.
    pub is_set: bool,
    /// How many bytes a handler has on the stack, at most.
    pub most: u16,
}

/// Searches for a table that follows the program of `image`, and if handlers are given, for one of each.
pub(crate) fn find_all(
    alloc: Global,
    image: &Image,
    asked: Asked<'_>,
) -> Result<FollowedAll, AllocError>
    ensures { IfOk result (IsFollowedAllBy asked.entry.interrupted asked.entry.handlers.now asked.entry.quiet.now image.now) }
{
    if asked.handlers.is_empty() {
        return find_alone(alloc, image, asked);
    }
    let mut budget = Budget::ALL;
    match find_table(alloc, image, asked.quiet, true, &[], &mut budget)? {
        Followed::By(table, is_set) => {
            with_handlers(alloc, image, asked, table, is_set, budget.with_all_ways())
        }
        Followed::Stopped(stop) => Ok(FollowedAll::Stopped(stop)),
    }
}

/// Searches for a table that follows the program of `image`, of which no handlers are given.
fn find_alone(alloc: Global, image: &Image, asked: Asked<'_>) -> Result<FollowedAll, AllocError>
    requires alone { asked.handlers.now ≡ [] }
    ensures { IfOk result (IsFollowedAllBy asked.entry.interrupted asked.entry.handlers.now asked.entry.quiet.now image.now) }
{
    let mut budget = Budget::ALL;
    match find_table(
        alloc,
        image,
        asked.quiet,
        asked.interrupted,
        &[],
        &mut budget,
    )? {
        Followed::By(table, is_set) => Ok(FollowedAll::Alone(table, is_set)),
        Followed::Stopped(stop) => Ok(FollowedAll::Stopped(stop)),
    }
}

/// Searches for tables of the handlers of the program of `image`, which its own table follows.
fn with_handlers(
    alloc: Global,
    image: &Image,
    asked: Asked<'_>,
    table: Table,
    is_set: bool,
    budget: Budget,
) -> Result<FollowedAll, AllocError>
    requires { asked.handlers.now ≢ [] }
    ensures { IfOk result (IsFollowedAllBy asked.entry.interrupted asked.entry.handlers.now asked.entry.quiet.now image.now) }
{
    let mut budget = budget;
    match find_handlers(alloc, image, asked.quiet, asked.handlers, &mut budget)? {
        Ok(handlers) => with_places(alloc, image, asked, table, is_set, handlers, budget),
        Err(stop) => Ok(FollowedAll::Stopped(stop)),
    }
}

/// Searches for another table of the program of `image` if its handlers begin it anew: one that follows it from there, too.
fn with_places(
    alloc: Global,
    image: &Image,
    asked: Asked<'_>,
    table: Table,
    is_set: bool,
    handlers: Vec<Handler>,
    budget: Budget,
) -> Result<FollowedAll, AllocError>
    requires some { asked.handlers.now ≢ [] }
    requires addresses { map (λ handler. handler.at) handlers.items ≡ asked.handlers.now }
    ensures { IfOk result (IsFollowedAllBy asked.entry.interrupted asked.entry.handlers.now asked.entry.quiet.now image.now) }
{
    let places = places_anew(alloc, image, &handlers)?;
    if places.is_empty() {
        return with_tables(alloc, image, asked, table, is_set, handlers);
    }
    let mut budget = budget.with_states(table.states.len());
    drop(table);
    match find_table(alloc, image, asked.quiet, true, &places, &mut budget)? {
        Followed::By(table, is_set) => with_tables(alloc, image, asked, table, is_set, handlers),
        Followed::Stopped(stop) => Ok(FollowedAll::Stopped(stop)),
    }
}

/// Tables of the handlers at these addresses, or where the search for one of them stopped.
fn find_handlers(
    alloc: Global,
    image: &Image,
    quiet: &[Range],
    addresses: &[u16],
    budget: &mut Budget,
) -> Result<Result<Vec<Handler>, Stop>, AllocError>
    ensures { IfOk result (λ found. IfOk found (λ handlers. map (λ handler. handler.at) handlers.items ≡ addresses.now)) }
{
    let mut handlers = Vec::new(alloc);
    for at in addresses {
        match search_handler(alloc, image, quiet, *at, budget)? {
            SearchResult::Found(table) => handlers.push(Handler { at: *at, table })?,
            SearchResult::Stopped(stop) => return Ok(Err(stop)),
        }
    }
    Ok(Ok(handlers))
}

/// Checks the table of the program of `image` with those of its handlers, and whether there is room for both.
fn with_tables(
    alloc: Global,
    image: &Image,
    asked: Asked<'_>,
    table: Table,
    is_set: bool,
    handlers: Vec<Handler>,
) -> Result<FollowedAll, AllocError>
    requires some { asked.handlers.now ≢ [] }
    requires addresses { map (λ handler. handler.at) handlers.items ≡ asked.handlers.now }
    ensures { IfOk result (IsFollowedAllBy asked.entry.interrupted asked.entry.handlers.now asked.entry.quiet.now image.now) }
{
    let most = handlers
        .iter()
        .map(|handler| handler.table.bytes)
        .max()
        .unwrap_or(0);
    if u32::from(table.bytes) + u32::from(most) > u32::from(image.regions.stack().length) {
        return Ok(FollowedAll::Stopped(stop_at(alloc, image, StopReason::NoRoom)));
    }
    let mut table = table;
    table.listed = list_together(alloc, image, &table, &handlers)?;
    let found = LiveTables {
        writes: written_ranges(alloc, image, &handlers)?,
        table,
        handlers,
        is_set,
        most,
    };
    if keep_live_promise(alloc, image, &found, asked.quiet)? {
        Ok(FollowedAll::Live(found))
    } else {
        Ok(FollowedAll::Stopped(stop_at(alloc, image, StopReason::Unfit)))
    }
}

/// Whether tables follow the program of `image` with its handlers.
fn keep_live_promise(
    alloc: Global,
    image: &Image,
    found: &LiveTables,
    quiet: &[Range],
) -> Result<bool, AllocError>
    ensures { IfOk result (λ follows. follows ≡ true → KeepsLivePromise quiet.now image.now found.now) }
{
    let run = LiveRun {
        quiet,
        writes: &found.writes,
        is_set: found.is_set,
        most: found.most,
    };
    if !follows_live(alloc, image, &found.table, &found.handlers, run)? {
        return Ok(false);
    }
    is_listed_in_order(alloc, image, &found.table, &found.handlers)
}

/// Searches for a table that follows the program of `image` from its start, and from the places at which handlers begin it anew: with SP anywhere at
/// its start, or else with SP at the stack's top.
pub(crate) fn find_table(
    alloc: Global,
    image: &Image,
    quiet: &[Range],
    interrupted: bool,
    anew: &[u16],
    budget: &mut Budget,
) -> Result<Followed, AllocError>
    ensures { IfOk result (IsFollowedBy interrupted quiet.now image.now) }
{
    let run = RunKind {
        is_set: false,
        interrupted,
    };
    match table_from(alloc, image, quiet, run, anew, budget)? {
        Followed::Stopped(
            Stop {
                reason: StopReason::StackNotSet,
                ..
            },
        ) => {
            *budget = budget.with_all_ways();
            let run = RunKind {
                is_set: true,
                ..run
            };
            table_from(alloc, image, quiet, run, anew, budget)
        }
        found => Ok(found),
    }
}

/// Searches for a table that follows the program of `image` in runs of this kind.
fn table_from(
    alloc: Global,
    image: &Image,
    quiet: &[Range],
    run: RunKind,
    anew: &[u16],
    budget: &mut Budget,
) -> Result<Followed, AllocError>
    ensures { IfOk result (IsFollowedBy run.interrupted quiet.now image.now) }
{
    match search(alloc, image, quiet, run, anew, budget)? {
        SearchResult::Found(table) => {
            if keeps_promise(alloc, image, &table, quiet, run)? {
                Ok(Followed::By(table, run.is_set))
            } else {
                Ok(Followed::Stopped(stop_at(alloc, image, StopReason::Unfit)))
            }
        }
        SearchResult::Stopped(stop) => Ok(Followed::Stopped(stop)),
    }
}

/// Whether a table follows the program of `image` in runs of this kind, and lists in order what it leaves open.
fn keeps_promise(
    alloc: Global,
    image: &Image,
    table: &Table,
    quiet: &[Range],
    run: RunKind,
) -> Result<bool, AllocError>
    ensures { IfOk result (λ keeps. keeps ≡ true → KeepsPromise run.interrupted quiet.now image.now table.now run.is_set) }
{
    if !follows(alloc, image, table, quiet, run)? {
        return Ok(false);
    }
    is_listed_in_order(alloc, image, table, &[])
}

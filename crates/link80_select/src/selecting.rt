//! Which modules of its libraries a link takes.

ghost use Rattle.std.specs.Prelude.{◌≡◌, ◌↔◌, ◌<◌, ◌≤◌, [], ◌∷◌, ◌++◌, length, Contains, IfOk, OnOk};
ghost use Rattle.link80_select.specs.Selected.{IsChosen, AreAscending};
ghost use Rattle.link80_select.specs.Selecting.{members, places_in, places_from, marked_places, needed, AreReached, MarksIn, IsSearched};

use crate::chosen::Chosen;
use crate::row::Row;
use omf_library::Library;
use omf_model::Module;
use std::alloc::{AllocError, Global};

/// A search for the modules that a link takes: which modules of a row are marked, and a queue of
/// them.
#[derive(Drop)]
struct Search {
    /// For each module of the row, whether it is marked.
    marked: Vec<bool>,
    /// The indices of the marked modules, in the order in which they were marked.
    queue: Vec<usize>,
}

impl Search {
    /// A search that has the first `roots` modules of the row marked. `roots` must be at most the
    /// number of modules in the row. `Err` only if memory runs out.
    fn from_roots(alloc: Global, row: &Row<'_>, roots: usize) -> Result<Search, AllocError>
        requires { roots ≤ length row.now }
        ensures { IfOk result (λ search. IsSearched row.now roots 0 search.marked.items search.queue.items) }
    {
        let mut search = Search {
            marked: vec![in alloc; false; row.len()]?,
            queue: Vec::new(alloc),
        };
        for number in 0..roots {
            search.mark(number)?;
        }
        Ok(search)
    }

    /// Marks the module with this index, and appends it to the queue; nothing changes if it is
    /// marked. The index must be below the number of modules. `Err` only if memory runs out.
    fn mark(&mut self, number: usize) -> Result<(), AllocError>
        requires { number < length self.old.marked.items }
        ensures { OnOk result (MarksIn (number ∷ []) self.old self.new) }
    {
        if !self.marked[number] {
            self.marked[number] = true;
            self.queue.push(number)?;
        }
        Ok(())
    }

    /// Marks the modules that declare the externals of `source`, for each the first of the row that
    /// does. `row` must be the row that is searched. `Err` only if memory runs out.
    fn mark_needed(&mut self, row: &Row<'_>, source: &Module) -> Result<(), AllocError>
        requires { length self.old.marked.items ≡ length row.now }
        ensures { OnOk result (MarksIn (needed row.now source.now) self.old self.new) }
    {
        for name in source.externals() {
            if let Some(number) = row.first(name.bytes()) {
                self.mark(number)?;
            }
        }
        Ok(())
    }
}

/// For each module of the row, whether it is one of the first `roots` or they need it, themselves
/// or through others. `roots` must be at most the number of modules in the row. `Err` only if
/// memory runs out.
fn mark_reached(alloc: Global, row: &Row<'_>, roots: usize) -> Result<Vec<bool>, AllocError>
    requires { roots ≤ length row.now }
    ensures { IfOk result (λ marked. AreReached row.now roots marked.items) }
{
    let mut search = Search::from_roots(alloc, row, roots)?;
    let mut looked_at = 0;
    while looked_at < search.queue.len() {
        let number = search.queue[looked_at];
        search.mark_needed(row, row.get(number))?;
        looked_at += 1;
    }
    Ok(search.marked)
}

/// For each root and then each module of the libraries, whether a link of the roots takes it. `Err`
/// only if memory runs out.
fn marks_of(alloc: Global, roots: &[Module], libraries: &[Library]) -> Result<Vec<bool>, AllocError>
    ensures { IfOk result (λ marked. AreReached (roots.now ++ members libraries.now) (length roots.now) marked.items) }
{
    let row = Row::of(alloc, roots, libraries)?;
    mark_reached(alloc, &row, roots.len())
}

/// Appends the places of all modules of the library with this index. `Err` only if memory runs out.
fn push_places(
    places: &mut Vec<Chosen>,
    library: usize,
    modules: &[Module],
) -> Result<(), AllocError>
    ensures { OnOk result (places.new.items ≡ places.old.items ++ places_in library 0 modules.now) }
{
    for (number, _) in modules.iter().enumerate() {
        places.push(Chosen {
            library,
            module: number,
        })?;
    }
    Ok(())
}

/// The places of all modules of all libraries, in order. `Err` only if memory runs out.
fn places_of(alloc: Global, libraries: &[Library]) -> Result<Vec<Chosen>, AllocError>
    ensures { IfOk result (λ places. places.items ≡ places_from 0 libraries.now) }
{
    let mut places = Vec::new(alloc);
    for (number, library) in libraries.iter().enumerate() {
        push_places(&mut places, number, library.modules.as_slice())?;
    }
    Ok(places)
}

/// The places whose mark is `true`, in order. `Err` only if memory runs out.
fn with_mark(alloc: Global, places: &[Chosen], marked: &[bool]) -> Result<Vec<Chosen>, AllocError>
    ensures { IfOk result (λ taken. taken.items ≡ marked_places places.now marked.now) }
{
    let mut taken = Vec::new(alloc);
    for (place, mark) in places.iter().zip(marked) {
        if *mark {
            taken.push(*place)?;
        }
    }
    Ok(taken)
}

/// The modules that a link of these roots takes from these libraries: for each external of a root
/// that no root declares, the first module that declares it, and so on for the modules taken. They
/// are sorted by library and, in each, by module. (ISIS-II User's Guide, LINK.)
///
/// # Errors
/// `AllocError` only if memory runs out.
pub fn select(
    alloc: Global,
    roots: &[Module],
    libraries: &[Library],
) -> Result<Vec<Chosen>, AllocError>
    ensures chosen { IfOk result (λ taken.
        (place : Chosen) → Contains taken.items place ↔ IsChosen roots.now libraries.now place) }
    ensures ascending { IfOk result (λ taken. AreAscending taken.items) }
{
    let marked = marks_of(alloc, roots, libraries)?;
    let places = places_of(alloc, libraries)?;
    with_mark(alloc, places.as_slice(), &marked[roots.len()..])
}

//! Refusals behind refused instructions, and the conditions on which walks reach them. Nothing rests on which conditions are chosen: that
//! they are of the program is checked, and what is shown on some is shown by ways of the program on these conditions.

ghost use Rattle.std.specs.Prelude.{All, OnOk};
ghost use Rattle.verify80.specs.Looking.{code_of};
ghost use Rattle.verify80_explain.specs.Conditions.{AreConditionsOf, AreShownIf, code_if};
ghost use Rattle.verify80_explain.specs.Order.{AreShownInOrder};
ghost use Rattle.verify80_explain.specs.Shows.{IsShown};

use crate::checking::{called_at, keep_conditions, may_begin};
use crate::conditions::{ConditionalCode, Conditions};
use crate::explaining_all::{
    FurtherRefusals, ShownRefusal, find_faulty, new_among, show_found, sort_shown,
};
use crate::place::Place;
use frames80::{Code, Effect, FrameFault, LookFault, effect_of};
use indexmap::{IndexMap, IndexSet};
use std::alloc::{AllocError, Global};
use verify80::ImageCode;
use verify80_flow::Procedure;
use verify80_walks::{Looked, Origin, Search, Unexplained, look_at};

/// How many conditions of each kind are tried at most.
const MOST_CONDITIONS: usize = 256;

/// How many times a search is begun anew with more conditions at most.
const MOST_ROUNDS: usize = 64;

/// Where conditions are looked for: those that have been found, and what may still be spent.
#[derive(Drop)]
pub(crate) struct Conditioning<'a, 'b> {
    code: &'a ImageCode<'b>,
    /// The addresses at which the program may begin anew; `None` is its start.
    begins: IndexSet<Option<u16>>,
    /// The addresses of instructions that are passed over.
    passed: IndexSet<u16>,
    /// The entries of procedures that are taken as returning.
    returning: IndexSet<u16>,
    /// An address at which each procedure is called.
    pub(crate) calls: IndexMap<u16, u16>,
    /// The places of the refusals that have been found.
    found: IndexSet<Place>,
    /// What the points of further searches may weigh together.
    left: usize,
    /// Whether no limit was reached.
    is_whole: bool,
}

/// A refusal that is reached on conditions.
#[derive(Drop)]
pub(crate) struct Candidate {
    place: Place,
    conditions: Conditions,
}

/// Appends the refusals that walks reach only on conditions to `further`, by these, each with a way that shows it; `known` are the
/// refusals that walks reach in any case. The points of all searches together weigh at most the limit. Answers whether none is left out.
pub(crate) fn show_further(
    alloc: Global,
    code: &ImageCode,
    limit: usize,
    known: &[ShownRefusal],
    further: &mut Vec<FurtherRefusals>,
) -> Result<bool, Unexplained>
    ensures { All (AreShownIf (code_of code.now)) further.old.items → All (AreShownIf (code_of code.now)) further.new.items }
{
    if known.is_empty() {
        return Ok(true);
    }
    let mut places = places_of(alloc, known)?;
    let mut conditioning = Conditioning::new(alloc, code, limit, known)?;
    let mut candidates = Vec::new(alloc);
    conditioning.look_for_all(alloc, &mut candidates)?;
    candidates.sort_by_key(Candidate::count)?;
    let mut left = conditioning.left;
    let mut is_whole = conditioning.is_whole;
    for candidate in candidates {
        if !places.contains(&candidate.place) {
            let found = candidate.conditions;
            let conditions = keep_conditions(alloc, code, &conditioning.calls, &found)?;
            let are_shown = show_on(alloc, code, conditions, &mut places, &mut left, further)?;
            is_whole = is_whole && are_shown;
        }
    }
    Ok(is_whole)
}

/// The start of a program, as the only address at which it begins.
fn only_start(alloc: Global) -> Result<IndexSet<Option<u16>>, AllocError> {
    let mut begins = IndexSet::new(alloc);
    begins.insert(None)?;
    Ok(begins)
}

/// The places of these refusals.
fn places_of(alloc: Global, known: &[ShownRefusal]) -> Result<IndexSet<Place>, AllocError> {
    let mut places = IndexSet::new(alloc);
    add_places(known, &mut places)?;
    Ok(places)
}

/// Appends the refusals that walks reach on these conditions to `further`, but for those at `places`, to which they are added. Answers
/// whether none is left out. The conditions must be of the program.
fn show_on(
    alloc: Global,
    code: &ImageCode,
    conditions: Conditions,
    places: &mut IndexSet<Place>,
    left: &mut usize,
    further: &mut Vec<FurtherRefusals>,
) -> Result<bool, Unexplained>
    requires { AreConditionsOf (code_of code.now) conditions }
    ensures { All (AreShownIf (code_of code.now)) further.old.items → All (AreShownIf (code_of code.now)) further.new.items }
{
    let mut shown = Vec::new(alloc);
    let are_shown = show_if(alloc, code, &conditions, places, left, &mut shown)?;
    add_places(&shown, places)?;
    further.push(FurtherRefusals { conditions, shown })?;
    Ok(are_shown)
}

/// Adds the places of these refusals to `places`.
fn add_places(shown: &[ShownRefusal], places: &mut IndexSet<Place>) -> Result<(), AllocError> {
    for one in shown {
        places.insert(Place::of(one.refusal))?;
    }
    Ok(())
}

/// Appends the refusals that walks reach on these conditions to `shown`, but for those at `places`, and sorts them. Answers whether none
/// is left out.
fn show_if(
    alloc: Global,
    code: &ImageCode,
    conditions: &Conditions,
    places: &IndexSet<Place>,
    left: &mut usize,
    shown: &mut Vec<ShownRefusal>,
) -> Result<bool, Unexplained>
    ensures shown { All (IsShown (code_if conditions.now (code_of code.now))) shown.old.items
        → OnOk result (All (IsShown (code_if conditions.now (code_of code.now))) shown.new.items) }
    ensures in_order { OnOk result (AreShownInOrder shown.new.items) }
{
    let program = ConditionalCode {
        code,
        begins: conditions.begins,
        conditions,
    };
    let are_shown = show_new(alloc, &program, places, left, shown)?;
    sort_shown(shown)?;
    Ok(are_shown)
}

/// Appends the refusals of points that walks of a program reach to `shown`, but for those at `places`. Answers whether none is left out.
fn show_new<C: Code>(
    alloc: Global,
    program: &C,
    places: &IndexSet<Place>,
    left: &mut usize,
    shown: &mut Vec<ShownRefusal>,
) -> Result<bool, Unexplained>
    ensures { All (IsShown (C.code program.now)) shown.old.items → All (IsShown (C.code program.now)) shown.new.items }
{
    let mut search = Search::new(alloc);
    grow_and_show_new(alloc, program, &mut search, places, left, shown)
}

/// Lets a search grow as far as what is left of a limit allows, takes the weight of its points from that, and appends their refusals to
/// `shown`, but for those at `places`. Answers whether none is left out.
fn grow_and_show_new<C: Code>(
    alloc: Global,
    program: &C,
    search: &mut Search,
    places: &IndexSet<Place>,
    left: &mut usize,
    shown: &mut Vec<ShownRefusal>,
) -> Result<bool, Unexplained>
    ensures { All (IsShown (C.code program.now)) shown.old.items → All (IsShown (C.code program.now)) shown.new.items }
{
    let is_whole = search.grow(alloc, program, *left)?;
    *left = left.saturating_sub(search.weight());
    let are_shown = show_found(alloc, program, search, places, *left, shown)?;
    Ok(is_whole && are_shown)
}

impl<'a, 'b> Conditioning<'a, 'b> {
    /// No conditions: the program begins at its start. Of refusals those that are known have been found.
    pub(crate) fn new(
        alloc: Global,
        code: &'a ImageCode<'b>,
        limit: usize,
        known: &[ShownRefusal],
    ) -> Result<Conditioning<'a, 'b>, AllocError> {
        let begins = only_start(alloc)?;
        let found = places_of(alloc, known)?;
        Ok(Conditioning {
            code,
            begins,
            passed: IndexSet::new(alloc),
            returning: IndexSet::new(alloc),
            calls: IndexMap::new(alloc),
            found,
            left: limit,
            is_whole: true,
        })
    }

    /// Searches on the conditions that are known, and adds those that the refusals found ask for, until none are new. Appends the
    /// refusals that are reached only on some.
    pub(crate) fn look_for_all(
        &mut self,
        alloc: Global,
        candidates: &mut Vec<Candidate>,
    ) -> Result<(), Unexplained> {
        for _ in 0..MOST_ROUNDS {
            let before = self.count();
            let refused = self.look_from_each(alloc, candidates)?;
            if self.count() == before {
                self.take_as_returning(&refused)?;
            }
            if self.count() == before || !self.is_whole {
                return Ok(());
            }
        }
        self.is_whole = false;
        Ok(())
    }

    /// How many conditions are known.
    fn count(&self) -> usize {
        let passed = self.passed.len().saturating_add(self.begins.len());
        passed.saturating_add(self.returning.len())
    }

    /// Searches from each address at which the program may begin, adds the conditions of instructions, appends the refusals that are new,
    /// and answers the entries of procedures that are refused and don't return.
    fn look_from_each(
        &mut self,
        alloc: Global,
        candidates: &mut Vec<Candidate>,
    ) -> Result<IndexSet<u16>, Unexplained> {
        let mut refused = IndexSet::new(alloc);
        for number in 0..self.begins.len() {
            self.look_from(alloc, number, candidates, &mut refused)?;
        }
        Ok(refused)
    }

    /// Searches from the address with this number, adds the conditions of instructions, appends the refusals that are new to `candidates`,
    /// and adds the entries of procedures that are refused and don't return to `refused`.
    fn look_from(
        &mut self,
        alloc: Global,
        number: usize,
        candidates: &mut Vec<Candidate>,
        refused: &mut IndexSet<u16>,
    ) -> Result<(), Unexplained> {
        let conditions = self.all_from(alloc, number)?;
        let search = self.search(alloc, &conditions)?;
        self.look_by(alloc, &conditions, &search, candidates, refused)
    }

    /// Adds the conditions of instructions, the refusals and the entries that a search on these conditions has found.
    fn look_by(
        &mut self,
        alloc: Global,
        conditions: &Conditions,
        search: &Search,
        candidates: &mut Vec<Candidate>,
        refused: &mut IndexSet<u16>,
    ) -> Result<(), Unexplained> {
        self.append_candidates(alloc, conditions, search, candidates)?;
        self.gather(alloc, conditions, search, refused)
    }

    /// All conditions that are known, for a program that begins at the address with this number.
    pub(crate) fn all_from(&self, alloc: Global, number: usize) -> Result<Conditions, AllocError> {
        let mut conditions = Conditions::new(alloc, self.begin_of(number));
        for at in &self.passed {
            conditions.passed.push(*at)?;
        }
        for entry in &self.returning {
            conditions.returning.push(*entry)?;
        }
        conditions.passed.sort()?;
        conditions.returning.sort()?;
        Ok(conditions)
    }

    /// The address with this number at which the program may begin anew; `None` for its start.
    fn begin_of(&self, number: usize) -> Option<u16> {
        match self.begins.get_index(number) {
            Some(begin) => *begin,
            None => None,
        }
    }

    /// The addresses at which the program may begin; `None` is its start.
    pub(crate) fn begins(&self, alloc: Global) -> Result<Vec<Option<u16>>, AllocError> {
        let mut begins = Vec::new(alloc);
        for begin in &self.begins {
            begins.push(*begin)?;
        }
        Ok(begins)
    }

    /// Sets what the points of further searches may weigh together.
    pub(crate) fn allow(&mut self, limit: usize) {
        self.left = limit;
    }

    /// Whether no limit was reached.
    pub(crate) fn is_whole(&self) -> bool {
        self.is_whole
    }

    /// The points that are reached on these conditions, as far as what may be spent allows.
    fn search(&mut self, alloc: Global, conditions: &Conditions) -> Result<Search, Unexplained> {
        let program = ConditionalCode::new(self.code, conditions);
        self.search_program(alloc, &program)
    }

    /// The points of a program that are reached, as far as what may be spent allows.
    pub(crate) fn search_program<C: Code>(
        &mut self,
        alloc: Global,
        program: &C,
    ) -> Result<Search, Unexplained> {
        let mut search = Search::new(alloc);
        if !search.grow(alloc, program, self.left)? {
            self.is_whole = false;
        }
        self.left = self.left.saturating_sub(search.weight());
        Ok(search)
    }

    /// Adds the conditions that refused instructions of a search ask for, and where procedures are called; to `refused` the entries of
    /// procedures that don't return because of another refusal.
    fn gather(
        &mut self,
        alloc: Global,
        conditions: &Conditions,
        search: &Search,
        refused: &mut IndexSet<u16>,
    ) -> Result<(), Unexplained> {
        let program = ConditionalCode::new(self.code, conditions);
        for point in search.points.as_slice() {
            self.note_call(point.at)?;
            match look_at(alloc, &program, point)? {
                Looked::Moved(_moves, _next) => {}
                Looked::Wrong(LookFault::EnablesInterrupts | LookFault::DirectStore) => {
                    self.pass_over(point.at)?;
                }
                Looked::Stuck(FrameFault::SetsStack) => self.begin_anew(point.at)?,
                Looked::Wrong(_) | Looked::Stuck(_) => {
                    refuse(search, point.procedure, refused)?;
                }
            }
        }
        Ok(())
    }

    /// Notes which procedure the instruction at an address calls, if it calls one.
    fn note_call(&mut self, at: u16) -> Result<(), AllocError> {
        if let Some(entry) = called_at(self.code, at) {
            self.calls.insert(entry, at)?;
        }
        Ok(())
    }

    /// Adds that the instruction at an address is passed over.
    fn pass_over(&mut self, at: u16) -> Result<(), AllocError> {
        if self.passed.len() < MOST_CONDITIONS {
            self.passed.insert(at)?;
        } else if !self.passed.contains(&at) {
            self.is_whole = false;
        }
        Ok(())
    }

    /// Adds that the program begins anew at an address, if its instruction loads the stack's top into SP.
    fn begin_anew(&mut self, at: u16) -> Result<(), AllocError> {
        if !may_begin(self.code, Some(at)) {
            return Ok(());
        }
        if self.begins.len() < MOST_CONDITIONS {
            self.begins.insert(Some(at))?;
        } else if !self.begins.contains(&Some(at)) {
            self.is_whole = false;
        }
        Ok(())
    }

    /// Adds that these procedures return.
    fn take_as_returning(&mut self, refused: &IndexSet<u16>) -> Result<(), AllocError> {
        for entry in refused {
            if self.returning.len() < MOST_CONDITIONS {
                self.returning.insert(*entry)?;
            } else {
                self.is_whole = false;
            }
        }
        Ok(())
    }

    /// Appends the refusals of a search that are new, each with the conditions that the search met on the way there.
    fn append_candidates(
        &mut self,
        alloc: Global,
        conditions: &Conditions,
        search: &Search,
        candidates: &mut Vec<Candidate>,
    ) -> Result<(), Unexplained> {
        let program = ConditionalCode::new(self.code, conditions);
        let faulty = find_faulty(alloc, &program, search.points.as_slice())?;
        for found in new_among(alloc, faulty, &self.found)?.as_slice() {
            if self.left == 0 {
                self.is_whole = false;
                return Ok(());
            }
            let needed = self.needed(alloc, conditions, search, found.number)?;
            let place = Place::of(found.refusal);
            self.found.insert(place)?;
            candidates.push(Candidate {
                place,
                conditions: needed,
            })?;
        }
        Ok(())
    }

    /// Those of the conditions that a search met on the way to the point with this number.
    fn needed(
        &mut self,
        alloc: Global,
        conditions: &Conditions,
        search: &Search,
        number: usize,
    ) -> Result<Conditions, AllocError> {
        let mut needed = Conditions::new(alloc, conditions.begins);
        let before = numbers_before(alloc, search, number)?;
        self.left = self.left.saturating_sub(before.len());
        for earlier in &before {
            if let Some(point) = search.points.get(*earlier) {
                self.add_condition(conditions, point.at, &mut needed)?;
            }
        }
        needed.passed.sort()?;
        needed.passed.dedup();
        needed.returning.sort()?;
        needed.returning.dedup();
        Ok(needed)
    }

    /// Adds the condition that the instruction at an address is met with, if there is one.
    fn add_condition(
        &self,
        conditions: &Conditions,
        at: u16,
        needed: &mut Conditions,
    ) -> Result<(), AllocError> {
        match self.code.look(at) {
            Err(_) if conditions.passed.contains(&at) => needed.passed.push(at)?,
            Ok(found) => match effect_of(found.instr) {
                Effect::Call(to) | Effect::CallIf(to) if conditions.returning.contains(&to) => {
                    needed.returning.push(to)?;
                }
                _ => {}
            },
            Err(_) => {}
        }
        Ok(())
    }
}

impl Candidate {
    /// How many conditions the refusal is reached on.
    fn count(&self) -> usize {
        self.conditions.count()
    }
}

/// Adds the entry of a procedure to `refused`, if the search has found no return from it.
fn refuse(
    search: &Search,
    procedure: Procedure,
    refused: &mut IndexSet<u16>,
) -> Result<(), AllocError> {
    if let Procedure::Entry(entry) = procedure {
        if !search.returns(procedure) {
            refused.insert(entry)?;
        }
    }
    Ok(())
}

/// The number of a point of a search, and the numbers of the points that it comes from, by way of calls and of what they call.
fn numbers_before(
    alloc: Global,
    search: &Search,
    number: usize,
) -> Result<IndexSet<usize>, AllocError> {
    let mut before = IndexSet::new(alloc);
    before.insert(number)?;
    for next in 0..search.origins.len() {
        let Some(at) = before.get_index(next).copied() else {
            break;
        };
        match search.origins.get(at) {
            Some(Origin::GoesOn(from)) | Some(Origin::Enters(from)) => {
                before.insert(*from)?;
            }
            Some(Origin::ComesBack { call, exit }) => {
                before.insert(*call)?;
                before.insert(*exit)?;
            }
            Some(Origin::Begins) | None => {}
        }
    }
    Ok(before)
}

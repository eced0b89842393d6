//! Stacks of words by number.

ghost use Rattle.std.specs.Prelude.{◌≡◌, ◌<◌, ◌≤◌, [], ◌∷◌, drop, length, IfOk, IfSome, IfNone};
ghost use Rattle.frames80.specs.Calls.{room};
ghost use Rattle.frames80_interned.specs.Stacks.{words_at, IsLink, IsMet, IsStack, LieBeneath, StacksStay};

use crate::link::Link;
use crate::own_counts::OwnCounts;
use crate::pair::Pair;
use frames80::{Role, Word};
use indexmap::{IndexMap, IndexSet};
use std::alloc::{AllocError, Global};
use std::marker::Model;

/// The number of the stack with no words.
pub(crate) const EMPTY: u32 = 0;

/// The result of a merge of two stacks is kept only if their height is a multiple of this number.
pub(crate) const STRIDE: u32 = 16;

/// How many pairs of stacks are kept, with the stack that each merges into, at most.
const KEPT_PAIRS: usize = 131_072;

/// Stacks of words by number. A contract sees the words of each number, top first. `EMPTY` has no words, and number n + 1 has
/// the word of link n on top of the stack beneath it, so stacks share the words that they have in common from the bottom up.
#[derive(Drop)]
pub(crate) struct Stacks {
    /// Each distinct link once, in order of first sight.
    links: IndexSet<Link>,
    /// How many return addresses each stack has.
    own_counts: OwnCounts,
    /// For some pairs of stacks the number of the stack that they merge into.
    met: IndexMap<Pair, u32>,
}

impl Model for Stacks {
    ghost use Rattle.std.specs.Prelude.{List};
    ghost use Rattle.frames80.specs.declared.word.Word.{Word};
    ghost use Rattle.indexmap.specs.IndexMap.{get};
    ghost use Rattle.frames80_interned.specs.Stacks.{stacks_of, pair_eq, AreLinks, AreMet};

    ghost Value = { List (List Word) };

    ghost view = { λ s. stacks_of s.links.keys };

    ghost invariant = { λ s. AreLinks s.links.keys × AreMet (stacks_of s.links.keys) (get pair_eq s.met) };
}

impl Stacks {
    /// The stack with no words alone. The call takes no memory; later ones take it from `alloc`.
    pub(crate) fn new(alloc: Global) -> Stacks
        ensures { result ≡ [] ∷ [] }
    {
        Stacks {
            links: IndexSet::new(alloc),
            own_counts: OwnCounts::new(alloc),
            met: IndexMap::new(alloc),
        }
    }

    /// The allocator that the stacks grow by.
    pub(crate) fn alloc(&self) -> Global {
        *self.links.allocator()
    }

    /// The word on top of a stack, with the number of the stack beneath it, or `None` if the stack
    /// has no words. There must be a stack `number`.
    pub(crate) fn top(&self, number: u32) -> Option<Link>
        requires { number < length self.now }
        ensures link { IfSome result (λ link. IsLink self.now number link) }
        ensures none { IfNone result (words_at self.now number ≡ []) }
    {
        let links = &self.links;
        if number == EMPTY {
            return None;
        }
        Some(links[number as usize - 1])
    }

    /// How many words a stack has. There must be a stack `number`.
    pub(crate) fn height(&self, number: u32) -> u32
        requires { number < length self.now }
        ensures { result ≡ length (words_at self.now number) }
    {
        match self.top(number) {
            Some(link) => link.height,
            None => 0,
        }
    }

    /// How many words of a stack are the return address. Only speed may depend on it.
    pub(crate) fn owns(&self, number: u32) -> u32 {
        self.own_counts.get(number)
    }

    /// How many words of a caller's stack a callee may take: those above the bottom word, and in
    /// the main program all. There must be a stack `number`.
    pub(crate) fn room(&self, number: u32, role: Role) -> u32
        requires { number < length self.now }
        ensures { result ≡ room role (words_at self.now number) }
    {
        let height = self.height(number);
        match role {
            Role::Main { .. } => height,
            Role::Entry => height.saturating_sub(1),
        }
    }

    /// The number of a stack without its top word; the stack's own number if it has no words. There
    /// must be a stack `number`.
    pub(crate) fn below(&self, number: u32) -> u32
        requires { number < length self.now }
        ensures { IsStack self.now result (drop 1 (words_at self.now number)) }
    {
        match self.top(number) {
            Some(link) => link.below,
            None => number,
        }
    }

    /// The number of a stack without its top `count` words; that of a stack with no words if it has
    /// fewer. The number of steps grows with the logarithm of `count`. There must be a stack
    /// `number`.
    pub(crate) fn beneath(&self, number: u32, count: u32) -> u32
        requires { number < length self.now }
        ensures { IsStack self.now result (drop count (words_at self.now number)) }
    {
        let left = self.height(number).saturating_sub(count);
        let mut beneath = number;
        while let Some(link) = self.top_above(beneath, left) {
            beneath = if self.height(link.skip) >= left {
                link.skip
            } else {
                link.below
            };
        }
        beneath
    }

    /// The top word of a stack that has more than `left` words; else `None`. There must be a stack
    /// `number`.
    fn top_above(&self, number: u32, left: u32) -> Option<Link>
        requires { number < length self.now }
        ensures link { IfSome result (λ link. IsLink self.now number link) }
        ensures more { IfSome result (λ link. left < length (words_at self.now number)) }
        ensures none { IfNone result (length (words_at self.now number) ≤ left) }
    {
        let link = self.top(number)?;
        if link.height > left { Some(link) } else { None }
    }

    /// The number of the stack to which the skip pointer of a new word on stack `below` leads. If
    /// the skip from the top of `below` and the one after that pass over equally many words, it
    /// leads as far as both together; else to `below` itself. So skips pass over 1, 3, 7, 15 ..
    /// words, and two of one length follow one another only at the top. There must be a stack
    /// `below`; the result has its lower words.
    fn skip_over(&self, below: u32) -> u32
        requires { below < length self.now }
        ensures there { result < length self.now }
        ensures skipped { LieBeneath (words_at self.now below) (words_at self.now result) }
    {
        let Some(first) = self.top(below) else {
            return below;
        };
        let Some(second) = self.top(first.skip) else {
            return below;
        };
        if self.stride(first) == self.stride(second) {
            second.skip
        } else {
            below
        }
    }

    /// Over how many words the skip pointer of a link leads. There must be a stack to which it
    /// leads.
    fn stride(&self, link: Link) -> u32
        requires { link.skip < length self.now }
    {
        link.height.saturating_sub(self.height(link.skip))
    }

    /// The number of the stack with `word` on stack `below`; a stack that isn't there yet is added.
    /// There must be a stack `below`; all stacks keep their numbers.
    ///
    /// # Errors
    /// `AllocError` if memory runs out, and if there are 4,294,967,295 links already.
    pub(crate) fn push(&mut self, below: u32, word: Word) -> Result<u32, AllocError>
        requires { below < length self.old }
        ensures pushed { IfOk result (λ number. IsStack self.new number (word ∷ words_at self.old below)) }
        ensures stays { StacksStay self.old self.new }
    {
        let height = self.height(below);
        let skip = self.skip_over(below);
        if self.links.len() >= u32::MAX as usize {
            return Err(AllocError);
        }
        let link = Link {
            below,
            word,
            height: height + 1,
            skip,
        };
        let (index, _) = self.links.insert_full(link)?;
        let number = index as u32 + 1;
        self.own_counts.note(number, word, below)?;
        Ok(number)
    }

    /// The number of the stack that a pair of stacks merges into, or `None` if it isn't kept. There
    /// must be a stack `pair.one`.
    pub(crate) fn meet_of(&self, pair: Pair) -> Option<u32>
        requires { pair.one < length self.now }
        ensures { IfSome result (λ number. IsMet self.now pair number) }
    {
        if self.height(pair.one) % STRIDE != 0 {
            return None;
        }
        self.met.get(&pair).copied()
    }

    /// Keeps `number` as the stack that a pair of stacks merges into. If `KEPT_PAIRS` are kept
    /// already, these are dropped first. Both must be stacks here that merge into `number`, which
    /// must be `pair.one` if that stack wouldn't change.
    ///
    /// # Errors
    /// `AllocError` if memory runs out: the stacks stay as they are.
    pub(crate) fn keep_met(&mut self, pair: Pair, number: u32) -> Result<(), AllocError>
        requires one { pair.one < length self.old }
        requires other { pair.other < length self.old }
        requires met { IsMet self.old pair number }
        ensures { self.new ≡ self.old }
    {
        self.make_room();
        self.met.insert(pair, number)?;
        Ok(())
    }

    /// Drops all kept pairs if there are `KEPT_PAIRS` of them.
    fn make_room(&mut self)
        ensures { self.new ≡ self.old }
    {
        if self.met.len() < KEPT_PAIRS {
            return;
        }
        self.met.clear();
    }
}

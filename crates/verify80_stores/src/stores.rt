//! What is found of a program's register-indirect stores.

use decode80::Instr;
use verify80_proposals::SearchNotes;
use verify80_states::Span;

/// The register-indirect stores of a program, and its jumps by PCHL, as far as its walks reach them. All lists are by address.
#[derive(Drop)]
pub struct Stores {
    /// The address of each register-indirect store.
    pub addresses: Vec<u16>,
    /// The stores that aren't shown to stay in data.
    pub open: Vec<OpenStore>,
    /// The address of each PCHL.
    pub jumps: Vec<u16>,
    /// The PCHLs that aren't shown to go to declared targets.
    pub open_jumps: Vec<u16>,
    /// Whether the program sets SP on each way before it uses it.
    pub sets_stack: bool,
    /// What the search for states noted; `None` if too many ways would have had to be followed, or if there is no such store and no PCHL.
    pub search: Option<SearchNotes>,
}

/// A register-indirect store that isn't shown to stay in data. It may be harmless.
#[derive(Clone, Copy, PartialEq, Eq)]
pub struct OpenStore {
    /// The address of the instruction.
    pub at: u16,
    /// The instruction.
    pub instr: Instr,
    /// The addresses that it may store to.
    pub span: Span,
}

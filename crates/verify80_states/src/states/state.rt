//! What is known of a machine at an instruction, with the words on top of its stack.

use crate::states::conditions::given;
use crate::states::known::Known;
use crate::states::variables::Variable;
use crate::states::words::Words;
use decode80::Condition;
use verify80_spans::ByteSpan;

/// What registers, flags, some bytes of memory and the words on top of the stack may be, before an instruction.
#[derive(Clone, Copy, PartialEq, Eq)]
pub struct State {
    pub known: Known,
    pub words: Words,
}

impl State {
    ghost use Rattle.std.specs.Prelude.{◌≡◌, true};
    ghost use Rattle.verify80_states.specs.State.{cut_state, given_state, IsStateInside};

    /// The state that says nothing.
    pub const ANY: State = State {
        known: Known::ANY,
        words: Words::NONE,
    };

    /// Whether this state says all that another does; `variables` are those that both may name.
    pub fn is_inside(self, other: State, variables: &[Variable]) -> bool
        ensures { result ≡ true → IsStateInside variables.now self other }
    {
        self.known.is_inside(other.known, variables) && self.words.are_inside(other.words)
    }

    /// This state when A is known to hold one of `byte`.
    pub fn cut(self, byte: ByteSpan) -> State
        ensures { result ≡ cut_state self byte }
    {
        State {
            known: self.known.cut(byte),
            ..self
        }
    }

    /// The state that is left if a condition holds, or if it doesn't; `None` if that can't be.
    pub fn given(self, condition: Condition, holds: bool) -> Option<State>
        ensures { result ≡ given_state condition holds self }
    {
        match given(condition, holds, self.known) {
            Some(known) => Some(State { known, ..self }),
            None => None,
        }
    }
}

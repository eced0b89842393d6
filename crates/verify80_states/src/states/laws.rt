//! What holds of that which is known of a machine. The function does nothing of its own: its contract is the law.

ghost use Rattle.verify80_states.specs.Laws.{ConditionsLeaveKnown, InstructionsAreFollowed, KnownStaysQuiet, WhatHoldsOfBytes};

use crate::bytes::bytes_stay_bytes;
use image80::laws::code_data_and_stack_are_apart;

/// What is known of a machine that nothing guards is followed by each instruction, condition and device, whatever follows its stack.
pub fn known_is_followed()
    ensures instructions { InstructionsAreFollowed }
    ensures conditions { ConditionsLeaveKnown }
    ensures holds { WhatHoldsOfBytes }
    ensures quiet { KnownStaysQuiet }
{
    bytes_stay_bytes();
    code_data_and_stack_are_apart();
}

//! What a table that follows a program says of its runs. The function does nothing of its own: its contract is the law.

ghost use Rattle.verify80_follow.specs.{Live.LiveMachinesKeepThePromise, Promise.FollowedProgramsKeepThePromise, StepLaws.StepLaws};

use decode80::fetch_reads_code_alone;
use image80::laws::code_data_and_stack_are_apart;
use machine80::laws::{instructions_keep_to_facts, status_word_round_trip};
use verify80_states::{bytes_stay_bytes, known_is_followed};

/// A program that a table of states follows keeps its promise on every board whose devices leave quiet memory alone.
pub fn followed_programs_keep_the_promise()
    ensures promise { FollowedProgramsKeepThePromise }
{
    step_laws();
    code_data_and_stack_are_apart();
}

/// A followed program with followed handlers keeps its promise on every live machine.
pub fn live_machines_keep_the_promise()
    ensures promise { LiveMachinesKeepThePromise }
{
    step_laws();
    code_data_and_stack_are_apart();
}

/// What other crates prove of steps.
fn step_laws()
    ensures { StepLaws }
{
    known_is_followed();
    bytes_stay_bytes();
    fetch_reads_code_alone();
    instructions_keep_to_facts();
    status_word_round_trip();
}

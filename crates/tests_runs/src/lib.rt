//! Tests of the machine, the verifier and the loader, by public names.
//!
//! | Module | What it tests |
//! |---|---|
//! | `vouching` | `verify80` and `loader80`: an image that is verified, vouched for and run |
//! | `machine`, `memory` | `machine80`: programs step by step, and ports that are lists |
//! | `quick_steps` | `machine80_quick`: a quick step does what the step does |
//! | `texts` | `decode80`: texts of instructions |
//! | `sessions` | `loader80`: sessions, over readers and writers that give and take a byte at a time |
//! | `failures` | `loader80` and `loader80_text`: sessions and bundles whose readers or writers fail, or never end |
//! | `faults` | `loader80` and `loader80_text`: faults as they are shown |
//! | `frames`, `numbered_frames` | `frames80` and `frames80_interned`: frames, and frames by number |
//! | `pushing`, `outside` | the program, and the sources and sinks, of these tests |
//!
//! What the program shows of texts, images, refusals and transcripts stands in the tables of `tests/commands`.
#![tactic(auto)]

#[cfg(test)]
mod failures;
#[cfg(test)]
mod faults;
#[cfg(test)]
mod frames;
#[cfg(test)]
mod machine;
#[cfg(test)]
mod memory;
#[cfg(test)]
mod numbered_frames;
#[cfg(test)]
mod outside;
#[cfg(test)]
mod pushing;
#[cfg(test)]
mod quick_steps;
#[cfg(test)]
mod sessions;
#[cfg(test)]
mod texts;
#[cfg(test)]
mod vouching;

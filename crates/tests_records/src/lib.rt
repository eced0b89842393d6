//! Tests at the limits: many parts, and calls that run out of memory.
//!
//! | Module | What it tests |
//! |---|---|
//! | `many` | `omf_core` to `omf_library`: modules, files and records of many parts |
//! | `many_lines` | `image80`: regions of many lines |
//! | `many_contents` | `machine80`: memories of images of many contents |
//! | `lent` | `omf_core` to `image80_file`: if memory runs out, outputs are unchanged and values that were given come back |
//!
//! What the program makes of many parts is in the tables of `tests/commands`.
#![tactic(auto)]

#[cfg(test)]
mod lent;
#[cfg(test)]
mod many;
#[cfg(test)]
mod many_contents;
#[cfg(test)]
mod many_lines;

//! Tests from object files to images, by public names.
//!
//! | Module | What it tests |
//! |---|---|
//! | `records` | `omf_core`: records and names |
//! | `bodies` | `omf_body`: the bodies of records, written |
//! | `modules` | `omf_module`: a module that is read, and parts that are refused |
//! | `libraries` | `omf_library`: libraries, read and written, and the first providers of names |
//! | `feeds` | `omf_core`: the records of files that come in pieces |
//! | `file_feeds` | `omf_module`: object files that come in pieces |
//! | `library_feeds` | `omf_library`: libraries that come in pieces |
//! | `faults` | the faults of all four, as they are printed |
//! | `linking` | `link80`: modules linked into one |
//! | `building` | `laws80`: modules linked and located in one call |
//! | `selecting` | `link80`: what is taken from libraries |
//! | `placing` | `place80`, `image80`: a program located, an image and regions |
#![tactic(auto)]

#[cfg(test)]
mod bodies;
#[cfg(test)]
mod building;
#[cfg(test)]
mod faults;
#[cfg(test)]
mod feeds;
#[cfg(test)]
mod file_feeds;
#[cfg(test)]
mod libraries;
#[cfg(test)]
mod library_feeds;
#[cfg(test)]
mod linking;
#[cfg(test)]
mod modules;
#[cfg(test)]
mod placing;
#[cfg(test)]
mod records;
#[cfg(test)]
mod selecting;

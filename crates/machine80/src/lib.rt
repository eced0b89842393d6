//! One step of the 8080, over any memory and any ports.
//!
//! Proved: `step` is the table, for all instructions and ends.
//!
//! | Item | What it is |
//! |---|---|
//! | [`step`], [`fetch`] | one step with all its checks; the instruction at an address of code |
//! | [`End`] | how a run ends |
//! | [`Cpu`], [`Registers`], [`Flags`] | the processor |
//! | [`Bus`], [`FlatBus`], [`PagedBus`] | 65,536 bytes of memory; those of an image in one piece, and in pages |
//! | [`Ports`], [`PortRefused`], [`ListPorts`], [`Inputs`] | input and output; over lists of bytes |
//! | [`condition_holds`], [`alu`], [`words`] | parts of a step: conditions, arithmetic, words in memory |
//! | [`laws`] | well-known laws of the arithmetic |
#![tactic(auto)]

pub mod alu;
mod bus;
mod cpu;
mod end;
mod execute;
mod fetching;
mod flags;
mod flat_bus;
mod guard;
mod inputs;
pub mod laws;
mod list_ports;
mod paged_bus;
mod ports;
mod registers;
mod stack;
mod stepping;
mod stores;
pub mod words;

pub use bus::Bus;
pub use cpu::Cpu;
pub use end::End;
pub use fetching::fetch;
pub use flags::{Flags, condition_holds};
pub use flat_bus::FlatBus;
pub use inputs::Inputs;
pub use list_ports::ListPorts;
pub use paged_bus::PagedBus;
pub use ports::{PortRefused, Ports};
pub use registers::Registers;
pub use stepping::step;

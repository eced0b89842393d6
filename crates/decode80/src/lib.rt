//! The instructions of the Intel 8080: the opcode table, both ways, their texts, and what each does.
//!
//! Proved: all 244 instructions, and the twelve unused bytes.
//!
//! | Item | What it is |
//! |---|---|
//! | [`decode`] | the instruction that bytes begin with, and its length |
//! | [`length_of`] | the length of the instructions with a first byte |
//! | [`encode`] | the bytes of an instruction, and its length |
//! | [`fetch`] | the instruction at an address of a [`Program`], and the address after it |
//! | [`Facts`] | how an instruction goes on, what it writes, and where it stores |
//! | [`Flow`], [`Writes`], [`AffectedFlags`], [`Storing`] | these facts |
//! | [`direct_bytes`] | the addresses that an instruction names to store to |
//! | [`write_text`] | the text of an instruction, as `MOV A,M` |
//! | [`spelling_laws`], [`fetch_reads_code_alone`] | what holds of all spellings and of what is fetched, as contracts |
//! | [`Instr`] | one of the 244 instructions, with its operands |
//! | [`Register`], [`Pair`], [`StackPair`], [`IndexPair`] | the registers and register pairs that an operand names |
//! | [`Condition`], [`Operation`], [`Operand`], [`Rotation`], [`Restart`] | what else an instruction names |
#![tactic(auto)]

mod condition;
mod decoding;
mod encoding;
mod facts;
mod fetching;
mod flow;
mod instr;
mod laws;
mod mnemonics;
mod operation;
mod pair;
mod register;
mod restart;
mod rotation;
mod storing;
mod table;
mod text;
mod writes;

pub use condition::Condition;
pub use decoding::{decode, length_of};
pub use encoding::encode;
pub use facts::Facts;
pub use fetching::{FetchFault, Fetched, Program, ahead, behind, direct_bytes, fetch};
pub use flow::Flow;
pub use instr::Instr;
pub use laws::{fetch_reads_code_alone, spelling_laws};
pub use operation::{Operand, Operation};
pub use pair::{IndexPair, Pair, StackPair};
pub use register::Register;
pub use restart::Restart;
pub use rotation::Rotation;
pub use storing::Storing;
pub use text::write_text;
pub use writes::{AffectedFlags, Writes};

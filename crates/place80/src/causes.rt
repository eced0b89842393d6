//! Where in a module the cause of a fault of LOCATE is: the first fixup that refers to an unresolved name, the segments that overlap or
//! are outside memory, the fixup of a high byte, the start. `specs/Causes.antt` defines the lines, `specs/Uses.antt` the fixups.

mod cause_text;
mod lines;
mod names;
mod uses;

pub use cause_text::append_cause;

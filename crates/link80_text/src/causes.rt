//! Where in its modules the cause of a fault of LINK is: the two modules that declare a name, the main programs, the fixup of a high
//! byte, the parts that are too long together. `specs/Causes.antt` defines the lines, `specs/HighBytes.antt` the fixup.

mod cause_text;
mod counting;
mod high_bytes;
mod lines;
mod parts;
mod starts;

pub use cause_text::{LinkSources, append_cause};

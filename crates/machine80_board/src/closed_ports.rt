//! Ports that give and take nothing.

ghost use Rattle.std.specs.Prelude.{◌≡◌};

use machine80::{PortRefused, Ports};

/// Ports at which nothing waits, and that refuse each output.
#[derive(Drop)]
pub(crate) struct ClosedPorts {
    /// How many outputs were refused.
    pub refused: u64,
}

impl Ports for ClosedPorts {
    ghost use Rattle.std.specs.Prelude.{[], Some};
    ghost use Rattle.machine80_board.specs.BoardRun.{no_inputs};

    ghost lists = { λ p. record { inputs = no_inputs; outputs = []; refused = p.refused; limit = Some 0; room = 0 } };

    /// Nothing.
    fn take(&mut self, _port: u8) -> Option<u8> {
        None
    }

    /// Counts the output as refused.
    fn give(&mut self, _port: u8, _byte: u8) -> Result<(), PortRefused> {
        self.refused += 1;
        Err(PortRefused)
    }

    /// How many outputs were refused.
    fn refusals(&self) -> u64 {
        self.refused
    }
}

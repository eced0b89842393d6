//! The ports of a processor.

ghost use Rattle.std.specs.Prelude.{◌≡◌, ◌+◌, ◌-◌, ◌<◌, ◌≤◌, ◌^◌, [], ◌∷◌, ◌++◌, Option, length, OnOk, OnErr};
ghost use Rattle.machine80.specs.Ports.{PortLists, next_input, without_next, has_room};

/// An output byte was refused: no room was left for it, or no memory.
#[derive(Clone, Copy, Debug, PartialEq, Eq)]
pub struct PortRefused;

/// The 256 input and output ports.
///
/// Ports are seen as a list of input bytes for each port, one list of all outputs in order, each with its port, a count of the
/// outputs that were refused, the greatest number of outputs that is ever kept, if there is one, and the number that there is
/// room for at least: while there are fewer, none is refused.
pub trait Ports {
    /// The lists and counts by which contracts see the ports.
    ghost lists: { Self → PortLists };

    /// Takes the next input byte of a port, and returns it; `None` if none waits.
    fn take(&mut self, port: u8) -> Option<u8>
        ensures byte { result ≡ next_input (lists self.old).inputs port }
        ensures taken { lists self.new ≡ record (lists self.old) { inputs = without_next (lists self.old).inputs port } }
        ensures whole { length (lists self.new).inputs ≡ 256 };

    /// Outputs a byte at a port, or refuses it; a refused byte is counted and changes nothing else. The count must be
    /// below the greatest `u64`.
    ///
    /// # Errors
    /// `PortRefused` if the limit is reached, or memory runs out; never while there is room.
    fn give(&mut self, port: u8, byte: u8) -> Result<(), PortRefused>
        requires { (lists self.old).refused < 2 ^ 64 - 1 }
        ensures kept { OnOk result (lists self.new ≡ record (lists self.old) {
          outputs = (lists self.old).outputs ++ (port, byte) ∷ [];
          room = (lists self.new).room;
        }) }
        ensures refused { OnErr result (lists self.new ≡ record (lists self.old) {
          refused = (lists self.old).refused + 1;
          room = (lists self.new).room;
        }) }
        ensures within { OnOk result (has_room (lists self.old).limit (lists self.new).outputs) }
        ensures full { OnErr result ((lists self.old).room ≤ length (lists self.old).outputs) }
        ensures room { (lists self.old).room ≤ (lists self.new).room };

    /// How many outputs were refused.
    fn refusals(&self) -> u64
        ensures { result ≡ (lists self.now).refused };
}

//! What a machine's numbers are. The function does nothing: its contract is the law.

ghost use Rattle.verify80_states.specs.Bytes.{BytesStayBytes, FetchedOperandsAreBounded, MemoryKeepsItsLength};

use decode80::spelling_laws;

/// A machine whose registers, memory and waiting inputs are bytes keeps them so in each step, its memory keeps its length, and what
/// it fetches has an operand in its range.
pub fn bytes_stay_bytes()
    ensures bytes { BytesStayBytes }
    ensures length { MemoryKeepsItsLength }
    ensures operands { FetchedOperandsAreBounded }
{
    spelling_laws();
}

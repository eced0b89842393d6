//! The laws of the text of a board, over the definitions alone.

ghost use Rattle.std.specs.Prelude.{◌≡◌, ◌≢◌, ℕ, List};
ghost use Rattle.board80.specs.Board.{IsBoard, Refuses, Spells};
ghost use Rattle.board80.specs.BoardText.{board_text};
ghost use Rattle.board80.specs.declared.fault.BoardFault.{BoardFault};
ghost use Rattle.board80.specs.declared.line.Line.{Line};

/// A law: the text of a board spells it, a text spells at most one board, and a text that is refused, unless for
/// `Memory`, spells none. So what is written is read as itself.
pub fn text_of_board_is_read_as_itself()
    ensures written { (lines : List Line) → IsBoard lines → Spells (board_text lines) lines }
    ensures one_reading { (text : List ℕ) (lines others : List Line) → Spells text lines → Spells text others → lines ≡ others }
    ensures not_refused { (text : List ℕ) (lines : List Line) (fault : BoardFault) →
        Spells text lines → Refuses text fault → fault ≡ BoardFault.Memory }
{}

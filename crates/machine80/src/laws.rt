//! What holds between the operations. Each function does nothing: its contract is the law.

ghost use Rattle.machine80.specs.ArithmeticLaws.{OneAdder, Comparison, DecimalAddition, StatusWordRoundTrip};
ghost use Rattle.machine80.specs.FactsLaws.{InstructionsKeepToFacts};

/// A law: ADD, ADC, SUB, SBB and CMP are one adder. A subtraction adds the complement of its operand, and its borrow
/// is the complemented carry.
pub fn one_adder()
    ensures { OneAdder }
{}

/// A law: after CMP, Z is set exactly if the accumulator equals the operand, and CY exactly if it is below the operand.
pub fn comparison()
    ensures { Comparison }
{}

/// A law: after ADD or ADC of two packed decimal bytes, DAA gives their packed decimal sum and its carry.
pub fn decimal_addition()
    ensures { DecimalAddition }
{}

/// A law: POP PSW after PUSH PSW gives back the accumulator and the five flags.
pub fn status_word_round_trip()
    ensures { StatusWordRoundTrip }
{}

/// A law: an instruction keeps to its facts ([`decode80::Facts`]). Its effect leaves unchanged the registers and the
/// flags that aren't among those that it writes, and it stores at exactly the bytes that it pushes, exchanges, names
/// or points to. What IN reads isn't part of this: the ports put it in A.
pub fn instructions_keep_to_facts()
    ensures { InstructionsKeepToFacts }
{}

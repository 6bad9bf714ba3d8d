//! What holds of the lines of an input: each function's contract is a law, and its body is empty.

ghost use Rattle.sj_lines.specs.Laws.{LinesJoin, NoneLeftOut, NumbersGoOn};

/// The lines of an input, one behind another, are the input.
pub fn lines_join()
    ensures { LinesJoin }
{}

/// The texts of an input by their numbers are those of its lines that have one, in order.
pub fn none_left_out()
    ensures { NoneLeftOut }
{}

/// The lines of two parts, one behind the other, are numbered as those of the first, and then those of
/// the second behind so many lines.
pub fn numbers_go_on()
    ensures { NumbersGoOn }
{}

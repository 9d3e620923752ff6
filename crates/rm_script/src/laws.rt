//! What holds of every script and text: each function is a law, and ensures something of the definitions alone.

ghost use Rattle.rm_script.specs.Laws.{FirstWrongIsOne, ReadingsAreOne, ScriptsEndAnywhere, TextsAreLines};

/// No bytes spell two scripts.
pub fn bytes_spell_one_script()
    ensures { ReadingsAreOne }
{}

/// A script has no first wrong line, and no bytes have two.
pub fn one_line_is_the_first_wrong()
    ensures { FirstWrongIsOne }
{}

/// A script may end after any of its lines.
pub fn a_script_may_end_after_any_line()
    ensures { ScriptsEndAnywhere }
{}

/// Each text is written with one LF, at its end, where its numbers are in their ranges.
pub fn each_text_is_one_line()
    ensures { TextsAreLines }
{}

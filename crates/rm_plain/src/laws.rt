//! What holds of every script and text: each function is a law, and ensures something of the definitions alone.

ghost use Rattle.rm_plain.specs.Laws.{ReadingsAreOne, TurnsReadingsAreOne, FirstWrongTurnsIsOne, TextsAreLines};

/// No bytes are the plain form of two scripts.
pub fn bytes_spell_one_script()
    ensures { ReadingsAreOne }
{}

/// No bytes are the form of `turns` of two scripts.
pub fn turns_spell_one_script()
    ensures { TurnsReadingsAreOne }
{}

/// A script in the form of `turns` has no first wrong line, and no bytes have two.
pub fn one_line_is_the_first_wrong()
    ensures { FirstWrongTurnsIsOne }
{}

/// A reply, and each other text, is written with one LF, at its end, where its numbers are in their ranges.
pub fn each_text_is_one_line()
    ensures { TextsAreLines }
{}

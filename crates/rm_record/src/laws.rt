//! What holds of all records: functions without code, whose contracts are laws.

ghost use Rattle.rm_record.specs.Laws.{SpellingsAreApart, SpellingsAreShort, CategoriesAreRecorded};

/// No record's spelling begins another's: bytes begin with the spelling of one record at most.
pub fn no_spelling_begins_another()
    ensures { SpellingsAreApart }
{}

/// Each category that a format has for a page is in the range of a record's.
pub fn categories_are_recorded()
    ensures { CategoriesAreRecorded }
{}

/// A record has at least [`crate::MIN_RECORD`] bytes and at most [`crate::MAX_RECORD`].
pub fn spellings_are_short()
    ensures { SpellingsAreShort }
{}

//! Laws of soundness. A law is a function without code: its contract is what is proved.

ghost use Rattle.rm_restart.specs.Laws.{DamagedIsNotSound, OnePlaceIsDamaged, UnmadeIsNotSound, FreshIsSound, OpenedIsSound, OpenedNeedsNoUndo};

/// A volume that is damaged is not sound: no restart of a sound one ends with [`rm_types::Fault::Damaged`].
pub fn what_is_damaged_is_not_sound()
    ensures { DamagedIsNotSound }
{}

/// A volume is damaged at one place alone: the one that [`restart`](crate::restart) names.
pub fn one_place_is_damaged()
    ensures { OnePlaceIsDamaged }
{}

/// A volume that is not made is not sound.
pub fn what_is_not_made_is_not_sound()
    ensures { UnmadeIsNotSound }
{}

/// A volume that was just made is sound, with no commits and no rows.
pub fn a_fresh_volume_is_sound()
    ensures { FreshIsSound }
{}

/// An opening of a sound volume reads the pages and the batches that the volume is of.
pub fn an_opened_volume_is_sound()
    ensures { OpenedIsSound }
{}

/// A volume that opens has nothing to undo.
pub fn an_opened_volume_needs_no_undo()
    ensures { OpenedNeedsNoUndo }
{}
